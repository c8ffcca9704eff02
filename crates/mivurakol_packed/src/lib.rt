#![tactic(auto)]
// The calls for a packed list under their C names.
ghost use Rattle.std.specs.Prelude.{◌≡◌, ◌/◌, ◌≤◌, length};
ghost use Rattle.reading.specs.Events.{event_numbers};
ghost use Rattle.packed.specs.Calls.{call, packing, unpacking, enough_bytes, enough_events};

use packed::PackedAnswer;

// Packs the whole records of the events, as `packed::pack`.
#[unsafe(no_mangle)]
pub extern "C" fn mivurakol_pack(events: &[u32], out: &mut [u8]) -> PackedAnswer
    ensures as_defined { call result out.new ≡ packing events.now out.old }
    ensures room_suffices { enough_bytes (length events.now / event_numbers) ≤ length out.old → result.code ≡ 13 → ⊥ }
{
    packed::pack(events, out)
}

// Unpacks a list, as `packed::unpack`.
#[unsafe(no_mangle)]
pub extern "C" fn mivurakol_unpack(bytes: &[u8], events: &mut [u32]) -> PackedAnswer
    ensures as_defined { call result events.new ≡ unpacking bytes.now events.old }
    ensures room_suffices { enough_events (length bytes.now) ≤ length events.old / event_numbers → result.code ≡ 13 → ⊥ }
{
    packed::unpack(bytes, events)
}
