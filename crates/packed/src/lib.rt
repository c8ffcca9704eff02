#![tactic(auto)]
// A packed list of events: the calls that write one and read one.
ghost use Rattle.std.specs.Prelude.{◌≡◌, ◌*◌, ◌/◌, ◌≤◌, length, IfOk, Some};
ghost use Rattle.reading.specs.Events.{event_numbers};
ghost use Rattle.packed.specs.declared.UnpackError.TheVariants.{Faulty};
ghost use Rattle.packed.specs.Calls.{call, refusal as refusal_of, acceptance as acceptance_of, packing, unpacking, written, told};
ghost use Rattle.packed.specs.Calls.{restoring, settled, restored, meaning, enough_bytes, enough_events};

use encoder::PutError;
use packing::FaultAt;
use reading::EVENT_NUMBERS;
use std::fmt;

// The refusals, in numbers for C: a fault, and room that is too short.
pub const FAULTY: u32 = 12;

pub const PACKED_ROOM: u32 = 13;

// The answer: code, place, and how many bytes or events were written.
#[repr(C)]
#[derive(Clone, Copy)]
pub struct PackedAnswer {
    pub code: u32,
    pub place: u64,
    pub count: u64,
}

// Why a list is not unpacked: a fault, or more events than the room holds.
#[derive(Clone, Copy, Debug, PartialEq, Eq)]
pub enum UnpackError {
    Faulty(FaultAt),
    Short,
}

impl fmt::Display for UnpackError {
    ghost output = { λ e. Some (meaning e) };

    fn fmt<W: fmt::Write>(&self, f: &mut fmt::Formatter<W>) -> fmt::Result {
        match self {
            UnpackError::Faulty(at) => at.fault.fmt(f),
            UnpackError::Short => f.write_str("the events are more than the event room holds"),
        }
    }
}

impl From<FaultAt> for UnpackError {
    ghost from_gives = { λ f e. e ≡ Faulty f };

    fn from(f: FaultAt) -> UnpackError {
        UnpackError::Faulty(f)
    }
}

impl PackedAnswer {
    // Nothing is written.
    pub fn refusal(code: u32, place: usize) -> PackedAnswer
        ensures { result ≡ refusal_of code place }
    {
        PackedAnswer {
            code,
            place: place as u64,
            count: 0,
        }
    }

    fn acceptance(count: usize) -> PackedAnswer
        ensures { result ≡ acceptance_of count }
    {
        PackedAnswer {
            code: 0,
            place: 0,
            count: count as u64,
        }
    }
}

// The answers of the two calls, a row for each case.
impl From<Result<usize, PutError>> for PackedAnswer {
    ghost from_gives = { λ r a. a ≡ written r };

    #[tactic(auto, unfolding(crate::specs::Calls::written))]
    fn from(r: Result<usize, PutError>) -> PackedAnswer {
        match r {
            Ok(n) => PackedAnswer::acceptance(n),
            Err(PutError::Flaw(i)) => PackedAnswer::refusal(FAULTY, i),
            Err(PutError::Full) => PackedAnswer::refusal(PACKED_ROOM, 0),
        }
    }
}

impl From<Result<usize, UnpackError>> for PackedAnswer {
    ghost from_gives = { λ r a. a ≡ told r };

    #[tactic(auto, unfolding(crate::specs::Calls::told))]
    fn from(r: Result<usize, UnpackError>) -> PackedAnswer {
        match r {
            Ok(n) => PackedAnswer::acceptance(n),
            Err(UnpackError::Faulty(f)) => PackedAnswer::refusal(FAULTY, f.place),
            Err(UnpackError::Short) => PackedAnswer::refusal(PACKED_ROOM, 0),
        }
    }
}

// Packs the whole records of the events.
pub fn pack(events: &[u32], out: &mut [u8]) -> PackedAnswer
    ensures as_defined { call result out.new ≡ packing events.now out.old }
    ensures room_suffices { enough_bytes (length events.now / event_numbers) ≤ length out.old → result.code ≡ 13 → ⊥ }
{
    let packed = encoder::put_list(events, out);
    out[packed.unwrap_or(0)..].fill(0);
    PackedAnswer::from(packed)
}

// The events of a list, if the room holds them.
fn events_of(bytes: &[u8], room: &mut [u32]) -> Result<usize, UnpackError>
    ensures as_defined { settled result room.new ≡ restored bytes.now room.old }
    ensures count_in_bounds { IfOk result (λ n. n ≤ length room.old / event_numbers) }
{
    let n = decoder::list(bytes, room)?;
    if n > room.len() / EVENT_NUMBERS {
        return Err(UnpackError::Short);
    }
    Ok(n)
}

// Unpacks a list, and says which fault it has. It hands out how many events there are, as the
// answer has them.
pub fn restore(bytes: &[u8], events: &mut [u32]) -> Result<usize, UnpackError>
    ensures as_defined { restoring result events.new ≡ restored bytes.now events.old }
    ensures count_in_bounds { IfOk result (λ n. n ≤ length events.old / event_numbers) }
{
    let unpacked = events_of(bytes, events);
    let records = unpacked.unwrap_or(0);
    events[records * EVENT_NUMBERS..].fill(0);
    unpacked
}

// Unpacks a list.
pub fn unpack(bytes: &[u8], events: &mut [u32]) -> PackedAnswer
    ensures as_defined { call result events.new ≡ unpacking bytes.now events.old }
    ensures room_suffices { enough_events (length bytes.now) ≤ length events.old / event_numbers → result.code ≡ 13 → ⊥ }
{
    PackedAnswer::from(restore(bytes, events))
}
