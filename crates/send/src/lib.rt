#![tactic(auto)]
// The program behind `./pack`: a sheet of its input is read, and the list of its events is written,
// packed, or else why there is none.
ghost use Rattle.std.specs.Prelude.{◌≡◌, ◌/◌, ◌≤◌, length, OnOk, IfSome};
ghost use Rattle.printing.specs.Printed.{Writes};
ghost use Rattle.reading.specs.Events.{event_numbers};
ghost use Rattle.reading.specs.Questions.{outcome};
ghost use Rattle.packed.specs.Calls.{call, enough_bytes};
ghost use Rattle.input.specs.Rooms.{lent};
ghost use Rattle.send.specs.Sent.{sent, packed_within, packed_text, sent_text};

use input::{BYTES, SheetRooms};
use packed::PackedAnswer;
use printing::{Ends, Refusal};
use reading::{EVENT_NUMBERS, Line};
use std::io;
use std::io::{Read, Write};

// So many bytes hold any list that the event room holds.
const LIST_ROOM: usize = 32 * (BYTES + 1) + 5;

// The packed list of some lines, in reading 0. It is refused as the reader does, and for nothing
// else. The calls answer numbers, for the C interface.
fn pack_lines(text: &[u8], lines: &[Line], rooms: &mut SheetRooms, out: &mut [u8]) -> PackedAnswer
    requires { enough_bytes (length rooms.old.events / event_numbers) ≤ length out.old }
    ensures as_defined { call result out.new ≡ sent (outcome text.now lines.now 0
        (lent rooms.old)) out.old }
    ensures code_value { result.code ≡ (outcome text.now lines.now 0 (lent rooms.old)).answer.code }
{
    let answer = records::read(
        text,
        lines,
        0,
        &mut rooms.events,
        &mut rooms.queue,
        &mut rooms.openers,
        &mut rooms.labels,
    );
    if answer.code != 0 {
        return PackedAnswer::refusal(answer.code, answer.place as usize);
    }
    let numbers = answer.events as usize * EVENT_NUMBERS;
    packed::pack(printing::front(&rooms.events, numbers), out)
}

// The packed list of a sheet, in reading 0, by way of an output room. The definition has the two
// steps: any room (`packed_within`), and the program's (`packed_text`).
fn write_packed<W: Write, E: Write>(
    ends: &mut Ends<W, E>,
    text: &[u8],
    out: &mut [u8],
) -> io::Result<()>
    requires short { length text.now ≤ 1000 }
    requires room { 32037 ≤ length out.old }
    ensures { OnOk result (Writes W.contents E.contents ends.old ends.new
        (packed_within text.now out.old)) }
{
    let mut room = [Line { start: 0, end: 0 }; BYTES];
    let lines = input::split_lines(text, &mut room);
    let mut rooms = SheetRooms::new();
    let answer = pack_lines(text, lines, &mut rooms, out);
    printing::write_answer(
        ends,
        answer.code,
        answer.place,
        &Refusal(answer.code),
        printing::front(out, answer.count as usize),
    )
}

// By way of the program's room.
#[tactic(auto, unfolding(crate::specs::Sent::packed_text))]
fn send<W: Write, E: Write>(ends: &mut Ends<W, E>, text: &[u8]) -> io::Result<()>
    requires { length text.now ≤ 1000 }
    ensures { OnOk result (Writes W.contents E.contents ends.old ends.new (packed_text text.now)) }
{
    let mut out = [0; LIST_ROOM];
    write_packed(ends, text, &mut out)
}

// At most 1,000 bytes of input are a sheet. `page::page_input` says why it is a function of its
// own.
#[tactic(auto, unfolding(printing::specs::Printed::Writes))]
pub fn send_input<R: Read, W: Write, E: Write>(
    from: &mut R,
    ends: &mut Ends<W, E>,
) -> io::Result<()>
    ensures { IfSome (R.remaining from.old) (λ input. OnOk result
        (Writes W.contents E.contents ends.old ends.new (sent_text input))) }
{
    let mut room = [0; BYTES + 1];
    match input::read_short(from, &mut room)? {
        Some(text) => send(ends, text),
        None => printing::write_over(&mut ends.errors, BYTES),
    }
}
