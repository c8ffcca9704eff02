#![tactic(auto)]
// The program behind `./unpack`: a packed list of its input is read, and its events and the answer
// are printed.
ghost use Rattle.std.specs.Prelude.{◌/◌, ◌≤◌, length, OnOk, IfOk, IfSome};
ghost use Rattle.std.specs.Io.KnownBytes.{Appends};
ghost use Rattle.printing.specs.Printed.{Writes};
ghost use Rattle.reading.specs.Events.{event_numbers};
ghost use Rattle.receive.specs.Received.{answer_line, unpacked_text, list_within, list_text, received};

use packed::{PackedAnswer, UnpackError};
use printing::Ends;
use reading::EVENT_NUMBERS;
use std::io;
use std::io::{Read, Write};

// The program's input in bytes, and its room: so many events are the most that so many bytes hold.
const BYTES: usize = 65536;

const EVENT_ROOM: usize = BYTES / 5 * EVENT_NUMBERS;

// The answer, on a line.
fn write_answer<W: Write>(to: &mut W, a: PackedAnswer) -> io::Result<()>
    ensures { OnOk result (Appends (W.contents to.old) (W.contents to.new) (answer_line a)) }
{
    let PackedAnswer { code, place, count } = a;
    writeln!(to, "{code} {place} {count}")
}

// What is unpacked: the events and the answer, or the answer, and why there are none.
#[tactic(auto, unfolding(printing::specs::Printed::Writes))]
fn write_unpacked<W: Write, E: Write>(
    ends: &mut Ends<W, E>,
    unpacked: Result<usize, UnpackError>,
    events: &[u32],
) -> io::Result<()>
    requires { IfOk unpacked (λ n. n ≤ length events.now / event_numbers) }
    ensures { OnOk result (Writes W.contents E.contents ends.old ends.new
        (unpacked_text unpacked events.now)) }
{
    let answer = PackedAnswer::from(unpacked);
    match unpacked {
        Ok(n) => {
            printing::write_events(&mut ends.out, &events[..n * EVENT_NUMBERS])?;
            write_answer(&mut ends.out, answer)
        }
        Err(e) => {
            write_answer(&mut ends.out, answer)?;
            printing::write_refused(&mut ends.errors, answer.code, answer.place, &e)
        }
    }
}

// The events of a list, by way of an event room. The definition has the two steps: any room
// (`list_within`), and the program's (`list_text`).
fn write_list<W: Write, E: Write>(
    ends: &mut Ends<W, E>,
    bytes: &[u8],
    events: &mut [u32],
) -> io::Result<()>
    ensures { OnOk result (Writes W.contents E.contents ends.old ends.new
        (list_within bytes.now events.old)) }
{
    let unpacked = packed::restore(bytes, events);
    write_unpacked(ends, unpacked, events)
}

// By way of the program's room.
#[tactic(auto, unfolding(crate::specs::Received::list_text))]
fn receive<W: Write, E: Write>(ends: &mut Ends<W, E>, bytes: &[u8]) -> io::Result<()>
    ensures { OnOk result (Writes W.contents E.contents ends.old ends.new (list_text bytes.now)) }
{
    let mut events = [0; EVENT_ROOM];
    write_list(ends, bytes, &mut events)
}

// At most 65,536 bytes of input are a list. `page::page_input` says why it is a function of its
// own.
#[tactic(auto, unfolding(printing::specs::Printed::Writes))]
pub fn receive_input<R: Read, W: Write, E: Write>(
    from: &mut R,
    ends: &mut Ends<W, E>,
) -> io::Result<()>
    ensures { IfSome (R.remaining from.old) (λ input. OnOk result
        (Writes W.contents E.contents ends.old ends.new (received input))) }
{
    let mut room = [0; BYTES + 1];
    match input::read_short(from, &mut room)? {
        Some(bytes) => receive(ends, bytes),
        None => printing::write_over(&mut ends.errors, BYTES),
    }
}
