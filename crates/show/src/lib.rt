#![tactic(auto)]
// The program behind `./sheet`: a sheet of its input is read, and its events and the answer are
// printed.
ghost use Rattle.std.specs.Prelude.{◌≤◌, length, OnOk, IfSome};
ghost use Rattle.std.specs.Io.KnownBytes.{Appends};
ghost use Rattle.show.specs.Shown.{answer_line, sheet_text, shown};

use input::{BYTES, SheetRooms};
use reading::{Answer, EVENT_NUMBERS, Line};
use std::io;
use std::io::{Read, Write};

// The answer, on one line.
#[tactic(auto, unfolding(crate::specs::Shown::answer_line))]
fn write_answer<W: Write>(to: &mut W, a: Answer) -> io::Result<()>
    ensures { OnOk result (Appends (W.contents to.old) (W.contents to.new) (answer_line a)) }
{
    let Answer {
        code,
        place,
        events,
        labels,
        looks,
    } = a;
    write!(to, "{code} {place} {events} ")?;
    writeln!(to, "{labels} {looks}")
}

// The events of a sheet and the answer, in reading 0.
#[tactic(auto, unfolding(crate::specs::Shown::sheet_text))]
fn show<W: Write>(to: &mut W, text: &[u8]) -> io::Result<()>
    requires { length text.now ≤ 1000 }
    ensures { OnOk result (Appends (W.contents to.old) (W.contents to.new) (sheet_text text.now)) }
{
    let mut room = [Line { start: 0, end: 0 }; BYTES];
    let lines = input::split_lines(text, &mut room);
    let mut rooms = SheetRooms::new();
    let answer = records::read(
        text,
        lines,
        0,
        &mut rooms.events,
        &mut rooms.queue,
        &mut rooms.openers,
        &mut rooms.labels,
    );
    let numbers = answer.events as usize * EVENT_NUMBERS;
    printing::write_events(to, printing::front(&rooms.events, numbers))?;
    write_answer(to, answer)
}

// At most 1,000 bytes of input are a sheet. `page::page_input` says why it is a function of its
// own.
pub fn show_input<R: Read, W: Write>(from: &mut R, to: &mut W) -> io::Result<()>
    ensures { IfSome (R.remaining from.old) (λ input. OnOk result
        (Appends (W.contents to.old) (W.contents to.new) (shown input))) }
{
    let mut room = [0; BYTES + 1];
    match input::read_short(from, &mut room)? {
        Some(text) => show(to, text),
        None => printing::write_over(to, BYTES),
    }
}
