#![tactic(auto)]
// What the programs print: numbers and events, a line each, and why a sheet is refused, in plain
// words.
ghost use Rattle.std.specs.Prelude.{◌≡◌, ◌≢◌, [], take, OnOk, IfSome, Some};
ghost use Rattle.std.specs.Io.KnownBytes.{Appends};
ghost use Rattle.printing.specs.Printed.{numbers_line, events_text, reader_refusal, refused_line, over_line};
ghost use Rattle.printing.specs.Printed.{Writes, on_out, answered};

use reading::{EVENT_NUMBERS, code};
use std::io::Write;
use std::{fmt, io};

// Where a program writes: its output, and where it tells its errors.
#[derive(Drop)]
pub struct Ends<W, E> {
    pub out: W,
    pub errors: E,
}

// Numbers on one line.
pub fn write_line<W: Write>(to: &mut W, numbers: &[u32]) -> io::Result<()>
    ensures { OnOk result (Appends (W.contents to.old) (W.contents to.new)
        (numbers_line numbers.now)) }
{
    for (i, number) in numbers.iter().enumerate() {
        let blank = if 0 < i { " " } else { "" };
        write!(to, "{blank}{number}")?;
    }
    to.write_all(b"\n")
}

// So much from the front of a room, and never more than there is: a count is an answer's, which a
// caller lends beside the room.
pub fn front<T>(room: &[T], count: usize) -> &[T]
    ensures { result.now ≡ take count room.now }
{
    &room[..count.min(room.len())]
}

// Events, the numbers of each on a line.
pub fn write_events<W: Write>(to: &mut W, events: &[u32]) -> io::Result<()>
    ensures { OnOk result (Appends (W.contents to.old) (W.contents to.new)
        (events_text events.now)) }
{
    for event in events.chunks_exact(EVENT_NUMBERS) {
        write_line(to, event)?;
    }
    Ok(())
}

// A refusal of the reader by the number of its answer, as C has it. It says in plain words what it
// means.
#[derive(Clone, Copy)]
pub struct Refusal(pub u32);

impl fmt::Display for Refusal {
    ghost output = { λ r. Some (reader_refusal r.0) };

    fn fmt<W: fmt::Write>(&self, f: &mut fmt::Formatter<W>) -> fmt::Result {
        match self.0 {
            code::BRACE => f.write_str("an attribute block stands there outside verbatim"),
            code::LABEL_ROOM => {
                f.write_str("the labels of its links are longer than the label room")
            }
            _ => f.write_str("its lines or the program's rooms are not those of a sheet"),
        }
    }
}

// Code and place of a refusal, and what it means.
pub fn write_refused<W: Write, D: fmt::Display>(
    to: &mut W,
    code: u32,
    place: u64,
    meaning: &D,
) -> io::Result<()>
    ensures { OnOk result (IfSome (D.output meaning.now)
        (λ text. Appends (W.contents to.old) (W.contents to.new) (refused_line code place text))) }
{
    writeln!(to, "refused {code} at {place}: {meaning}")
}

// What is answered: bytes, or why there are none. What the output gets is said whatever is known of
// how the meaning prints.
#[tactic(auto, unfolding(crate::specs::Printed::Writes))]
pub fn write_answer<W: Write, E: Write, D: fmt::Display>(
    ends: &mut Ends<W, E>,
    code: u32,
    place: u64,
    meaning: &D,
    bytes: &[u8],
) -> io::Result<()>
    ensures given { code ≡ 0 → OnOk result (Writes W.contents E.contents ends.old ends.new
        (on_out bytes.now)) }
    ensures kept { code ≢ 0 → OnOk result (Appends (W.contents ends.old.out) (W.contents ends.new.out) []) }
    ensures as_defined { OnOk result (IfSome (D.output meaning.now) (λ text. Writes W.contents
        E.contents ends.old ends.new (answered code place text bytes.now))) }
{
    if code == 0 {
        ends.out.write_all(bytes)
    } else {
        write_refused(&mut ends.errors, code, place, meaning)
    }
}

// That an input is over a limit.
pub fn write_over<W: Write>(to: &mut W, limit: usize) -> io::Result<()>
    ensures { OnOk result (Appends (W.contents to.old) (W.contents to.new) (over_line limit)) }
{
    writeln!(to, "input over {limit} bytes")
}
