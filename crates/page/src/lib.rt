#![tactic(auto)]
// The program behind `./fragment`: a sheet of its input is read, and its fragment is written, or
// else why there is none.
ghost use Rattle.std.specs.Prelude.{◌≤◌, length, OnOk, IfSome, Some};
ghost use Rattle.printing.specs.Printed.{Writes};
ghost use Rattle.page.specs.Paged.{page_within, page_text, paged};
ghost use Rattle.page.specs.Refused.{refusal_text};

use input::{BYTES, SheetRooms};
use output::OUTPUT_ROOM;
use printing::Ends;
use reading::Line;
use std::io::{Read, Write};
use std::{fmt, io};
use verdict::LINKED;

// So much output room always suffices.
const FRAGMENT_ROOM: usize = 5 * BYTES + 29 * (BYTES + 1);

// A refusal by the number of its answer, as C has it. It says in plain words what it means.
#[derive(Clone, Copy)]
struct Refusal(u32);

impl fmt::Display for Refusal {
    ghost output = { λ r. Some (refusal_text r.0) };

    fn fmt<W: fmt::Write>(&self, f: &mut fmt::Formatter<W>) -> fmt::Result {
        match self.0 {
            LINKED => f.write_str(
                "a link, an image, an autolink or a footnote reference begins there, \
                 and a fragment has none of them",
            ),
            OUTPUT_ROOM => f.write_str("the fragment is longer than the output room"),
            code => printing::Refusal(code).fmt(f),
        }
    }
}

// The fragment of a sheet, in reading 0, by way of an output room. The definition has the two
// steps: any room (`page_within`), and the program's (`page_text`).
fn write_page<W: Write, E: Write>(
    ends: &mut Ends<W, E>,
    text: &[u8],
    out: &mut [u8],
) -> io::Result<()>
    requires { length text.now ≤ 1000 }
    ensures { OnOk result (Writes W.contents E.contents ends.old ends.new
        (page_within text.now out.old)) }
{
    let mut room = [Line { start: 0, end: 0 }; BYTES];
    let lines = input::split_lines(text, &mut room);
    let mut rooms = SheetRooms::new();
    let answer = fragment::write(
        text,
        lines,
        0,
        &mut rooms.events,
        &mut rooms.queue,
        &mut rooms.openers,
        &mut rooms.labels,
        out,
    );
    printing::write_answer(
        ends,
        answer.code,
        answer.place as u64,
        &Refusal(answer.code),
        printing::front(out, answer.length as usize),
    )
}

// By way of the program's room.
#[tactic(auto, unfolding(crate::specs::Paged::page_text))]
fn page<W: Write, E: Write>(ends: &mut Ends<W, E>, text: &[u8]) -> io::Result<()>
    requires { length text.now ≤ 1000 }
    ensures { OnOk result (Writes W.contents E.contents ends.old ends.new (page_text text.now)) }
{
    let mut out = [0; FRAGMENT_ROOM];
    write_page(ends, text, &mut out)
}

// At most 1,000 bytes of input are a sheet. `send_input` and `receive_input` are of the same shape,
// and so is `show_input`, which has one writer: they share a room and two arms. One function of
// them would take the writing as a closure, ask that it may be called with every text that fits the
// room, and promise what that call leaves of both ends, which is more to say than the two arms.
#[tactic(auto, unfolding(printing::specs::Printed::Writes))]
pub fn page_input<R: Read, W: Write, E: Write>(
    from: &mut R,
    ends: &mut Ends<W, E>,
) -> io::Result<()>
    ensures { IfSome (R.remaining from.old) (λ input. OnOk result
        (Writes W.contents E.contents ends.old ends.new (paged input))) }
{
    let mut room = [0; BYTES + 1];
    match input::read_short(from, &mut room)? {
        Some(text) => page(ends, text),
        None => printing::write_over(&mut ends.errors, BYTES),
    }
}
