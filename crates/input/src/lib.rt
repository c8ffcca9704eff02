#![tactic(auto)]
// What a program reads from its input, and the lines of a sheet, each with its newline.
ghost use Rattle.std.specs.Prelude.{◌≡◌, ◌<◌, ◌≤◌, length, take, IfOk, IfSome, option_copied};
ghost use Rattle.std.specs.Io.KnownBytes.{Consumes, IsAtEnd};
ghost use Rattle.input.specs.Inputs.{short_input};
ghost use Rattle.input.specs.Lines.{text_lines};
ghost use Rattle.input.specs.Rooms.{lent, sheet_rooms};

use reading::{EVENT_NUMBERS, Line, OPENER_NUMBERS, QUEUE_NUMBERS};
use std::io;
use std::io::Read;

// A program's input in bytes. Five functions ask that a sheet's text be no longer, in one clause
// each; a type of such texts would be made in three and taken apart in three.
pub const BYTES: usize = 1000;

// The rooms in which a program reads a sheet of so many bytes.
const EVENT_ROOM: usize = (BYTES + 1) * EVENT_NUMBERS;

const QUEUE_ROOM: usize = (2 * BYTES + 1) * QUEUE_NUMBERS;

const OPENER_ROOM: usize = BYTES * OPENER_NUMBERS;

const LABEL_ROOM: usize = 65536;

#[derive(Drop)]
pub struct SheetRooms {
    pub events: [u32; EVENT_ROOM],
    pub queue: [u32; QUEUE_ROOM],
    pub openers: [u32; OPENER_ROOM],
    pub labels: [u8; LABEL_ROOM],
}

impl SheetRooms {
    #[tactic(auto, unfolding(crate::specs::Rooms::sheet_rooms))]
    pub fn new() -> SheetRooms
        ensures { lent result ≡ sheet_rooms }
    {
        SheetRooms {
            events: [0; EVENT_ROOM],
            queue: [0; QUEUE_ROOM],
            openers: [0; OPENER_ROOM],
            labels: [0; LABEL_ROOM],
        }
    }
}

// The lines of a text, each with its newline, from the front of a room. A piece of a text has no
// place, so where it begins is counted.
#[tactic(auto, using(crate::proofs::Splitting::no_more), unfolding(crate::specs::Lines::text_lines))]
pub fn split_lines<'a>(text: &[u8], room: &'a mut [Line]) -> &'a [Line]
    requires { length text.now ≤ length room.old }
    ensures lines { result.now ≡ text_lines text.now }
    ensures few { length result.now ≤ length room.old }
{
    let mut n = 0;
    let mut from = 0;
    for line in text.split_inclusive(|b| *b == b'\n') {
        let end = from + line.len();
        room[n] = Line { start: from, end };
        n += 1;
        from = end;
    }
    &room[..n]
}

// Bytes from a reader, until the room is full or nothing is left, and how many there are. Each turn
// goes on by what the reader gave.
pub fn read_full<R: Read>(from: &mut R, room: &mut [u8]) -> io::Result<usize>
    ensures bound { IfOk result (λ n. n ≤ length room.new) }
    ensures bytes { IfOk result (λ n. Consumes (R.remaining from.old) (R.remaining from.new)
        (take n room.new)) }
    ensures end { IfOk result (λ n. n < length room.new → IsAtEnd (R.remaining from.new)) }
{
    let mut done = 0;
    while done < room.len() {
        let n = from.read(&mut room[done..])?;
        if n == 0 {
            break;
        }
        done += n;
    }
    Ok(done)
}

// An input that is shorter than a room, read whole into its front, or none if it is as long.
pub fn read_short<'a, R: Read>(from: &mut R, room: &'a mut [u8]) -> io::Result<Option<&'a [u8]>>
    ensures bound { IfOk result (λ o. IfSome o (λ text. length text.now < length room.old)) }
    ensures known { IfOk result (λ o. IfSome (R.remaining from.old)
        (λ input. option_copied o ≡ short_input (length room.old) input)) }
{
    let n = read_full(from, room)?;
    Ok((n < room.len()).then_some(&room[..n]))
}
