#![tactic(auto)]
// Stored answers of the Rust, as decimal numbers with one byte behind each: what the programs that
// replay them share.
ghost use Rattle.std.specs.Prelude.{◌≡◌, ◌+◌, ◌%◌, min, length, OnOk, Some};
ghost use Rattle.std.specs.List.{AllZip};
ghost use Rattle.std.specs.Fn.{FnReturnsAt};
ghost use Rattle.std.specs.Io.KnownBytes.{Appends};
ghost use Rattle.stored.specs.Numbers.{number_at, numbers, behind};
ghost use Rattle.stored.specs.Reports.{report_text, report_line, Reported};

use std::io::{Read, Write};
use std::{fmt, io};

// A sample, and the place from which on it is read, as the definition has it.
#[derive(Clone, Copy)]
pub struct Sample<'a> {
    pub bytes: &'a [u8],
    pub at: usize,
}

impl<'a> Sample<'a> {
    // The number at the place, which moves behind it. Of more than 19 digits the last 19 count. The
    // loop moves the sample's own place.
    #[tactic(auto, using(crate::proofs::Filling::reading_steps), unfolding(crate::specs::Numbers::number_at))]
    pub fn number(&mut self) -> u64
        ensures value { result ≡ (number_at self.old.bytes.now self.old.at).value }
        ensures next { self.new.at ≡ (number_at self.old.bytes.now self.old.at).next }
        ensures bytes { self.new.bytes ≡ self.old.bytes }
    {
        let mut value = 0;
        while let Some(&b) = self.bytes.get(self.at) {
            self.at += 1;
            if !b.is_ascii_digit() {
                break;
            }
            value = value % 1000000000000000000 * 10 + u64::from(b % 16);
        }
        value
    }

    // A number, and never more than a bound.
    pub fn at_most(&mut self, most: usize) -> usize
        ensures value { result ≡ min (number_at self.old.bytes.now self.old.at).value most }
        ensures next { self.new.at ≡ (number_at self.old.bytes.now self.old.at).next }
        ensures bytes { self.new.bytes ≡ self.old.bytes }
    {
        self.number().min(most as u64) as usize
    }

    // A number, counted round behind a bound: one more than the bound is 0.
    pub fn round(&mut self, most: usize) -> usize
        ensures value { result ≡ (number_at self.old.bytes.now self.old.at).value % (most + 1) }
        ensures next { self.new.at ≡ (number_at self.old.bytes.now self.old.at).next }
        ensures bytes { self.new.bytes ≡ self.old.bytes }
    {
        let n = self.number();
        let most = most as u64;
        (if n <= most { n } else { n % (most + 1) }) as usize
    }

    // Fills a room, each element made of one number.
    pub fn fill<T: Copy, F: Fn(u64) -> T>(&mut self, room: &mut [T], element: F)
        requires { F.IsAlwaysCallable element }
        ensures elements { AllZip (F.post element)
            (numbers (length room.old) self.old.bytes.now self.old.at) room.new }
        ensures next { self.new.at ≡ behind (length room.old) self.old.bytes.now self.old.at }
        ensures bytes { self.new.bytes ≡ self.old.bytes }
    {
        for x in room {
            *x = element(self.number());
        }
    }

    // A list in the front of a room. The sample has how many elements, and the number of each; how
    // many is counted round behind what the room holds.
    pub fn list<'b, T: Copy, F: Fn(u64) -> T>(&mut self, room: &'b mut [T], element: F) -> &'b [T]
        requires { F.IsAlwaysCallable element }
        ensures elements { let count = number_at self.old.bytes.now self.old.at in
            AllZip (F.post element) (numbers (count.value % (length room.old + 1))
            self.old.bytes.now count.next) result.now }
        ensures next { let count = number_at self.old.bytes.now self.old.at in
            self.new.at ≡ behind (count.value % (length room.old + 1)) self.old.bytes.now count.next }
        ensures bytes { self.new.bytes ≡ self.old.bytes }
    {
        let n = self.round(room.len());
        let list = &mut room[..n];
        self.fill(list, element);
        list
    }
}

// A byte of a sample, by its number.
pub fn byte(n: u64) -> u8
    ensures { result ≡ n % 256 }
{
    (n % 256) as u8
}

// A place of a sample, by its number.
pub fn place(n: u64) -> usize
    ensures { result ≡ n }
{
    n as usize
}

// How many cases there were, and how many differ.
#[derive(Clone, Copy, Debug, PartialEq, Eq)]
pub struct Report {
    pub cases: u64,
    pub differ: u64,
}

impl fmt::Display for Report {
    ghost output = { λ r. Some (report_text r) };

    fn fmt<W: fmt::Write>(&self, f: &mut fmt::Formatter<W>) -> fmt::Result {
        write!(f, "{} cases, {} differ", self.cases, self.differ)
    }
}

pub fn write_report<W: Write>(to: &mut W, r: Report) -> io::Result<()>
    ensures { OnOk result (Appends (W.contents to.old) (W.contents to.new) (report_line r)) }
{
    writeln!(to, "{r}")
}

// The report of what an input holds, of which no more than the room is read. What is replayed is
// what was read, and the report that is written is the answer.
pub fn replay_input<R: Read, W: Write, F: Fn(&[u8]) -> Report>(
    from: &mut R,
    to: &mut W,
    room: &mut [u8],
    replay: F,
) -> io::Result<()>
    requires { F.IsAlwaysCallable replay }
    ensures { OnOk result (Reported (FnReturnsAt F.Fn replay) (length room.old) (R.remaining from.old)
        (R.remaining from.new) (W.contents to.old) (W.contents to.new)) }
{
    let n = input::read_full(from, room)?;
    write_report(to, replay(&room[..n]))
}
