#![tactic(auto)]
// Replays the stored sheets: each is read in rooms of the stored sizes, and the answer and every
// number of every room are compared. Prints how many cases there were and how many differ.
// A case is a line of numbers: the reading; how many bytes, starts and ends, each with these behind
// it; the sizes of the rooms for events, queue, openers and labels; the answer; and, of a sheet
// that is read, the events and the label bytes.
ghost use Rattle.std.specs.Prelude.{◌≡◌, ℕ, ◌==◌, map};
ghost use Rattle.std.specs.List.{list_all};
ghost use Rattle.replay_sheets.specs.Rooms.{same_as, holds};

use reading::{Answer, EVENT_NUMBERS, code};
use std::io;
use stored::{Report, Sample};

// What stands in the rooms before the call.
const OLD: u32 = 2779096485;

const OLD_BYTE: u8 = 165;

// What a room holds. Of `Into<u64>` is known which numbers it may give, and the definitions take a
// function (`map`).
trait Number: Copy {
    ghost value: { Self → ℕ };

    fn value(self) -> u64
        ensures { result ≡ value self };
}

impl Number for u8 {
    ghost value = { λ n. n };

    fn value(self) -> u64 {
        u64::from(self)
    }
}

impl Number for u32 {
    ghost value = { λ n. n };

    fn value(self) -> u64 {
        u64::from(self)
    }
}

// Numbers beside the stored ones.
#[tactic(auto, using(crate::proofs::Beside::beside_steps))]
fn same<T: Number>(sample: &mut Sample, part: &[T]) -> bool
    ensures same { result ≡ (same_as (map T.value part.now)
        sample.old.bytes.now sample.old.at).same }
    ensures next { sample.new.at ≡ (same_as (map T.value part.now)
        sample.old.bytes.now sample.old.at).next }
    ensures bytes { sample.new.bytes ≡ sample.old.bytes }
{
    let mut same = true;
    for n in part {
        same &= n.value() == sample.number();
    }
    same
}

// All are one number.
fn all_are<T: Number>(part: &[T], x: u64) -> bool
    ensures { result ≡ list_all (λ n. T.value n == x) part.now }
{
    part.iter().all(|n| n.value() == x)
}

// So many stored numbers from the front of a room, and zero behind them.
#[tactic(auto, using(crate::proofs::Beside::held_steps))]
fn held<T: Number>(sample: &mut Sample, count: usize, room: &[T]) -> bool
    ensures same { result ≡ (holds count (map T.value room.now)
        sample.old.bytes.now sample.old.at).same }
    ensures next { sample.new.at ≡ (holds count (map T.value room.now)
        sample.old.bytes.now sample.old.at).next }
    ensures bytes { sample.new.bytes ≡ sample.old.bytes }
{
    match room.split_at_checked(count) {
        Some((front, rest)) => all_are(rest, 0) & same(sample, front),
        None => false,
    }
}

// The four rooms, or a part of each.
#[derive(Clone, Copy)]
struct Rooms<'a> {
    events: &'a [u32],
    queue: &'a [u32],
    openers: &'a [u32],
    labels: &'a [u8],
}

impl Rooms<'_> {
    // All hold one number, and the labels one byte.
    fn are(self, x: u32, byte: u8) -> bool {
        all_are(self.events, x.value())
            & all_are(self.queue, x.value())
            & all_are(self.openers, x.value())
            & all_are(self.labels, byte.value())
    }

    // They are as a stored answer leaves them: 1 to 6 wrote nothing, 7 to 9 leave zero. By the
    // order of the numbers, as the stored answer has one.
    fn are_left_by(self, answer: Answer, sample: &mut Sample) -> bool {
        if code::BRACE <= answer.code {
            self.are(0, 0)
        } else if 0 < answer.code {
            self.are(OLD, OLD_BYTE)
        } else {
            held(sample, answer.events as usize * EVENT_NUMBERS, self.events)
                & held(sample, answer.labels as usize, self.labels)
                & held(sample, 0, self.queue)
                & held(sample, 0, self.openers)
        }
    }
}

// A number of 32 bits. `stored::byte` has another type and bound: a cast must lose no bits.
fn small(n: u64) -> u32 {
    (n % 4294967296) as u32
}

fn stored_answer(sample: &mut Sample) -> Answer {
    Answer {
        code: small(sample.number()),
        place: small(sample.number()),
        events: small(sample.number()),
        labels: small(sample.number()),
        looks: sample.number(),
    }
}

// The rest of a case, from the sizes on. Of each room so much is lent as they say, and what lies
// behind stays as it was.
fn replay_call(
    sample: &mut Sample,
    reading: u32,
    text: &[u8],
    starts: &[usize],
    ends: &[usize],
) -> bool {
    let mut events = [OLD; 9608];
    let mut queue = [OLD; 19208];
    let mut openers = [OLD; 4800];
    let mut labels = [OLD_BYTE; 1200];
    let e = sample.at_most(events.len());
    let q = sample.at_most(queue.len());
    let o = sample.at_most(openers.len());
    let l = sample.at_most(labels.len());
    let ours = reader::read(
        text,
        starts,
        ends,
        reading,
        &mut events[..e],
        &mut queue[..q],
        &mut openers[..o],
        &mut labels[..l],
    );
    let theirs = stored_answer(sample);
    let lent = Rooms {
        events: &events[..e],
        queue: &queue[..q],
        openers: &openers[..o],
        labels: &labels[..l],
    };
    let behind = Rooms {
        events: &events[e..],
        queue: &queue[q..],
        openers: &openers[o..],
        labels: &labels[l..],
    };
    lent.are_left_by(theirs, sample) & behind.are(OLD, OLD_BYTE) & (ours == theirs)
}

// A case, and whether nothing is left of its line.
fn replay_case(line: &[u8]) -> bool {
    let mut sample = Sample { bytes: line, at: 0 };
    let mut text = [0u8; 1200];
    let mut starts = [0usize; 64];
    let mut ends = [0usize; 64];
    let reading = small(sample.number());
    let text = sample.list(&mut text, stored::byte);
    let starts = sample.list(&mut starts, stored::place);
    let ends = sample.list(&mut ends, stored::place);
    replay_call(&mut sample, reading, text, starts, ends) & (sample.at == line.len())
}

// A case is a line.
fn replay(bytes: &[u8]) -> Report {
    let mut cases = 0;
    let mut differ = 0;
    for line in bytes.split_inclusive(|b| *b == b'\n') {
        cases += 1;
        if !replay_case(line) {
            differ += 1;
        }
    }
    Report { cases, differ }
}

// The room is made here: as an array within `replay_input` the check runs out of stack.
fn main(rt: HostRuntime) -> io::Result<()> {
    let mut room = [0u8; 524288];
    stored::replay_input(&mut rt.reader(), &mut io::writer(&rt), &mut room, replay)
}
