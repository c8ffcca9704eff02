#![tactic(auto)]
// Replays the stored answers of the Rust, case by case, and prints how many cases there were and
// how many differ. A case begins with its sort: 0 the tokens of a line, 1 to 4 a scan ahead, 5 a
// run of hyphens, 6 a run of periods.
use exports::{Counts, CursorNumbers, Scanned};
use std::io;
use stored::{Report, Sample};

// Which tokens of a line are peeked at, and before which ones escapes are ignored: bit by bit, and
// again from the 33rd token on.
#[derive(Clone, Copy)]
struct Patterns {
    peeks: u64,
    verbatim: u64,
}

fn bit(pattern: u64, i: u64) -> bool {
    (pattern >> (i % 32)) % 2 == 1
}

impl Patterns {
    // The state before token i: with its flag, and peeked at where the pattern says so.
    fn before(self, line: &[u8], s: CursorNumbers, i: u64) -> CursorNumbers {
        let flagged = CursorNumbers {
            verbatim: bit(self.verbatim, i),
            ..s
        };
        if bit(self.peeks, i) {
            exports::mivurakol_peek(line, flagged).state
        } else {
            flagged
        }
    }
}

// The tokens of a line beside the stored ones.
fn replay_tokens(sample: &mut Sample) -> bool {
    let peeks = sample.number();
    let verbatim = sample.number();
    let patterns = Patterns { peeks, verbatim };
    let mut room = [0u8; 128];
    let line = sample.list(&mut room, stored::byte);
    let tokens = sample.number();
    let mut s = exports::mivurakol_cursor(0, false);
    let mut same = true;
    for i in 0..tokens {
        let step = exports::mivurakol_next(line, patterns.before(line, s, i));
        same &= step.token.kind as u64 == sample.number();
        same &= step.token.len as u64 == sample.number();
        s = step.state;
    }
    let last = exports::mivurakol_next(line, patterns.before(line, s, tokens));
    same & (last.token.kind == exports::NO_TOKEN)
}

// What a scan finds at the front of a line beside the stored answer.
fn replay_scan<F: Fn(&[u8], usize) -> Scanned>(sample: &mut Sample, scan: F) -> bool
    requires { F.IsAlwaysCallable scan }
{
    let mut room = [0u8; 128];
    let s = scan(sample.list(&mut room, stored::byte), 0);
    let found = sample.number() == 1;
    let len = sample.number();
    (s.found == found) & (s.len as u64 == len)
}

// The counts of a run beside the stored ones.
fn replay_counts<F: Fn(usize) -> Counts>(sample: &mut Sample, split: F) -> bool
    requires { F.IsAlwaysCallable split }
{
    let c = split(sample.number() as usize);
    let first = sample.number();
    let second = sample.number();
    (c.first as u64 == first) & (c.second as u64 == second)
}

// The sort of the case says which: of tokens, of a scan or of a split, with the function that is
// tried.
fn replay_case(sample: &mut Sample) -> bool {
    match sample.number() {
        0 => replay_tokens(sample),
        1 => replay_scan(sample, exports::mivurakol_autolink),
        2 => replay_scan(sample, exports::mivurakol_symbol),
        3 => replay_scan(sample, exports::mivurakol_footnote),
        4 => replay_scan(sample, exports::mivurakol_raw_format),
        5 => replay_counts(sample, exports::mivurakol_hyphens),
        _ => replay_counts(sample, exports::mivurakol_periods),
    }
}

// Each case is at least one byte, so there are no more than bytes: the loop asks for no promise of
// how far a case goes.
fn replay(bytes: &[u8]) -> Report {
    let mut sample = Sample { bytes, at: 0 };
    let mut cases = 0;
    let mut differ = 0;
    for _ in 0..bytes.len() {
        if bytes.len() <= sample.at {
            break;
        }
        cases += 1;
        if !replay_case(&mut sample) {
            differ += 1;
        }
    }
    Report { cases, differ }
}

// The room is made here: as an array within `replay_input` the check runs out of stack.
fn main(rt: HostRuntime) -> io::Result<()> {
    let mut room = [0u8; 524288];
    stored::replay_input(&mut rt.reader(), &mut io::writer(&rt), &mut room, replay)
}
