#![tactic(auto)]
// The line of each event that is handed out. Events and lines run forward, so that each is gone
// over once.
ghost use Rattle.std.specs.Prelude.{[], ◌≡◌, ◌*◌, ◌≤◌, ◌<◌, length};
ghost use Rattle.reading.specs.Events.{event_numbers, largest};
ghost use Rattle.reading.specs.Located.{line_of as line_of_place, located};
ghost use Rattle.listing.specs.Listing.{listed, records};
ghost use Rattle.locate.specs.Lining.{line_at, lined, Rising};

use sheets::Lines;

// The line that a place is on, which is none before a given one.
fn line_of<L: Lines>(lines: L, from: usize, at: usize) -> usize
    requires few { length (L.listed lines) ≤ largest }
    requires before { from ≤ line_of_place (L.listed lines) at }
    ensures { result ≡ line_of_place (L.listed lines) at }
{
    let mut line = from;
    while line + 1 < lines.count() && lines.line(line).end <= at {
        line += 1;
    }
    line
}

// A line, and where it ends.
#[derive(Clone, Copy)]
struct Here {
    line: usize,
    end: usize,
}

// The line that a place is on, which is none before the one that stands. Mostly it is that one.
fn onward<L: Lines>(lines: L, from: Here, at: usize) -> Here
    requires few { length (L.listed lines) ≤ largest }
    requires within { from.line < length (L.listed lines) }
    requires stands { from ≡ line_at (L.listed lines) from.line }
    requires before { from.line ≤ line_of_place (L.listed lines) at }
    ensures { result ≡ line_at (L.listed lines) (line_of_place (L.listed lines) at) }
{
    if at < from.end {
        return from;
    }
    let line = line_of(lines, from.line, at);
    Here {
        line,
        end: lines.line(line).end,
    }
}

// Puts the lines of the first n events into their records, which say line 0. With one line there is
// nothing to put in. Laid into the call it makes the parser slower (docs/BENCHMARK.md, "Lines").
#[inline(never)]
pub fn locate<L: Lines>(lines: L, events: &mut [u32], n: usize)
    requires in_bounds { n * event_numbers ≤ length events.old }
    requires few { length (L.listed lines) ≤ largest }
    requires rising { Rising 0 (listed n events.old) }
    requires unlined { records n events.old ≡ located [] (listed n events.old) }
    ensures { events.new ≡ lined (L.listed lines) n events.old }
{
    if lines.count() <= 1 {
        return;
    }
    let mut here = Here {
        line: 0,
        end: lines.line(0).end,
    };
    for i in 0..n {
        let start = listing::event_at(events, i).start;
        here = onward(lines, here, start.0 as usize);
        listing::set_line(events, i, here.line as u32);
    }
}
