#![tactic(auto)]
// The line list of a sheet, as a slice of records or as two slices of numbers, and the parser's way
// over it: a line with its braces, all lines, and the end.
ghost use Rattle.std.specs.Prelude.{◌≡◌, ◌<◌, ◌≤◌, List, length, get_or};
ghost use Rattle.reading.specs.declared.Line.{Line};
ghost use Rattle.reading.specs.Machine.{view_of};
ghost use Rattle.reading.specs.Blocks.{block_at};
ghost use Rattle.reading.specs.Reading.{sheet, views, line as line_of, read as read_of};
ghost use Rattle.rooms.specs.Steps.{state};
ghost use Rattle.inline.specs.Asks.{Sheeted, Behind, Within, StandsFor, Comes};
ghost use Rattle.inline.specs.Lines.{lines_of, none};

use attr::Validator;
use reading::Line;
use rooms::{Parser, Status};

// A list of lines, in whatever it is kept. The parser of a line takes the text with that line
// alone, so that text and lines are lent apart; a block at a brace and questions 3 and 4 are of no
// reading.
pub trait Lines: Copy {
    ghost listed: { Self → List Line };

    fn count(self) -> usize
        ensures { result ≡ length (listed self) };

    fn line(self, i: usize) -> Line
        requires { i < length (listed self) }
        ensures { result ≡ get_or (listed self) i none };
}

impl<'a> Lines for &'a [Line] {
    ghost listed = { λ s. s.now };

    fn count(self) -> usize {
        self.len()
    }

    fn line(self, i: usize) -> Line {
        self[i]
    }
}

// Line i runs from start i to before end i: C lends starts and ends as two slices of numbers.
#[derive(Clone, Copy)]
pub struct Pairs<'a> {
    pub starts: &'a [usize],
    pub ends: &'a [usize],
}

// A start without an end, or an end without a start, stands as a line that ends before it starts,
// which question 3 refuses.
const UNPAIRED: Line = Line { start: 1, end: 0 };

impl<'a> Lines for Pairs<'a> {
    ghost listed = { λ s. lines_of s.starts.now s.ends.now };

    #[tactic(auto, using(crate::proofs::Pairing::lines_many))]
    fn count(self) -> usize {
        self.starts.len().max(self.ends.len())
    }

    #[tactic(auto, using(crate::proofs::Pairing::line_paired, crate::proofs::Pairing::line_unpaired))]
    fn line(self, i: usize) -> Line {
        if i < self.starts.len() && i < self.ends.len() {
            return Line {
                start: self.starts[i],
                end: self.ends[i],
            };
        }
        UNPAIRED
    }
}

// Whether an attribute block stands at a brace of the i-th line: a fresh validator is fed from the
// brace to the line's end, then the later lines whole, until it is decided.
fn block_at<L: Lines>(text: &[u8], lines: L, i: usize, at: usize) -> bool
    requires { Within text.now (L.listed lines) i at }
    ensures { result ≡ block_at (views text.now (L.listed lines)) at }
{
    let here = lines.line(i);
    let mut v = inline::validate(text, Line { start: at, ..here }, Validator::new());
    for k in i + 1..lines.count() {
        if v.decided() {
            return v.done();
        }
        v = inline::validate(text, lines.line(k), v);
    }
    v.done()
}

// The i-th line. At each brace the validator is asked, once; the definition is of so many rounds.
fn parse_line<L: Lines>(p: &mut Parser, text: &[u8], lines: L, i: usize, reading: u32)
    requires behind { Behind text.now (L.listed lines) i reading (state p.old) p.old.queue.now p.old.openers.now p.old.labels.now }
    requires labels_in_bounds { p.old.at.labels ≤ length p.old.labels.now }
    ensures { Comes p.old p.new (line_of (sheet text.now (L.listed lines) reading (length p.old.labels.now)) (view_of text.now (get_or (L.listed lines) i none)) (state p.old)) }
{
    let None = p.at.refused else {
        return;
    };
    let l = lines.line(i);
    inline::begin_line(p, reading);
    for _ in 0..l.end - l.start + 1 {
        inline::feed_line(p, text, l, reading);
        let Some(at) = p.at.refused else {
            return;
        };
        if block_at(text, lines, i, at.0 as usize) {
            return;
        }
        inline::pass_brace(p, text, l, at);
    }
}

// All lines of a sheet, each from its start to before its end, and the end. Of what the parser was
// at, all but the cursor has meaning then.
pub fn parse<L: Lines>(
    text: &[u8],
    lines: L,
    reading: u32,
    queue: &mut [u32],
    openers: &mut [u32],
    labels: &mut [u8],
) -> Status
    requires { Sheeted text.now (L.listed lines) queue.old openers.old labels.old }
    ensures { StandsFor result queue.new openers.new labels.new (read_of (sheet text.now (L.listed lines) reading (length labels.old)) (L.listed lines)) }
{
    let mut p = inline::fresh(queue, openers, labels);
    let mut end = 0;
    for i in 0..lines.count() {
        let l = lines.line(i);
        end = l.end;
        parse_line(&mut p, text, lines, i, reading);
    }
    inline::finish(&mut p, end);
    p.at
}
