#![tactic(auto)]
// The parser of `inline.rs` over lent rooms: one token, the tokens of a line, and the end. At a
// brace a line stops: whoever has the lines asks whether an attribute block stands there, and if
// not the line goes on behind it.
ghost use Rattle.std.specs.Prelude.{◌≡◌, ◌^◌, ◌≤◌, ◌<◌, length, false};
ghost use Rattle.lex.specs.Lexer.{fresh_of};
ghost use Rattle.attr.specs.Attributes.{fed};
ghost use Rattle.reading.specs.Machine.{byte_before, view_of};
ghost use Rattle.reading.specs.Reading.{step, steps, resumed, start, unasked};
ghost use Rattle.verbatim.specs.Opened.{Begun};
ghost use Rattle.rooms.specs.Standing.{viewed};
ghost use Rattle.rooms.specs.Steps.{state, turn, Holding, Stepped, Queued, Room, staying, turning};
ghost use Rattle.inline.specs.Asks.{Before, Lined, Amid, BraceAt, ending, over_of, Closing};

use attr::Validator;
use lex::{Cursor, Kind};
use reading::{Line, Place, kind};
use rooms::{Parser, Span, View};

// The next token of the line, if there is one. Each arm has parameters of its own.
fn parse_event(p: &mut Parser, text: &[u8], v: &View, reading: u32)
    requires { Before (viewed v.now) p.old }
    ensures { Stepped p.old p.new (turning p.old (step (unasked text.now reading (length p.old.labels.now)) (viewed v.now))) }
{
    let from = p.at.cursor.pos;
    let lexed = lexer::next_token(v.bytes, p.at.cursor);
    let Some(t) = lexed.token else {
        return;
    };
    p.at.cursor = lexed.cursor;
    let h = Span {
        from,
        to: from + t.len,
    };
    match p.at.inside {
        Some(w) => verbatim::in_verbatim(p, v, h, t, w, reading),
        None => match t.kind {
            Kind::Text => atoms::put(p, v, kind::STR, h),
            _ => outside::outside(p, text, v, h, tables::role_of(t.kind)),
        },
    }
}

// The line is at its end, or the sheet is refused.
#[tactic(auto, unfolding(crate::specs::Asks::over_of))]
fn over(p: &Parser, n: usize) -> bool
    ensures { result ≡ over_of n p.now.at.cursor.pos p.now.at.refused }
{
    p.at.refused.is_some() || n <= p.at.cursor.pos
}

// The tokens of a line, from the cursor on, up to a brace: each takes a byte at least, and the
// definition is of so many steps.
fn read_line(p: &mut Parser, text: &[u8], v: &View, reading: u32)
    requires { Lined text.now (viewed v.now) reading p.old }
    ensures { Stepped p.old p.new (turning p.old (steps (length v.now.bytes.now) (unasked text.now reading (length p.old.labels.now)) (viewed v.now))) }
{
    let n = v.bytes.len();
    for _ in 0..n {
        if over(p, n) {
            return;
        }
        parse_event(p, text, v, reading);
    }
}

// A line of the text, from its start to before its end.
fn view_of(text: &[u8], l: Line) -> View<'_>
    requires ordered { l.start ≤ l.end }
    requires within { l.end ≤ length text.now }
    ensures { viewed result ≡ view_of text.now l }
{
    View {
        bytes: &text[l.start..l.end],
        base: l.start,
        before: if l.start == 0 { 0 } else { text[l.start - 1] },
    }
}

// A line begins.
pub fn begin_line(p: &mut Parser, reading: u32)
    ensures begun { Begun reading p.old p.new }
    ensures held { Holding p.old → Holding p.new }
{
    verbatim::begun(p, reading);
}

// The tokens of a line of the text, from the cursor on, up to a brace.
pub fn feed_line(p: &mut Parser, text: &[u8], l: Line, reading: u32)
    requires amid { Amid text.now l reading (turn p.old) p.old.queue.now p.old.openers.now p.old.labels.now }
    requires labels_in_bounds { p.old.at.labels ≤ length p.old.labels.now }
    ensures stepped { Stepped p.old p.new (turning p.old (let v = view_of text.now l in steps (length v.bytes) (unasked text.now reading (length p.old.labels.now)) v)) }
    ensures held { Holding p.new }
{
    read_line(p, text, &view_of(text, l), reading);
}

// Behind a brace of the line, at which no attribute block stands: it is Str.
pub fn pass_brace(p: &mut Parser, text: &[u8], l: Line, at: Place)
    requires { BraceAt text.now l at p.old }
    ensures queued { Queued p.old p.new (turning p.old (resumed (view_of text.now l) at.0)) }
    ensures held { Holding p.old → Holding p.new }
{
    let v = view_of(text, l);
    let brace = Span {
        from: at.0 as usize - l.start,
        to: p.at.cursor.pos,
    };
    p.at.refused = None;
    atoms::put(p, &v, kind::STR, brace);
}

// A validator is fed a line, or a line from a brace of it on.
pub fn validate(text: &[u8], l: Line, v: Validator) -> Validator
    requires start_le_end { l.start ≤ l.end }
    requires end_in_bounds { l.end ≤ length text.now }
    ensures { result ≡ record { state = fed (view_of text.now l).bytes v.state } }
{
    v.parse(&text[l.start..l.end])
}

// Nothing is queued, open or refused at first.
#[tactic(auto, unfolding(rooms::specs::Rows::rows, rooms::specs::Rows::stack))]
pub fn fresh<'q, 'o, 'l>(
    queue: &'q mut [u32],
    openers: &'o mut [u32],
    labels: &'l mut [u8],
) -> Parser<'q, 'o, 'l>
    ensures at_start { state result ≡ start }
    ensures labels_value { result.at.labels ≡ 0 }
    ensures cursor_value { result.at.cursor ≡ fresh_of 0 false }
    ensures queue_lent { result.queue.ghost_name ≡ queue.entry.ghost_name }
    ensures openers_lent { result.openers.ghost_name ≡ openers.entry.ghost_name }
    ensures labels_lent { result.labels.ghost_name ≡ labels.entry.ghost_name }
    ensures queue_held { result.queue.now ≡ queue.old }
    ensures openers_held { result.openers.now ≡ openers.old }
    ensures labels_held { result.labels.now ≡ labels.old }
    ensures held { Holding result }
{
    Parser::new(Cursor::new(0, false), None, queue, openers, labels)
}

// The end: a verbatim that is still open gets its exit.
pub fn finish(p: &mut Parser, end: usize)
    requires end_bound { end < 2 ^ 32 }
    requires room { Room 1 p.old }
    requires closing { Closing p.old.at.refused p.old }
    ensures queued { Queued p.old p.new (staying p.old (ending end)) }
    ensures held { Holding p.old → Holding p.new }
{
    if let None = p.at.refused {
        verbatim::ended_at(p, Place(end as u32));
    }
}
