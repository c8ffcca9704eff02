#![tactic(auto)]
// Verbatim, raw format and math: `parse_verbatim` of the source.
ghost use Rattle.std.specs.Prelude.{◌≡◌, ◌+◌, ◌*◌, ◌≤◌, ◌<◌, length, take, Some, None};
ghost use Rattle.std.specs.List.{list_all};
ghost use Rattle.classes.specs.Classes.{blank};
ghost use Rattle.lex.specs.declared.lex.Cursor.{Cursor};
ghost use Rattle.lex.specs.declared.lex.Token.{Token};
ghost use Rattle.reading.specs.Events.{exit_of, enter_from, exit_from, queue_numbers, largest};
ghost use Rattle.reading.specs.Tokens.{role_of, is_run};
ghost use Rattle.reading.specs.Machine.{rules_of};
ghost use Rattle.reading.specs.Verbatim as spec;
ghost use Rattle.rooms.specs.Records.{event_at};
ghost use Rattle.rooms.specs.Standing.{viewed, here, Fits};
ghost use Rattle.rooms.specs.Steps.{state, Queued, Room, staying};
ghost use Rattle.verbatim.specs.Opened.{Opened, OpenedBy, Dollars, Begun, kind_of, headed, leaving};

use lex::{Cursor, Token};
use reading::{Event, Last, NOWHERE, Place, Verbatim, container, kind};
use rooms::{Parser, Span, View};

// What an event is by its kind: an enter or an exit, with its container, or neither. `let .. else`
// takes the Enter case out of it, which is the form that document 01 names (docs/DECISIONS.md,
// "Forms").
#[derive(Clone, Copy)]
enum EventKind {
    Atom(u32),
    Enter(u32),
    Exit(u32),
}

impl From<u32> for EventKind {
    ghost from_gives = { λ kind e. e ≡ kind_of kind };

    #[tactic(auto, unfolding(crate::specs::Opened::kind_of))]
    fn from(kind: u32) -> EventKind {
        match kind {
            k if k < kind::ENTER => EventKind::Atom(k),
            k if k < kind::EXIT => EventKind::Enter(k - kind::ENTER),
            k => EventKind::Exit(k - kind::EXIT),
        }
    }
}

// On the lines behind the opener's, whether the lexer is in verbatim. A reading is a number, as C
// lends it, and the rules are of all numbers.
fn later(reading: u32) -> bool
    ensures { result ≡ (rules_of reading).later }
{
    reading != 0
}

// Whether the token behind a closing run is read as in verbatim, by whether the line is the
// opener's own.
fn after(reading: u32, own: bool) -> bool
    ensures { result ≡ (rules_of reading).after own }
{
    reading == 0 && own
}

// A cursor in verbatim, or out of it.
fn flagged(c: Cursor, verbatim: bool) -> Cursor
    ensures { result ≡ spec.flagged verbatim c }
{
    Cursor { verbatim, ..c }
}

// How many dollars the run that begins at a place takes.
#[tactic(auto, unfolding(reading::specs::Verbatim::taken))]
fn taken(last: Option<Last>, at: Place) -> u32
    ensures { result ≡ spec.taken last at.0 }
{
    match last {
        Some(l) if l.end == at => l.dollars,
        _ => 0,
    }
}

// Verbatim, inline math, or display math.
#[tactic(auto, unfolding(reading::specs::Verbatim::opened_as))]
fn opened_as(dollars: u32) -> u32
    ensures { result ≡ spec.opened_as dollars }
{
    match dollars {
        0 => container::VERBATIM,
        1 => container::INLINE_MATH,
        _ => container::DISPLAY_MATH,
    }
}

// The dollars leave the newest event.
fn leave(p: &mut Parser, dollars: u32)
    requires queue_numbers_in_bounds { p.old.at.events * queue_numbers ≤ length p.old.queue.now }
    requires dollars { Dollars dollars p.old.at.events p.old.queue.now }
    ensures queued { Queued p.old p.new (staying p.old (leaving dollars)) }
    ensures status { p.new.at ≡ p.old.at }
{
    if dollars == 0 {
        return;
    }
    p.shorten(p.at.events - 1, dollars);
}

// A run of backticks opens. Dollars directly before it leave their Str and join the enter's span.
pub fn opens_verbatim(p: &mut Parser, v: &View, h: Span)
    requires to_bound { v.now.base + h.to ≤ largest }
    requires room { Room 1 p.old }
    requires dollars { Dollars (spec.taken p.old.at.last (v.now.base + h.from)) p.old.at.events p.old.queue.now }
    requires from_bound { spec.taken p.old.at.last (v.now.base + h.from) ≤ v.now.base + h.from }
    ensures { Queued p.old p.new (spec.opens_verbatim (viewed v.now) (here h p.old.at)) }
{
    let n = p.at.events;
    let at = v.place(h.from);
    let dollars = taken(p.at.last, at);
    leave(p, dollars);
    let e = rooms::event_of(
        kind::ENTER + opened_as(dollars),
        Place(at.0 - dollars),
        v.place(h.to),
        NOWHERE,
    );
    p.push(e, None);
    p.at.cursor = flagged(p.at.cursor, true);
    p.at.inside = Some(Verbatim {
        event: n,
        len: h.to - h.from,
        seen: false,
        run: false,
        keep: n + 1,
        here: true,
    });
}

// The event at the opener's place decides the exit.
#[tactic(auto, using(std::proofs::lemmas::Bool::Decides::nat_tests), unfolding(crate::specs::Opened::kind_of))]
fn exit_of(p: &Parser, w: Verbatim, start: Place, end: Place) -> Event
    requires queue_numbers_in_bounds { w.event * queue_numbers + queue_numbers ≤ length p.now.queue.now }
    requires enter_from_bound { enter_from ≤ (event_at p.now.queue.now w.event).kind }
    requires event_bound { (event_at p.now.queue.now w.event).kind < exit_from }
    ensures { result ≡ exit_of (event_at p.now.queue.now w.event) start.0 end.0 }
{
    let e = p.event_at(w.event);
    let EventKind::Enter(k) = EventKind::from(e.kind) else {
        return e;
    };
    Event {
        kind: kind::EXIT + k,
        start,
        end,
        ..e
    }
}

// The end of a verbatim: its exit behind the first n events. Five functions ask `Opened`, of the
// open verbatim that each is given: as an invariant of the parser it would be asked of all.
fn exits(p: &mut Parser, w: Verbatim, n: usize, start: Place, end: Place)
    requires opened { Opened w p.old }
    requires n_le_events { n ≤ p.old.at.events }
    requires room { Room 1 p.old }
    ensures { Queued p.old p.new (staying p.old (headed w n start.0 end.0)) }
{
    let e = exit_of(p, w, start, end);
    p.cut(n);
    p.push(e, None);
    p.at.inside = None;
}

// How many events are kept on closing: the blanks behind a backtick run that is the last content
// are dropped.
#[tactic(auto, unfolding(reading::specs::Verbatim::kept))]
fn kept(p: &Parser, w: Verbatim) -> usize
    ensures by_index { w.keep ≤ p.now.at.events → take result (state p.now).queue ≡ spec.kept w (state p.now).queue }
    ensures upper_bound { w.keep ≤ p.now.at.events → result ≤ p.now.at.events }
{
    if w.run {
        return w.keep;
    }
    p.at.events
}

// The raw format behind a closing run, if the token there is `{=`.
#[tactic(auto, unfolding(reading::specs::Verbatim::format_ahead))]
fn format_ahead(v: &View, to: usize, next: Option<Token>) -> Option<usize>
    requires { to ≤ length v.now.bytes.now }
    ensures { result ≡ spec.format_ahead (viewed v.now) to next }
{
    let t = next?;
    if tables::is_format(tables::role_of(t.kind)) {
        return scan::ahead_raw_format(v.bytes, to + 2);
    }
    None
}

// A run closes, and no raw format follows.
#[tactic(auto, unfolding(reading::specs::Verbatim::closed_with))]
fn closes_plain(p: &mut Parser, v: &View, h: Span, c: Cursor, w: Verbatim)
    requires to_bound { v.now.base + h.to ≤ largest }
    requires opened { Opened w p.old }
    requires room { Room 1 p.old }
    ensures { Queued p.old p.new (spec.closed_with (viewed v.now) (here h p.old.at) c w None) }
{
    let n = kept(p, w);
    exits(p, w, n, v.place(h.from), v.place(h.to));
    p.at.cursor = flagged(c, false);
}

// A run closes with a raw format of n bytes behind it: the verbatim becomes a raw inline, and the
// exit goes to behind its `}`.
#[tactic(auto, unfolding(reading::specs::Verbatim::closed_with))]
fn closes_raw(p: &mut Parser, v: &View, h: Span, n: usize, w: Verbatim)
    requires n_bound { v.now.base + h.to + 2 + n + 1 ≤ largest }
    requires opened { Opened w p.old }
    requires room { Room 1 p.old }
    ensures { (c : Cursor) → Queued p.old p.new (spec.closed_with (viewed v.now) (here h p.old.at) c w (Some n)) }
{
    let a = h.to + 2;
    p.set_kind(w.event, kind::ENTER_RAW_FORMAT, v.in_text(a, a + n));
    let keep = kept(p, w);
    exits(p, w, keep, v.place(h.from), v.place(a + n + 1));
    p.at.cursor = Cursor::new(a + n + 1, false);
}

// The same length closes. The token behind it is peeked at.
fn closes_verbatim(p: &mut Parser, v: &View, h: Span, w: Verbatim, reading: u32)
    requires fits { Fits (viewed v.now) h }
    requires opened { Opened w p.old }
    requires room { Room 1 p.old }
    ensures { Queued p.old p.new (spec.closes_verbatim (rules_of reading) (viewed v.now) (here h p.old.at) w) }
{
    let c = flagged(p.at.cursor, after(reading, w.here));
    let peeked = lexer::peek_token(v.bytes, c);
    match format_ahead(v, h.to, peeked.token) {
        Some(n) => closes_raw(p, v, h, n, w),
        None => closes_plain(p, v, h, peeked.cursor, w),
    }
}

fn all_blank(s: &[u8]) -> bool
    ensures { result ≡ list_all blank s.now }
{
    s.iter().all(|b| classes::is_blank(*b))
}

// A run of another length.
#[tactic(auto, unfolding(reading::specs::Verbatim::another_run))]
fn another_run(w: Verbatim, next: Option<Token>) -> bool
    ensures { result ≡ spec.another_run w next }
{
    next.is_some_and(|t| tables::is_run(tables::role_of(t.kind)) & (t.len != w.len))
}

// A token that is not blank: seen, and whether it is a run.
fn content(p: &mut Parser, v: &View, h: Span, run: bool, w: Verbatim)
    requires fits { Fits (viewed v.now) h }
    requires room { Room 1 p.old }
    ensures { (t : Token) → run ≡ is_run (role_of t.kind) → Queued p.old p.new
        (staying p.old (spec.content (viewed v.now) (here h p.old.at) t w)) }
{
    atoms::put(p, v, kind::STR, h);
    p.at.inside = Some(Verbatim {
        seen: true,
        run,
        keep: p.at.events,
        ..w
    });
}

// A blank token. Only where nothing else was seen is the next one peeked at.
#[tactic(auto, unfolding(reading::specs::Verbatim::blank_content))]
fn blank_content(p: &mut Parser, v: &View, h: Span, w: Verbatim)
    requires fits { Fits (viewed v.now) h }
    requires room { Room 1 p.old }
    ensures { Queued p.old p.new (spec.blank_content (viewed v.now) (here h p.old.at) w) }
{
    if w.seen {
        atoms::put(p, v, kind::STR, h);
        return;
    }
    let peeked = lexer::peek_token(v.bytes, p.at.cursor);
    p.at.cursor = peeked.cursor;
    if another_run(w, peeked.token) {
        return;
    }
    atoms::put(p, v, kind::STR, h);
}

// A token inside a verbatim.
#[tactic(auto, using(crate::proofs::Answers::all_blank_is), unfolding(reading::specs::Verbatim::in_verbatim))]
pub fn in_verbatim(p: &mut Parser, v: &View, h: Span, t: Token, w: Verbatim, reading: u32)
    requires fits { Fits (viewed v.now) h }
    requires opened { Opened w p.old }
    requires room { Room 1 p.old }
    ensures { Queued p.old p.new (spec.in_verbatim (rules_of reading) (viewed v.now) (here h p.old.at) t w) }
{
    let run = tables::is_run(tables::role_of(t.kind));
    if run & (h.to - h.from == w.len) {
        closes_verbatim(p, v, h, w, reading);
        return;
    }
    if all_blank(&v.bytes[h.from..h.to]) {
        blank_content(p, v, h, w);
        return;
    }
    content(p, v, h, run, w);
}

// A new line: a fresh cursor; in verbatim, the opener stands on the line no more.
#[tactic(auto, unfolding(reading::specs::Verbatim::moved_on, reading::specs::Verbatim::flag_of))]
pub fn begun(p: &mut Parser, reading: u32)
    ensures { Begun reading p.old p.new }
{
    match p.at.inside {
        None => p.at.cursor = Cursor::new(0, false),
        Some(w) => {
            p.at.cursor = Cursor::new(0, later(reading));
            p.at.inside = Some(Verbatim { here: false, ..w });
        }
    }
}

// At the end of the lines an open verbatim gets an exit of width 0.
#[tactic(auto, unfolding(reading::specs::Verbatim::ended_at, crate::specs::Opened::OpenedBy))]
pub fn ended_at(p: &mut Parser, end: Place)
    requires room { Room 1 p.old }
    requires opened_by { OpenedBy p.old.at.inside p.old }
    ensures { Queued p.old p.new (staying p.old (spec.ended_at end.0 p.old.at.inside)) }
{
    if let Some(w) = p.at.inside {
        exits(p, w, p.at.events, end, end);
    }
}
