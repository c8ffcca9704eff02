#![tactic(auto)]
// Containers, quotes and spans: `parse_container` of the source. A token as a closer, then as an
// opener, then alone. What is asked of a token, of the opener that it closes and of the label room
// (`Ready`, `Names`, `LabelRoom`) is no invariant of the parser: what is put spends the first, the
// second is of one opener, and the third asks a bound of the lent room, which `Parser::new` does
// not, and one more link number, which a link spends.
ghost use Rattle.std.specs.Prelude.{◌≡◌, ℕ, ◌+◌, ◌*◌, ◌^◌, ◌≤◌, ◌<◌, length, IfSome};
ghost use Rattle.lex.specs.Lexer.{peek_of};
ghost use Rattle.lex.specs.declared.lex.Cursor.{Cursor};
ghost use Rattle.reading.specs.Events.{opener_numbers, largest};
ghost use Rattle.reading.specs.Machine.{Rules};
ghost use Rattle.reading.specs.Naming.{Names, Named};
ghost use Rattle.reading.specs.Tokens.{closing_of};
ghost use Rattle.reading.specs.Containers as spec;
ghost use Rattle.rooms.specs.Records.{place};
ghost use Rattle.rooms.specs.Standing.{viewed, here, Fits};
ghost use Rattle.rooms.specs.Steps.{state, Stepped, Changed, Queued, Room, staying};
ghost use Rattle.links.specs.Linked.{sheet_of};
ghost use Rattle.containers.specs.Ready.{Ready, LabelRoom, Countable, along_with, span_closed, closable, container_looking};

use reading::{Closer, DelimEventKind, Marks, NOWHERE, Opener, Pair, Sort, kind};
use rooms::{Parser, Span, View};

// The newest opener that a token closes is the only one tried. An empty pair does not close, except
// spans and links; a two-way one does not close after a blank.
#[tactic(auto, using(rooms::proofs::Changing::queue_long), unfolding(reading::specs::Containers::may_close))]
fn may_close(p: &Parser, v: &View, h: Span, o: Opener) -> bool
    requires from_in_bounds { h.from ≤ length v.now.bytes.now }
    requires event_lt_events { o.event < p.now.at.events }
    ensures { result ≡ spec.may_close (viewed v.now) (here h p.now.at) (state p.now) o }
{
    let events = p.at.events;
    let blank = classes::is_blank(v.byte_before(h.from));
    (tables::may_be_empty(o.sort) | (o.event + 1 != events)) & !(tables::two_way(o.sort) & blank)
}

// The token behind is peeked at.
fn peeked(p: &mut Parser, v: &View)
    ensures { Queued p.old p.new (λ s. record { cursor = (peek_of v.now.bytes.now p.old.at.cursor).cursor; state = s }) }
{
    p.at.cursor = lexer::peek_token(v.bytes, p.at.cursor).cursor;
}

// A container or a pair of quotes: the opener's event becomes the first of the pair, and the second
// is put.
fn closes_pair(p: &mut Parser, v: &View, h: Span, pair: Pair, o: Opener)
    requires to_bound { v.now.base + h.to ≤ largest }
    requires event_lt_events { o.event < p.old.at.events }
    requires room { Room 1 p.old }
    ensures { Queued p.old p.new (staying p.old (spec.closes_pair (viewed v.now) (here h p.old.at) pair.first pair.second o)) }
{
    p.set_kind(o.event, pair.first, NOWHERE);
    let e = v.homed(pair.second, NOWHERE, h.from, h.to);
    p.push(e, None);
}

// The bracket behind a span opens a link, and is used up.
#[tactic(auto, using(rooms::proofs::Changing::queue_long))]
fn takes_along(p: &mut Parser, v: &View, h: Span, sort: Sort, span: usize)
    requires fits { Fits (viewed v.now) h }
    requires room { Room 1 p.old }
    requires events_bound { p.old.at.events < 2 ^ 32 }
    requires span_bound { span < 2 ^ 32 }
    requires openers_bound { p.old.at.openers < 2 ^ 32 }
    requires opener_numbers_in_bounds { p.old.at.openers * opener_numbers + opener_numbers ≤ length p.old.openers.now }
    ensures { Changed p.old p.new (along_with (viewed v.now) h sort span p.old.at) }
{
    let event = p.at.events;
    p.push_opener(Opener { sort, event, span });
    p.at.cursor = p.at.cursor.skip(v.bytes);
    atoms::put(p, v, kind::STR, h);
}

// A `]` closes a span: a `[` or `(` right behind it is taken along; else it stays Str.
#[tactic(auto, using(rooms::proofs::Changing::queue_long), unfolding(reading::specs::Containers::closes_span, reading::specs::Containers::span_with))]
fn closes_span(p: &mut Parser, v: &View, h: Span, image: bool, o: Opener)
    requires ready { Ready (viewed v.now) h p.old }
    requires event_lt_events { o.event < p.old.at.events }
    ensures { Changed p.old p.new (span_closed (viewed v.now) (here h p.old.at) image o) }
{
    let ahead = lexer::peek_token(v.bytes, p.at.cursor);
    p.at.cursor = ahead.cursor;
    atoms::put(p, v, kind::STR, h);
    let Some(t) = ahead.token else {
        return;
    };
    let Some(inline) = tables::takes(tables::role_of(t.kind)) else {
        return;
    };
    let bracket = Span {
        from: h.to,
        to: h.to + t.len,
    };
    takes_along(p, v, bracket, tables::link_sort(image, inline), o.event);
}

// The byte behind the token is blank, or the line ends there.
#[tactic(auto, unfolding(reading::specs::Containers::blank_after))]
fn blank_after(v: &View, to: usize) -> bool
    ensures { (from : ℕ) (c : Cursor) → result ≡ spec.blank_after (viewed v.now) (record { from = from; to = to; cursor = c }) }
{
    v.bytes.len() <= to || classes::is_blank(v.bytes[to])
}

// A two-way opener does not open before a blank or the line's end; a single quote not directly
// after a Str unless a blank stands before it.
#[tactic(auto, unfolding(reading::specs::Containers::may_open))]
fn may_open(p: &Parser, v: &View, h: Span, sort: Sort) -> bool
    requires { h.from ≤ length v.now.bytes.now }
    ensures { result ≡ spec.may_open (viewed v.now) (here h p.now.at) (state p.now) sort }
{
    let blank = classes::is_blank(v.byte_before(h.from));
    !(tables::two_way(sort) & blank_after(v, h.to))
        & !(tables::is_single(sort) & p.at.last.is_some() & !blank)
}

// An opener, and its event: what it is if it is never closed.
#[tactic(auto, using(rooms::proofs::Changing::queue_long))]
pub fn open_as(p: &mut Parser, v: &View, h: Span, sort: Sort)
    requires { Ready (viewed v.now) h p.old }
    ensures { Changed p.old p.new (staying p.old (spec.open_as (viewed v.now) (here h p.old.at) sort)) }
{
    let event = p.at.events;
    p.push_opener(Opener {
        sort,
        event,
        span: 0,
    });
    atoms::put(p, v, tables::unclosed(sort), h);
}

// A token that closes nothing: an opener, or what it is alone.
#[tactic(auto, unfolding(reading::specs::Containers::opens_or))]
fn opens_or(p: &mut Parser, v: &View, h: Span, k: Marks)
    requires { Ready (viewed v.now) h p.old }
    ensures { Changed p.old p.new (staying p.old (spec.opens_or (viewed v.now) (here h p.old.at) k.alone k.opens)) }
{
    match k.opens {
        Some(sort) if may_open(p, v, h, sort) => open_as(p, v, h, sort),
        _ => atoms::put(p, v, k.alone, h),
    }
}

// What the end of each sort makes, each from what its case holds. Behind it the token is peeked at,
// unless a bracket was taken along.
#[tactic(auto, unfolding(reading::specs::Containers::close_as))]
fn close_as(p: &mut Parser, text: &[u8], v: &View, h: Span, o: Opener)
    requires ready { Ready (viewed v.now) h p.old }
    requires label_room { LabelRoom p.old }
    requires names { Names (closing_of o.sort) o p.old.at.events }
    ensures { (rules : Rules) → Stepped p.old p.new
        (spec.close_as (sheet_of rules text.now p.old.labels.now) (viewed v.now) (here h p.old.at) o (closing_of o.sort)) }
{
    match tables::closing_of(o.sort) {
        DelimEventKind::Pair(pair) => {
            closes_pair(p, v, h, pair, o);
            peeked(p, v);
        }
        DelimEventKind::Span(image) => closes_span(p, v, h, image, o),
        DelimEventKind::Link(t) => {
            links::closes_link(p, text, v, h, t, o);
            peeked(p, v);
        }
    }
}

// The opener that a token closes: only the one that is found, the newest that it can close, is
// tried.
#[tactic(auto, unfolding(crate::specs::Ready::closable))]
fn tried(
    p: &Parser,
    v: &View,
    h: Span,
    closes: Option<Closer>,
    found: Option<usize>,
) -> Option<usize>
    requires from_in_bounds { h.from ≤ length v.now.bytes.now }
    requires opener_numbers_in_bounds { p.now.at.openers * opener_numbers ≤ length p.now.openers.now }
    requires named { Named (state p.now).openers p.now.at.events }
    requires found { found ≡ place (spec.seek closes (state p.now).openers) }
    requires found_in { IfSome found (λ i. i < p.now.at.openers) }
    ensures value { result ≡ closable (viewed v.now) (here h p.now.at) (state p.now) (spec.seek closes (state p.now).openers) }
    ensures within { IfSome result (λ i. i < p.now.at.openers) }
{
    let i = found?;
    if may_close(p, v, h, p.opener_at(i)) {
        return Some(i);
    }
    None
}

// A token closes an opener, with which all newer ones are discarded; or opens; or is what it is
// alone. The openers that are looked at are counted: those from the newest back to the one that is
// found, or all.
pub fn parse_container(p: &mut Parser, text: &[u8], v: &View, h: Span, k: Marks)
    requires ready { Ready (viewed v.now) h p.old }
    requires label_room { LabelRoom p.old }
    requires countable { Countable p.old }
    ensures { (rules : Rules) → Stepped p.old p.new (container_looking (sheet_of rules text.now p.old.labels.now) (viewed v.now) (here h p.old.at) k) }
{
    let n = p.at.openers;
    let found = p.seek(n, k.closes);
    p.at.looks += (n - found.unwrap_or(0)) as u64;
    let Some(i) = tried(p, v, h, k.closes, found) else {
        opens_or(p, v, h, k);
        return;
    };
    let o = p.opener_at(i);
    p.at.openers = i;
    close_as(p, text, v, h, o);
}
