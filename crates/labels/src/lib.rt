#![tactic(auto)]
// Labels of links: a part of the text, or bytes built in a room that the caller lends.
ghost use Rattle.std.specs.Prelude.{◌≡◌, [], ◌∷◌, suc, ◌+◌, ◌-◌, ◌*◌, ◌^◌, ◌≤◌, ◌<◌, length, take, drop, true, false, IfSome};
ghost use Rattle.output.specs.Written.{Adds, Wrote};
ghost use Rattle.reading.specs.Events.{queue_numbers};
ghost use Rattle.reading.specs.Labels.{word as word_of, words as words_of, stretches, pieces, separator, label_of, label_home};
ghost use Rattle.rooms.specs.Records.{event_at, events};
ghost use Rattle.labels.specs.Building.{LabelStands, given, behind, stretch as stretch_of, in_text, unbuilt as unbuilt_of, in_room};

use output::Output;
use reading::{Event, Home, IN_LABELS, IN_TEXT, Link, NOWHERE, Place, kind};

// What a link's label is made from: its destination's opener and its text's `[` as places in the
// queue, whether the destination is inline, the start of the current line, where the destination
// ends, and the link's number.
#[derive(Clone, Copy)]
pub struct Destination {
    pub event: usize,
    pub span: usize,
    pub inline: bool,
    pub base: usize,
    pub at: Place,
    pub link: Link,
}

// A label's home, and the label room behind it: bytes used, and whether all labels fitted. A home
// in the text has meaning where not all fitted, and so have the bytes of those that did.
#[derive(Clone, Copy)]
pub struct LabelHome {
    pub home: Home,
    pub labels: usize,
    pub fits: bool,
}

// A label of several lines as it is built: whether it is of an inline link, a piece has begun, and
// a newline stood behind the last one, as the definition of the pieces has them.
#[derive(Clone, Copy)]
struct Joint {
    inline: bool,
    begun: bool,
    apart: bool,
}

// What an event of the link's text gives.
#[tactic(auto, unfolding(reading::specs::Labels::word))]
fn word(out: &mut Output, text: &[u8], e: Event) -> Option<()>
    ensures { Adds out.old (word_of text.now e) result out.new }
{
    if (kind::ENTER <= e.kind) | (e.kind == kind::ESCAPE) {
        return Some(());
    }
    if (e.kind == kind::SOFTBREAK) | (e.kind == kind::HARDBREAK) {
        return out.put_byte(b' ');
    }
    out.put(e.under(text))
}

// A label from the front of a room, of the events of the link's text: how many bytes it has.
fn words(text: &[u8], queue: &[u32], d: Destination, room: &mut [u8]) -> Option<usize>
    requires queue_numbers_in_bounds { d.event * queue_numbers ≤ length queue.now }
    requires span_bound { d.span + 2 ≤ d.event }
    ensures { Wrote room.old 0 (words_of text.now (drop (suc d.span) (events (d.event - 1) queue.now))) result room.new }
{
    let mut out = Output::new(room);
    for i in d.span + 1..d.event - 1 {
        word(&mut out, text, rooms::event_at(queue, i))?;
    }
    Some(out.count())
}

// One byte of a label of several lines. A newline gives nothing. Before another byte a space stands
// where a newline was, but for an inline link.
#[tactic(auto, unfolding(reading::specs::Labels::pieces, crate::specs::Building::behind))]
fn byte(out: &mut Output, j: &mut Joint, b: u8) -> Option<()>
    ensures bytes { Adds out.old (given j.old (b ∷ [])) result out.new }
    ensures joint { IfSome result (λ _. j.new ≡ behind j.old (b ∷ [])) }
{
    if b == b'\n' {
        j.apart = j.begun;
        return Some(());
    }
    if j.apart & !j.inline {
        out.put_byte(b' ')?;
    }
    out.put_byte(b)?;
    j.begun = true;
    j.apart = false;
    Some(())
}

// Some bytes of it.
fn bytes(out: &mut Output, j: &mut Joint, s: &[u8]) -> Option<()>
    ensures bytes { Adds out.old (given j.old s.now) result out.new }
    ensures joint { IfSome result (λ _. j.new ≡ behind j.old s.now) }
{
    for b in s {
        byte(out, j, *b)?;
    }
    Some(())
}

// What an event behind the destination's opener gives; the span before it ends at `at`. Where the
// two do not touch, it begins as behind a newline.
#[tactic(auto, unfolding(reading::specs::Labels::pieces, crate::specs::Building::behind, crate::specs::Building::stretch))]
fn stretch(out: &mut Output, j: &mut Joint, text: &[u8], e: Event, at: Place) -> Option<()>
    ensures bytes { Adds out.old (given j.old (stretch_of text.now at.0 e)) result out.new }
    ensures joint { IfSome result (λ _. j.new ≡ behind j.old (stretch_of text.now at.0 e)) }
{
    if at != e.start {
        j.apart = j.begun;
    }
    bytes(out, j, e.under(text))
}

// A label from the front of a room, of the events of a queue of n behind the destination's opener,
// which ends at `end`: how many bytes it has.
fn lines(
    text: &[u8],
    queue: &[u32],
    n: usize,
    d: Destination,
    end: Place,
    room: &mut [u8],
) -> Option<usize>
    requires queue_numbers_in_bounds { n * queue_numbers ≤ length queue.now }
    requires event_lt_n { d.event < n }
    ensures { Wrote room.old 0 (pieces (separator d.inline) false false
        (stretches text.now end.0 (drop (suc d.event) (events n queue.now)))) result room.new }
{
    let mut out = Output::new(room);
    let mut j = Joint {
        inline: d.inline,
        begun: false,
        apart: false,
    };
    let mut at = end;
    for i in d.event + 1..n {
        let e = rooms::event_at(queue, i);
        stretch(&mut out, &mut j, text, e, at)?;
        at = e.end;
    }
    Some(out.count())
}

// A label that is a part of the text.
fn home_in_text(from: Place, to: Place, link: Link, used: usize, fits: bool) -> LabelHome
    ensures { result ≡ in_text from to link used fits }
{
    LabelHome {
        home: Home {
            home: IN_TEXT,
            start: from,
            end: to,
            link,
        },
        labels: used,
        fits,
    }
}

// A label that does not fit, or comes after one that did not: it has no home.
fn unbuilt(link: Link, used: usize) -> LabelHome
    ensures { result ≡ unbuilt_of link used }
{
    LabelHome {
        home: Home { link, ..NOWHERE },
        labels: used,
        fits: false,
    }
}

// A label of so many bytes, built behind the first bytes of the room. What was built of one that
// did not fit is not counted.
#[tactic(auto, unfolding(crate::specs::Building::in_room))]
fn home_in_room(link: Link, used: usize, built: Option<usize>) -> LabelHome
    requires used_bound { used < 2 ^ 32 }
    requires built_bound { IfSome built (λ n. used + n < 2 ^ 32) }
    ensures { result ≡ in_room link used built }
{
    let Some(n) = built else {
        return unbuilt(link, used);
    };
    LabelHome {
        home: Home {
            home: IN_LABELS,
            start: Place(used as u32),
            end: Place((used + n) as u32),
            link,
        },
        labels: used + n,
        fits: true,
    }
}

// The label of a link, of a queue of n events: the queue is a lent room and a count (document 01,
// "What changes shape"), and so is the label room, with whether all labels fitted so far.
#[tactic(auto, unfolding(reading::specs::Labels::label_of, reading::specs::Labels::label_home))]
pub fn label_of(
    text: &[u8],
    queue: &[u32],
    n: usize,
    d: Destination,
    labels: &mut [u8],
    used: usize,
    fits: bool,
) -> LabelHome
    requires queue_numbers_in_bounds { n * queue_numbers ≤ length queue.now }
    requires event_lt_n { d.event < n }
    requires span_bound { d.span + 2 ≤ d.event }
    requires used_in_bounds { used ≤ length labels.old }
    requires labels_len_bound { length labels.old < 2 ^ 32 }
    ensures { LabelStands result labels.new (label_home (length labels.old) d.link (take used labels.old) fits
        (label_of text.now d.inline d.base d.at.0 (event_at queue.now d.event)
        (drop (suc d.span) (take (d.event - 1) (events n queue.now))) (drop (suc d.event) (events n queue.now)))) }
{
    let e = rooms::event_at(queue, d.event);
    let by_text = !d.inline & (e.end == d.at);
    if !by_text & (d.base <= e.start.0 as usize) {
        return home_in_text(e.end, d.at, d.link, used, fits);
    }
    if !fits {
        return unbuilt(d.link, used);
    }
    if by_text {
        let built = words(text, queue, d, &mut labels[used..]);
        return home_in_room(d.link, used, built);
    }
    let built = lines(text, queue, n, d, e.end, &mut labels[used..]);
    home_in_room(d.link, used, built)
}
