#![tactic(auto)]
// The fragment of a list of events: bytes of the sheet, one event, all events.
ghost use Rattle.std.specs.Prelude.{◌≡◌, ◌∷◌, [], ◌/◌, length, true};
ghost use Rattle.reading.specs.Events.{event_numbers};
ghost use Rattle.listing.specs.Listing.{listed};
ghost use Rattle.output.specs.Written.{Wrote, Adds};
ghost use Rattle.markup.specs.Markup.{escape_by, entities, escaped, written, unless_raw, fragment};

use output::Output;
use reading::{EVENT_NUMBERS, Event, kind};

// A byte that is written as it is.
#[tactic(auto, unfolding(markup::specs::Markup::escape_by, markup::specs::Markup::entities))]
fn plain(b: u8) -> bool
    ensures { result ≡ true → escape_by entities b ≡ b ∷ [] }
{
    (b != b'&') & (b != b'<') & (b != b'>')
}

// A byte of the sheet.
#[tactic(auto, unfolding(markup::specs::Markup::escape_by, markup::specs::Markup::entities, classes::specs::Classes::bytes))]
fn put_escaped(b: u8, out: &mut Output) -> Option<()>
    ensures { Adds out.old (escape_by entities b) result out.new }
{
    match b {
        b'&' => out.put(b"&amp;"),
        b'<' => out.put(b"&lt;"),
        b'>' => out.put(b"&gt;"),
        _ => out.put_byte(b),
    }
}

// Bytes of the sheet: those that are written as they are, up to one that is not, and so on. By a
// `for` over the bytes, case (e) of bench/run takes 0.50 of the Rust's time and misses its bar in
// some runs, which it meets so with 0.49.
fn put_text(text: &[u8], out: &mut Output) -> Option<()>
    ensures { Adds out.old (escaped text.now) result out.new }
{
    let mut rest = &text[out.put_while(text, plain)..];
    while let Some((b, behind)) = rest.split_first() {
        put_escaped(*b, out)?;
        rest = &behind[out.put_while(behind, plain)..];
    }
    Some(())
}

// What an event writes. Each arm has parameters of its own.
#[tactic(auto, unfolding(markup::specs::Markup::tag, markup::specs::Markup::characters, markup::specs::Markup::escaped, markup::specs::Markup::find, markup::specs::Markup::breaking))]
fn put_event(text: &[u8], e: Event, out: &mut Output) -> Option<()>
    ensures { Adds out.old (written text.now e) result out.new }
{
    match e.kind {
        kind::STR | kind::SYMBOL => put_text(e.under(text), out),
        k if k < kind::ENTER => tags::put_atom(out, k),
        k if k < kind::EXIT => tags::put_opening(out, k - kind::ENTER),
        k => tags::put_closing(out, k - kind::EXIT),
    }
}

// What an event writes where so many raw parts are open before it.
#[tactic(auto, unfolding(markup::specs::Markup::unless_raw))]
fn put_outside(text: &[u8], e: Event, raw: usize, out: &mut Output) -> Option<()>
    ensures { Adds out.old (unless_raw raw (written text.now e)) result out.new }
{
    if raw == 0 {
        put_event(text, e, out)
    } else {
        Some(())
    }
}

// The fragment of the events of a room.
pub fn render(text: &[u8], events: &[u32], room: &mut [u8]) -> Option<usize>
    ensures { Wrote room.old 0 (fragment text.now (listed (length events.now / event_numbers) events.now)) result room.new }
{
    let mut out = Output::new(room);
    let mut raw = 0;
    for i in 0..events.len() / EVENT_NUMBERS {
        let e = listing::event_at(events, i);
        put_outside(text, e, raw, &mut out)?;
        raw = markup::raw_behind(raw, e.kind);
    }
    Some(out.count())
}
