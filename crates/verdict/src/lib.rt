#![tactic(auto)]
// What comes of the reader's answer: questions 10 and 11, and what the call for a fragment leaves.
ghost use Rattle.std.specs.Prelude.{◌≡◌, ◌≤◌, ◌*◌, ◌/◌, length, IfOk};
ghost use Rattle.reading.specs.Events.{event_numbers};
ghost use Rattle.outcome.specs.Lending.{held, left_by, Lent};
ghost use Rattle.listing.specs.Listing.{listed};
ghost use Rattle.markup.specs.Markup.{fragment};
ghost use Rattle.verdict.specs.Fragments.{barred as barred_of, first_barred, refusal as refusal_of, fragmented_of, behind};
ghost use Rattle.verdict.specs.Judging.{shown, shown_as, answer_of, Listed};

use outcome::Rooms;
use output::OUTPUT_ROOM;
use reading::{Answer, EVENT_NUMBERS, Place, container, kind};

// The refusal of a link, an image, an autolink or a footnote reference, in a number for C.
pub const LINKED: u32 = 10;

const ENTER_REFERENCE_LINK: u32 = kind::ENTER + container::REFERENCE_LINK;

// The answer: code, place, how many events, how many label bytes, and the length of the fragment.
#[repr(C)]
#[derive(Clone, Copy)]
pub struct FragmentAnswer {
    pub code: u32,
    pub place: u32,
    pub events: u32,
    pub labels: u32,
    pub length: u32,
}

// Why there is no fragment: a link, an image, an autolink or a footnote reference begins at a
// place; or the output room is too short.
#[derive(Clone, Copy)]
enum Refusal {
    Linked(Place),
    OutputRoom,
}

impl From<Refusal> for FragmentAnswer {
    ghost from_gives = { λ r a. a ≡ answer_of r };

    fn from(r: Refusal) -> FragmentAnswer {
        match r {
            Refusal::Linked(at) => refused(LINKED, at.0),
            Refusal::OutputRoom => refused(OUTPUT_ROOM, 0),
        }
    }
}

// Nothing is handed out.
fn refused(code: u32, place: u32) -> FragmentAnswer
    ensures { result ≡ refusal_of code place }
{
    FragmentAnswer {
        code,
        place,
        events: 0,
        labels: 0,
        length: 0,
    }
}

// A link, an image, an autolink or a footnote reference.
#[tactic(auto, unfolding(crate::specs::Fragments::barred))]
fn barred(k: u32) -> bool
    ensures { result ≡ barred_of k }
{
    matches!(
        k,
        kind::FOOTNOTE_REFERENCE | ENTER_REFERENCE_LINK..=kind::ENTER_AUTOLINK
    )
}

// Where the first of them begins.
fn find_barred(events: &[u32]) -> Option<Place>
    ensures { result ≡ first_barred (listed (length events.now / event_numbers) events.now) }
{
    for i in 0..events.len() / EVENT_NUMBERS {
        let e = listing::event_at(events, i);
        if barred(e.kind) {
            return Some(e.start);
        }
    }
    None
}

// Questions 10 and 11: how long the fragment is, from the front of the output room.
#[tactic(auto, unfolding(crate::specs::Judging::shown, crate::specs::Judging::shown_as, output::specs::Written::written, output::specs::Written::append, output::specs::Written::Within))]
fn show(text: &[u8], events: &[u32], out: &mut [u8]) -> Result<usize, Refusal>
    ensures shown { shown result out.new ≡ shown_as (first_barred (listed (length events.now / event_numbers) events.now))
        (fragment text.now (listed (length events.now / event_numbers) events.now)) (length out.old) }
    ensures within { IfOk result (λ n. n ≤ length out.old) }
{
    match find_barred(events) {
        Some(at) => Err(Refusal::Linked(at)),
        None => render::render(text, events, out).ok_or(Refusal::OutputRoom),
    }
}

// The room of the events that were handed out.
#[tactic(auto, using(crate::proofs::Concluding::handed))]
fn handed<'r>(rooms: &'r Rooms, count: usize) -> &'r [u32]
    requires { count * event_numbers ≤ length rooms.now.events.now }
    ensures { listed (length result.now / event_numbers) result.now ≡ listed count rooms.now.events.now }
{
    &rooms.events[..count * EVENT_NUMBERS]
}

// What comes of the reader's answer: the fragment of the events that it handed out, or a refusal.
pub fn conclude(a: Answer, text: &[u8], rooms: &mut Rooms, out: &mut [u8]) -> FragmentAnswer
    requires { Listed a text.now rooms.old.events.now }
    ensures value { fragmented_of result (held rooms.new) out.new ≡ behind
        text.now (listed a.events rooms.old.events.now) (held rooms.old) (left_by a rooms.old) out.old }
    ensures lent { Lent rooms.old rooms.new }
{
    if a.code != 0 {
        out.fill(0);
        return refused(a.code, a.place);
    }
    match show(text, handed(rooms, a.events as usize), out) {
        Ok(n) => {
            out[n..].fill(0);
            FragmentAnswer {
                code: 0,
                place: 0,
                events: a.events,
                labels: a.labels,
                length: n as u32,
            }
        }
        Err(r) => {
            out.fill(0);
            rooms.clear();
            FragmentAnswer::from(r)
        }
    }
}
