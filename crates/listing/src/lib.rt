#![tactic(auto)]
// Events as they stand in the event room, once they are handed out.
ghost use Rattle.std.specs.Prelude.{◌≡◌, [], ◌∷◌, ◌+◌, ◌*◌, ◌≤◌, length};
ghost use Rattle.std.proofs.lemmas.List.Edits.{sets};
ghost use Rattle.reading.specs.Events.{event_numbers};
ghost use Rattle.reading.specs.Questions.{numbers};
ghost use Rattle.listing.specs.Listing.{event_at, record_at};

use reading::{EVENT_NUMBERS, Event, Located};

// Which number of a record the line is.
const LINE: usize = 7;

// The i-th event.
pub fn event_at(events: &[u32], i: usize) -> Event
    requires { i * event_numbers + event_numbers ≤ length events.now }
    ensures { result ≡ event_at events.now i }
{
    slots::event_at::<EVENT_NUMBERS>(events, i)
}

// And with its line.
pub fn record_at(events: &[u32], i: usize) -> Located
    requires { i * event_numbers + event_numbers ≤ length events.now }
    ensures { result ≡ record_at events.now i }
{
    Located {
        event: event_at(events, i),
        line: events[i * EVENT_NUMBERS + LINE],
    }
}

// An event with its line, put as the i-th.
#[tactic(auto, unfolding(reading::specs::Questions::numbers))]
pub fn store(room: &mut [u32], i: usize, r: Located)
    requires { i * event_numbers + event_numbers ≤ length room.old }
    ensures { room.new ≡ sets room.old (i * event_numbers) (numbers (r ∷ [])) }
{
    slots::store::<EVENT_NUMBERS>(room, i, r.event);
    room[i * EVENT_NUMBERS + LINE] = r.line;
}

// The line of the i-th event alone.
pub fn set_line(room: &mut [u32], i: usize, line: u32)
    requires { i * event_numbers + event_numbers ≤ length room.old }
    ensures { room.new ≡ sets room.old (i * event_numbers + 7) (line ∷ []) }
{
    room[i * EVENT_NUMBERS + LINE] = line;
}
