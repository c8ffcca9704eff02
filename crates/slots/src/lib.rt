#![tactic(auto)]
// An event as it lies in a room of numbers, in records of W numbers each: the first seven are the
// event's. A room is lent as numbers, by the C interface, so that a record is found by its place.
ghost use Rattle.std.specs.Prelude.{◌≡◌, [], ◌∷◌, ◌+◌, ◌*◌, ◌≤◌, length};
ghost use Rattle.std.proofs.lemmas.List.Edits.{sets};
ghost use Rattle.reading.specs.Events.{event_numbers};
ghost use Rattle.reading.specs.Questions.{record_of};
ghost use Rattle.slots.specs.Slots.{event_in};

use reading::{Event, Link, Place};

// The event of the i-th record.
pub fn event_at<const W: usize>(room: &[u32], i: usize) -> Event
    requires wide { event_numbers ≤ W }
    requires in_bounds { i * W + W ≤ length room.now }
    ensures { result ≡ event_in W room.now i }
{
    let at = i * W;
    Event {
        kind: room[at],
        start: Place(room[at + 1]),
        end: Place(room[at + 2]),
        home: room[at + 3],
        home_start: Place(room[at + 4]),
        home_end: Place(room[at + 5]),
        link: Link(room[at + 6]),
    }
}

// An event put into the i-th record.
pub fn store<const W: usize>(room: &mut [u32], i: usize, e: Event)
    requires wide { event_numbers ≤ W }
    requires in_bounds { i * W + W ≤ length room.old }
    ensures { room.new ≡ sets room.old (i * W) (record_of e) }
{
    let at = i * W;
    room[at] = e.kind;
    room[at + 1] = e.start.0;
    room[at + 2] = e.end.0;
    room[at + 3] = e.home;
    room[at + 4] = e.home_start.0;
    room[at + 5] = e.home_end.0;
    room[at + 6] = e.link.0;
}
