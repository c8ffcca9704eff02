#![tactic(auto)]
// Handing out the queue's events: touching Str events become one, empty ones vanish.
ghost use Rattle.std.specs.Prelude.{◌≡◌, List, [], ◌∷◌, ◌*◌, ◌/◌, ◌≤◌, length};
ghost use Rattle.reading.specs.declared.Event.{Event};
ghost use Rattle.reading.specs.Events.{event_numbers, queue_numbers};
ghost use Rattle.reading.specs.Draining.{drain};
ghost use Rattle.rooms.specs.Records.{events};
ghost use Rattle.drain.specs.Handing.{answered, handed};

use reading::{EVENT_NUMBERS, Event, Located, NOWHERE, Place, kind};

// A room that is lent, how many events were handed out into it, and the Str behind them that may
// still grow.
#[derive(Drop)]
struct Held<'r> {
    room: &'r mut [u32],
    count: usize,
    start: Place,
    end: Place,
}

impl<'r> Held<'r> {
    ghost use Rattle.reading.specs.Draining.{flushed};
    ghost use Rattle.drain.specs.Storing.{behind, Puts};

    // One event of the queue: a Str grows the one before it if it touches.
    #[tactic(auto, unfolding(reading::specs::Draining::drained, crate::specs::Storing::after))]
    fn event(&mut self, e: Event) -> Option<()>
        ensures { (es : List Event) →
            Puts self.old (behind self.old (e ∷ es)) result self.new (behind self.new es) }
    {
        if e.kind != kind::STR {
            self.flush()?;
            self.hand_out(e)?;
            self.start = e.end;
            self.end = e.end;
            return Some(());
        }
        if self.end == e.start {
            self.end = e.end;
            return Some(());
        }
        self.flush()?;
        self.start = e.start;
        self.end = e.end;
        Some(())
    }

    // The Str that was held, if it is not empty.
    #[tactic(auto, unfolding(reading::specs::Draining::flushed))]
    fn flush(&mut self) -> Option<()>
        ensures { (es : List Event) →
            Puts self.old (flushed self.old.start.0 self.old.end.0 es) result self.new es }
    {
        if self.start == self.end {
            return Some(());
        }
        self.hand_out(rooms::event_of(kind::STR, self.start, self.end, NOWHERE))
    }

    // One event behind those that were handed out, if the room holds it. Its line is put in later.
    #[tactic(auto, using(crate::proofs::Storing::put_all_full), unfolding(crate::specs::Storing::put, crate::specs::Storing::put_all, crate::specs::Storing::after, reading::specs::Located::located, reading::specs::Located::line_of))]
    fn hand_out(&mut self, e: Event) -> Option<()>
        ensures { (es : List Event) → Puts self.old (e ∷ es) result self.new es }
    {
        if self.count < self.room.len() / EVENT_NUMBERS {
            let located = Located { event: e, line: 0 };
            listing::store(self.room, self.count, located);
            self.count += 1;
            return Some(());
        }
        None
    }
}

// The events of a queue of n records: so many are handed out; or none, if the room is full before
// the last. The queue is a lent room and a count (document 01, "What changes shape").
pub fn drain(queue: &[u32], n: usize, room: &mut [u32]) -> Option<usize>
    requires { n * queue_numbers ≤ length queue.now }
    ensures value { result ≡ answered (length (drain (events n queue.now))) (length room.old / event_numbers) }
    ensures room_after { room.new ≡ handed (drain (events n queue.now)) room.old }
{
    let mut held = Held {
        room,
        count: 0,
        start: Place(0),
        end: Place(0),
    };
    for i in 0..n {
        held.event(rooms::event_at(queue, i))?;
    }
    held.flush()?;
    Some(held.count)
}
