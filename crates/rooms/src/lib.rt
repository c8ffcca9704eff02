#![tactic(auto)]
// The parser: what it is at, and the lent rooms in which its records lie.
ghost use Rattle.std.specs.Prelude.{◌≡◌, ℕ, [], ◌∷◌, ◌+◌, ◌*◌, ◌^◌, ◌≤◌, ◌<◌, length, IfSome};
ghost use Rattle.reading.specs.Events as numbers;
ghost use Rattle.reading.specs.Events.{queue_numbers, opener_numbers};
ghost use Rattle.reading.specs.Machine.{prev};
ghost use Rattle.rooms.specs.Records.{event_at};
ghost use Rattle.rooms.specs.Standing.{viewed};

mod span;

use lex::Cursor;
use reading::{
    Closer, Event, Home, IN_TEXT, Last, Link, OPENER_NUMBERS, Opener, Place, QUEUE_NUMBERS,
    Verbatim,
};
pub use span::Span;

// What a reading is at between two tokens: the cursor in the line, how many records the queue and
// the openers hold, the open verbatim, the newest event, the label bytes built and whether all of
// them fitted, the next link's number, the brace at which it stands, and how many opener records
// were looked at. The bytes that were built before one that did not fit are counted still.
#[derive(Clone, Copy)]
pub struct Status {
    pub cursor: Cursor,
    pub events: usize,
    pub openers: usize,
    pub inside: Option<Verbatim>,
    pub last: Option<Last>,
    pub labels: usize,
    pub fits: bool,
    pub links: Link,
    pub refused: Option<Place>,
    pub looks: u64,
}

// The parser: what it is at, and the rooms that are lent to it. That these hold what it counts
// (`Holding`), and room for more, is asked call by call: some functions touch no room, and a push
// spends it. The line is lent beside it: lines begin and end within a parser's life, and
// `inline::finish` has none.
#[derive(Drop)]
pub struct Parser<'q, 'o, 'l> {
    pub at: Status,
    pub queue: &'q mut [u32],
    pub openers: &'o mut [u32],
    pub labels: &'l mut [u8],
}

// A line: its bytes, where it starts, and the byte before it, 0 at the text's start. It is of the
// line alone: a label may lie in another one, and who makes labels has the text beside it. Of a
// line and a token in it functions ask `Fits` or less: a type of both would ask more of those.
#[derive(Clone, Copy)]
pub struct View<'s> {
    pub bytes: &'s [u8],
    pub base: usize,
    pub before: u8,
}

impl<'s> View<'s> {
    // The place of the i-th byte. That it fits is asked of the byte: said of the line, it would
    // have to be asked that the byte is in it.
    pub fn place(&self, i: usize) -> Place
        requires { self.now.base + i < 2 ^ 32 }
        ensures { result ≡ numbers.place (self.now.base + i) }
    {
        Place((self.base + i) as u32)
    }

    // A part of the text as a home.
    pub fn in_text(&self, i: usize, j: usize) -> Home
        requires i_bound { self.now.base + i < 2 ^ 32 }
        requires j_bound { self.now.base + j < 2 ^ 32 }
        ensures { result ≡ numbers.in_text (self.now.base + i) (self.now.base + j) }
    {
        Home {
            home: IN_TEXT,
            start: self.place(i),
            end: self.place(j),
            link: Link(0),
        }
    }

    // An event with a home, from the i-th byte to before the j-th.
    pub fn homed(&self, kind: u32, h: Home, i: usize, j: usize) -> Event
        requires i_bound { self.now.base + i < 2 ^ 32 }
        requires j_bound { self.now.base + j < 2 ^ 32 }
        ensures { result ≡ numbers.homed kind h (self.now.base + i) (self.now.base + j) }
    {
        event_of(kind, self.place(i), self.place(j), h)
    }

    // The byte before the i-th.
    #[tactic(auto, unfolding(reading::specs::Machine::prev))]
    pub fn byte_before(&self, i: usize) -> u8
        requires { i ≤ length self.now.bytes.now }
        ensures { result ≡ prev (viewed self.now) i }
    {
        if i == 0 {
            return self.before;
        }
        self.bytes[i - 1]
    }
}

// An event with a kind, a span and a home.
pub fn event_of(kind: u32, start: Place, end: Place, h: Home) -> Event
    ensures { result ≡ numbers.homed kind h start.0 end.0 }
{
    Event {
        kind,
        start,
        end,
        home: h.home,
        home_start: h.start,
        home_end: h.end,
        link: h.link,
    }
}

// The event at place i of the queue, a lent room of records.
pub fn event_at(queue: &[u32], i: usize) -> Event
    requires { i * queue_numbers + queue_numbers ≤ length queue.now }
    ensures { result ≡ event_at queue.now i }
{
    slots::event_at::<QUEUE_NUMBERS>(queue, i)
}

impl<'q, 'o, 'l> Parser<'q, 'o, 'l> {
    ghost use Rattle.reading.specs.Events.{becomes, becomes_to, shorter};
    ghost use Rattle.reading.specs.Machine.{puts, amend};
    ghost use Rattle.reading.specs.Containers.{seek as sought};
    ghost use Rattle.rooms.specs.Records.{events, opener_at, opens, place};
    ghost use Rattle.rooms.specs.Standing.{fresh_of};
    ghost use Rattle.rooms.specs.Steps.{Queued, Changed, Room, staying, amending, cutting, opening};

    // Nothing is queued, open or refused.
    pub fn new(
        cursor: Cursor,
        last: Option<Last>,
        queue: &'q mut [u32],
        openers: &'o mut [u32],
        labels: &'l mut [u8],
    ) -> Self
        ensures status { result.at ≡ fresh_of cursor last }
        ensures queue_lent { result.queue.ghost_name ≡ queue.entry.ghost_name }
        ensures openers_lent { result.openers.ghost_name ≡ openers.entry.ghost_name }
        ensures labels_lent { result.labels.ghost_name ≡ labels.entry.ghost_name }
        ensures queue_held { result.queue.now ≡ queue.old }
        ensures openers_held { result.openers.now ≡ openers.old }
        ensures labels_held { result.labels.now ≡ labels.old }
    {
        let at = Status {
            cursor,
            events: 0,
            openers: 0,
            inside: None,
            last,
            labels: 0,
            fits: true,
            links: Link(0),
            refused: None,
            looks: 0,
        };
        Parser {
            at,
            queue,
            openers,
            labels,
        }
    }

    // The event at place i of the queue. It asks that the queue's room holds such a record, as
    // `set_kind`, `set_kind_to` and `shorten` do: that there are more than i events would ask more.
    pub fn event_at(&self, i: usize) -> Event
        requires { i * queue_numbers + queue_numbers ≤ length self.now.queue.now }
        ensures { result ≡ event_at self.now.queue.now i }
    {
        event_at(self.queue, i)
    }

    // One more event, and what is noted of it. What lies behind it is open.
    pub fn push(&mut self, e: Event, last: Option<Last>)
        requires { Room 1 self.old }
        ensures queued { Queued self.old self.new (staying self.old (puts (e ∷ []) last)) }
        ensures count { self.new.at.events ≡ self.old.at.events + 1 }
    {
        let n = self.at.events;
        slots::store::<QUEUE_NUMBERS>(self.queue, n, e);
        self.at.events = n + 1;
        self.at.last = last;
    }

    // Another kind and home for the event at place i, whose span stays.
    pub fn set_kind(&mut self, i: usize, kind: u32, h: Home)
        requires { i * queue_numbers + queue_numbers ≤ length self.old.queue.now }
        ensures all { (n : ℕ) → events n self.new.queue.now ≡ amend (becomes kind h) i (events n self.old.queue.now) }
        ensures queued { Queued self.old self.new (staying self.old (amending (becomes kind h) i)) }
        ensures status { self.new.at ≡ self.old.at }
    {
        let end = self.event_at(i).end;
        self.set_kind_to(i, kind, h, end);
    }

    // The same, with another end. This and the one below differ in what they make of the event: as
    // one function they would take a closure, of which a contract has a relation, and `amending` is
    // of a function of events.
    pub fn set_kind_to(&mut self, i: usize, kind: u32, h: Home, end: Place)
        requires { i * queue_numbers + queue_numbers ≤ length self.old.queue.now }
        ensures all { (n : ℕ) → events n self.new.queue.now ≡ amend (becomes_to kind h end.0) i (events n self.old.queue.now) }
        ensures queued { Queued self.old self.new (staying self.old (amending (becomes_to kind h end.0) i)) }
        ensures status { self.new.at ≡ self.old.at }
    {
        let queue = &mut *self.queue;
        let e = event_at(queue, i);
        slots::store::<QUEUE_NUMBERS>(queue, i, event_of(kind, e.start, end, h));
    }

    // The event at place i, shorter at its end by some bytes that it has.
    pub fn shorten(&mut self, i: usize, bytes: u32)
        requires queue_numbers_in_bounds { i * queue_numbers + queue_numbers ≤ length self.old.queue.now }
        requires bytes_bound { bytes ≤ (event_at self.old.queue.now i).end.0 }
        ensures all { (n : ℕ) → events n self.new.queue.now ≡ amend (shorter bytes) i (events n self.old.queue.now) }
        ensures queued { Queued self.old self.new (staying self.old (amending (shorter bytes) i)) }
        ensures status { self.new.at ≡ self.old.at }
    {
        let queue = &mut *self.queue;
        let e = event_at(queue, i);
        let end = Place(e.end.0 - bytes);
        slots::store::<QUEUE_NUMBERS>(queue, i, Event { end, ..e });
    }

    // The first n events alone.
    pub fn cut(&mut self, n: usize)
        requires { n ≤ self.old.at.events }
        ensures queued { Queued self.old self.new (staying self.old (cutting n)) }
        ensures count { self.new.at.events ≡ n }
    {
        self.at.events = n;
    }

    // The opener at place i: three numbers of its record; the fourth is open.
    pub fn opener_at(&self, i: usize) -> Opener
        requires { i * opener_numbers + opener_numbers ≤ length self.now.openers.now }
        ensures { result ≡ opener_at self.now.openers.now i }
    {
        let at = i * OPENER_NUMBERS;
        Opener {
            sort: self.openers[at].into(),
            event: self.openers[at + 1] as usize,
            span: self.openers[at + 2] as usize,
        }
    }

    // One more opener. What lies behind it is open.
    pub fn push_opener(&mut self, o: Opener)
        requires opener_numbers_in_bounds { self.old.at.openers * opener_numbers + opener_numbers ≤ length self.old.openers.now }
        requires event_bound { o.event < 2 ^ 32 }
        requires span_bound { o.span < 2 ^ 32 }
        ensures changed { Changed self.old self.new (staying self.old (opening o)) }
        ensures events { self.new.at.events ≡ self.old.at.events }
        ensures count { self.new.at.openers ≡ self.old.at.openers + 1 }
    {
        let n = self.at.openers;
        let at = n * OPENER_NUMBERS;
        self.openers[at] = o.sort.into();
        self.openers[at + 1] = o.event as u32;
        self.openers[at + 2] = o.span as u32;
        self.at.openers = n + 1;
    }

    // The newest of the first n openers that a mark closes; what closes nothing finds none. A loop
    // from the top with a break is the form that document 01 names (docs/DECISIONS.md, "Forms"). It
    // is never laid into its caller, where the loop would have too few registers.
    #[inline(never)]
    pub fn seek(&self, n: usize, closes: Option<Closer>) -> Option<usize>
        requires { n * opener_numbers ≤ length self.now.openers.now }
        ensures sought { result ≡ place (sought closes (opens n self.now.openers.now)) }
        ensures within { IfSome result (λ i. i < n) }
    {
        let mark = closes?;
        let openers = &*self.openers;
        let mut i = n;
        loop {
            if i == 0 {
                break None;
            }
            i -= 1;
            if tables::closed_by(openers[i * OPENER_NUMBERS].into()) == mark {
                break Some(i);
            }
        }
    }
}
