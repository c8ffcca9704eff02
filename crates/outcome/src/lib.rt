#![tactic(auto)]
// What a call leaves: what every room holds at the end, after a refusal or an acceptance.
ghost use Rattle.std.specs.Prelude.{◌≡◌, ◌*◌, ◌^◌, ◌≤◌, ◌<◌, length};
ghost use Rattle.reading.specs.Events.{event_numbers};
ghost use Rattle.reading.specs.Questions.{zeros, cleared};
ghost use Rattle.outcome.specs.Outcomes.{accepts};
ghost use Rattle.outcome.specs.Lending.{held, left_by, Lent};

use reading::{Answer, EVENT_NUMBERS};

// Zeroes the rooms that nothing is handed out in.
fn clear_work(queue: &mut [u32], openers: &mut [u32])
    ensures queue_after { queue.new ≡ zeros queue.old }
    ensures openers_after { openers.new ≡ zeros openers.old }
{
    queue.fill(0);
    openers.fill(0);
}

// The four rooms of a call, lent for writing.
#[derive(Drop)]
pub struct Rooms<'e, 'q, 'o, 'l> {
    pub events: &'e mut [u32],
    pub queue: &'q mut [u32],
    pub openers: &'o mut [u32],
    pub labels: &'l mut [u8],
}

impl<'e, 'q, 'o, 'l> Rooms<'e, 'q, 'o, 'l> {
    // After a refusal under 7 to 11 all four are zero.
    pub fn clear(&mut self)
        ensures value { held self.new ≡ cleared (held self.old) }
        ensures lent { Lent self.old self.new }
    {
        self.events.fill(0);
        clear_work(self.queue, self.openers);
        self.labels.fill(0);
    }

    // So many events and label bytes stay; all else is zero. So many opener records were looked at.
    pub fn accept(&mut self, count: usize, bytes: usize, looks: u64) -> Answer
        requires event_numbers_in_bounds { count * event_numbers ≤ length self.old.events.now }
        requires count_bound { count < 2 ^ 32 }
        requires bytes_in_bounds { bytes ≤ length self.old.labels.now }
        requires bytes_bound { bytes < 2 ^ 32 }
        ensures value { left_by result self.new ≡ accepts count bytes looks (held self.old) }
        ensures lent { Lent self.old self.new }
    {
        let records = count * EVENT_NUMBERS;
        let handed = count as u32;
        let used = bytes as u32;
        self.events[records..].fill(0);
        clear_work(self.queue, self.openers);
        self.labels[bytes..].fill(0);
        Answer {
            code: 0,
            place: 0,
            events: handed,
            labels: used,
            looks,
        }
    }
}
