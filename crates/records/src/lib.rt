#![tactic(auto)]
// The reader on line records: a lent slice of starts and ends.
ghost use Rattle.std.specs.Prelude.{◌≡◌, ◌+◌, ◌/◌, ◌≤◌, length};
ghost use Rattle.reading.specs.Events.{event_numbers};
ghost use Rattle.reading.specs.Questions.{total, outcome};
ghost use Rattle.reading.specs.Walked.{Accepted, AcceptedHomes};
ghost use Rattle.outcome.specs.Outcomes.{rooms_of, outcome_of};

use reading::{Answer, Line};

// `reader::read_lines` of line records, with the rooms one by one as there.
pub fn read(
    text: &[u8],
    lines: &[Line],
    reading: u32,
    events: &mut [u32],
    queue: &mut [u32],
    openers: &mut [u32],
    labels: &mut [u8],
) -> Answer
    ensures as_defined { outcome_of result events.new queue.new openers.new labels.new ≡ outcome text.now
        lines.now reading (rooms_of events.old queue.old openers.old labels.old) }
    ensures accepted { result.code ≡ 0 → Accepted text.now lines.now reading (rooms_of events.old queue.old openers.old labels.old) (outcome_of result events.new queue.new openers.new labels.new) }
    ensures homed { result.code ≡ 0 → AcceptedHomes text.now lines.now reading (rooms_of events.old queue.old openers.old labels.old) (outcome_of result events.new queue.new openers.new labels.new) }
    ensures events_suffice { total lines.now + 1 ≤ length events.old / event_numbers → result.code ≡ 9 → ⊥ }
{
    reader::read_lines(text, lines, reading, events, queue, openers, labels)
}
