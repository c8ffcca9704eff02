#![tactic(auto)]
// The fragment of a sheet: the reader's call, and what it hands out written in HTML.
ghost use Rattle.std.specs.Prelude.{◌≡◌, ◌+◌, ◌/◌, ◌≤◌, length};
ghost use Rattle.reading.specs.Events.{event_numbers};
ghost use Rattle.reading.specs.Questions.{total};
ghost use Rattle.reading.specs.Walked.{AcceptedHomes};
ghost use Rattle.outcome.specs.Outcomes.{rooms_of};
ghost use Rattle.verdict.specs.Fragments.{fragmented_of, fragmented, read_of, Shows, enough};

use outcome::Rooms;
use reading::Line;
use verdict::FragmentAnswer;

// Reads a sheet, as `records::read`, and writes its fragment from the front of the output room. The
// rooms are lent one by one, as at `reader::read_lines`.
pub fn write(
    text: &[u8],
    lines: &[Line],
    reading: u32,
    events: &mut [u32],
    queue: &mut [u32],
    openers: &mut [u32],
    labels: &mut [u8],
    out: &mut [u8],
) -> FragmentAnswer
    ensures as_defined { fragmented_of result (rooms_of events.new queue.new openers.new labels.new) out.new ≡ fragmented
        text.now lines.now reading (rooms_of events.old queue.old openers.old labels.old) out.old }
    ensures shows { result.code ≡ 0 → Shows text.now lines.now reading (rooms_of events.old queue.old openers.old labels.old) (fragmented_of result (rooms_of events.new queue.new openers.new labels.new)
        out.new) }
    ensures homed { result.code ≡ 0 → AcceptedHomes text.now lines.now reading (rooms_of events.old queue.old openers.old labels.old) (read_of (fragmented_of result (rooms_of events.new queue.new openers.new labels.new)
        out.new)) }
    ensures events_suffice { total lines.now + 1 ≤ length events.old / event_numbers → result.code ≡ 9 → ⊥ }
    ensures output_suffices { enough lines.now ≤ length out.old → result.code ≡ 11 → ⊥ }
{
    let a = records::read(text, lines, reading, events, queue, openers, labels);
    let mut rooms = Rooms {
        events,
        queue,
        openers,
        labels,
    };
    verdict::conclude(a, text, &mut rooms, out)
}
