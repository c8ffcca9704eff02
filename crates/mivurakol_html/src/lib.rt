#![tactic(auto)]
// The fragment under its C name: a static library of its own, so that the compiler lays the reader
// of each library into its one caller (docs/DECISIONS.md, "The fragment").
ghost use Rattle.std.specs.Prelude.{◌≡◌, ◌+◌, ◌/◌, ◌≤◌, length};
ghost use Rattle.reading.specs.Events.{event_numbers};
ghost use Rattle.reading.specs.Questions.{total};
ghost use Rattle.reading.specs.Walked.{AcceptedHomes};
ghost use Rattle.outcome.specs.Outcomes.{rooms_of};
ghost use Rattle.verdict.specs.Fragments.{fragmented_of, fragmented, read_of, Shows, enough};

use reading::Line;
use verdict::FragmentAnswer;

// `fragment::write`.
#[unsafe(no_mangle)]
pub extern "C" fn mivurakol_fragment(
    text: &[u8],
    lines: &[Line],
    reading: u32,
    events: &mut [u32],
    queue: &mut [u32],
    openers: &mut [u32],
    labels: &mut [u8],
    out: &mut [u8],
) -> FragmentAnswer
    ensures as_defined { fragmented_of result (rooms_of events.new queue.new openers.new labels.new) out.new ≡ fragmented
        text.now lines.now reading (rooms_of events.old queue.old openers.old labels.old) out.old }
    ensures shows { result.code ≡ 0 → Shows text.now lines.now reading (rooms_of events.old queue.old openers.old labels.old) (fragmented_of result (rooms_of events.new queue.new openers.new labels.new)
        out.new) }
    ensures homed { result.code ≡ 0 → AcceptedHomes text.now lines.now reading (rooms_of events.old queue.old openers.old labels.old) (read_of (fragmented_of result (rooms_of events.new queue.new openers.new labels.new)
        out.new)) }
    ensures events_suffice { total lines.now + 1 ≤ length events.old / event_numbers → result.code ≡ 9 → ⊥ }
    ensures output_suffices { enough lines.now ≤ length out.old → result.code ≡ 11 → ⊥ }
{
    fragment::write(text, lines, reading, events, queue, openers, labels, out)
}
