#![tactic(auto)]
// The reader and the lookup under C names: the static library that C and Rust link.
ghost use Rattle.std.specs.Prelude.{◌≡◌, ◌+◌, ◌/◌, ◌≤◌, length};
ghost use Rattle.reading.specs.Events.{event_numbers};
ghost use Rattle.reading.specs.Questions.{total, outcome};
ghost use Rattle.reading.specs.Walked.{Accepted, AcceptedHomes};
ghost use Rattle.lookup.specs.Lookup.{source_in, label_of};
ghost use Rattle.outcome.specs.Outcomes.{rooms_of, outcome_of};
ghost use Rattle.mivurakol.specs.Values.{part_of, bytes_of};

use reading::{Answer, IN_TEXT, Line};

// Bytes of the text (home 1) or of the label room (home 2).
#[repr(C)]
#[derive(Clone, Copy)]
pub struct Part {
    pub home: u32,
    pub start: usize,
    pub len: usize,
}

// `records::read`.
#[unsafe(no_mangle)]
pub extern "C" fn mivurakol_read(
    text: &[u8],
    lines: &[Line],
    reading: u32,
    events: &mut [u32],
    queue: &mut [u32],
    openers: &mut [u32],
    labels: &mut [u8],
) -> Answer
    ensures as_defined { outcome_of result events.new queue.new openers.new labels.new ≡ outcome text.now
        lines.now reading (rooms_of events.old queue.old openers.old labels.old) }
    ensures accepted { result.code ≡ 0 → Accepted text.now lines.now reading (rooms_of events.old queue.old openers.old labels.old) (outcome_of result events.new queue.new openers.new labels.new) }
    ensures homed { result.code ≡ 0 → AcceptedHomes text.now lines.now reading (rooms_of events.old queue.old openers.old labels.old) (outcome_of result events.new queue.new openers.new labels.new) }
    ensures events_suffice { total lines.now + 1 ≤ length events.old / event_numbers → result.code ≡ 9 → ⊥ }
{
    records::read(text, lines, reading, events, queue, openers, labels)
}

// `lookup::label`, as a place and a length. An impossible home or range gives an empty part of the
// text.
#[unsafe(no_mangle)]
pub extern "C" fn mivurakol_label(
    text: &[u8],
    labels: &[u8],
    home: u32,
    start: u32,
    end: u32,
) -> Part
    ensures value { result ≡ part_of (source_in (length text.now) (length labels.now) home start end) start end }
    ensures labels_value { bytes_of result text.now labels.now ≡ label_of text.now labels.now home start end }
{
    let from = start as usize;
    let to = end as usize;
    match lookup::source_of(text.len(), labels.len(), home, from, to) {
        Some(source) => Part {
            home: source.into(),
            start: from,
            len: to - from,
        },
        None => Part {
            home: IN_TEXT,
            start: 0,
            len: 0,
        },
    }
}
