#![tactic(auto)]
// The reader: a sheet is asked, read into lent rooms and judged.
ghost use Rattle.std.specs.Prelude.{[], ◌≡◌, ◌+◌, ◌*◌, ◌/◌, ◌^◌, ◌≤◌, ◌<◌, length, OnOk};
ghost use Rattle.reading.specs.Events.{event_numbers, queue_numbers};
ghost use Rattle.reading.specs.Draining.{drain};
ghost use Rattle.reading.specs.Reading.{sheet, read as read_of};
ghost use Rattle.reading.specs.Questions.{total, label_room, judged, outcome};
ghost use Rattle.reading.specs.Walked.{Accepted, AcceptedHomes};
ghost use Rattle.rooms.specs.Records.{events as events_of};
ghost use Rattle.rooms.specs.Standing.{stands};
ghost use Rattle.inline.specs.Lines.{lines_of};
ghost use Rattle.inline.specs.Asks.{StandsFor};
ghost use Rattle.drain.specs.Handing.{handed};
ghost use Rattle.outcome.specs.Outcomes.{rooms_of, outcome_of};
ghost use Rattle.outcome.specs.Lending.{held, left_by, Lent};
ghost use Rattle.questions.specs.Asking.{Passed};
ghost use Rattle.reader.specs.Judging.{asked_last, Parsed};

use outcome::Rooms;
use reading::{Answer, LABEL_LIMIT, Refusal};
use rooms::Status;
use sheets::{Lines, Pairs};

// The lines, with the label room that counts.
fn parse_lines<L: Lines>(
    text: &[u8],
    lines: L,
    reading: u32,
    queue: &mut [u32],
    openers: &mut [u32],
    labels: &mut [u8],
) -> Status
    requires { Passed text.now (L.listed lines) queue.old openers.old }
    ensures stands_for { StandsFor result queue.new openers.new labels.new (read_of (sheet text.now (L.listed lines) reading (label_room labels.old)) (L.listed lines)) }
    ensures labels_bound { result.labels < 2 ^ 32 }
{
    let room = labels.len().min(LABEL_LIMIT);
    sheets::parse(text, lines, reading, queue, openers, &mut labels[..room])
}

// 7: does no attribute block stand outside verbatim? 8: does the label room hold all the labels
// built? 9: does the event room hold all the events? If so, they are handed out, and how many is
// answered.
#[tactic(auto, unfolding(drain::specs::Handing::answered))]
fn hand_out(p: Status, events: &mut [u32], queue: &[u32]) -> Result<usize, Refusal>
    requires { p.events * queue_numbers ≤ length queue.now }
    ensures value { result ≡ asked_last p.refused p.fits (drain (events_of p.events queue.now)) (length events.old / event_numbers) }
    ensures events_after { OnOk result (events.new ≡ handed (drain (events_of p.events queue.now)) events.old) }
{
    match p.refused {
        Some(at) => Err(Refusal::Brace(at)),
        None if p.fits => drain::drain(queue, p.events, events).ok_or(Refusal::EventRoom),
        None => Err(Refusal::LabelRoom),
    }
}

// Questions 7 to 9, of what was read, and what the rooms hold then, but for the lines of events.
fn judge(p: Status, rooms: &mut Rooms) -> Answer
    requires { Parsed p rooms.old.queue.now rooms.old.labels.now }
    ensures value { left_by result rooms.new ≡ judged [] p.refused p.fits
        (stands p rooms.old.queue.now rooms.old.openers.now rooms.old.labels.now) (held rooms.old) }
    ensures lent { Lent rooms.old rooms.new }
{
    let events = &mut *rooms.events;
    let queue = &mut *rooms.queue;
    match hand_out(p, events, queue) {
        Ok(count) => rooms.accept(count, p.labels, p.looks),
        Err(r) => {
            rooms.clear();
            r.into()
        }
    }
}

// Reads a sheet: the lines of a text, each from its start to before its end, into the event room
// and the label room. An entry has the parameters that document 01 and C give it, room by room.
pub fn read_lines<L: Lines>(
    text: &[u8],
    lines: L,
    reading: u32,
    events: &mut [u32],
    queue: &mut [u32],
    openers: &mut [u32],
    labels: &mut [u8],
) -> Answer
    ensures as_defined { outcome_of result events.new queue.new openers.new labels.new ≡ outcome text.now
        (L.listed lines) reading (rooms_of events.old queue.old openers.old labels.old) }
    ensures accepted { result.code ≡ 0 → Accepted text.now (L.listed lines) reading (rooms_of events.old queue.old openers.old labels.old) (outcome_of result events.new queue.new openers.new labels.new) }
    ensures homed { result.code ≡ 0 → AcceptedHomes text.now (L.listed lines) reading (rooms_of events.old queue.old openers.old labels.old) (outcome_of result events.new queue.new openers.new labels.new) }
    ensures events_suffice { total (L.listed lines) + 1 ≤ length events.old / event_numbers → result.code ≡ 9 → ⊥ }
{
    match questions::questions(text, lines, reading, queue.len(), openers.len()) {
        Err(r) => r.into(),
        Ok(()) => {
            let p = parse_lines(text, lines, reading, queue, openers, labels);
            let mut rooms = Rooms {
                events,
                queue,
                openers,
                labels,
            };
            let answer = judge(p, &mut rooms);
            locate::locate(lines, rooms.events, answer.events as usize);
            answer
        }
    }
}

// `read_lines` of lines on two slices of numbers.
pub fn read(
    text: &[u8],
    starts: &[usize],
    ends: &[usize],
    reading: u32,
    events: &mut [u32],
    queue: &mut [u32],
    openers: &mut [u32],
    labels: &mut [u8],
) -> Answer
    ensures as_defined { outcome_of result events.new queue.new openers.new labels.new ≡ outcome text.now
        (lines_of starts.now ends.now) reading (rooms_of events.old queue.old openers.old labels.old) }
    ensures accepted { result.code ≡ 0 → Accepted text.now (lines_of starts.now ends.now) reading (rooms_of events.old queue.old openers.old labels.old) (outcome_of result events.new queue.new openers.new labels.new) }
    ensures homed { result.code ≡ 0 → AcceptedHomes text.now (lines_of starts.now ends.now) reading (rooms_of events.old queue.old openers.old labels.old) (outcome_of result events.new queue.new openers.new labels.new) }
    ensures events_suffice { total (lines_of starts.now ends.now) + 1 ≤ length events.old / event_numbers → result.code ≡ 9 → ⊥ }
{
    read_lines(
        text,
        Pairs { starts, ends },
        reading,
        events,
        queue,
        openers,
        labels,
    )
}
