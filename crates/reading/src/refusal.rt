// The refusals of document 01, by the first question that is answered no, with the place of those
// that have one.
ghost use Rattle.std.specs.Prelude.{◌≡◌};
ghost use Rattle.reading.specs.Refusals.{code_of, place_of, answer_of};

use crate::{Answer, Place, code};

#[derive(Clone, Copy)]
pub enum Refusal {
    Reading,
    TooLarge,
    Outside(u32),
    Early(u32),
    QueueRoom,
    OpenerRoom,
    Brace(Place),
    LabelRoom,
    EventRoom,
}

impl Refusal {
    // The number of the question.
    pub fn code(self) -> u32
        ensures { result ≡ code_of self }
    {
        match self {
            Refusal::Reading => code::READING,
            Refusal::TooLarge => code::TOO_LARGE,
            Refusal::Outside(_) => code::OUTSIDE,
            Refusal::Early(_) => code::EARLY,
            Refusal::QueueRoom => code::QUEUE_ROOM,
            Refusal::OpenerRoom => code::OPENER_ROOM,
            Refusal::Brace(_) => code::BRACE,
            Refusal::LabelRoom => code::LABEL_ROOM,
            Refusal::EventRoom => code::EVENT_ROOM,
        }
    }

    // The line's index, or the place of the brace.
    pub fn place(self) -> u32
        ensures { result ≡ place_of self }
    {
        match self {
            Refusal::Outside(line) | Refusal::Early(line) => line,
            Refusal::Brace(at) => at.0,
            _ => 0,
        }
    }
}

// Nothing is handed out.
impl From<Refusal> for Answer {
    ghost from_gives = { λ r a. a ≡ answer_of r };

    fn from(r: Refusal) -> Answer {
        Answer {
            code: r.code(),
            place: r.place(),
            events: 0,
            labels: 0,
            looks: 0,
        }
    }
}
