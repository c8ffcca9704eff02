#![tactic(auto)]
// Reading a packed list: a number and what is to hold of it, an event, and all events.
ghost use Rattle.std.specs.Prelude.{◌≡◌, ◌/◌, length};
ghost use Rattle.reading.specs.Events.{event_numbers};
ghost use Rattle.packing.specs.Unpacked.{a_number, a_sum, a_kind, a_home, optional, home_from, event_from, unpacked};
ghost use Rattle.decoder.specs.Decoding.{Read, held, holding};

use groups::NumberError;
use packing::{Fault, FaultAt};
use reading::{EVENT_NUMBERS, Home, Link, Located, NO_HOME, Place};

// The bytes of a list, and the place up to which they are read: a fault has a place in the whole
// list.
#[derive(Clone, Copy)]
struct Input<'a> {
    bytes: &'a [u8],
    at: usize,
}

impl<'a> Input<'a> {
    // A number. The match maps each error to its fault, and to the place that is its own.
    #[tactic(auto, unfolding(packing::specs::Unpacked::number_as))]
    fn number(&mut self) -> Result<u32, FaultAt>
        ensures { Read self.old a_number result self.new }
    {
        let place = self.at;
        match groups::number_at(self.bytes, place) {
            Ok((n, next)) => {
                self.at = next;
                Ok(n)
            }
            Err(NumberError::Cut) => Err(Fault::Cut.at(self.bytes.len())),
            Err(NumberError::Longer) => Err(Fault::Longer.at(place)),
            Err(NumberError::TooLarge) => Err(Fault::TooLarge.at(place)),
        }
    }

    // On top of another: a start, an end.
    #[tactic(auto, unfolding(packing::specs::Unpacked::on, packing::specs::Unpacked::if_sound))]
    fn sum(&mut self, base: u32) -> Result<u32, FaultAt>
        ensures { Read self.old (λ bs. a_sum bs base) result self.new }
    {
        let place = self.at;
        let n = self.number()?;
        base.checked_add(n).ok_or(Fault::Beyond.at(place))
    }

    #[tactic(auto, unfolding(packing::specs::Unpacked::on, packing::specs::Unpacked::if_sound))]
    fn kind(&mut self) -> Result<u32, FaultAt>
        ensures { Read self.old a_kind result self.new }
    {
        let place = self.at;
        let kind = self.number()?;
        if !packing::known(kind) {
            return Err(Fault::UnknownKind.at(place));
        }
        Ok(kind)
    }

    // Where the home of a kind is.
    #[tactic(auto, unfolding(packing::specs::Unpacked::on, packing::specs::Unpacked::if_sound))]
    fn home(&mut self, kind: u32) -> Result<u32, FaultAt>
        ensures { Read self.old (λ bs. a_home bs kind) result self.new }
    {
        let place = self.at;
        let home = self.number()?;
        if !packing::may_have(kind, home) {
            return Err(Fault::WrongHome.at(place));
        }
        Ok(home)
    }

    // Home and link number of a kind.
    #[tactic(auto, unfolding(packing::specs::Unpacked::on, packing::specs::Unpacked::optional))]
    fn home_from(&mut self, kind: u32) -> Result<Home, FaultAt>
        ensures { Read self.old (λ bs. home_from bs kind) result self.new }
    {
        let home = self.home(kind)?;
        let (start, end) = if home != NO_HOME {
            let start = self.number()?;
            (start, self.sum(start)?)
        } else {
            (0, 0)
        };
        let link = if packing::has_link(kind) {
            self.number()?
        } else {
            0
        };
        Ok(Home {
            home,
            start: Place(start),
            end: Place(end),
            link: Link(link),
        })
    }

    // An event with its line, behind one that ends at prev.
    #[tactic(auto, unfolding(packing::specs::Unpacked::on))]
    fn event(&mut self, prev: u32) -> Result<Located, FaultAt>
        ensures { Read self.old (λ bs. event_from bs prev) result self.new }
    {
        let kind = self.kind()?;
        let start = self.sum(prev)?;
        let end = self.sum(start)?;
        let line = self.number()?;
        let home = self.home_from(kind)?;
        Ok(Located {
            event: rooms::event_of(kind, Place(start), Place(end), home),
            line,
        })
    }
}

// The events of a list: how many there are, whether the room holds them or not. A room that holds
// them all has them from its front.
pub fn list(bytes: &[u8], room: &mut [u32]) -> Result<usize, FaultAt>
    ensures { held (length room.old / event_numbers) result room.new ≡ holding (length room.old / event_numbers) (unpacked bytes.now) }
{
    let mut input = Input { bytes, at: 0 };
    let n = input.number()? as usize;
    let keep = n <= room.len() / EVENT_NUMBERS;
    let mut prev = 0;
    for i in 0..n {
        let r = input.event(prev)?;
        if keep {
            listing::store(room, i, r);
        }
        prev = r.event.end.0;
    }
    if input.at < bytes.len() {
        return Err(Fault::Rest.at(input.at));
    }
    Ok(n)
}
