// The lines that are printed for a run: answers, refused lines, and an opening that is refused.
ghost use Rattle.std.specs.Prelude.{Some, map};
ghost use Rattle.bulletin.specs.Lines.{answer_text, numbers_text, opening_text, refused_text};

use crate::{AsReleased, Printed};
use roll::Refusal;
use std::fmt;

// An answer, as in `0 says 1 2 0 left 0`: what was released from a roll of so many places, and what the analyst's budget then holds.
// Where no type is named, what was released is given by its numbers.
#[derive(Clone, Copy)]
pub struct Answer<'a, N = u32> {
    pub analyst: u8,
    pub released: &'a [N],
    pub left: u8,
    pub places: usize,
}

// The numbers of an answer, each after a space. An `Answer` keeps both fields apart, so that whoever makes one writes one literal.
#[derive(Clone, Copy)]
struct Numbers<'a, N> {
    released: &'a [N],
    places: usize,
}

// A line that is refused, as in `refused 19 at 1`.
#[derive(Clone, Copy)]
pub struct RefusedLine(pub Refusal);

// An opening that is refused, as in `desk refused 2 at 7`.
#[derive(Clone, Copy)]
pub struct RefusedOpening(pub Refusal);

impl<N: AsReleased> fmt::Display for Answer<'_, N> {
    ghost output = { λ a. Some (answer_text a.places a.analyst (map N.number a.released.now) a.left) };

    fn fmt<W: fmt::Write>(&self, f: &mut fmt::Formatter<W>) -> fmt::Result {
        let analyst = self.analyst;
        let numbers = Numbers {
            released: self.released,
            places: self.places,
        };
        let left = self.left;
        write!(f, "{analyst} says{numbers} left {left}")
    }
}

impl<N: AsReleased> fmt::Display for Numbers<'_, N> {
    ghost output = { λ n. Some (numbers_text n.places (map N.number n.released.now)) };

    fn fmt<W: fmt::Write>(&self, f: &mut fmt::Formatter<W>) -> fmt::Result {
        for released in self.released {
            let printed = Printed::of(*released, self.places);
            write!(f, " {printed}")?;
        }
        Ok(())
    }
}

impl fmt::Display for RefusedLine {
    ghost output = { λ r. Some (refused_text r.0) };

    fn fmt<W: fmt::Write>(&self, f: &mut fmt::Formatter<W>) -> fmt::Result {
        let number = self.0.number();
        let place = self.0.place();
        write!(f, "refused {number} at {place}")
    }
}

impl fmt::Display for RefusedOpening {
    ghost output = { λ r. Some (opening_text r.0) };

    fn fmt<W: fmt::Write>(&self, f: &mut fmt::Formatter<W>) -> fmt::Result {
        let refused = RefusedLine(self.0);
        write!(f, "desk {refused}")
    }
}
