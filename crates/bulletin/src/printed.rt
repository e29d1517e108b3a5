// What is printed for a number released.
ghost use Rattle.std.specs.Prelude.{◌≡◌, Some};
ghost use Rattle.bulletin.specs.Printed.{printed, printed_text, shown};

use crate::AsReleased;
use std::fmt;

// Numbers released from here on, up to the last place of the ring, stand below nothing.
const BELOW_NOTHING: u16 = 49_152;

// A number that is at most the places of the roll, or none.
#[derive(Clone, Copy, Debug, PartialEq, Eq)]
pub struct Printed(pub Option<u16>);

// The number that is shown for a place of the ring. It is at most that place, so the cast loses nothing.
fn number_shown(number: u16, places: usize) -> u16
    ensures { result ≡ shown places number }
{
    if number >= BELOW_NOTHING {
        return 0;
    }
    usize::from(number).min(places) as u16
}

impl Printed {
    // What is printed for what was released from a roll of so many places.
    pub fn of<N: AsReleased>(released: N, places: usize) -> Printed
        ensures { result ≡ printed places (N.number released) }
    {
        Printed(released.place().map(|number| number_shown(number, places)))
    }
}

impl fmt::Display for Printed {
    ghost output = { λ p. Some (printed_text p) };

    fn fmt<W: fmt::Write>(&self, f: &mut fmt::Formatter<W>) -> fmt::Result {
        match self.0 {
            None => f.write_str("none"),
            Some(number) => f.write(number),
        }
    }
}
