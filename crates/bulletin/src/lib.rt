// The bulletin: numbers as printed, and how far off they may be.
#![tactic(auto)]

ghost use Rattle.noise.specs.Dial.{Dial};
ghost use Rattle.bulletin.specs.Statements.{HonestError, Tails};

mod lines;
mod printed;
mod released;
mod tail;

pub use lines::{Answer, RefusedLine, RefusedOpening};
pub use printed::Printed;
pub use released::AsReleased;
pub use tail::{Share, Tail, heading, tails};

// Of the draws just as many move a number by j places as place j weighs, whatever the count.
pub fn honest_error_stands()
    ensures { (d : Dial) → HonestError d }
{}

// How many draws move a number by more than 5, 10, 20 and 40 places.
pub fn tails_stands()
    ensures { Tails }
{}

#[cfg(test)]
mod tests;
