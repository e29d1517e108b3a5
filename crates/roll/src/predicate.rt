// A predicate on a row, kept as its tokens in the order of the line.
ghost use Rattle.std.specs.Prelude.{◌≡◌, true};
ghost use Rattle.roll.specs.Lists.{listed};
ghost use Rattle.roll.specs.Reading.{spells, decoded};
ghost use Rattle.roll.specs.Tokens.{spelling, Codes, Codes-prop};

use crate::UpTo;
use token::Token;

mod evaluating;
mod laws;
mod reading;
#[cfg(test)]
mod tests;
mod token;

pub use laws::{encodes_read_stands, reads_encoded_stands};

// As many tokens as a predicate may have.
const TOKENS: usize = 64;

// The tokens are those of one predicate, and each `Both` knows how many of them its first half has: a tree would need memory for each half.
#[derive(Clone, Copy)]
pub struct Predicate {
    tokens: UpTo<Token, TOKENS>,
    ghost valid: { spells (spelling (listed tokens)) ≡ true },
    ghost sized: { Codes (listed tokens) (decoded (spelling (listed tokens))) } by { Codes-prop (listed tokens) (decoded (spelling (listed tokens))) },
}
