// The roll of households: its rows, predicates on a row, and why an opening or a line is refused.
#![tactic(auto)]

mod field;
mod number;
mod predicate;
mod refusal;
mod rest;
mod rows;
#[cfg(test)]
mod tests;
mod up_to;

pub use field::{Field, UnknownField};
pub use number::two_bytes;
pub use predicate::{Predicate, encodes_read_stands, reads_encoded_stands};
pub use refusal::Refusal;
pub use rest::Rest;
pub use rows::{MOST_PLACES, Roll, Row};
pub use up_to::{TooMany, UpTo};
