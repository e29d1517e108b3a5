// The curator: a run of lines, what each leads to, and what is promised of whole runs.
#![tactic(auto)]

mod command;
mod curator;
mod laws;
mod outcome;
mod running;
#[cfg(test)]
mod tests;

pub use command::Command;
pub use curator::Curator;
pub use laws::{
    bounded_stands, composition_stands, judged_stands, no_row_stands, own_words_stands,
    private_stands,
};
pub use outcome::{Answer, Outcome};
pub use running::{Journal, run, split_line};
