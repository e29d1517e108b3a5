// The accountant: what the budgets hold, from the opening's budgets, the lines and the outcomes alone.
#![tactic(auto)]

mod account;
mod impossible;
mod laws;
mod lines;
mod reckoning;

pub use account::Account;
pub use impossible::{Flaw, Impossible};
pub use laws::{audits_stands, kept_stands};
pub use lines::Accounts;
pub use reckoning::audit;

#[cfg(test)]
mod tests;
