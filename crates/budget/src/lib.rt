// The analysts' budgets: opened once, and only ever lowered.
#![tactic(auto)]

ghost use Rattle.std.specs.Prelude.{◌≡◌, ◌≤◌, length, drop, All};
ghost use Rattle.roll.specs.Lists.{listed};
ghost use Rattle.roll.specs.Numbers.{total};

use roll::UpTo;

mod ledger;

pub use ledger::pays_stands;

// The most analysts that there are.
pub const MOST_ANALYSTS: usize = 32;

// The most units that all analysts hold together.
pub const MOST_UNITS: u8 = 20;

// What each analyst may still spend, in units. Past the analysts nothing is held.
#[derive(Clone, Copy, Debug, PartialEq, Eq)]
pub struct Budgets {
    units: UpTo<u8, MOST_ANALYSTS>,
    ghost some: { 1 ≤ length (listed units) },
    ghost bounded: { total (listed units) ≤ 20 },
    ghost empty: { All (λ u. u ≡ 0) (drop units.len units.items) },
}

#[cfg(test)]
mod tests;
