// The line that is printed for the accounts of a run.
ghost use Rattle.std.specs.Prelude.{◌≡◌, Some};
ghost use Rattle.roll.specs.Numbers.{total};
ghost use Rattle.budget.specs.Budget.{budgets_of};
ghost use Rattle.accountant.specs.Lines.{accounts_text, left_text};

use crate::Account;
use budget::Budgets;
use std::fmt;

// The accounts of a run, as in `accounts: spent 4 of 4, left 0 0`: the units spent, what all held at the opening, and what each holds now.
#[derive(Clone, Copy)]
pub struct Accounts {
    spent: u8,
    held: u8,
    budgets: Budgets,
}

// What each analyst holds, each after a space.
#[derive(Clone, Copy)]
struct Left(Budgets);

impl Accounts {
    // The accounts of a run that was opened with these budgets.
    pub fn of(opening: &Budgets, account: &Account) -> Accounts
        ensures spent { result.spent ≡ account.now.spent }
        ensures held { result.held ≡ total (budgets_of opening.now) }
        ensures budgets { result.budgets ≡ account.now.budgets }
    {
        Accounts {
            spent: account.spent(),
            held: opening.total(),
            budgets: account.budgets(),
        }
    }
}

impl fmt::Display for Accounts {
    ghost output = { λ a. Some (accounts_text a.spent a.held (budgets_of a.budgets)) };

    fn fmt<W: fmt::Write>(&self, f: &mut fmt::Formatter<W>) -> fmt::Result {
        let spent = self.spent;
        let held = self.held;
        let left = Left(self.budgets);
        write!(f, "accounts: spent {spent} of {held}, left{left}")
    }
}

impl fmt::Display for Left {
    ghost output = { λ l. Some (left_text (budgets_of l.0)) };

    #[tactic(auto, using(std::proofs::lemmas::Grind::common_steps, crate::proofs::Texts::left_more))]
    fn fmt<W: fmt::Write>(&self, f: &mut fmt::Formatter<W>) -> fmt::Result {
        for units in self.0.as_slice() {
            write!(f, " {units}")?;
        }
        Ok(())
    }
}
