// What the budgets hold, and the units that were spent.
ghost use Rattle.std.specs.Prelude.{◌≡◌, ◌+◌, ◌≤◌};
ghost use Rattle.roll.specs.Numbers.{total};
ghost use Rattle.budget.specs.Budget.{budgets_of};

use budget::Budgets;

mod entries;

// What is spent and what is left is what may be held at the opening, at most.
#[derive(Clone, Copy)]
pub struct Account {
    budgets: Budgets,
    spent: u8,
    ghost bounded: { total (budgets_of budgets) + spent ≤ 20 },
}

impl Account {
    // What the budgets hold.
    pub fn budgets(&self) -> Budgets
        ensures { result ≡ self.now.budgets }
    {
        self.budgets
    }

    // The units that were spent.
    pub fn spent(&self) -> u8
        ensures { result ≡ self.now.spent }
    {
        self.spent
    }
}
