// Opening the budgets, reading them, and paying from them.
ghost use Rattle.std.specs.Prelude.{◌≡◌, IfOk};
ghost use Rattle.roll.specs.Numbers.{total};
ghost use Rattle.roll.specs.Refusals.{refusal_of};
ghost use Rattle.budget.specs.Budget.{budgets_of, held, opening_refusal, payment_refusal, pay};
ghost use Rattle.budget.specs.Statements.{Pays};

use crate::{Budgets, MOST_UNITS};
use roll::{Refusal, UpTo};

impl Budgets {
    // One budget for each byte.
    #[tactic(auto, using(crate::proofs::Openings::opening))]
    pub fn open(bytes: &[u8]) -> Result<Budgets, Refusal>
        ensures verdict { refusal_of result ≡ opening_refusal bytes.now }
        ensures holds { IfOk result (λ b. budgets_of b ≡ bytes.now) }
    {
        if bytes.is_empty() {
            return Err(Refusal::AnalystCount);
        }
        let units = UpTo::try_from(bytes).map_err(|_| Refusal::AnalystCount)?;
        let mut sum: u8 = 0;
        // The number of the analyst is the refusal's place.
        for (analyst, budget) in bytes.iter().enumerate() {
            sum = sum
                .checked_add(*budget)
                .filter(|sum| *sum <= MOST_UNITS)
                .ok_or(Refusal::BudgetSum(analyst))?;
        }
        Ok(Budgets { units })
    }

    // What each analyst holds, in the order of their numbers.
    pub fn as_slice(&self) -> &[u8]
        ensures { result.now ≡ budgets_of self.now }
    {
        self.units.as_slice()
    }

    // What an analyst holds, or none where there is no such analyst.
    pub fn left(&self, analyst: usize) -> Option<u8>
        ensures { result ≡ held (budgets_of self.now) analyst }
    {
        self.as_slice().get(analyst).copied()
    }

    // What all analysts hold together.
    pub fn total(&self) -> u8
        ensures { result ≡ total (budgets_of self.now) }
    {
        self.as_slice().iter().sum()
    }

    // The budgets after an analyst has paid a cost. Where that is refused, the caller has them as they were.
    #[tactic(auto, using(crate::proofs::Payments::paying))]
    pub fn pay(mut self, analyst: usize, cost: u8) -> Result<Budgets, Refusal>
        ensures verdict { refusal_of result ≡ payment_refusal (budgets_of self) analyst cost }
        ensures after { IfOk result (λ b. budgets_of b ≡ pay (budgets_of self) analyst cost) }
    {
        let units = self.left(analyst).ok_or(Refusal::NoSuchAnalyst)?;
        let rest = units.checked_sub(cost).ok_or(Refusal::BudgetTooLow)?;
        self.units.replace(analyst, rest);
        Ok(self)
    }
}

// What the budgets hold after a cost was paid, with the cost, is what they held.
#[tactic(auto, using(crate::proofs::Payments::pays))]
pub fn pays_stands()
    ensures { Pays }
{}
