// What an outcome does to the account.
ghost use Rattle.std.specs.Prelude.{◌≡◌, length};
ghost use Rattle.std.specs.Option.{unwrap_or};
ghost use Rattle.query.specs.Asked.{query_of};
ghost use Rattle.query.specs.Query.{cells, cost};
ghost use Rattle.budget.specs.Budget.{budgets_of, held};
ghost use Rattle.curator.specs.Served.{outcome_of};
ghost use Rattle.noise.specs.Released.{numbers_of};
ghost use Rattle.accountant.specs.Accountant.{standing, query_of_line, paying, misfit, if_left, answer_to, entered};
ghost use Rattle.accountant.specs.Reckoned.{standing_of, reckoned, flaw_of, asked_of};

use super::Account;
use crate::Flaw;
use budget::Budgets;
use curator::{Answer, Command, Outcome};
use query::{Asked, Query};

// The query that a line is, if it is one.
fn asked_in(line: &[u8]) -> Option<Asked>
    ensures { asked_of result ≡ query_of_line line.now }
{
    match Command::read(line).ok()? {
        Command::Ask(asked) => Some(asked),
        Command::Edit { .. } => None,
    }
}

// How many cells a query has: as many as it has counts, over no rows too.
#[tactic(auto, using(crate::proofs::Entries::counts_length))]
fn cell_count(query: &Query) -> usize
    ensures { result ≡ length (cells (query_of query.now)) }
{
    let counts = query.true_counts(&[]);
    counts.as_slice().len()
}

// Whether the answer is one to the query: to its analyst, with a number for each cell.
fn fits(asked: &Asked, answer: &Answer) -> Result<(), Flaw>
    ensures { flaw_of result ≡ misfit asked.now.analyst (query_of asked.now.query) answer.now.analyst (numbers_of answer.now.released) }
{
    if answer.analyst != asked.analyst {
        return Err(Flaw::OtherAnalyst);
    }
    if answer.released.len() != cell_count(&asked.query) {
        return Err(Flaw::CellCount);
    }
    Ok(())
}

impl Account {
    // The account at the opening.
    pub(crate) fn open(budgets: Budgets) -> Account
        ensures { standing_of result ≡ standing (budgets_of budgets) 0 }
    {
        Account { budgets, spent: 0 }
    }

    // Lets an analyst pay, or says why that cannot be.
    fn pay(mut self, analyst: usize, cost: u8) -> Result<Account, Flaw>
        ensures { reckoned result ≡ paying (standing_of self) analyst cost }
    {
        if self.budgets.left(analyst).is_none() {
            return Err(Flaw::NoSuchAnalyst);
        }
        self.budgets = self
            .budgets
            .pay(analyst, cost)
            .map_err(|_| Flaw::BudgetTooLow)?;
        self.spent += cost;
        Ok(self)
    }

    // Charges a query to its analyst.
    fn charge(self, asked: &Asked) -> Result<Account, Flaw>
        ensures { reckoned result ≡ paying (standing_of self) asked.now.analyst (cost (query_of asked.now.query)) }
    {
        self.pay(usize::from(asked.analyst), asked.query.cost())
    }

    // The account, where the analyst holds as many units as an answer tells.
    fn leaves(self, analyst: usize, left: u8) -> Result<Account, Flaw>
        ensures { reckoned result ≡ if_left left (unwrap_or (held (budgets_of self.budgets) analyst) 0) (standing_of self) }
    {
        if left != self.budgets.left(analyst).unwrap_or(0) {
            return Err(Flaw::BudgetLeft);
        }
        Ok(self)
    }

    // Enters an answer to a line.
    fn answered(self, line: &[u8], answer: &Answer) -> Result<Account, Flaw>
        ensures { reckoned result ≡ answer_to (standing_of self) (query_of_line line.now) answer.now.analyst (numbers_of answer.now.released) answer.now.left }
    {
        let asked = asked_in(line).ok_or(Flaw::NoQuery)?;
        fits(&asked, answer)?;
        self.charge(&asked)?
            .leaves(usize::from(asked.analyst), answer.left)
    }

    // Enters a line with its outcome. An edit and a refused line cost nothing.
    pub(crate) fn enter(self, line: &[u8], outcome: &Outcome) -> Result<Account, Flaw>
        ensures { reckoned result ≡ entered (standing_of self) line.now (outcome_of outcome.now) }
    {
        match outcome {
            Outcome::Answered(answer) => self.answered(line, answer),
            Outcome::Edited => Ok(self),
            Outcome::Refused(_) => Ok(self),
        }
    }
}
