// The reckoning over all lines and outcomes.
ghost use Rattle.std.specs.Prelude.{◌≡◌, map};
ghost use Rattle.budget.specs.Budget.{budgets_of};
ghost use Rattle.curator.specs.Scripts.{lines_in};
ghost use Rattle.curator.specs.Served.{outcome_of};
ghost use Rattle.accountant.specs.Accountant.{audited};
ghost use Rattle.accountant.specs.Reckoned.{reckoned};
ghost use Rattle.accountant.specs.Statements.{Audits};

use crate::{Account, Flaw, Impossible};
use budget::Budgets;
use curator::{Outcome, split_line};

// What the budgets hold and how many units were spent, after lines with their outcomes, one for each line; or the first line where they are
// none that a run of the curator can give.
#[tactic(auto, using(crate::proofs::Runs::audits, crate::proofs::Remaining::remaining))]
pub fn audit(budgets: Budgets, lines: &[u8], outcomes: &[Outcome]) -> Result<Account, Impossible>
    ensures answer { reckoned result ≡ audited (budgets_of budgets) (lines_in lines.now) (map outcome_of outcomes.now) }
    ensures audits { Audits }
{
    let mut account = Account::open(budgets);
    let mut left = lines;
    // The number of the line is told with its flaw.
    for (at, outcome) in outcomes.iter().enumerate() {
        let (line, rest) = split_line(left).ok_or(Impossible {
            at,
            flaw: Flaw::NoLine,
        })?;
        account = account
            .enter(line, outcome)
            .map_err(|flaw| Impossible { at, flaw })?;
        left = rest;
    }
    if !left.is_empty() {
        return Err(Impossible {
            at: outcomes.len(),
            flaw: Flaw::NoOutcome,
        });
    }
    Ok(account)
}
