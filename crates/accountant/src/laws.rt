// What is promised of the accounts.
ghost use Rattle.accountant.specs.Statements.{Audits, Kept};

// What the budgets hold follows from the opening's budgets, the lines and the outcomes, and with what was spent it is what they held.
#[tactic(auto, using(crate::proofs::Balances::kept))]
pub fn kept_stands()
    ensures { Kept }
{}

// For every run of the curator the accountant's answer is what the curator's budgets hold, and what was spent.
#[tactic(auto, using(crate::proofs::Runs::audits))]
pub fn audits_stands()
    ensures { Audits }
{}
