// The curator: the budgets, and what is left of the tape. The roll is lent with each line.
ghost use Rattle.std.specs.Prelude.{◌≡◌};

use budget::Budgets;

mod lines;

#[derive(Clone, Copy)]
pub struct Curator<'t> {
    budgets: Budgets,
    tape: &'t [u8],
}

impl<'t> Curator<'t> {
    // A curator with these budgets and a tape that nothing was taken of.
    pub fn open(budgets: Budgets, tape: &'t [u8]) -> Curator<'t>
        ensures budgets { result.budgets ≡ budgets }
        ensures tape { result.tape.now ≡ tape.now }
    {
        Curator { budgets, tape }
    }

    // The budgets as they are now.
    pub fn budgets(&self) -> Budgets
        ensures { result ≡ self.now.budgets }
    {
        self.budgets
    }
}
