// The true counts of a query's cells.
ghost use Rattle.std.specs.Prelude.{◌≡◌};
ghost use Rattle.roll.specs.Lists.{listed};

use roll::UpTo;

// As many cells as a query has at most.
pub(crate) const CELLS: usize = 64;

// The counts, in the order of the cells. They have a type of their own, so that none is taken for a number released.
#[derive(Clone, Copy)]
pub struct Counts(pub(crate) UpTo<usize, CELLS>);

impl Counts {
    // The counts, in the order of the cells.
    pub fn as_slice(&self) -> &[usize]
        ensures { result.now ≡ listed self.now.0 }
    {
        self.0.as_slice()
    }
}
