// The numbers released for all cells of a query, from one page.
ghost use Rattle.std.specs.Prelude.{◌≡◌, length, map};
ghost use Rattle.noise.specs.Release.{released_number};
ghost use Rattle.noise.specs.Released.{ReleasedAll, numbers_of};

use super::{CELLS, Released};
use crate::{CELL_BYTES, Page, release};
use roll::UpTo;

impl Released {
    // What is released, cell by cell.
    pub fn as_slice(&self) -> &[Option<u16>]
        ensures { map released_number result.now ≡ numbers_of self.now }
    {
        self.numbers.as_slice()
    }

    // How many there are.
    pub fn len(&self) -> usize
        ensures { result ≡ length (numbers_of self.now) }
    {
        self.numbers.len()
    }
}

// The numbers released for cells with these true counts, each from its own four words of the page; none for more than 64 counts.
pub fn release_all(counts: &[usize], page: &Page) -> Option<Released>
    ensures { ReleasedAll counts.now page.now result }
{
    if counts.len() > CELLS {
        return None;
    }
    let mut numbers = UpTo::new();
    for (count, cell) in counts.iter().zip(page.as_chunks::<CELL_BYTES>().0) {
        numbers.push(release(*count, cell)?).ok()?;
    }
    Some(Released { numbers })
}
