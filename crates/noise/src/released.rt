// The numbers released for the cells of one query.
use roll::UpTo;

mod all;

pub use all::release_all;

// How many cells a page serves, and a query has at most.
const CELLS: usize = 64;

// What is released for each cell: a place of the ring, or none.
#[derive(Clone, Copy)]
pub struct Released {
    numbers: UpTo<Option<u16>, CELLS>,
}
