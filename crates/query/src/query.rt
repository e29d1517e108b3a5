// A query that was read, and who asks it.
use crate::Cuts;
use roll::{Field, Predicate};

mod counting;
mod kind;
mod reading;

// The count of those who pass a predicate, or a table of them by a field, cut at some numbers.
#[derive(Clone, Copy)]
pub enum Query {
    Count {
        predicate: Predicate,
    },
    Table {
        predicate: Predicate,
        field: Field,
        cuts: Cuts,
    },
}

// A query with the number of the analyst who asks it.
#[derive(Clone, Copy)]
pub struct Asked {
    pub analyst: u8,
    pub query: Query,
}
