// Queries: reading them, what they cost, their true counts, and what one row of the roll can do to these.
#![tactic(auto)]

mod counts;
mod cuts;
mod laws;
mod query;
#[cfg(test)]
mod tests;

pub use counts::Counts;
pub use cuts::Cuts;
pub use laws::{
    cells_disjoint_stands, disjoint_cells_stands, one_row_stands, query_encodes_read_stands,
    query_reads_encoded_stands,
};
pub use query::{Asked, Query};
pub use roll::Field;
