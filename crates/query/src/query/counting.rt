// What a query costs, and its true counts.
ghost use Rattle.std.specs.Prelude.{◌≡◌, ◌+◌, ◌≤◌, true, length};
ghost use Rattle.roll.specs.Stored.{predicate_of};
ghost use Rattle.query.specs.Asked.{CellOf, numbers_of, query_of};
ghost use Rattle.query.specs.Lines.{rises};
ghost use Rattle.query.specs.Query.{cell, cells, cost, counts, cut};

use super::Query;
use crate::Counts;
use crate::counts::CELLS;
use roll::{Field, Predicate, Row, UpTo};

// Those who pass a predicate, by a field that is cut at some numbers. A count is cut at none.
#[derive(Clone, Copy)]
struct Partition<'a> {
    predicate: &'a Predicate,
    field: Field,
    cuts: &'a [u8],
    ghost few: { length cuts.now ≤ 63 },
    ghost rising: { rises 0 cuts.now ≡ true },
}

impl Partition<'_> {
    // How many cells there are.
    fn cells(&self) -> usize
        ensures { result ≡ length self.now.cuts.now + 1 }
    {
        self.cuts.len() + 1
    }

    // The cell that a value falls in.
    fn cell_of(&self, value: u8) -> usize
        ensures { (result ≤ length self.now.cuts.now) × (result ≡ cell self.now.cuts.now value) }
    {
        self.cuts.partition_point(|cut| *cut <= value)
    }

    // The cell that counts the row, if one does.
    fn counting_cell(&self, row: &Row) -> Option<usize>
        ensures { CellOf result (predicate_of self.now.predicate.now) self.now.field.number self.now.cuts.now row.now }
    {
        if self.predicate.counts(row) {
            Some(self.cell_of(self.field.value(row)))
        } else {
            None
        }
    }

    // The true counts, in one pass over the rows.
    fn counts(&self, rows: &[Row]) -> Counts
        ensures { numbers_of result ≡ counts (cut (predicate_of self.now.predicate.now) self.now.field.number self.now.cuts.now) rows.now }
    {
        let mut numbers = [0usize; CELLS];
        for row in rows {
            if let Some(cell) = self.counting_cell(row) {
                numbers[cell] += 1;
            }
        }
        let Ok(counts) = UpTo::try_from(&numbers[..self.cells()]) else {
            unreachable()
        };
        Counts(counts)
    }
}

impl Query {
    // The units that the query costs.
    pub fn cost(&self) -> u8
        ensures { result ≡ cost (query_of self.now) }
    {
        match self {
            Query::Count { .. } => 1,
            Query::Table { .. } => 2,
        }
    }

    // The true counts of the query's cells, in their order.
    pub fn true_counts(&self, rows: &[Row]) -> Counts
        ensures { numbers_of result ≡ counts (cells (query_of self.now)) rows.now }
    {
        match self {
            Query::Count { predicate } => Partition {
                predicate,
                field: Field::first(),
                cuts: &[],
            }
            .counts(rows),
            Query::Table {
                predicate,
                field,
                cuts,
            } => Partition {
                predicate,
                field: *field,
                cuts: cuts.as_slice(),
            }
            .counts(rows),
        }
    }
}
