// What no run of the curator can give.

// What is wrong with a line and its outcome, in the order in which it is looked for.
#[derive(Clone, Copy, Debug, PartialEq, Eq)]
pub enum Flaw {
    // an answer to a line that is no query
    NoQuery,
    // an answer to another analyst than the one who asked
    OtherAnalyst,
    // an answer with fewer or more numbers than the query has cells
    CellCount,
    // an answer to an analyst who is not there
    NoSuchAnalyst,
    // an answer that the analyst's budget could not pay
    BudgetTooLow,
    // an answer that tells another budget than the analyst then has
    BudgetLeft,
    // an outcome of no line
    NoLine,
    // a line with no outcome
    NoOutcome,
}

// The flaw, and the line that has it, counted from 0.
#[derive(Clone, Copy, Debug, PartialEq, Eq)]
pub struct Impossible {
    pub at: usize,
    pub flaw: Flaw,
}
