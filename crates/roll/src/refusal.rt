// Why an opening or a line is refused.
ghost use Rattle.std.specs.Prelude.{◌≡◌};
ghost use Rattle.roll.specs.Refusals.{number, place};

// The list of refusals. Where the place differs from case to case, the variant holds it.
#[derive(Clone, Copy, Debug, PartialEq, Eq)]
pub enum Refusal {
    // opening: no place or too many, or the bytes of the roll are not sixteen for each place
    RollSize,
    // opening: a row of this place that is neither empty nor a household
    RowStatus(usize),
    // opening: no analyst, or too many
    AnalystCount,
    // opening: the budget of this analyst, with those before it, holds too much
    BudgetSum(usize),
    // a line that is empty or of no kind that there is
    LineKind,
    // an edit of this length, which is not an edit's
    EditLength(usize),
    // an edit of a place that is not there
    EditPlace,
    // an edit with a row that is neither empty nor a household
    EditStatus,
    // a query that ends, at this length, where a byte is due
    LineEnds(usize),
    // a query that is neither a count nor a table
    QueryKind,
    // a table by a field that no row has
    TableField,
    // a table of no cut, or of too many
    CutCount,
    // a cut that is not above the one before
    CutOrder(usize),
    // a token past the last that is allowed
    TokenCount(usize),
    // a byte that begins no token
    TokenKind(usize),
    // a predicate on a field that no row has
    PredicateField(usize),
    // a byte after the predicate
    TrailingByte(usize),
    // there is no such analyst
    NoSuchAnalyst,
    // the analyst's budget is below the cost
    BudgetTooLow,
    // no whole page of the tape is left
    TapeEnds,
}

impl Refusal {
    // The number of the refusal in the list.
    pub fn number(&self) -> u8
        ensures { result ≡ number self.now }
    {
        match self {
            Refusal::RollSize => 1,
            Refusal::RowStatus(_) => 2,
            Refusal::AnalystCount => 3,
            Refusal::BudgetSum(_) => 4,
            Refusal::LineKind => 5,
            Refusal::EditLength(_) => 6,
            Refusal::EditPlace => 7,
            Refusal::EditStatus => 8,
            Refusal::LineEnds(_) => 9,
            Refusal::QueryKind => 10,
            Refusal::TableField => 11,
            Refusal::CutCount => 12,
            Refusal::CutOrder(_) => 13,
            Refusal::TokenCount(_) => 14,
            Refusal::TokenKind(_) => 15,
            Refusal::PredicateField(_) => 16,
            Refusal::TrailingByte(_) => 17,
            Refusal::NoSuchAnalyst => 18,
            Refusal::BudgetTooLow => 19,
            Refusal::TapeEnds => 20,
        }
    }

    // The place that the refusal points to: in the roll, among the analysts, or in the line.
    pub fn place(&self) -> usize
        ensures { result ≡ place self.now }
    {
        match self {
            Refusal::EditPlace | Refusal::NoSuchAnalyst | Refusal::BudgetTooLow => 1,
            Refusal::QueryKind => 2,
            Refusal::EditStatus | Refusal::TableField => 3,
            Refusal::CutCount => 4,
            Refusal::RowStatus(at)
            | Refusal::BudgetSum(at)
            | Refusal::EditLength(at)
            | Refusal::LineEnds(at)
            | Refusal::CutOrder(at)
            | Refusal::TokenCount(at)
            | Refusal::TokenKind(at)
            | Refusal::PredicateField(at)
            | Refusal::TrailingByte(at) => *at,
            Refusal::RollSize | Refusal::AnalystCount | Refusal::LineKind | Refusal::TapeEnds => 0,
        }
    }
}
