// What one row of the roll can do to a query's true counts, and the two laws of reading a query.
ghost use Rattle.query.specs.Lines.{QueryEncodesRead, QueryReadsEncoded};
ghost use Rattle.query.specs.Statements.{CellsDisjoint, DisjointCells, OneRow, SingleCell};

// A row is counted by at most one cell of a query.
pub fn cells_disjoint_stands()
    ensures { CellsDisjoint }
{}

// One row moves the counts of any disjoint cells by at most 2, and that of a single cell by at most 1.
pub fn disjoint_cells_stands()
    ensures disjoint { DisjointCells }
    ensures single { SingleCell }
{}

// One row of the roll moves a query's counts, taken together, by no more than the query costs.
pub fn one_row_stands()
    ensures { OneRow }
{}

// A query is read again from the line that encodes it.
pub fn query_reads_encoded_stands()
    ensures { QueryReadsEncoded }
{}

// What is read as a query is exactly the line that encodes it.
pub fn query_encodes_read_stands()
    ensures { QueryEncodesRead }
{}
