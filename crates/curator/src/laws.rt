// What is promised of whole runs.
ghost use Rattle.std.specs.Prelude.{List};
ghost use Rattle.roll.specs.Rows.{Row};
ghost use Rattle.noise.specs.Dial.{Dial, Good, our_dial};
ghost use Rattle.curator.specs.Machine.{Composition, CompositionOfSets};
ghost use Rattle.curator.specs.Curator.{Outcome, State};
ghost use Rattle.curator.specs.Statements.{Bounded, NoRow, OwnWords, Private, PrivateBy, Judged, JudgedBy};

// The bounds on the outcomes of single lines multiply over a run.
pub fn composition_stands()
    ensures single { Composition Outcome State (List Row) }
    ensures sets { CompositionOfSets Outcome State (List Row) }
{}

// Whatever a transcript is, the tapes that lead to it differ between two runs that are alike but for one row by no more than the units spent allow.
pub fn private_stands()
    ensures good { (d : Dial) → Good d → PrivateBy d }
    ensures ours { Private }
{}

// The same of any judgement on the transcript, by what the budgets held at the opening.
pub fn judged_stands()
    ensures good { (d : Dial) → Good d → JudgedBy d }
    ensures ours { Judged }
{}

// What is spent never passes what the budgets held.
pub fn bounded_stands()
    ensures { Bounded }
{}

// Whether and why a line is refused follows from the outcomes before it, and from no row.
pub fn no_row_stands()
    ensures { NoRow }
{}

// A cell's number depends on no word of the tape but its own.
pub fn own_words_stands()
    ensures { OwnWords }
{}
