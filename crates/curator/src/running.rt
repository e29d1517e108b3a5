// A run of a list of lines.
ghost use Rattle.std.specs.Prelude.{◌≡◌, ◌<◌, length, MatchOption};
ghost use Rattle.std.specs.Iterator.{YieldsFirstRef, item_count};
ghost use Rattle.roll.specs.Rows.{rows_of};
ghost use Rattle.budget.specs.Budget.{budgets_of};
ghost use Rattle.curator.specs.declared.outcome.Outcome.{Outcome};
ghost use Rattle.curator.specs.Curator.{transcript_of, state_of};
ghost use Rattle.curator.specs.Served.{state_by};
ghost use Rattle.curator.specs.Scripts.{first_line, after_line, lines_in, script, Told};
ghost use Rattle.curator.specs.Statements.{Bounded, Private};

use crate::{Curator, Outcome};
use budget::Budgets;
use roll::{Roll, two_bytes};

// Whoever is told of each outcome as it comes.
pub trait Journal {
    // what an outcome makes of the journal
    ghost notes: { Self → Outcome → Self → Type 0 };

    // Tells of an outcome.
    fn note(&mut self, outcome: &Outcome)
        ensures { notes self.old outcome.now self.new };
}

// The first line and what follows it; none where there is no byte.
#[tactic(auto, using(crate::proofs::Scripts::single_line, crate::proofs::Scripts::cut_line))]
pub fn split_line(bytes: &[u8]) -> Option<(&[u8], &[u8])>
    ensures { MatchOption result (length bytes.now ≡ 0) (λ p. (0 < length bytes.now) × (p.0.now ≡ first_line bytes.now) × (p.1.now ≡ after_line bytes.now)) }
{
    match bytes {
        [low, high, rest @ ..] => {
            let size = two_bytes(*low, *high);
            Some(rest.split_at(size.min(rest.len())))
        }
        [_] => Some((&[], &[])),
        [] => None,
    }
}

// The lines of a list, one after the other.
#[derive(Drop)]
struct Lines<'a>(&'a [u8]);

impl<'a> Iterator for Lines<'a> {
    type Item = &'a [u8];

    ghost next_gives = { YieldsFirstRef (λ s. lines_in s.0.now) };

    ghost remaining = { item_count (λ s. lines_in s.0.now) };

    #[tactic(auto, using(crate::proofs::Scripts::lines_more, crate::proofs::Scripts::lines_none))]
    fn next(&mut self) -> Option<&'a [u8]> {
        let (line, rest) = split_line(self.0)?;
        self.0 = rest;
        Some(line)
    }
}

// Runs the lines from the opening on, and tells the journal of each outcome as it comes.
pub fn run<'t, J: Journal>(
    roll: &mut Roll,
    budgets: Budgets,
    lines: &[u8],
    tape: &'t [u8],
    journal: &mut J,
) -> Curator<'t>
    ensures told { Told J.notes journal.old (transcript_of (script (lines_in lines.now)) (length (lines_in lines.now)) (rows_of roll.old) (budgets_of budgets) tape.now) journal.new }
    ensures after { state_by result (rows_of roll.new) ≡ state_of (script (lines_in lines.now)) (length (lines_in lines.now)) (rows_of roll.old) (budgets_of budgets) tape.now }
    ensures private { Private }
    ensures bounded { Bounded }
{
    let mut curator = Curator::open(budgets, tape);
    for line in Lines(lines) {
        journal.note(&curator.line(roll, line));
    }
    curator
}
