// What the curator does with a line.
ghost use Rattle.std.specs.Prelude.{◌≡◌, ◌<◌, ◌≤◌, length, take, drop, IfOk, MatchOption};
ghost use Rattle.roll.specs.Refusals.{refusal_of};
ghost use Rattle.roll.specs.Rows.{rows_of, edit_refusal};
ghost use Rattle.query.specs.Asked.{query_of};
ghost use Rattle.query.specs.Query.{cells, counts};
ghost use Rattle.noise.specs.Dial.{our_dial};
ghost use Rattle.noise.specs.Release.{all_released};
ghost use Rattle.noise.specs.Released.{numbers_of};
ghost use Rattle.noise.specs.Words.{words_of};
ghost use Rattle.budget.specs.Budget.{budgets_of, payment_refusal};
ghost use Rattle.curator.specs.Lines.{edit_unless, read_line};
ghost use Rattle.curator.specs.Curator.{verdict, outcome, step, edited_roll, Leads};
ghost use Rattle.curator.specs.Served.{ask_of, answer_of, outcome_of, edit_outcome, or_refused, charged, cost_of, taken_by, state_by};

use super::Curator;
use crate::{Answer, Command, Outcome};
use noise::{Page, Released, release_all};
use query::{Asked, Query};
use roll::{Refusal, Roll, Row};

// The numbers released for a query, from the rows and a page.
fn release_query(query: &Query, rows: &[Row], page: &Page) -> Released
    ensures { numbers_of result ≡ all_released our_dial (counts (cells (query_of query.now)) rows.now) (words_of page.now) }
{
    let counts = query.true_counts(rows);
    let Some(released) = release_all(counts.as_slice(), page) else {
        unreachable()
    };
    released
}

// Gives a place another row, or refuses to.
fn edit(roll: &mut Roll, place: usize, row: &Row) -> Outcome
    ensures outcome { outcome_of result ≡ edit_outcome (edit_refusal (length (rows_of roll.old)) place row.now) }
    ensures after { rows_of roll.new ≡ edited_roll (rows_of roll.old) (edit_unless (edit_refusal (length (rows_of roll.old)) place row.now) place row.now) }
{
    match roll.edit(place, row) {
        Ok(()) => Outcome::Edited,
        Err(refusal) => Outcome::Refused(refusal),
    }
}

impl<'t> Curator<'t> {
    // Takes the next page of the tape, where a whole one is left.
    fn next_page(&mut self) -> Option<&'t Page>
        ensures budgets { self.new.budgets ≡ self.old.budgets }
        ensures page { MatchOption result ((length self.old.tape.now < 2048) × (self.new.tape.now ≡ self.old.tape.now)) (λ p. (2048 ≤ length self.old.tape.now) × (p.now ≡ take 2048 self.old.tape.now) × (self.new.tape.now ≡ drop 2048 self.old.tape.now)) }
    {
        let (page, rest) = self.tape.split_first_chunk::<2_048>()?;
        self.tape = rest;
        Some(page)
    }

    // Charges a query to its analyst, or refuses it.
    fn charge(&mut self, asked: &Asked) -> Result<(), Refusal>
        ensures verdict { refusal_of result ≡ payment_refusal (budgets_of self.old.budgets) asked.now.analyst (cost_of asked.now) }
        ensures budgets { budgets_of self.new.budgets ≡ charged result (budgets_of self.old.budgets) asked.now }
        ensures tape { self.new.tape.now ≡ self.old.tape.now }
    {
        let analyst = usize::from(asked.analyst);
        self.budgets = self.budgets.pay(analyst, asked.query.cost())?;
        Ok(())
    }

    // Takes the next page for a query and charges its analyst, or refuses it. No row has a part in this.
    #[tactic(auto, using(crate::proofs::Turns::turns))]
    fn admit(&mut self, asked: &Asked) -> Result<&'t Page, Refusal>
        ensures verdict { refusal_of result ≡ verdict our_dial (length (words_of self.old.tape.now)) (budgets_of self.old.budgets) asked.now.analyst (query_of asked.now.query) }
        ensures budgets { budgets_of self.new.budgets ≡ charged result (budgets_of self.old.budgets) asked.now }
        ensures tape { words_of self.new.tape.now ≡ drop (taken_by self.old asked.now) (words_of self.old.tape.now) }
        ensures page { IfOk result (λ p. words_of p.now ≡ take (taken_by self.old asked.now) (words_of self.old.tape.now)) }
    {
        let page = self.next_page().ok_or(Refusal::TapeEnds)?;
        self.charge(asked)?;
        Ok(page)
    }

    // Answers a query from the rows and the next page, or refuses it.
    fn answer(&mut self, rows: &[Row], asked: &Asked) -> Result<Answer, Refusal>
        ensures { Leads our_dial (state_by self.old rows.now) (ask_of asked.now) (or_refused answer_of result) (state_by self.new rows.now) }
    {
        let page = self.admit(asked)?;
        let released = release_query(&asked.query, rows, page);
        let left = self.budgets.left(usize::from(asked.analyst)).unwrap_or(0);
        Ok(Answer {
            analyst: asked.analyst,
            released,
            left,
        })
    }

    // Answers a query, or tells its refusal. It is a call of its own, so that an edit does not pay for the memory of an answer.
    #[inline(never)]
    fn ask(&mut self, rows: &[Row], asked: &Asked) -> Outcome
        ensures { Leads our_dial (state_by self.old rows.now) (ask_of asked.now) (outcome_of result) (state_by self.new rows.now) }
    {
        match self.answer(rows, asked) {
            Ok(answer) => Outcome::Answered(answer),
            Err(refusal) => Outcome::Refused(refusal),
        }
    }

    // Takes a line: its outcome, with the roll, the budgets and the tape as they are after it.
    pub fn line(&mut self, roll: &mut Roll, line: &[u8]) -> Outcome
        ensures outcome { outcome_of result ≡ outcome our_dial (state_by self.old (rows_of roll.old)) (read_line (length (rows_of roll.old)) line.now) }
        ensures after { state_by self.new (rows_of roll.new) ≡ step our_dial (state_by self.old (rows_of roll.old)) (read_line (length (rows_of roll.old)) line.now) (outcome_of result) }
    {
        let command = match Command::read(line) {
            Ok(command) => command,
            Err(refusal) => return Outcome::Refused(refusal),
        };
        match command {
            Command::Edit { place, row } => edit(roll, place, &row),
            Command::Ask(asked) => self.ask(roll.rows(), &asked),
        }
    }
}
