// Reading a line.
ghost use Rattle.std.specs.Prelude.{◌≡◌, length, drop, MatchOption, ◌≢◌};
ghost use Rattle.curator.specs.Lines.{edit_place};
ghost use Rattle.curator.specs.Served.{ReadAs, ReadAsk, ReadEdit};

use super::Command;
use super::kind::Kind;
use query::Query;
use roll::{Refusal, Row, two_bytes};

// The place and the row of an edit, where the line is as long as an edit: its kind, two bytes for the place, low byte first, and the row.
fn place_and_row(line: &[u8]) -> Option<(usize, &Row)>
    ensures { MatchOption result (length line.now ≢ 19) (λ p. (length line.now ≡ 19) × (p.0 ≡ edit_place line.now) × (p.1.now ≡ drop 3 line.now)) }
{
    let [_, low, high, row @ ..] = line else {
        return None;
    };
    Some((two_bytes(*low, *high), row.as_array::<16>()?))
}

// An edit.
fn read_edit(line: &[u8]) -> Result<Command, Refusal>
    ensures { ReadEdit result line.now }
{
    let (place, row) = place_and_row(line).ok_or(Refusal::EditLength(line.len()))?;
    Ok(Command::Edit { place, row: *row })
}

// A query.
fn read_ask(line: &[u8]) -> Result<Command, Refusal>
    ensures { ReadAsk result line.now }
{
    Ok(Command::Ask(Query::read(line)?))
}

impl Command {
    // What a line asks for. Whether a place that is edited is there is looked at later.
    #[tactic(auto, using(crate::proofs::Reading::kinds))]
    pub fn read(line: &[u8]) -> Result<Command, Refusal>
        ensures { ReadAs result line.now }
    {
        let kind = line.first().ok_or(Refusal::LineKind)?;
        match Kind::try_from(*kind)? {
            Kind::Edit => read_edit(line),
            Kind::Query => read_ask(line),
        }
    }
}
