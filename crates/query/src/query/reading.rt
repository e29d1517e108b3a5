// Reading a query from the bytes of a line.
ghost use Rattle.std.specs.Prelude.{◌≡◌, ◌<◌, ◌≤◌, true, ◌||◌, MatchOption, ◌==◌, nat_lt};
ghost use Rattle.roll.specs.Reading.{read_predicate};
ghost use Rattle.roll.specs.Stored;
ghost use Rattle.query.specs.Asked.{Answered, ReadAs, RestOf};
ghost use Rattle.query.specs.Lines.{count_line, table_line, read_query};

use super::kind::Kind;
use super::{Asked, Query};
use crate::Cuts;
use roll::{Field, Predicate, Refusal, Rest};

// The number of cuts, where a table may have so many. It is read and used once, so it has no type of its own.
fn cut_count(byte: u8) -> Option<usize>
    ensures { MatchOption result ((byte == 0 || nat_lt 63 byte) ≡ true) (λ n. (n ≡ byte) × (0 < byte) × (byte ≤ 63)) }
{
    match byte {
        1..=63 => Some(usize::from(byte)),
        _ => None,
    }
}

// The predicate that is all that is left of a line.
fn read_predicate(line: &[u8], rest: Rest) -> Result<Predicate, Refusal>
    requires { RestOf line.now rest }
    ensures { Stored.ReadAs result (read_predicate rest.entry.end rest.entry.bytes.now) }
{
    Predicate::read(line, rest.at())
}

// A count: its predicate to the end of the line.
fn read_count(line: &[u8], rest: Rest) -> Result<Query, Refusal>
    requires { RestOf line.now rest }
    ensures { ReadAs result (λ a. count_line rest.entry.end a rest.entry.bytes.now) }
{
    let predicate = read_predicate(line, rest)?;
    Ok(Query::Count { predicate })
}

// A table: its field and its cuts, and its predicate to the end of the line.
fn read_table(line: &[u8], rest: Rest) -> Result<Query, Refusal>
    requires { RestOf line.now rest }
    ensures { ReadAs result (λ a. table_line rest.entry.end a rest.entry.bytes.now) }
{
    let (field, rest) = rest.byte()?;
    let Ok(field) = Field::try_from(field) else {
        return Err(Refusal::TableField);
    };
    let (n, rest) = rest.byte()?;
    let Some(n) = cut_count(n) else {
        return Err(Refusal::CutCount);
    };
    let (cuts, rest) = Cuts::read(rest, n)?;
    let predicate = read_predicate(line, rest)?;
    Ok(Query::Table {
        predicate,
        field,
        cuts,
    })
}

impl Query {
    // The query of a line whose first byte says that it is one.
    pub fn read(line: &[u8]) -> Result<Asked, Refusal>
        ensures { Answered result (read_query line.now) }
    {
        let (_, rest) = Rest::of(line).byte()?;
        let (analyst, rest) = rest.byte()?;
        let (kind, rest) = rest.byte()?;
        let query = match Kind::try_from(kind)? {
            Kind::Count => read_count(line, rest)?,
            Kind::Table => read_table(line, rest)?,
        };
        Ok(Asked { analyst, query })
    }
}
