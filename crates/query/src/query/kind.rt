// The kinds of a query.
ghost use Rattle.query.specs.Kinds.{KindOf};

use roll::Refusal;

// Whether a count or a table is asked for.
#[derive(Clone, Copy, Debug, PartialEq, Eq)]
pub(super) enum Kind {
    Count,
    Table,
}

impl TryFrom<u8> for Kind {
    type Error = Refusal;

    ghost try_from_gives = { KindOf };

    fn try_from(byte: u8) -> Result<Kind, Refusal> {
        match byte {
            1 => Ok(Kind::Count),
            2 => Ok(Kind::Table),
            _ => Err(Refusal::QueryKind),
        }
    }
}
