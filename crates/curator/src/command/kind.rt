// The kinds of lines.
ghost use Rattle.curator.specs.Served.{Names};

use roll::Refusal;

#[derive(Clone, Copy)]
pub(super) enum Kind {
    Edit,
    Query,
}

// A line's first byte names its kind.
impl TryFrom<u8> for Kind {
    type Error = Refusal;

    ghost try_from_gives = { Names };

    fn try_from(byte: u8) -> Result<Kind, Refusal> {
        match byte {
            1 => Ok(Kind::Edit),
            2 => Ok(Kind::Query),
            _ => Err(Refusal::LineKind),
        }
    }
}
