// The tokens of a predicate.
ghost use Rattle.std.specs.Prelude.{ℕ};
ghost use Rattle.roll.specs.Tokens.{ReadToken};

use crate::{Field, Refusal, Rest};

// What a token asks for: a field below a number, both of two predicates, of which the first has so many tokens, or not a predicate.
#[derive(Clone, Copy, Debug, Default)]
pub(super) enum Token {
    Below { field: Field, bound: u8 },
    Both { first: u8 },
    #[default]
    Negated,
}

// A comparison: its field and its number, and what is left after them.
fn comparison(rest: Rest) -> Result<(Token, Rest), Refusal>
    ensures { (at : ℕ) → ReadToken result 1 at rest.entry }
{
    let at = rest.at();
    let (field, rest) = rest.byte()?;
    let Ok(field) = Field::try_from(field) else {
        return Err(Refusal::PredicateField(at));
    };
    let (bound, rest) = rest.byte()?;
    Ok((Token::Below { field, bound }, rest))
}

impl Token {
    // The token that begins with a byte, at this place of the line, and what is left after it. The first half of a `Both` is not read yet: it has no token.
    pub(super) fn read(byte: u8, at: usize, rest: Rest) -> Result<(Token, Rest), Refusal>
        ensures { ReadToken result byte at rest.entry }
    {
        match byte {
            1 => comparison(rest),
            2 => Ok((Token::Both { first: 0 }, rest)),
            3 => Ok((Token::Negated, rest)),
            _ => Err(Refusal::TokenKind(at)),
        }
    }
}
