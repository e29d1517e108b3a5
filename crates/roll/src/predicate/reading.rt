// Reading a predicate from the bytes of a line.
ghost use Rattle.std.specs.Prelude.{◌+◌, ◌≤◌, length, MatchResult};
ghost use Rattle.roll.specs.Lists.{listed};
ghost use Rattle.roll.specs.Reading.{read_predicate};
ghost use Rattle.roll.specs.Stored.{read_from, ReadAs};
ghost use Rattle.roll.specs.Tokens.{Next, Scanned, Unread};

use super::token::Token;
use super::{Predicate, TOKENS};
use crate::{Refusal, Rest, UpTo};

// Reads one token, of at most `left`, puts it after those that were read, and gives it with what is left of the line and of the tokens.
fn next<'a>(
    rest: Rest<'a>,
    left: usize,
    tokens: &mut UpTo<Token, TOKENS>,
) -> Result<(Token, Rest<'a>, usize), Refusal>
    requires room { length (listed tokens.old) + left ≤ 64 }
    ensures { MatchResult result (λ r. Next (listed tokens.old) (listed tokens.new) rest.entry left r.0 r.1 r.2) (λ e. Unread e rest.entry left) }
{
    let at = rest.at();
    let (byte, rest) = rest.byte()?;
    let left = left.checked_sub(1).ok_or(Refusal::TokenCount(at))?;
    let (token, rest) = Token::read(byte, at, rest)?;
    let Ok(()) = tokens.push(token) else {
        unreachable()
    };
    Ok((token, rest, left))
}

// Reads one predicate, of at most `left` tokens, puts its tokens after those that were read, and gives what is left of the line and of the tokens.
fn scan<'a>(
    rest: Rest<'a>,
    left: usize,
    tokens: &mut UpTo<Token, TOKENS>,
) -> Result<(Rest<'a>, usize), Refusal>
    requires room { length (listed tokens.old) + left ≤ 64 }
    ensures { MatchResult result (λ r. Scanned (listed tokens.old) (listed tokens.new) rest.entry left r.0 r.1) (λ e. Unread e rest.entry left) }
{
    let place = tokens.len();
    let (token, after, fewer) = next(rest, left, tokens)?;
    match token {
        Token::Below { .. } => Ok((after, fewer)),
        Token::Both { .. } => {
            let (second, least) = scan(after, fewer, tokens)?;
            // At most 64 tokens, so the cast loses nothing.
            let first = (fewer - least) as u8;
            tokens.replace(place, Token::Both { first });
            scan(second, least, tokens)
        }
        Token::Negated => scan(after, fewer, tokens),
    }
}

impl Predicate {
    // The predicate that is all that is left of a line.
    pub fn parse(rest: Rest) -> Result<Predicate, Refusal>
        ensures { ReadAs result (read_predicate rest.entry.end rest.entry.bytes.now) }
    {
        let mut tokens = UpTo::new();
        let (after, _) = scan(rest, TOKENS, &mut tokens)?;
        after.finish()?;
        Ok(Predicate { tokens })
    }

    // The predicate that stands in the line from `start` to its end.
    pub fn read(line: &[u8], start: usize) -> Result<Predicate, Refusal>
        ensures { ReadAs result (read_from line.now start) }
    {
        Predicate::parse(Rest::of(line).skip(start)?)
    }
}
