// Whether a row passes a predicate.
ghost use Rattle.std.specs.Prelude.{◌≡◌, ◌==◌, slice_index};
ghost use Rattle.roll.specs.Predicates.{passes, counted};
ghost use Rattle.roll.specs.Stored.{predicate_of};
ghost use Rattle.roll.specs.Tokens.{Coded, IsVerdict};

use super::Predicate;
use super::token::Token;
use crate::Row;

// Whether the row passes the predicate that has these tokens. The second half of a `Both` is looked at only where the row passes the first.
fn evaluate(tokens: &[Token], row: &Row) -> bool
    requires { Coded tokens.now }
    ensures { IsVerdict tokens.now row.now result }
{
    let Some((token, rest)) = tokens.split_first() else {
        unreachable()
    };
    match token {
        Token::Below { field, bound } => field.value(row) < *bound,
        Token::Both { first } => {
            let (first, second) = rest.split_at(usize::from(*first));
            evaluate(first, row) && evaluate(second, row)
        }
        Token::Negated => !evaluate(rest, row),
    }
}

// Whether the row is a household's.
fn is_household(row: &Row) -> bool
    ensures { result ≡ (slice_index row.now 0 == 1) }
{
    row[0] == 1
}

impl Predicate {
    // Whether the row passes.
    pub fn passes(&self, row: &Row) -> bool
        ensures { result ≡ passes (predicate_of self.now) row.now }
    {
        evaluate(self.tokens.as_slice(), row)
    }

    // Whether the row is a household's and passes.
    pub fn counts(&self, row: &Row) -> bool
        ensures { result ≡ counted (predicate_of self.now) row.now }
    {
        is_household(row) && self.passes(row)
    }
}
