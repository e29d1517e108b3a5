// Reading a line from its start to its end.
ghost use Rattle.std.specs.Prelude.{◌≡◌, ◌-◌, ◌<◌, ◌≤◌, [], ◌∷◌, length, drop, MatchResult};
ghost use Rattle.roll.specs.Reading.{finish, outcome};
ghost use Rattle.roll.specs.declared.refusal.Refusal.TheVariants.{LineEnds};

use crate::Refusal;

// The bytes of a line that are left to read, and how long the whole line is.
#[derive(Clone, Copy, Debug)]
pub struct Rest<'a> {
    bytes: &'a [u8],
    end: usize,
    ghost inside: { length bytes.now ≤ end },
}

impl<'a> Rest<'a> {
    // The whole line.
    pub fn of(line: &'a [u8]) -> Rest<'a>
        ensures { (result.bytes.now ≡ line.now) × (result.end ≡ length line.now) }
    {
        Rest {
            bytes: line,
            end: line.len(),
        }
    }

    // What is left after so many bytes.
    pub fn skip(self, n: usize) -> Result<Rest<'a>, Refusal>
        ensures { MatchResult result (λ r. (n ≤ length self.entry.bytes.now) × (r.bytes.now ≡ drop n self.entry.bytes.now) × (r.end ≡ self.entry.end)) (λ e. (length self.entry.bytes.now < n) × (e ≡ LineEnds self.entry.end)) }
    {
        let Some((_, bytes)) = self.bytes.split_at_checked(n) else {
            return Err(Refusal::LineEnds(self.end));
        };
        Ok(Rest {
            bytes,
            end: self.end,
        })
    }

    // The place in the line where it begins.
    pub fn at(&self) -> usize
        ensures { result ≡ self.now.end - length self.now.bytes.now }
    {
        self.end - self.bytes.len()
    }

    // The first byte, and what is left after it.
    pub fn byte(self) -> Result<(u8, Rest<'a>), Refusal>
        ensures { MatchResult result (λ p. (self.entry.bytes.now ≡ p.0 ∷ p.1.bytes.now) × (p.1.end ≡ self.entry.end)) (λ e. (self.entry.bytes.now ≡ []) × (e ≡ LineEnds self.entry.end)) }
    {
        let Some((byte, bytes)) = self.bytes.split_first() else {
            return Err(Refusal::LineEnds(self.end));
        };
        Ok((
            *byte,
            Rest {
                bytes,
                end: self.end,
            },
        ))
    }

    // Refuses a byte that is left.
    pub fn finish(self) -> Result<(), Refusal>
        ensures { outcome result ≡ finish self.entry.end self.entry.bytes.now }
    {
        if self.bytes.is_empty() {
            Ok(())
        } else {
            Err(Refusal::TrailingByte(self.at()))
        }
    }
}
