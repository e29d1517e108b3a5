// Reading the cuts of a table.
ghost use Rattle.std.specs.Prelude.{◌≡◌, ◌+◌, ◌<◌, ◌≤◌, ◌++◌, length, IfOk, MatchOption};
ghost use Rattle.roll.specs.Lists.{listed};
ghost use Rattle.query.specs.Asked.{Check, cuts_of};
ghost use Rattle.query.specs.Lines.{rising};

use super::Cuts;
use roll::{Refusal, Rest, UpTo};

// The least that the next cut may be, where this one is not too low itself.
fn next_low(cut: u8, low: usize) -> Option<usize>
    ensures { MatchOption result (cut < low) (λ n. (low ≤ cut) × (n ≡ cut + 1)) }
{
    let cut = usize::from(cut);
    if cut < low { None } else { Some(cut + 1) }
}

// Reads `n` cuts, none below `low` and each above the one before, and puts them after those that were read. It goes as the rule does, a cut at a time;
// a loop would have to say the same again in its invariant.
fn scan<'a>(
    rest: Rest<'a>,
    low: usize,
    n: usize,
    cuts: &mut UpTo<u8, 63>,
) -> Result<Rest<'a>, Refusal>
    requires { length (listed cuts.old) + n ≤ 63 }
    ensures check { Check result (rising rest.entry.end low n rest.entry.bytes.now) }
    ensures cuts { IfOk result (λ r. (r.end ≡ rest.entry.end) × (listed cuts.new ++ r.bytes.now ≡ listed cuts.old ++ rest.entry.bytes.now) × (length (listed cuts.new) ≡ length (listed cuts.old) + n)) }
{
    let Some(n) = n.checked_sub(1) else {
        return Ok(rest);
    };
    let at = rest.at();
    let (cut, rest) = rest.byte()?;
    let Some(low) = next_low(cut, low) else {
        return Err(Refusal::CutOrder(at));
    };
    let Ok(()) = cuts.push(cut) else {
        unreachable()
    };
    scan(rest, low, n, cuts)
}

impl Cuts {
    // The `n` cuts that come next in a line, and what is left after them.
    pub(crate) fn read(rest: Rest, n: usize) -> Result<(Cuts, Rest), Refusal>
        requires some { 0 < n }
        requires few { n ≤ 63 }
        ensures check { Check result (rising rest.entry.end 0 n rest.entry.bytes.now) }
        ensures cuts { IfOk result (λ p. (length (cuts_of p.0) ≡ n) × (cuts_of p.0 ++ p.1.bytes.now ≡ rest.entry.bytes.now) × (p.1.end ≡ rest.entry.end)) }
    {
        let mut cuts = UpTo::new();
        let rest = scan(rest, 0, n, &mut cuts)?;
        Ok((Cuts { cuts }, rest))
    }

    // The cuts, in their order.
    pub(crate) fn as_slice(&self) -> &[u8]
        ensures { result.now ≡ cuts_of self.now }
    {
        self.cuts.as_slice()
    }
}
