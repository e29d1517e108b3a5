// The items of a short list.
ghost use Rattle.std.specs.Prelude.{◌≡◌, ◌+◌, ◌<◌, ◌≤◌, [], ◌∷◌, ◌++◌, length, OnOk, OnErr, IfErr, MatchResult, slice_get, slice_set, drop, All};
ghost use Rattle.std.specs.Cmp.{on_per, on_equiv};
ghost use Rattle.std.specs.Cmp.Lexicographic.{pointwise, lists_per, lists_equiv};
ghost use Rattle.roll.specs.Lists.{listed};

use super::UpTo;

impl<T: Copy + Default, const N: usize> UpTo<T, N> {
    // A list of nothing.
    pub fn new() -> UpTo<T, N>
        ensures { listed result ≡ [] }
    {
        UpTo {
            items: [T::default(); N],
            len: 0,
        }
    }
}

// Lists are equal where their items are, whatever stands past these, so this is not derived.
impl<T: PartialEq, const N: usize> PartialEq for UpTo<T, N> {
    ghost eq = { λ a b. pointwise T.eq (listed a) (listed b) };

    ghost laws = { on_per listed (lists_per T.PartialEq.laws) };

    fn eq(&self, other: &UpTo<T, N>) -> bool {
        self.as_slice() == other.as_slice()
    }
}

impl<T: Eq, const N: usize> Eq for UpTo<T, N> {
    ghost laws = { on_equiv listed (lists_equiv T.Eq.laws) };
}

// More items than a list holds.
#[derive(Clone, Copy, Debug, PartialEq, Eq)]
pub struct TooMany;

impl<T: Copy + Default, const N: usize> TryFrom<&[T]> for UpTo<T, N> {
    type Error = TooMany;

    ghost try_from_gives = { λ items r. MatchResult r (λ l. (listed l ≡ items.now) × All T.is_default (drop l.len l.items)) (λ _. N < length items.now) };

    fn try_from(items: &[T]) -> Result<UpTo<T, N>, TooMany> {
        if items.len() > N {
            return Err(TooMany);
        }
        let mut all = [T::default(); N];
        all[..items.len()].copy_from_slice(items);
        Ok(UpTo {
            items: all,
            len: items.len(),
        })
    }
}

impl<T, const N: usize> UpTo<T, N> {
    // The items, in their order.
    pub fn as_slice(&self) -> &[T]
        ensures { result.now ≡ listed self.now }
    {
        &self.items[..self.len]
    }

    // How many there are.
    pub fn len(&self) -> usize
        ensures { result ≡ length (listed self.now) }
    {
        self.as_slice().len()
    }
}

impl<T: Copy, const N: usize> UpTo<T, N> {
    // Puts an item after the last, or gives it back where no more fit.
    pub fn push(&mut self, item: T) -> Result<(), T>
        ensures ok { OnOk result ((length (listed self.old) < N) × (listed self.new ≡ listed self.old ++ item ∷ [])) }
        ensures err { OnErr result ((length (listed self.old) ≡ N) × (self.new ≡ self.old)) }
        ensures back { IfErr result (λ x. x ≡ item) }
    {
        if self.len == N {
            return Err(item);
        }
        self.items[self.len] = item;
        self.len += 1;
        Ok(())
    }

    // Puts an item in the place of another, which it gives back; where there is none, nothing changes.
    pub fn replace(&mut self, at: usize, item: T) -> Option<T>
        ensures value { result ≡ slice_get (listed self.old) at }
        ensures after { listed self.new ≡ slice_set (listed self.old) at item }
        ensures spare { drop self.new.len self.new.items ≡ drop self.old.len self.old.items }
    {
        if at >= self.len {
            return None;
        }
        let old = self.items[at];
        self.items[at] = item;
        Some(old)
    }
}
