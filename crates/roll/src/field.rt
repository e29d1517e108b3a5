// One of the sixteen fields of a row.
ghost use Rattle.std.specs.Prelude.{◌≡◌, ◌<◌, ◌≤◌, MatchResult, slice_index};

use crate::Row;

// The number of a field.
#[derive(Clone, Copy, Debug, PartialEq, Eq)]
pub struct Field {
    number: u8,
    ghost fits: { number < 16 },
}

// A number that no field has.
#[derive(Clone, Copy, Debug, PartialEq, Eq)]
pub struct UnknownField(pub u8);

impl TryFrom<u8> for Field {
    type Error = UnknownField;

    ghost try_from_gives = { λ number r. MatchResult r (λ f. f.number ≡ number) (λ e. (e.0 ≡ number) × (16 ≤ number)) };

    fn try_from(number: u8) -> Result<Field, UnknownField> {
        if number > 15 {
            Err(UnknownField(number))
        } else {
            Ok(Field { number })
        }
    }
}

impl Field {
    // The first field.
    pub fn first() -> Field
        ensures { result.number ≡ 0 }
    {
        Field { number: 0 }
    }

    // What the row has in the field.
    pub fn value(&self, row: &Row) -> u8
        ensures { result ≡ slice_index row.now self.now.number }
    {
        row[usize::from(self.number)]
    }
}
