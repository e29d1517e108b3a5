// The roll: a row of sixteen numbers for each place, in memory that the caller lends.
ghost use Rattle.std.specs.Prelude.{◌≡◌, ◌+◌, ◌*◌, ◌/◌, ◌<◌, ◌≤◌, ◌++◌, length, take, drop, is_ok, IfOk, if◌then◌else◌, MatchOption, nat_lt, slice_index, slice_set};
ghost use Rattle.roll.specs.Refusals.{refusal_of};
ghost use Rattle.roll.specs.Rows.{rows_of, rows_in, misfit, roll_refusal, edit_refusal};

use crate::Refusal;

// The most places that a roll has.
pub const MOST_PLACES: usize = 32_768;

// The numbers of one place. Field 0 is 1 for a household and 0 for an empty place.
pub type Row = [u8; 16];

// A place keeps its number for ever; its row can be edited.
#[derive(Drop)]
pub struct Roll<'a> {
    pub(crate) bytes: &'a mut [u8],
}

// Whether the row is neither empty nor a household.
fn is_misfit(row: &Row) -> bool
    ensures { result ≡ nat_lt 1 (slice_index row.now 0) }
{
    row[0] > 1
}

// Where the row of a place starts in so many bytes of rows, if there is such a place.
fn start_of(bytes: usize, place: usize) -> Option<usize>
    ensures { MatchOption result (bytes / 16 ≤ place) (λ start. (place < bytes / 16) × (start ≡ 16 * place) × (start + 16 ≤ bytes)) }
{
    if place >= bytes / 16 {
        return None;
    }
    Some(16 * place)
}

// Writes a row over the sixteen bytes from `start` on. What the library's rows for writing leave of the bytes, no contract says.
fn put(bytes: &mut [u8], start: usize, row: &Row)
    requires { start + 16 ≤ length bytes.old }
    ensures { bytes.new ≡ take start bytes.old ++ (row.now ++ drop 16 (drop start bytes.old)) }
{
    bytes[start..start + 16].copy_from_slice(row);
}

// Whether each row is empty or a household; else the first that is neither.
fn check_status(rows: &[Row]) -> Result<(), Refusal>
    ensures { refusal_of result ≡ misfit 0 rows.now }
{
    match rows.iter().position(is_misfit) {
        Some(place) => Err(Refusal::RowStatus(place)),
        None => Ok(()),
    }
}

impl<'a> Roll<'a> {
    // A roll of so many places over its bytes, sixteen for each.
    pub fn open(places: usize, bytes: &'a mut [u8]) -> Result<Roll<'a>, Refusal>
        ensures verdict { refusal_of result ≡ roll_refusal places bytes.old }
        ensures holds { IfOk result (λ roll. rows_of roll ≡ rows_in bytes.old) }
    {
        Roll::check(places, bytes)?;
        Ok(Roll::over(bytes))
    }

    // The roll over the bytes as they are.
    pub fn over(bytes: &'a mut [u8]) -> Roll<'a>
        ensures { result.bytes.now ≡ bytes.old }
    {
        Roll { bytes }
    }
}

impl Roll<'_> {
    // Whether the bytes are those of a roll of so many places: sixteen for each, and each row empty or a household. They are only looked at.
    pub fn check(places: usize, bytes: &[u8]) -> Result<(), Refusal>
        ensures { refusal_of result ≡ roll_refusal places bytes.now }
    {
        if places == 0 || places > MOST_PLACES || bytes.len() != 16 * places {
            return Err(Refusal::RollSize);
        }
        let (rows, _) = bytes.as_chunks::<16>();
        check_status(rows)
    }

    // How many places there are.
    pub fn places(&self) -> usize
        ensures { result ≡ length (rows_of self.now) }
    {
        self.rows().len()
    }

    // The rows, in the order of their places.
    pub fn rows(&self) -> &[Row]
        ensures { result.now ≡ rows_of self.now }
    {
        self.bytes.as_chunks::<16>().0
    }

    // Gives a place another row. A refusal changes nothing.
    pub fn edit(&mut self, place: usize, row: &Row) -> Result<(), Refusal>
        ensures verdict { refusal_of result ≡ edit_refusal (length (rows_of self.old)) place row.now }
        ensures after { rows_of self.new ≡ (if is_ok result then slice_set (rows_of self.old) place row.now else rows_of self.old) }
    {
        let Some(start) = start_of(self.bytes.len(), place) else {
            return Err(Refusal::EditPlace);
        };
        if is_misfit(row) {
            return Err(Refusal::EditStatus);
        }
        put(self.bytes, start, row);
        Ok(())
    }
}
