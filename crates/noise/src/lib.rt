// Words of chance, and the numbers released for true counts.
#![tactic(auto)]

ghost use Rattle.std.specs.Prelude.{◌≡◌, ◌+◌, ◌%◌, option_map};
ghost use Rattle.noise.specs.Dial.{Dial, Good, our_dial};
ghost use Rattle.noise.specs.Release.{our_draw, our_number, our_release, released, released_number};
ghost use Rattle.noise.specs.Statements.{NoneAlike, OneCell, OneQuestion, WordsBytes};
ghost use Rattle.noise.specs.Words.{first_words, word_of};

use weights::{PLACES, TOTAL, offset};

mod released;

pub use released::{Released, release_all};

// A page of the tape: 256 words of eight bytes, low byte first. The words 4i to 4i + 3 belong to cell i.
pub type Page = [u8; 2_048];

// Words from this bound on are rejected: it is the greatest multiple of `TOTAL` below 2^64.
const BOUND: u64 = 18_446_743_461_844_455_030;

// The words of a cell are that many bytes: four words.
const CELL_BYTES: usize = 32;

// The word that eight bytes spell, low byte first.
fn word_from(bytes: &[u8; 8]) -> u64
    ensures { result ≡ word_of bytes.now }
{
    u64::from_le_bytes(*bytes)
}

// The draw of a word, or none where the word is rejected.
fn draw(word: u64) -> Option<u64>
    ensures { result ≡ our_draw word }
{
    if word < BOUND {
        Some(word % TOTAL)
    } else {
        None
    }
}

// The place of the ring that the offset turns a count to. The casts are proved to lose nothing, and no `From` leads from `u32` to `usize`.
fn turned(count: usize, offset: u16) -> u16
    ensures { result ≡ (count + offset) % 65536 }
{
    let places = PLACES as usize;
    ((count % places + usize::from(offset)) % places) as u16
}

// The number that one word alone releases, or none where the word is rejected.
fn number(count: usize, word: u64) -> Option<u16>
    ensures { result ≡ our_number count word }
{
    let u = draw(word)?;
    let moved = offset(u)?;
    Some(turned(count, moved))
}

// The number released for a cell with this true count, from the cell's four words, or none where all of them are rejected.
fn cell_number(count: usize, bytes: &[u8; CELL_BYTES]) -> Option<u16>
    ensures { released_number result ≡ released our_dial count (first_words 4 bytes.now) }
{
    let (words, _) = bytes.as_chunks::<8>();
    words.iter().find_map(|word| number(count, word_from(word)))
}

// The number released for a cell with this true count, from bytes that start with the cell's four words; nothing where they are fewer.
pub fn release(count: usize, words: &[u8]) -> Option<Option<u16>>
    ensures { option_map released_number result ≡ our_release count words.now }
{
    let cell = words.first_chunk::<CELL_BYTES>()?;
    Some(cell_number(count, cell))
}

// Our dial is good.
pub fn our_good_stands()
    ensures { Good our_dial }
{}

// Counts c and c + 1: any number is at most high / low times as frequent for the one as for the other.
pub fn one_cell_stands()
    ensures good { (d : Dial) → Good d → OneCell d }
    ensures ours { OneCell our_dial }
{}

// None is released as often whatever the count.
pub fn none_alike_stands()
    ensures all { (d : Dial) → NoneAlike d }
    ensures ours { NoneAlike our_dial }
{}

// Counts that are s apart: any answer is at most (high / low)^s times as frequent for the one as for the other.
pub fn one_question_stands()
    ensures good { (d : Dial) → Good d → OneQuestion d }
    ensures ours { OneQuestion our_dial }
{}

// Tapes of words may be counted by their bytes.
pub fn words_bytes_stands()
    ensures { WordsBytes }
{}

#[cfg(test)]
mod tests {
    use super::*;
    use std::test::Fail;

    // Writes a word into a page, low byte first.
    fn put(page: &mut Page, word: usize, value: u64) {
        if let Some(place) = page.as_chunks_mut::<8>().0.get_mut(word) {
            *place = value.to_le_bytes();
        }
    }

    // The greatest word that draws, the words that are rejected, and parts of other lengths.
    #[test]
    fn the_bound_rejects(rt: HostRuntime) {
        assert_eq!(rt; draw(BOUND - 1), Some(TOTAL - 1));
        assert_eq!(rt; draw(BOUND), None);
        assert_eq!(rt; release(7, &[0xff; 32]), Some(None));
        assert_eq!(rt; release(7, &[0xff; 31]), None);
        assert_eq!(rt; release(65_537, &[0; 40]), Some(Some(1)));
    }

    // Word 0 draws 0, word 4 the first draw of place 1; word 8 is rejected, and word 9 draws place 65,533.
    #[test]
    fn a_page_of_three_cells(rt: HostRuntime) -> Result<(), Fail> {
        let mut page: Page = [0; 2_048];
        put(&mut page, 4, 1_099_511_627_776);
        put(&mut page, 8, 18_446_743_461_844_455_030);
        put(&mut page, 9, 7_749_358_214_158);
        let Some(released) = release_all(&[1, 1, 2], &page) else {
            return Err(Fail::new("too many cells"));
        };
        assert!(rt; released.as_slice() == [Some(1), Some(2), Some(65_535)].as_slice());
        assert_eq!(rt; released.len(), 3);
        Ok(())
    }

    // A page of zeros moves no count.
    #[test]
    fn a_page_serves_64_cells(rt: HostRuntime) -> Result<(), Fail> {
        let page: Page = [0; 2_048];
        let Some(released) = release_all(&[65_535; 64], &page) else {
            return Err(Fail::new("too many cells"));
        };
        assert!(rt; released.as_slice() == [Some(65_535); 64].as_slice());
        assert!(rt; release_all(&[0; 65], &page).is_none());
        Ok(())
    }
}
