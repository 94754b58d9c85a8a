// Readings as rows of numbers.
ghost use Rattle.std.specs.Prelude.{◌∷◌, ◌++◌, map, ◌≡◌, ◌≤◌, pos, length, Ok};
ghost use Rattle.meaning.specs.Answers.{accepted, read_answer};
ghost use Rattle.meaning.specs.OpenedBooks.{book_in};
ghost use Rattle.meaning.specs.Trust.{trust_check};
ghost use Rattle.meaning.specs.Whole as whole;
ghost use Rattle.rows.specs.Fits.{NumberFits, ReadFits};
ghost use Rattle.rows.specs.Rows.{in_row, Given};

use crate::answers::give_refusal;
use crate::entries::{entry, lay, lay_places};
use fields::signed::size;
use meaning::{Choices, Reading, Refusal};
use reader::checks::text_check;
use reader::walk::parse_parts;

fn give_values(reading: Reading, row: &mut [i64]) -> u32
    requires { (48 ≤ length row.old) × NumberFits reading.taken }
    ensures { Given (accepted (pos reading.taken ∷ pos reading.mask ∷ pos reading.units ∷ reading.values ++ map pos reading.starts ++ map pos reading.ends)) row.old row.new result }
{
    let taken = entry(reading.taken as u64);
    let mask = i64::from(reading.mask);
    let units = i64::from(reading.units);
    lay(&[taken, mask, units], row, 0);
    lay(&reading.values, row, 3);
    lay_places(&reading.starts, row, 18);
    lay_places(&reading.ends, row, 33);
    0
}

fn give_reading(reading: Result<Reading, Refusal>, row: &mut [i64]) -> u32
    requires { (48 ≤ length row.old) × ReadFits reading }
    ensures { Given (in_row 48 (read_answer reading)) row.old row.new result }
{
    match reading {
        Ok(reading) => give_values(reading, row),
        Err(why) => give_refusal(why, 48, row),
    }
}

// A text read into a row by a pattern and in a year that have passed 1, 2, 3 and 14. What reads one text and what reads a list both call
// this, so that the walk stands here alone and no record is handed on. The text is checked here, since each function that a record passes
// through keeps a copy of it on the stack.
pub fn read_row(
    choices: Choices,
    book: &[u8],
    pattern: &[u8],
    text: &[u8],
    year: i32,
    row: &mut [i64],
) -> u32
    requires { (48 ≤ length row.old) × (trust_check choices.edition pattern.now year ≡ Ok tt) }
    ensures { Given (in_row 48 (read_answer (whole.read choices (book_in book.now) pattern.now text.now year))) row.old row.new result }
{
    match text_check(text) {
        Ok(()) => { give_reading(parse_parts(choices, book, pattern, text, size(year)), row) }
        Err(why) => give_refusal(why, 48, row),
    }
}
