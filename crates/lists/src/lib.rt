// A whole list at once: a text of lines, each read by itself with one pattern, into four lent rows. The checks 1, 2, 3, 14 and 24 stand
// before anything is stored.
#![tactic(auto)]

pub mod cells;
pub mod counting;
pub mod line;
pub mod line_reader;
pub mod lines;

ghost use Rattle.std.specs.Prelude.{◌≡◌, length, map};
ghost use Rattle.lists.specs.LentRows.{rows_in, SameRows};
ghost use Rattle.lists.specs.LineReaders.{TakesLines, StandsFor, rows_check};
ghost use Rattle.meaning.specs.Lists.{lines, listed_by, rows_by, rows_of};
ghost use Rattle.meaning.specs.OpenedBooks.{book_in};
ghost use Rattle.meaning.specs.Promises.{ReadsList};

use crate::cells::{LentRows, lay_lines};
use crate::counting::count_lines;
use fields::checks::trust_check;
use meaning::{Choices, Refusal};
use rows::readings::read_row;

// A list by any reader of lines, a function that reads a line into a row of 48 numbers and gives its code: how many lines, or 24. Cells
// past the last line stay, and a refused list stores nothing.
pub fn lay_list<F: Fn(&[u8], &mut [i64]) -> u32>(
    text: &[u8],
    read: F,
    rows: &mut LentRows,
) -> Result<usize, Refusal>
    requires { TakesLines (F.pre read) }
    ensures same { SameRows rows.old rows.new }
    ensures listed { result ≡ listed_by (rows_check text.now (rows_in rows.old)) (length (lines text.now)) }
    ensures rows { (reading : _) → StandsFor (F.post read) reading → rows_in rows.new ≡ rows_by (rows_check text.now (rows_in rows.old)) (map reading (lines text.now)) (rows_in rows.old) }
{
    let n = count_lines(text);
    rows.check(n)?;
    lay_lines(text, read, rows);
    Ok(n)
}

// Reads a list with these choices: the day, the month and the year of line i into cell i of their rows, and its answer's number into that
// of the codes. Cells past the last line stay, and a refused list stores nothing. The rows stay four parameters: README names this
// function, and a caller lends it the rows as they are.
pub fn read_list(
    choices: Choices,
    book: &[u8],
    pattern: &[u8],
    text: &[u8],
    year: i32,
    days: &mut [i32],
    months: &mut [i32],
    years: &mut [i32],
    codes: &mut [u32],
) -> Result<usize, Refusal>
    ensures { ReadsList choices (book_in book.now) pattern.now text.now year (rows_of days.old months.old years.old codes.old) result (rows_of days.new months.new years.new codes.new) }
{
    let mut rows = LentRows {
        days,
        months,
        years,
        codes,
    };
    trust_check(choices.edition, pattern, year)?;
    let read = |line: &[u8], row: &mut [i64]| read_row(choices, book, pattern, line, year, row);
    lay_list(text, read, &mut rows)
}
