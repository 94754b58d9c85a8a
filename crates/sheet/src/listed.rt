// Lists, for C and Rust: a pasted text read into four rows, and the line at a place of it.
ghost use Rattle.std.specs.Prelude.{◌≤◌, ◌<◌, length};
ghost use Rattle.meaning.specs.Answers.{list_answer};
ghost use Rattle.meaning.specs.Lists.{rows_of, read_line};
ghost use Rattle.meaning.specs.OpenedBooks.{book_in};
ghost use Rattle.rows.specs.Fits.{CountFits};
ghost use Rattle.rows.specs.Rows.{in_row, Given, in_line};
ghost use Rattle.sheet.specs.Sheet.{SheetReadsList, SheetReadsLine};

use crate::numbers::{choices_of, is_book};
use crate::read;
use lists::lines::{Places, line_at};
use lists::read_list;
use meaning::Choices;
use rows::answers::give_counted;
use rows::entries::{entry, lay};

// A line that is there: where it starts and ends and the next one starts, and behind these its reading.
fn give_line(
    choices: Choices,
    book: &[u8],
    pattern: &[u8],
    text: &[u8],
    at: usize,
    year: i32,
    row: &mut [i64],
) -> u32
    requires { (at < length text.now) × (51 ≤ length row.old) }
    ensures { Given (in_line (read_line choices (book_in book.now) pattern.now text.now at year)) row.old row.new result }
{
    let Places { end, next, .. } = line_at(text, at);
    lay(
        &[entry(at as u64), entry(end as u64), entry(next as u64)],
        row,
        0,
    );
    read(choices, book, pattern, &text[at..end], year, &mut row[3..])
}

// A list read with a reader's choices and the names of a lent book: day, month, year and code of each line into the four rows. The row
// of the answer: how many lines and 0, or the refusal's details. The rows are four parameters in the C interface.
#[unsafe(no_mangle)]
pub extern "C" fn sheet_read_list(
    choices: u32,
    book: &[u8],
    pattern: &[u8],
    text: &[u8],
    year: i32,
    days: &mut [i32],
    months: &mut [i32],
    years: &mut [i32],
    codes: &mut [u32],
    answer: &mut [i64],
) -> u32
    ensures { SheetReadsList choices book.now pattern.now text.now year (rows_of days.old months.old years.old codes.old) answer.old result (rows_of days.new months.new years.new codes.new) answer.new }
{
    if 7 < choices {
        return 101;
    }
    if !is_book(book) {
        return 102;
    }
    if answer.len() < 2 {
        return 100;
    }
    let choices = choices_of(choices);
    give_counted(
        read_list(
            choices, book, pattern, text, year, days, months, years, codes,
        ),
        answer,
    )
}

// The line that starts at a place of a pasted text, read likewise. The row: where it starts and ends and the next one starts, then the 48
// numbers of a reading, with places within the line. Where no line is left: 103, and nothing is altered.
#[unsafe(no_mangle)]
pub extern "C" fn sheet_read_line(
    choices: u32,
    book: &[u8],
    pattern: &[u8],
    text: &[u8],
    at: usize,
    year: i32,
    answer: &mut [i64],
) -> u32
    ensures { SheetReadsLine choices book.now pattern.now text.now at year answer.old result answer.new }
{
    if choices > 7 {
        return 101;
    }
    if !is_book(book) {
        return 102;
    }
    if answer.len() < 51 {
        return 100;
    }
    if text.len() <= at {
        return 103;
    }
    give_line(choices_of(choices), book, pattern, text, at, year, answer)
}
