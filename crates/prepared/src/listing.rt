// A whole list read by a row.
ghost use Rattle.std.specs.Prelude.{◌≡◌, ◌≤◌, length, take, Ok};
ghost use Rattle.lists.specs.LentRows.{rows_in, SameRows};
ghost use Rattle.meaning.specs.Lists.{rows_of};
ghost use Rattle.meaning.specs.OpenedBooks.{book_in};
ghost use Rattle.meaning.specs.Prepared.{list_rows_steps, read_list_steps};
ghost use Rattle.prepared.specs.Uses.{prepared_listed, prepared_rows};
ghost use Rattle.rows.specs.Rows.{Given};
ghost use Rattle.words.specs.Pieces.{steps_of};

use crate::opening::open;
use fields::checks::current_year_check;
use lists::cells::LentRows;
use lists::lay_list;
use meaning::{Choices, Refusal};
use rows::answers::{give_counted, give_refusal};
use word_reader::reading::read_words;

// By words, 14 and 24 first.
fn list_in_year(
    choices: Choices,
    book: &[u8],
    tail: &[u64],
    used: usize,
    text: &[u8],
    year: i32,
    rows: &mut LentRows,
) -> Result<usize, Refusal>
    requires { used ≤ length tail.now }
    ensures same { SameRows rows.old rows.new }
    ensures listed { result ≡ read_list_steps (Ok tt) choices text.now year (rows_in rows.old) }
    ensures rows { rows_in rows.new ≡ list_rows_steps (Ok tt) choices (book_in book.now) (steps_of tail.now (take used tail.now)) text.now year (rows_in rows.old) }
{
    current_year_check(choices.edition, year)?;
    let read = |line: &[u8], row: &mut [i64]| read_words(
        choices, book, tail, used, line, year, row,
    );
    lay_list(text, read, rows)
}

// The answer as of any list. Where the row is not that of a prepared pattern: 105, and nothing is altered. The four rows stay parameters, as
// those of `lists::read_list`.
pub fn read_list(
    choices: Choices,
    book: &[u8],
    row: &[u64],
    text: &[u8],
    year: i32,
    days: &mut [i32],
    months: &mut [i32],
    years: &mut [i32],
    codes: &mut [u32],
    answer: &mut [i64],
) -> u32
    requires { 2 ≤ length answer.old }
    ensures { Given (prepared_listed choices row.now text.now year (rows_of days.old months.old years.old codes.old)) answer.old answer.new result × (rows_of days.new months.new years.new codes.new ≡ prepared_rows choices book.now row.now text.now year (rows_of days.old months.old years.old codes.old)) }
{
    let Some(opened) = open(row) else {
        return 105;
    };
    let mut rows = LentRows {
        days,
        months,
        years,
        codes,
    };
    match opened {
        Err(why) => give_refusal(why, 2, answer),
        Ok(used) => give_counted(
            list_in_year(choices, book, &row[3..259], used, text, year, &mut rows),
            answer,
        ),
    }
}
