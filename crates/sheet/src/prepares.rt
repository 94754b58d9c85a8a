// Prepared patterns, for C and Rust: a pattern prepared into a lent row, and texts written and read, lists read and the pattern checked by
// that row. Where a row is not that of a prepared pattern: 105, and nothing is altered.
ghost use Rattle.meaning.specs.Lists.{rows_of};
ghost use Rattle.sheet.specs.Prepared.{SheetPrepares, SheetPreparedWrites, SheetPreparedReads, SheetPreparedReadsList, SheetPreparedChecks};

use crate::numbers::{choices_of, edition_of, is_book, pair_of};
use meaning::Fields;
use prepared::checks::check;
use prepared::listing::read_list;
use prepared::prepares::prepare_row;
use prepared::reads::read;
use prepared::writes::write;

// A pattern prepared with a reader's choices, of which the pair counts, into a row of 259 words. The row of the answer: how many words its
// steps have and 0, or the refusal's details; the row is prepared in either case.
#[unsafe(no_mangle)]
pub extern "C" fn sheet_prepare(
    choices: u32,
    pattern: &[u8],
    row: &mut [u64],
    answer: &mut [i64],
) -> u32
    ensures { SheetPrepares choices pattern.now row.old answer.old result row.new answer.new }
{
    if 7 < choices {
        return 101;
    }
    if row.len() < 259 || answer.len() < 2 {
        return 100;
    }
    prepare_row(pair_of(choices), pattern, row, answer)
}

// A record written by a row, with the names of a lent book. The row of the answer: the length and 0, or the refusal's details.
#[unsafe(no_mangle)]
pub extern "C" fn sheet_prepared_write(
    book: &[u8],
    row: &[u64],
    year: i32,
    month: u32,
    day: u32,
    doy: u32,
    week: u32,
    wday: u32,
    nanos: u64,
    offset: i32,
    out: &mut [u8],
    answer: &mut [i64],
) -> u32
    ensures { SheetPreparedWrites book.now row.now (record { year = year; month = month; day = day; doy = doy; week = week; wday = wday; nanos = nanos; offset = offset }) out.old answer.old result out.new answer.new }
{
    if !is_book(book) {
        return 102;
    }
    if answer.len() < 2 {
        return 100;
    }
    let f = Fields {
        year,
        month,
        day,
        doy,
        week,
        wday,
        nanos,
        offset,
    };
    write(book, row, f, out, answer)
}

// A text read by a row, with a reader's choices and the names of a lent book: strict or not and the edition count, the pair was chosen
// when the pattern was prepared. The row of the answer as in any read.
#[unsafe(no_mangle)]
pub extern "C" fn sheet_prepared_read(
    choices: u32,
    book: &[u8],
    row: &[u64],
    text: &[u8],
    year: i32,
    answer: &mut [i64],
) -> u32
    ensures { SheetPreparedReads choices book.now row.now text.now year answer.old result answer.new }
{
    if 7 < choices {
        return 101;
    }
    if !is_book(book) {
        return 102;
    }
    if answer.len() < 48 {
        return 100;
    }
    read(choices_of(choices), book, row, text, year, answer)
}

// The pattern of a row checked with a check's choices. The row of the answer as in any check.
#[unsafe(no_mangle)]
pub extern "C" fn sheet_prepared_check(
    choices: u32,
    row: &[u64],
    year: i32,
    answer: &mut [i64],
) -> u32
    ensures { SheetPreparedChecks choices row.now year answer.old result answer.new }
{
    if 7 < choices || choices % 2 == 1 {
        return 101;
    }
    if answer.len() < 10 {
        return 100;
    }
    check(edition_of(choices), row, year, answer)
}

// A list read by a row. The four rows and that of the answer as in any list; they are parameters in the C interface.
#[unsafe(no_mangle)]
pub extern "C" fn sheet_prepared_read_list(
    choices: u32,
    book: &[u8],
    row: &[u64],
    text: &[u8],
    year: i32,
    days: &mut [i32],
    months: &mut [i32],
    years: &mut [i32],
    codes: &mut [u32],
    answer: &mut [i64],
) -> u32
    ensures { SheetPreparedReadsList choices book.now row.now text.now year (rows_of days.old months.old years.old codes.old) answer.old result (rows_of days.new months.new years.new codes.new) answer.new }
{
    if 7 < choices {
        return 101;
    }
    if !is_book(book) {
        return 102;
    }
    if answer.len() < 2 {
        return 100;
    }
    read_list(
        choices_of(choices),
        book,
        row,
        text,
        year,
        days,
        months,
        years,
        codes,
        answer,
    )
}
