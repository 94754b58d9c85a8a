// Name books, for C and Rust: one opened, one written, and texts written and read with a lent one. A row that is no book is answered
// 102, and nothing is altered.
ghost use Rattle.sheet.specs.Sheet.{SheetOpensBook, SheetWritesBook, SheetWritesBy, SheetReadsBy};

use crate::numbers::{choices_of, is_book, pair_of};
use crate::{read, write};
use books::{read_book, write_book};
use meaning::Fields;
use rows::answers::give_counted;

// A book opened: its bytes into a lent row of 1,344 bytes or more. The row of the answer: 1344 and 0, or the refusal's details.
#[unsafe(no_mangle)]
pub extern "C" fn sheet_book_read(bytes: &[u8], book: &mut [u8], answer: &mut [i64]) -> u32
    ensures { SheetOpensBook bytes.now book.old answer.old result book.new answer.new }
{
    if answer.len() < 2 {
        return 100;
    }
    give_counted(read_book(bytes, book), answer)
}

// The book of a lent row, written as bytes of version 1; an empty row is English. Another row than an opened book's is none: 102, and
// nothing is altered. The row of the answer: the length and 0, or the refusal's details.
#[unsafe(no_mangle)]
pub extern "C" fn sheet_book_write(book: &[u8], out: &mut [u8], answer: &mut [i64]) -> u32
    ensures { SheetWritesBook book.now out.old answer.old result out.new answer.new }
{
    if !is_book(book) {
        return 102;
    }
    if answer.len() < 2 {
        return 100;
    }
    give_counted(write_book(book, out), answer)
}

// A writer with a reader's choices, of which the pair counts, and the names of a lent book. The row as before.
#[unsafe(no_mangle)]
pub extern "C" fn sheet_write_by(
    choices: u32,
    book: &[u8],
    pattern: &[u8],
    year: i32,
    month: u32,
    day: u32,
    doy: u32,
    week: u32,
    wday: u32,
    nanos: u64,
    offset: i32,
    out: &mut [u8],
    answer: &mut [i64],
) -> u32
    ensures { SheetWritesBy choices book.now pattern.now (record { year = year; month = month; day = day; doy = doy; week = week; wday = wday; nanos = nanos; offset = offset }) out.old answer.old result out.new answer.new }
{
    if choices > 7 {
        return 101;
    }
    if !is_book(book) {
        return 102;
    }
    let f = Fields {
        year,
        month,
        day,
        doy,
        week,
        wday,
        nanos,
        offset,
    };
    write(pair_of(choices), book, pattern, f, out, answer)
}

// A reader with choices and the names of a lent book. The row as before.
#[unsafe(no_mangle)]
pub extern "C" fn sheet_read_by(
    choices: u32,
    book: &[u8],
    pattern: &[u8],
    text: &[u8],
    year: i32,
    answer: &mut [i64],
) -> u32
    ensures { SheetReadsBy choices book.now pattern.now text.now year answer.old result answer.new }
{
    if 7 < choices {
        return 101;
    }
    if !is_book(book) {
        return 102;
    }
    read(choices_of(choices), book, pattern, text, year, answer)
}
