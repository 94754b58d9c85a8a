// The functions for C and Rust. Each that is lent a row returns 0 where it accepts and the specification's number where it refuses, and
// lays its answer over the row's start. Where the row is too small for the answer it returns 100 and alters nothing.
#![tactic(auto)]

pub mod listed;
pub mod mends;
pub mod named;
pub mod numbers;
pub mod prepares;
pub mod stamped;

ghost use Rattle.meaning.specs.Names.{english};
ghost use Rattle.meaning.specs.OpenedBooks.{book_in};
ghost use Rattle.meaning.specs.Whole.{plain};
ghost use Rattle.sheet.specs.Sheet.{SheetWrites, SheetReads, SheetReadsWith, SheetParsesOffset, SheetSplits, SheetUnits, SheetChecks, SheetChecksWith, SheetTellsRead, SheetDay, SheetDayNumber};

use crate::numbers::{choices_of, edition_of, is_marked};
use calendar::{day_number, day_of};
use fields::checks::trust_check;
use meaning::{Choices, Edition, Fields, Pair};
use reader::offset::parse_offset;
use reader::plain;
use rows::answers::{give_counted, give_integer, give_refusal};
use rows::days::give_day;
use rows::readings::read_row;
use rows::splits::give_split;
use rows::units::give_units;
use rows::verdicts::give_verdict;
use verdict::verdict_on;
use writer::format_with;

fn write(pair: Pair, book: &[u8], pattern: &[u8], f: Fields, out: &mut [u8], row: &mut [i64]) -> u32
    ensures { SheetWrites pair (book_in book.now) pattern.now f out.old row.old result out.new row.new }
{
    if row.len() < 2 {
        return 100;
    }
    give_counted(format_with(pair, book, pattern, f, out), row)
}

fn read(
    choices: Choices,
    book: &[u8],
    pattern: &[u8],
    text: &[u8],
    year: i32,
    row: &mut [i64],
) -> u32
    ensures { SheetReads choices (book_in book.now) pattern.now text.now year row.old result row.new }
{
    if row.len() < 48 {
        return 100;
    }
    let edition = choices.edition;
    match trust_check(edition, pattern, year) {
        Ok(()) => read_row(choices, book, pattern, text, year, row),
        Err(why) => give_refusal(why, 48, row),
    }
}

// The full pair's writer. The row: the length and 0, or the refusal's details.
#[unsafe(no_mangle)]
pub extern "C" fn sheet_write(
    pattern: &[u8],
    year: i32,
    month: u32,
    day: u32,
    doy: u32,
    week: u32,
    wday: u32,
    nanos: u64,
    offset: i32,
    out: &mut [u8],
    answer: &mut [i64],
) -> u32
    ensures { SheetWrites Pair.Full english pattern.now (record { year = year; month = month; day = day; doy = doy; week = week; wday = wday; nanos = nanos; offset = offset }) out.old answer.old result out.new answer.new }
{
    let f = Fields {
        year,
        month,
        day,
        doy,
        week,
        wday,
        nanos,
        offset,
    };
    let english: [u8; 0] = [];
    write(Pair::Full, &english, pattern, f, out, answer)
}

// The Date pair's writer.
#[unsafe(no_mangle)]
pub extern "C" fn sheet_write_date(
    pattern: &[u8],
    year: i32,
    month: u32,
    day: u32,
    doy: u32,
    week: u32,
    wday: u32,
    nanos: u64,
    offset: i32,
    out: &mut [u8],
    answer: &mut [i64],
) -> u32
    ensures { SheetWrites Pair.Date english pattern.now (record { year = year; month = month; day = day; doy = doy; week = week; wday = wday; nanos = nanos; offset = offset }) out.old answer.old result out.new answer.new }
{
    let f = Fields {
        year,
        month,
        day,
        doy,
        week,
        wday,
        nanos,
        offset,
    };
    let english: [u8; 0] = [];
    write(Pair::Date, &english, pattern, f, out, answer)
}

// The full pair's reader. The row: the bytes read, the mask, how many units, the fifteen values, and for each unit where its part
// began, from 18 on, and where it ended, from 33 on; or the refusal's details and zeros, 48 numbers in all.
#[unsafe(no_mangle)]
pub extern "C" fn sheet_read(pattern: &[u8], text: &[u8], year: i32, answer: &mut [i64]) -> u32
    ensures { SheetReads (plain Pair.Full) english pattern.now text.now year answer.old result answer.new }
{
    let english: [u8; 0] = [];
    read(plain(Pair::Full), &english, pattern, text, year, answer)
}

// The Date pair's reader.
#[unsafe(no_mangle)]
pub extern "C" fn sheet_read_date(pattern: &[u8], text: &[u8], year: i32, answer: &mut [i64]) -> u32
    ensures { SheetReads (plain Pair.Date) english pattern.now text.now year answer.old result answer.new }
{
    let english: [u8; 0] = [];
    read(plain(Pair::Date), &english, pattern, text, year, answer)
}

// A reader with choices, each a number, added: 1 for the Date pair, 2 for a strict reading, 4 for the second edition. The row as
// before. Another number than 0 to 7 is no choice: 101, and nothing is altered.
#[unsafe(no_mangle)]
pub extern "C" fn sheet_read_with(
    choices: u32,
    pattern: &[u8],
    text: &[u8],
    year: i32,
    answer: &mut [i64],
) -> u32
    ensures { SheetReadsWith choices pattern.now text.now year answer.old result answer.new }
{
    if 7 < choices {
        return 101;
    }
    let english: [u8; 0] = [];
    read(choices_of(choices), &english, pattern, text, year, answer)
}

// 1 where a unit was read, by the mask of a reading, the second number of its row; else 0.
#[unsafe(no_mangle)]
pub extern "C" fn sheet_was_read(mask: i64, unit: u32) -> u32
    ensures { SheetTellsRead mask unit result }
{
    if is_marked(mask, unit) { 1 } else { 0 }
}

// The row: the seconds and 0, or the refusal's details.
#[unsafe(no_mangle)]
pub extern "C" fn sheet_parse_offset(text: &[u8], answer: &mut [i64]) -> u32
    ensures { SheetParsesOffset text.now answer.old result answer.new }
{
    if answer.len() < 2 {
        return 100;
    }
    give_integer(parse_offset(text), answer)
}

// The row: how many parts and 0, or the refusal's details. The parts: kind, start and length of each of 256; untouched where
// the pattern is refused.
#[unsafe(no_mangle)]
pub extern "C" fn sheet_split(pattern: &[u8], answer: &mut [i64], parts: &mut [i64]) -> u32
    ensures { SheetSplits pattern.now answer.old parts.old result answer.new parts.new }
{
    if answer.len() < 2 || parts.len() < 768 {
        return 100;
    }
    give_split(pattern, answer, parts)
}

// The row as in a split. The units: for each of 256 parts -1 where it stands for itself or there is none, 15 for a symbol that
// carries nothing, else the number of the unit that it carries; untouched where the pattern is refused.
#[unsafe(no_mangle)]
pub extern "C" fn sheet_units(pattern: &[u8], answer: &mut [i64], units: &mut [i64]) -> u32
    ensures { SheetUnits pattern.now answer.old units.old result answer.new units.new }
{
    if answer.len() < 2 || units.len() < 256 {
        return 100;
    }
    give_units(pattern, answer, units)
}

fn check(edition: Edition, pattern: &[u8], year: i32, row: &mut [i64]) -> u32
    ensures { SheetChecks edition pattern.now year row.old result row.new }
{
    if row.len() < 10 {
        return 100;
    }
    give_verdict(verdict_on(edition, pattern, year), row)
}

// The row: 1 and zeros; or 0, the part and a record for which it fails; or the refusal's details and zeros, 10 numbers in all.
#[unsafe(no_mangle)]
pub extern "C" fn sheet_check(pattern: &[u8], year: i32, answer: &mut [i64]) -> u32
    ensures { SheetChecks Edition.First pattern.now year answer.old result answer.new }
{
    check(Edition::First, pattern, year, answer)
}

// The check with a reader's choices. A strict reading has the same answer. The Date pair has no check: its numbers are no choice here.
#[unsafe(no_mangle)]
pub extern "C" fn sheet_check_with(
    choices: u32,
    pattern: &[u8],
    year: i32,
    answer: &mut [i64],
) -> u32
    ensures { SheetChecksWith choices pattern.now year answer.old result answer.new }
{
    if 7 < choices || choices % 2 == 1 {
        return 101;
    }
    check(edition_of(choices), pattern, year, answer)
}

// The day of a number; 0 is 1 January of year 1. The row: year, month, day, day of the year, week and weekday.
#[unsafe(no_mangle)]
pub extern "C" fn sheet_day(number: i32, answer: &mut [i64]) -> u32
    ensures { SheetDay number answer.old result answer.new }
{
    let day = day_of(number);
    if answer.len() < 6 {
        return 100;
    }
    give_day(day, answer)
}

// The number of a day. The row: the number and 0, or the refusal's details.
#[unsafe(no_mangle)]
pub extern "C" fn sheet_day_number(year: i32, month: u32, day: u32, answer: &mut [i64]) -> u32
    ensures { SheetDayNumber year month day answer.old result answer.new }
{
    if answer.len() <= 1 {
        return 100;
    }
    give_integer(day_number(year, month, day), answer)
}
