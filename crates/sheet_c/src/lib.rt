// The archive for C: each function of the library `sheet` under its own name, with its promise. A crate is a library or a static one; the
// work and the proofs are the library's.
#![tactic(auto)]

pub mod listed;
pub mod mends;
pub mod named;
pub mod prepares;
pub mod stamped;

ghost use Rattle.meaning.specs.Names.{english};
ghost use Rattle.meaning.specs.Whole.{plain};
ghost use Rattle.sheet.specs.Sheet.{SheetWrites, SheetReads, SheetReadsWith, SheetParsesOffset, SheetSplits, SheetUnits, SheetChecks, SheetChecksWith, SheetTellsRead, SheetDay, SheetDayNumber};

use meaning::{Edition, Pair};

#[unsafe(no_mangle)]
pub extern "C" fn sheet_write(
    pattern: &[u8],
    year: i32,
    month: u32,
    day: u32,
    doy: u32,
    week: u32,
    wday: u32,
    nanos: u64,
    offset: i32,
    out: &mut [u8],
    answer: &mut [i64],
) -> u32
    ensures { SheetWrites Pair.Full english pattern.now (record { year = year; month = month; day = day; doy = doy; week = week; wday = wday; nanos = nanos; offset = offset }) out.old answer.old result out.new answer.new }
{
    sheet::sheet_write(
        pattern, year, month, day, doy, week, wday, nanos, offset, out, answer,
    )
}

#[unsafe(no_mangle)]
pub extern "C" fn sheet_write_date(
    pattern: &[u8],
    year: i32,
    month: u32,
    day: u32,
    doy: u32,
    week: u32,
    wday: u32,
    nanos: u64,
    offset: i32,
    out: &mut [u8],
    answer: &mut [i64],
) -> u32
    ensures { SheetWrites Pair.Date english pattern.now (record { year = year; month = month; day = day; doy = doy; week = week; wday = wday; nanos = nanos; offset = offset }) out.old answer.old result out.new answer.new }
{
    sheet::sheet_write_date(
        pattern, year, month, day, doy, week, wday, nanos, offset, out, answer,
    )
}

#[unsafe(no_mangle)]
pub extern "C" fn sheet_read(pattern: &[u8], text: &[u8], year: i32, answer: &mut [i64]) -> u32
    ensures { SheetReads (plain Pair.Full) english pattern.now text.now year answer.old result answer.new }
{
    sheet::sheet_read(pattern, text, year, answer)
}

#[unsafe(no_mangle)]
pub extern "C" fn sheet_read_date(pattern: &[u8], text: &[u8], year: i32, answer: &mut [i64]) -> u32
    ensures { SheetReads (plain Pair.Date) english pattern.now text.now year answer.old result answer.new }
{
    sheet::sheet_read_date(pattern, text, year, answer)
}

#[unsafe(no_mangle)]
pub extern "C" fn sheet_read_with(
    choices: u32,
    pattern: &[u8],
    text: &[u8],
    year: i32,
    answer: &mut [i64],
) -> u32
    ensures { SheetReadsWith choices pattern.now text.now year answer.old result answer.new }
{
    sheet::sheet_read_with(choices, pattern, text, year, answer)
}

#[unsafe(no_mangle)]
pub extern "C" fn sheet_was_read(mask: i64, unit: u32) -> u32
    ensures { SheetTellsRead mask unit result }
{
    sheet::sheet_was_read(mask, unit)
}

#[unsafe(no_mangle)]
pub extern "C" fn sheet_parse_offset(text: &[u8], answer: &mut [i64]) -> u32
    ensures { SheetParsesOffset text.now answer.old result answer.new }
{
    sheet::sheet_parse_offset(text, answer)
}

#[unsafe(no_mangle)]
pub extern "C" fn sheet_split(pattern: &[u8], answer: &mut [i64], parts: &mut [i64]) -> u32
    ensures { SheetSplits pattern.now answer.old parts.old result answer.new parts.new }
{
    sheet::sheet_split(pattern, answer, parts)
}

#[unsafe(no_mangle)]
pub extern "C" fn sheet_units(pattern: &[u8], answer: &mut [i64], units: &mut [i64]) -> u32
    ensures { SheetUnits pattern.now answer.old units.old result answer.new units.new }
{
    sheet::sheet_units(pattern, answer, units)
}

#[unsafe(no_mangle)]
pub extern "C" fn sheet_check(pattern: &[u8], year: i32, answer: &mut [i64]) -> u32
    ensures { SheetChecks Edition.First pattern.now year answer.old result answer.new }
{
    sheet::sheet_check(pattern, year, answer)
}

#[unsafe(no_mangle)]
pub extern "C" fn sheet_check_with(
    choices: u32,
    pattern: &[u8],
    year: i32,
    answer: &mut [i64],
) -> u32
    ensures { SheetChecksWith choices pattern.now year answer.old result answer.new }
{
    sheet::sheet_check_with(choices, pattern, year, answer)
}

#[unsafe(no_mangle)]
pub extern "C" fn sheet_day(number: i32, answer: &mut [i64]) -> u32
    ensures { SheetDay number answer.old result answer.new }
{
    sheet::sheet_day(number, answer)
}

#[unsafe(no_mangle)]
pub extern "C" fn sheet_day_number(year: i32, month: u32, day: u32, answer: &mut [i64]) -> u32
    ensures { SheetDayNumber year month day answer.old result answer.new }
{
    sheet::sheet_day_number(year, month, day, answer)
}
