// Prepared patterns, for C.

ghost use Rattle.meaning.specs.Lists.{rows_of};
ghost use Rattle.sheet.specs.Prepared.{SheetPrepares, SheetPreparedWrites, SheetPreparedReads, SheetPreparedReadsList, SheetPreparedChecks};

#[unsafe(no_mangle)]
pub extern "C" fn sheet_prepare(
    choices: u32,
    pattern: &[u8],
    row: &mut [u64],
    answer: &mut [i64],
) -> u32
    ensures { SheetPrepares choices pattern.now row.old answer.old result row.new answer.new }
{
    sheet::prepares::sheet_prepare(choices, pattern, row, answer)
}

#[unsafe(no_mangle)]
pub extern "C" fn sheet_prepared_write(
    book: &[u8],
    row: &[u64],
    year: i32,
    month: u32,
    day: u32,
    doy: u32,
    week: u32,
    wday: u32,
    nanos: u64,
    offset: i32,
    out: &mut [u8],
    answer: &mut [i64],
) -> u32
    ensures { SheetPreparedWrites book.now row.now (record { year = year; month = month; day = day; doy = doy; week = week; wday = wday; nanos = nanos; offset = offset }) out.old answer.old result out.new answer.new }
{
    sheet::prepares::sheet_prepared_write(
        book, row, year, month, day, doy, week, wday, nanos, offset, out, answer,
    )
}

#[unsafe(no_mangle)]
pub extern "C" fn sheet_prepared_read(
    choices: u32,
    book: &[u8],
    row: &[u64],
    text: &[u8],
    year: i32,
    answer: &mut [i64],
) -> u32
    ensures { SheetPreparedReads choices book.now row.now text.now year answer.old result answer.new }
{
    sheet::prepares::sheet_prepared_read(choices, book, row, text, year, answer)
}

#[unsafe(no_mangle)]
pub extern "C" fn sheet_prepared_check(
    choices: u32,
    row: &[u64],
    year: i32,
    answer: &mut [i64],
) -> u32
    ensures { SheetPreparedChecks choices row.now year answer.old result answer.new }
{
    sheet::prepares::sheet_prepared_check(choices, row, year, answer)
}

#[unsafe(no_mangle)]
pub extern "C" fn sheet_prepared_read_list(
    choices: u32,
    book: &[u8],
    row: &[u64],
    text: &[u8],
    year: i32,
    days: &mut [i32],
    months: &mut [i32],
    years: &mut [i32],
    codes: &mut [u32],
    answer: &mut [i64],
) -> u32
    ensures { SheetPreparedReadsList choices book.now row.now text.now year (rows_of days.old months.old years.old codes.old) answer.old result (rows_of days.new months.new years.new codes.new) answer.new }
{
    sheet::prepares::sheet_prepared_read_list(
        choices, book, row, text, year, days, months, years, codes, answer,
    )
}
