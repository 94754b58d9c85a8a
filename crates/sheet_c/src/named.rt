// Books, and writing and reading by them, for C.

ghost use Rattle.sheet.specs.Sheet.{SheetOpensBook, SheetWritesBook, SheetWritesBy, SheetReadsBy};

#[unsafe(no_mangle)]
pub extern "C" fn sheet_book_read(bytes: &[u8], book: &mut [u8], answer: &mut [i64]) -> u32
    ensures { SheetOpensBook bytes.now book.old answer.old result book.new answer.new }
{
    sheet::named::sheet_book_read(bytes, book, answer)
}

#[unsafe(no_mangle)]
pub extern "C" fn sheet_book_write(book: &[u8], out: &mut [u8], answer: &mut [i64]) -> u32
    ensures { SheetWritesBook book.now out.old answer.old result out.new answer.new }
{
    sheet::named::sheet_book_write(book, out, answer)
}

#[unsafe(no_mangle)]
pub extern "C" fn sheet_write_by(
    choices: u32,
    book: &[u8],
    pattern: &[u8],
    year: i32,
    month: u32,
    day: u32,
    doy: u32,
    week: u32,
    wday: u32,
    nanos: u64,
    offset: i32,
    out: &mut [u8],
    answer: &mut [i64],
) -> u32
    ensures { SheetWritesBy choices book.now pattern.now (record { year = year; month = month; day = day; doy = doy; week = week; wday = wday; nanos = nanos; offset = offset }) out.old answer.old result out.new answer.new }
{
    sheet::named::sheet_write_by(
        choices, book, pattern, year, month, day, doy, week, wday, nanos, offset, out, answer,
    )
}

#[unsafe(no_mangle)]
pub extern "C" fn sheet_read_by(
    choices: u32,
    book: &[u8],
    pattern: &[u8],
    text: &[u8],
    year: i32,
    answer: &mut [i64],
) -> u32
    ensures { SheetReadsBy choices book.now pattern.now text.now year answer.old result answer.new }
{
    sheet::named::sheet_read_by(choices, book, pattern, text, year, answer)
}
