// Lists and lines, for C.

ghost use Rattle.meaning.specs.Lists.{rows_of};
ghost use Rattle.sheet.specs.Sheet.{SheetReadsList, SheetReadsLine};

#[unsafe(no_mangle)]
pub extern "C" fn sheet_read_list(
    choices: u32,
    book: &[u8],
    pattern: &[u8],
    text: &[u8],
    year: i32,
    days: &mut [i32],
    months: &mut [i32],
    years: &mut [i32],
    codes: &mut [u32],
    answer: &mut [i64],
) -> u32
    ensures { SheetReadsList choices book.now pattern.now text.now year (rows_of days.old months.old years.old codes.old) answer.old result (rows_of days.new months.new years.new codes.new) answer.new }
{
    sheet::listed::sheet_read_list(
        choices, book, pattern, text, year, days, months, years, codes, answer,
    )
}

#[unsafe(no_mangle)]
pub extern "C" fn sheet_read_line(
    choices: u32,
    book: &[u8],
    pattern: &[u8],
    text: &[u8],
    at: usize,
    year: i32,
    answer: &mut [i64],
) -> u32
    ensures { SheetReadsLine choices book.now pattern.now text.now at year answer.old result answer.new }
{
    sheet::listed::sheet_read_line(choices, book, pattern, text, at, year, answer)
}
