// Stamps, for C.

ghost use Rattle.sheet.specs.Numbers.{marks_unknown};
ghost use Rattle.sheet.specs.Sheet.{SheetReadsStamp, SheetWritesStamp};

#[unsafe(no_mangle)]
pub extern "C" fn sheet_rfc_read(text: &[u8], answer: &mut [i64]) -> u32
    ensures { SheetReadsStamp text.now answer.old result answer.new }
{
    sheet::stamped::sheet_rfc_read(text, answer)
}

#[unsafe(no_mangle)]
pub extern "C" fn sheet_rfc_write(
    year: i32,
    month: u32,
    day: u32,
    nanos: u64,
    offset: i32,
    unknown: u32,
    out: &mut [u8],
    answer: &mut [i64],
) -> u32
    ensures { SheetWritesStamp unknown (record { year = year; month = month; day = day; nanos = nanos; offset = offset; unknown = marks_unknown unknown }) out.old answer.old result out.new answer.new }
{
    sheet::stamped::sheet_rfc_write(year, month, day, nanos, offset, unknown, out, answer)
}
