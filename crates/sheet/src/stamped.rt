// Request [10], for C and Rust: a stamp of RFC 3339 read into a row of numbers, and one written.
ghost use Rattle.sheet.specs.Numbers.{marks_unknown};
ghost use Rattle.sheet.specs.Sheet.{SheetReadsStamp, SheetWritesStamp};

use meaning::Stamp;
use rows::answers::give_counted;
use rows::stamps::give_stamped;
use stamps::{read_stamp, write_stamp};

// A text read as a stamp. The row: year, month, day, nanoseconds of the day, offset in seconds, and 1 where that is unknown, else 0; or
// the refusal's details and zeros.
#[unsafe(no_mangle)]
pub extern "C" fn sheet_rfc_read(text: &[u8], answer: &mut [i64]) -> u32
    ensures { SheetReadsStamp text.now answer.old result answer.new }
{
    if answer.len() < 6 {
        return 100;
    }
    give_stamped(read_stamp(text), answer)
}

// A stamp written, its offset unknown where the mark is 1. Another mark than 0 or 1 is none: 101, and nothing is altered. The row: the
// length and 0, or the refusal's details.
#[unsafe(no_mangle)]
pub extern "C" fn sheet_rfc_write(
    year: i32,
    month: u32,
    day: u32,
    nanos: u64,
    offset: i32,
    unknown: u32,
    out: &mut [u8],
    answer: &mut [i64],
) -> u32
    ensures { SheetWritesStamp unknown (record { year = year; month = month; day = day; nanos = nanos; offset = offset; unknown = marks_unknown unknown }) out.old answer.old result out.new answer.new }
{
    if 1 < unknown {
        return 101;
    }
    if answer.len() < 2 {
        return 100;
    }
    let stamp = Stamp {
        year,
        month,
        day,
        nanos,
        offset,
        unknown: unknown == 1,
    };
    give_counted(write_stamp(stamp, out), answer)
}
