// Specification, "parse_offset (RFC 3339 form)": the checks 6 and 7, then Z, and the refusals 12, 19 and 9
// of the hour, 19 and 9 of the minute, 13.
ghost use Rattle.std.specs.Prelude.{◌≡◌, eqb, length, get_or};
ghost use Rattle.meaning.specs.Bytes.{plus};
ghost use Rattle.meaning.specs.Promises.{ParsesOffset};
ghost use Rattle.meaning.specs.Whole as whole;

use crate::checks::text_check;
use meaning::unit_sizes::{SECS_PER_HOUR, SECS_PER_MINUTE};
use meaning::{Numeral, Refusal};
use parse::cursor::Cursor;

// "hour to 23, minute to 59".
fn seconds(ahead: bool, hour: u32, minute: u32) -> Result<i32, Refusal>
    ensures { result ≡ whole.seconds ahead hour minute }
{
    if 23 < hour {
        return Err(Refusal::OffsetRange(1));
    }
    if 59 < minute {
        return Err(Refusal::OffsetRange(2));
    }
    let n = (hour * SECS_PER_HOUR + minute * SECS_PER_MINUTE) as i32;
    if ahead { Ok(n) } else { Ok(0 - n) }
}

// Six bytes: a sign, where only a plus is positive, the hour, a byte that is not looked at, the minute.
fn hour_and_minute(text: &[u8]) -> Result<i32, Refusal>
    requires { length text.now ≡ 6 }
    ensures { result ≡ whole.hour_and_minute (eqb (get_or text.now 0 0) plus) (whole.two_at 1 text.now) (whole.two_at 4 text.now) }
{
    let hour = match (Cursor { at: 1 }).take(Numeral::Count, 2, text) {
        Ok(read) => read.value.size,
        Err(stop) => return Err(stop.in_part(0)),
    };
    let minute = match (Cursor { at: 4 }).take(Numeral::Count, 2, text) {
        Ok(read) => read.value.size,
        Err(stop) => return Err(stop.in_part(0)),
    };
    seconds(text[0] == b'+', hour, minute)
}

// "Z first gives 0 with the rest unread; then length 6".
pub fn parse_offset(text: &[u8]) -> Result<i32, Refusal>
    ensures { ParsesOffset text.now result }
{
    text_check(text)?;
    let n = text.len();
    if 0 < n && text[0] == b'Z' {
        return Ok(0);
    }
    if n != 6 {
        return Err(Refusal::OffsetLength(n));
    }
    hour_and_minute(text)
}
