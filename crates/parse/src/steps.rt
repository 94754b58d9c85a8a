// The steps of which rules are read: bytes passed over, a number.
ghost use Rattle.std.specs.Prelude.{◌≡◌, ◌≤◌, length, drop};
ghost use Rattle.meaning.specs.Reading as reading;
ghost use Rattle.parse.specs.Steps.{part_at};

use crate::cursor::{Cursor, Read, Stop};
use meaning::{Carried, Numeral, ParseUnit};

// So many bytes that carry nothing.
pub fn pass(k: usize, text: &[u8], cursor: Cursor) -> Result<Read<Option<Carried>>, Stop>
    requires { cursor.at ≤ length text.now }
    ensures { result ≡ part_at cursor.at (reading.passed k (drop cursor.at text.now)) }
{
    let next = cursor.skip(k, text)?;
    Ok(Read { value: None, next })
}

fn zero_for(zero: u32, n: u32) -> u32
    ensures { result ≡ reading.zero_for zero n }
{
    if n == zero { 0 } else { n }
}

// A number of k bytes, where one value stands for 0.
pub fn take_number(
    unit: ParseUnit,
    zero: u32,
    k: usize,
    text: &[u8],
    cursor: Cursor,
) -> Result<Read<Option<Carried>>, Stop>
    requires { cursor.at ≤ length text.now }
    ensures { result ≡ part_at cursor.at (reading.taken_unit unit zero k (drop cursor.at text.now)) }
{
    let number = cursor.take(Numeral::Count, k, text)?;
    let value = zero_for(zero, number.value.size) as i64;
    Ok(Read {
        value: Some(Carried { unit, value }),
        next: number.next,
    })
}
