// Years: so many bytes of one, and how many bytes y at 1, 3, 4 and from 5 up takes.
ghost use Rattle.std.specs.Prelude.{◌≡◌, ◌+◌, ◌≤◌, length, drop};
ghost use Rattle.meaning.specs.Numerals.{integer};
ghost use Rattle.meaning.specs.Reading as reading;
ghost use Rattle.parse.specs.Steps.{part_at};
ghost use Rattle.parse.specs.Years as years;

use crate::cursor::{Cursor, Read, Stop};
use meaning::{Carried, Edition, Numeral, ParseUnit, Trouble};
use numerals::{integer_of, is_digit};

// A number as a year, counted from one: so many years on, or the first from it on that ends so.
fn counted(edition: Edition, since: u32, negative: bool, size: u32) -> i64
    ensures { result ≡ years.counted edition «since» (integer (record { negative = negative; size = size })) }
{
    match edition {
        Edition::First => integer_of(negative, size as u64) + since as i64,
        Edition::Second => {
            let first = since as u64;
            (first + (size as u64 + 100 - first % 100) % 100) as i64
        }
    }
}

// So many bytes of a year, counted from one.
fn take_year(
    edition: Edition,
    since: u32,
    k: usize,
    text: &[u8],
    cursor: Cursor,
) -> Result<Read<Option<Carried>>, Stop>
    requires { cursor.at ≤ length text.now }
    ensures { result ≡ part_at cursor.at (years.year_since edition «since» k (drop cursor.at text.now)) }
{
    let number = cursor.take(Numeral::Year, k, text)?;
    let value = counted(edition, since, number.value.negative, number.value.size);
    Ok(Read {
        value: Some(Carried {
            unit: ParseUnit::Year,
            value,
        }),
        next: number.next,
    })
}

// 1 where a minus stands first in the remaining text, else 0.
fn minus_first(text: &[u8], at: usize) -> usize
    ensures { result ≡ reading.minus_first (drop at text.now) }
{
    usize::from(text.get(at) == Some(&b'-'))
}

// How many digits stand at a place.
fn digit_run(text: &[u8], at: usize) -> usize
    requires { at ≤ length text.now }
    ensures { result ≡ reading.digit_run (drop at text.now) }
{
    // By hand: with `take_while` and `count` the proof does not close.
    for i in at..text.len() {
        if !is_digit(text[i]) {
            return i - at;
        }
    }
    text.len() - at
}

// y at 1, 3, 4: an optional minus and all digits that follow.
pub fn parse_years(text: &[u8], cursor: Cursor) -> Result<Read<Option<Carried>>, Stop>
    requires { cursor.at ≤ length text.now }
    ensures { result ≡ part_at cursor.at (reading.taken_year (reading.year_length (drop cursor.at text.now)) (drop cursor.at text.now)) }
{
    let at = cursor.at;
    let minus = minus_first(text, at);
    let digits = digit_run(text, at + minus);
    take_year(Edition::First, 0, minus + digits, text, cursor)
}

// y from 5 up: so many bytes, and one more at a minus.
pub fn parse_fixed_year(
    count: usize,
    text: &[u8],
    cursor: Cursor,
) -> Result<Read<Option<Carried>>, Stop>
    requires { cursor.at ≤ length text.now }
    ensures { result ≡ part_at cursor.at (reading.taken_year (reading.minus_first (drop cursor.at text.now) + count) (drop cursor.at text.now)) }
{
    let at = cursor.at;
    let minus = minus_first(text, at);
    if text.len() - at - minus < count {
        return Err(Stop {
            trouble: Trouble::TooFew,
            place: at,
        });
    }
    take_year(Edition::First, 0, minus + count, text, cursor)
}

// From which year yy counts: the current millennium; in the second edition 80 years ago.
fn short_since(edition: Edition, current_year: u32) -> u32
    ensures { result ≡ years.short_since edition current_year }
{
    match edition {
        Edition::First => current_year / 1000 * 1000,
        Edition::Second => current_year.saturating_sub(80),
    }
}

// yy: three bytes at a minus, else two.
pub fn parse_two_digit_year(
    edition: Edition,
    current_year: u32,
    text: &[u8],
    cursor: Cursor,
) -> Result<Read<Option<Carried>>, Stop>
    requires { cursor.at ≤ length text.now }
    ensures { result ≡ part_at cursor.at (reading.two_digit_year edition current_year (drop cursor.at text.now)) }
{
    if minus_first(text, cursor.at) == 1 {
        return take_year(Edition::First, 0, 3, text, cursor);
    }
    take_year(edition, short_since(edition, current_year), 2, text, cursor)
}
