// The numbers that patterns have most, read at a count of one or two: one digit or two in front of a text, each byte looked at
// once.
ghost use Rattle.std.specs.Prelude.{◌≡◌, ◌<◌, drop};
ghost use Rattle.parse.specs.ShortReads.{digit_first, second_digits, short_digits, digits_of};

use meaning::Edition;
use numerals::extents::is_digit_at;
use rules::numbers::most_read;
use rules::short::{Short, short_most, short_quantity};

// The number that they are, and the bytes that they take.
#[derive(Clone, Copy)]
pub struct Digits {
    pub size: u32,
    pub taken: usize,
}

fn digit_at(text: &[u8], at: usize) -> Option<u32>
    ensures { result ≡ digit_first (drop at text.now) }
{
    if is_digit_at(text, at) {
        return Some((text[at] - b'0') as u32);
    }
    None
}

// Behind a digit: the next, or the one by itself where that is enough.
fn second_digit(a: u32, least: u8, text: &[u8], at: usize) -> Option<Digits>
    requires { a < 10 }
    ensures { result ≡ second_digits a least (drop at text.now) }
{
    match digit_at(text, at) {
        Some(b) => Some(Digits {
            size: a * 10 + b,
            taken: 2,
        }),
        None if least == 1 => Some(Digits { size: a, taken: 1 }),
        None => None,
    }
}

fn short_digits(least: u8, most: u8, text: &[u8], at: usize) -> Option<Digits>
    ensures { result ≡ short_digits least most (drop at text.now) }
{
    let a = digit_at(text, at)?;
    if most == 1 {
        return Some(Digits { size: a, taken: 1 });
    }
    second_digit(a, least, text, at + 1)
}

// The digits of a short number.
pub fn parse_short(
    edition: Edition,
    short: Short,
    count: u8,
    text: &[u8],
    at: usize,
) -> Option<Digits>
    ensures { result ≡ digits_of edition short count (drop at text.now) }
{
    let most = most_read(edition, short_quantity(short), short_most(short, count));
    short_digits(count, most, text, at)
}
