// Numbers in: the test of a digit, the one number reader, how far a greedy number goes, digits at known places.
#![tactic(auto)]

pub mod extents;
pub mod pairs;

ghost use Rattle.std.specs.Prelude.{◌≡◌, ◌^◌, ◌<◌};
ghost use Rattle.meaning.specs.Bytes.{is_digit};
ghost use Rattle.meaning.specs.Numerals as numerals;
ghost use Rattle.meaning.specs.Readers.{take_number};
ghost use Rattle.numerals.specs.Numbers.{number_in, got_number};

use meaning::{Numeral, Sign, Trouble};

// A number's sign and size.
#[derive(Clone, Copy)]
pub struct Number {
    pub negative: bool,
    pub size: u32,
}

pub fn is_digit(b: u8) -> bool
    ensures { result ≡ is_digit b }
{
    b.is_ascii_digit()
}

fn largest(kind: Numeral, negative: bool) -> u64
    ensures { result ≡ numerals.largest kind negative }
{
    match kind {
        Numeral::Count => 4294967295,
        Numeral::Year if negative => 2147483648,
        Numeral::Year => 2147483647,
    }
}

// What the first byte says of the sign.
#[tactic(auto, unfolding(meaning::specs::Numerals::sign_of))]
fn sign_of(kind: Numeral, b: u8) -> Sign
    ensures { result ≡ numerals.sign_of kind b }
{
    match kind {
        Numeral::Year if b == b'-' => Sign::Minus,
        _ => Sign::Bare,
    }
}

// All of these bytes are digits, there is one at least, and the size fits. A size that is too large already stays so.
fn sized(kind: Numeral, negative: bool, digits: &[u8]) -> Result<Number, Trouble>
    ensures { result ≡ number_in (numerals.sized kind negative digits.now) }
{
    if digits.is_empty() {
        return Err(Trouble::NoNumber);
    }
    let most = largest(kind, negative);
    let mut size: u64 = 0;
    for &d in digits {
        if !is_digit(d) {
            return Err(Trouble::NoNumber);
        }
        size = size * 10 + (d - b'0') as u64;
        if most < size {
            return Err(Trouble::NoNumber);
        }
    }
    Ok(Number {
        negative,
        size: size as u32,
    })
}

// A number of k bytes at the front of a text; else there are too few bytes (8), a plus in front (19) or no number (9).
pub fn read_number(kind: Numeral, k: usize, text: &[u8]) -> Result<Number, Trouble>
    ensures { result ≡ got_number (take_number kind k text.now) }
{
    if text.len() < k {
        return Err(Trouble::TooFew);
    }
    if k == 0 {
        return Err(Trouble::NoNumber);
    }
    let first = text[0];
    if first == b'+' {
        return Err(Trouble::PlusSign);
    }
    match sign_of(kind, first) {
        Sign::Minus => sized(kind, true, &text[1..k]),
        Sign::Bare => sized(kind, false, &text[..k]),
    }
}

pub fn integer_of(negative: bool, size: u64) -> i64
    requires { size < 2 ^ 63 }
    ensures { result ≡ numerals.integer (record { negative = negative; size = size }) }
{
    let n = size as i64;
    if negative { 0 - n } else { n }
}
