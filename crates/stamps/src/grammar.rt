// RFC 3339, section 5.6: a date-time. What stands at fixed places is looked at there; then come the fraction and the offset.
ghost use Rattle.std.specs.Prelude.{◌≡◌, ◌+◌, ◌≤◌, length, drop};
ghost use Rattle.meaning.specs.Reading.{digit_run};
ghost use Rattle.meaning.specs.StampGrammar as rfc;
ghost use Rattle.stamps.specs.Found.{fraction_by, zone_by, parts_in, scanned_by};
ghost use Rattle.stamps.specs.Fractions.{weighted};
ghost use Rattle.stamps.specs.Shape.{first_wrong};

use crate::shape::first_wrong;
use numerals::is_digit;
use numerals::pairs::{digit_value, pair_at};

// The nanoseconds of a fraction, and how many digits it has.
#[derive(Clone, Copy)]
pub struct Digits {
    pub nanos: u32,
    pub count: usize,
}

// What is behind the sign of an offset, and whether that is a minus.
#[derive(Clone, Copy)]
pub struct Shift {
    pub negative: bool,
    pub hour: u32,
    pub minute: u32,
}

// What a date-time says.
#[derive(Clone, Copy)]
pub struct Parts {
    pub year: u32,
    pub month: u32,
    pub day: u32,
    pub hour: u32,
    pub minute: u32,
    pub second: u32,
    pub nanos: u32,
    pub shift: Shift,
}

// Where a text can't go on as a date-time.
#[derive(Clone, Copy)]
pub struct Halted {
    pub place: usize,
}

// The digits that a text begins with. Those past the ninth have no weight.
fn fraction_digits(text: &[u8]) -> Digits
    ensures { (result.nanos ≡ weighted 9 text.now) × (result.count ≡ digit_run text.now) }
{
    let mut nanos: u32 = 0;
    let mut weight: u32 = 100000000;
    for (i, &b) in text.iter().enumerate() {
        if !is_digit(b) {
            return Digits { nanos, count: i };
        }
        nanos += digit_value(b) * weight;
        weight /= 10;
    }
    Digits {
        nanos,
        count: text.len(),
    }
}

// "." and at least one digit, or nothing: the nanoseconds, and the place behind.
fn optional_secfrac(text: &[u8], at: usize) -> Result<(u32, usize), Halted>
    ensures { result ≡ fraction_by (rfc.optional_secfrac text.now at) }
{
    if text.len() <= at {
        return Ok((0, at));
    }
    if text[at] != b'.' {
        return Ok((0, at));
    }
    let first = at + 1;
    let found = fraction_digits(&text[first..]);
    if found.count == 0 {
        return Err(Halted { place: first });
    }
    Ok((found.nanos, first + found.count))
}

fn is_z(b: u8) -> bool
    ensures { result ≡ rfc.is_z b }
{
    matches!(b, b'Z' | b'z')
}

fn is_sign(b: u8) -> bool
    ensures { result ≡ rfc.is_sign b }
{
    matches!(b, b'+' | b'-')
}

// A sign, two digits, a colon, two digits.
fn num_offset(text: &[u8], at: usize) -> Result<(Shift, usize), Halted>
    ensures { result ≡ zone_by (rfc.time_numoffset text.now at) }
{
    if text.len() <= at {
        return Err(Halted { place: at });
    }
    let sign = text[at];
    if !is_sign(sign) {
        return Err(Halted { place: at });
    }
    let wrong = first_wrong(5, 11, text, at + 1);
    if wrong != at + 6 {
        return Err(Halted { place: wrong });
    }
    let shift = Shift {
        negative: sign == b'-',
        hour: pair_at(text, at + 1),
        minute: pair_at(text, at + 4),
    };
    Ok((shift, at + 6))
}

fn time_offset(text: &[u8], at: usize) -> Result<(Shift, usize), Halted>
    ensures { result ≡ zone_by (rfc.time_offset text.now at) }
{
    if at < text.len() {
        if is_z(text[at]) {
            let none = Shift {
                negative: false,
                hour: 0,
                minute: 0,
            };
            return Ok((none, at + 1));
        }
    }
    num_offset(text, at)
}

// The pairs of digits at their places, beside the fraction and the offset.
fn parts_in(text: &[u8], nanos: u32, shift: Shift) -> Parts
    requires { first_wrong 19 0 0 text.now ≡ 19 }
    ensures { result ≡ parts_in text.now nanos shift }
{
    Parts {
        year: pair_at(text, 0) * 100 + pair_at(text, 2),
        month: pair_at(text, 5),
        day: pair_at(text, 8),
        hour: pair_at(text, 11),
        minute: pair_at(text, 14),
        second: pair_at(text, 17),
        nanos,
        shift,
    }
}

// The places up to the fraction, then the fraction, the offset and the end.
pub fn date_time(text: &[u8]) -> Result<Parts, Halted>
    ensures { result ≡ scanned_by (rfc.whole rfc.date_time text.now) }
{
    let wrong = first_wrong(19, 0, text, 0);
    if wrong != 19 {
        return Err(Halted { place: wrong });
    }
    let (nanos, behind) = optional_secfrac(text, 19)?;
    let (shift, next) = time_offset(text, behind)?;
    if next != text.len() {
        return Err(Halted { place: next });
    }
    Ok(parts_in(text, nanos, shift))
}
