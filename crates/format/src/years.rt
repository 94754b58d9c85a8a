// Years: with a sign and padded, and yy.
ghost use Rattle.std.specs.Prelude.{◌≡◌, ◌+◌, ◌≤◌, length};
ghost use Rattle.laws.specs.Laid.{Laid};
ghost use Rattle.meaning.specs.Bytes.{when};
ghost use Rattle.meaning.specs.Writing.{signed_text, two_digit_text};

use digits::numbers::{put_marked, zero_padded};
use fields::signed::{is_negative, size};

// "`-` if negative, then num k"
pub fn zero_padded_i(z: i32, k: usize, out: &mut [u8], at: usize) -> usize
    requires { at + length (signed_text k z) ≤ length out.old }
    ensures { Laid out.old out.new at result (signed_text k z) }
{
    let negative = is_negative(z);
    let n = size(z);
    if negative {
        return put_marked(b'-', true, n, k, out, at);
    }
    zero_padded(n, k, out, at)
}

// yy: the year's last two digits, or the whole year where its text has at most two bytes.
pub fn two_digit_year(z: i32, out: &mut [u8], at: usize) -> usize
    requires { at + length (two_digit_text z) ≤ length out.old }
    ensures { Laid out.old out.new at result (two_digit_text z) }
{
    let negative = is_negative(z);
    let n = size(z);
    if n < limit(negative) {
        return zero_padded_i(z, 2, out, at);
    }
    zero_padded(n % 100, 2, out, at)
}

fn limit(negative: bool) -> u32
    ensures { result ≡ when negative 10 100 }
{
    if negative { 10 } else { 100 }
}
