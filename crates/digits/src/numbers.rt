// Numbers out: padded decimals laid into a lent output, those of up to four digits at once.
ghost use Rattle.std.specs.Prelude.{◌++◌, ◌∷◌, [], ◌≡◌, ◌+◌, ◌≤◌, ◌<◌, max, eqb, length};
ghost use Rattle.laws.specs.Laid.{Laid};
ghost use Rattle.meaning.specs.Bytes as text;

use crate::laying::put_byte;
use crate::padded::put_padded;

// Two digits, which most numbers of a date have.
pub fn put_two(n: u32, out: &mut [u8], at: usize) -> usize
    requires { (n < 100) × (at + 2 ≤ length out.old) }
    ensures { Laid out.old out.new at result (text.digits 2 n) }
{
    out[at + 1] = b'0' + (n % 10) as u8;
    out[at] = b'0' + (n / 10) as u8;
    at + 2
}

// One digit or two.
pub fn put_short(n: u32, k: usize, out: &mut [u8], at: usize) -> usize
    requires { (n < 100) × (k ≤ 2) × (at + length (text.num k n) ≤ length out.old) }
    ensures { Laid out.old out.new at result (text.num k n) }
{
    if k < 2 {
        if n < 10 {
            return put_byte(b'0' + n as u8, out, at);
        }
    }
    put_two(n, out, at)
}

// Four digits, which most years have.
pub fn put_four(n: u32, out: &mut [u8], at: usize) -> usize
    requires { (n < 10000) × (at + 4 ≤ length out.old) }
    ensures { Laid out.old out.new at result (text.digits 4 n) }
{
    let next = put_two(n / 100, out, at);
    put_two(n % 100, out, next)
}

// Nine digits, those of a fraction of a second.
pub fn put_nine(n: u32, out: &mut [u8], at: usize) -> usize
    requires { (n < 1000000000) × (at + 9 ≤ length out.old) }
    ensures { Laid out.old out.new at result (text.digits 9 n) }
{
    let first = put_byte(b'0' + (n / 100000000) as u8, out, at);
    let next = put_four(n / 10000 % 10000, out, first);
    put_four(n % 10000, out, next)
}

// Whether the padded number has four digits.
fn has_four(n: u32, k: usize) -> bool
    ensures { result ≡ eqb (max k (text.width n)) 4 }
{
    k <= 4 && n < 10000 && (k == 4 || 1000 <= n)
}

// More than two digits.
fn put_long(n: u32, k: usize, out: &mut [u8], at: usize) -> usize
    requires { at + length (text.num k n) ≤ length out.old }
    ensures { Laid out.old out.new at result (text.num k n) }
{
    if has_four(n, k) {
        return put_four(n, out, at);
    }
    put_padded(n, k, out, at)
}

pub fn zero_padded(n: u32, k: usize, out: &mut [u8], at: usize) -> usize
    requires { at + length (text.num k n) ≤ length out.old }
    ensures { Laid out.old out.new at result (text.num k n) }
{
    if 2 < k {
        return put_long(n, k, out, at);
    }
    if 100 <= n {
        return put_long(n, k, out, at);
    }
    put_short(n, k, out, at)
}

// A byte, a minus or a colon, where it is wanted, and a padded number behind it.
pub fn put_marked(mark: u8, wanted: bool, n: u32, k: usize, out: &mut [u8], at: usize) -> usize
    requires { at + length (text.when wanted (mark ∷ []) [] ++ text.num k n) ≤ length out.old }
    ensures { Laid out.old out.new at result (text.when wanted (mark ∷ []) [] ++ text.num k n) }
{
    if wanted {
        let next = put_byte(mark, out, at);
        return zero_padded(n, k, out, next);
    }
    zero_padded(n, k, out, at)
}
