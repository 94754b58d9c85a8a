// The refusals 1 to 3 of a whole pattern.
ghost use Rattle.std.specs.Prelude.{◌≡◌, ◌||◌, nat_eq, nat_lt};
ghost use Rattle.std.specs.List.{position};
ghost use Rattle.meaning.specs.Answers.{bytes_check, ends_in_lone_quote, pattern_check};
ghost use Rattle.meaning.specs.Splitting.{contents};

use crate::parts::parts_of;
use crate::quoted::ends_in_quote;
use meaning::Refusal;

// The place of the first byte that is not from 1 to 127. A call of its own: in place, its loop takes one to three instructions more a byte.
#[inline(never)]
fn first_refused(pattern: &[u8]) -> Option<usize>
    ensures { result ≡ position (λ b. nat_eq b 0 || nat_lt 127 b) pattern.now }
{
    pattern.iter().position(|b| *b == 0 || 127 < *b)
}

// Refusals 1 and 2.
pub fn bytes_check(pattern: &[u8]) -> Result<(), Refusal>
    ensures { result ≡ bytes_check pattern.now }
{
    let n = pattern.len();
    if 256 < n {
        return Err(Refusal::PatternTooLong(n));
    }
    match first_refused(pattern) {
        Some(i) => Err(Refusal::PatternByte(i)),
        None => Ok(()),
    }
}

// Whether the last part is a quote that opens and has nothing behind it: the part that starts at a quote in the last place.
fn ends_in_lone_quote(pattern: &[u8]) -> bool
    ensures { result ≡ ends_in_lone_quote (contents pattern.now) }
{
    let n = pattern.len();
    if n == 0 || pattern[n - 1] != b'\'' {
        return false;
    }
    for part in parts_of(pattern) {
        if part.start + 1 == n {
            return true;
        }
    }
    false
}

// Refusals 1, 2 and 3, in this order, of a pattern that may end in a quote. A call of its own, so that what calls it stays small.
#[inline(never)]
#[tactic(auto, unfolding(meaning::specs::Answers::pattern_check))]
pub fn quoted_check(pattern: &[u8]) -> Result<(), Refusal>
    ensures { result ≡ pattern_check pattern.now }
{
    bytes_check(pattern)?;
    if ends_in_lone_quote(pattern) {
        return Err(Refusal::LoneQuote(pattern.len() - 1));
    }
    Ok(())
}

// The same of any pattern: by the bytes alone where the last one is no quote. It is small enough that writer and reader have it
// in place. The length is looked at before the last byte is: of a length that no memory has, no byte is there.
pub fn pattern_check(pattern: &[u8]) -> Result<(), Refusal>
    ensures { result ≡ pattern_check pattern.now }
{
    if pattern.len() <= 256 && ends_in_quote(pattern) {
        return quoted_check(pattern);
    }
    bytes_check(pattern)
}
