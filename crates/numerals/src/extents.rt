// How many bytes a number takes.
ghost use Rattle.std.specs.Prelude.{◌≡◌, ◌-◌, ◌≤◌, length, get_or, drop};
ghost use Rattle.meaning.specs.Bytes.{is_digit};
ghost use Rattle.meaning.specs.Readers.{reach};

use crate::is_digit;

// Whether a digit stands at a place, which may lie behind the text.
pub fn is_digit_at(text: &[u8], at: usize) -> bool
    ensures { result ≡ is_digit (get_or text.now at 0) }
{
    at < text.len() && is_digit(text[at])
}

// The specification's "greedy": so many bytes at least, and at most, as digits follow.
pub fn extent(least: u8, most: u8, text: &[u8], at: usize) -> usize
    requires { at ≤ length text.now }
    ensures { result ≡ reach (most - least) least (drop at text.now) }
{
    // Over numbers: the text may end before the last of them, where `is_digit_at` says no.
    for k in least..most {
        if !is_digit_at(text, at + k as usize) {
            return k as usize;
        }
    }
    least.max(most) as usize
}
