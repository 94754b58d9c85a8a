// The bytes of a date-time that stand at fixed places.
ghost use Rattle.std.specs.Prelude.{◌≡◌, ◌+◌, ◌≤◌, length};
ghost use Rattle.meaning.specs.StampGrammar as grammar;
ghost use Rattle.stamps.specs.Shape.{takes, first_wrong};

use numerals::is_digit;

fn is_t(b: u8) -> bool
    ensures { result ≡ grammar.is_t b }
{
    matches!(b, b'T' | b't')
}

// Whether a place of the shape takes a byte.
#[tactic(auto, unfolding(crate::specs::Shape::takes))]
fn fits(i: usize, b: u8) -> bool
    ensures { result ≡ takes i b }
{
    match i {
        4 | 7 => b == b'-',
        10 => is_t(b),
        13 | 16 => b == b':',
        _ => is_digit(b),
    }
}

fn search(count: usize, shape: usize, text: &[u8], at: usize) -> usize
    requires { (at + count ≤ length text.now) × (shape + count ≤ 19) }
    ensures { result ≡ first_wrong count shape at text.now }
{
    // Over numbers: each counts places of the shape and of the text, from where each begins.
    for i in 0..count {
        if !fits(shape + i, text[at + i]) {
            return at + i;
        }
    }
    at + count
}

// The place of the first of so many bytes that the shape does not take, which is the text's length where they are not all there.
pub fn first_wrong(count: usize, shape: usize, text: &[u8], at: usize) -> usize
    requires { (at ≤ length text.now) × (shape + count ≤ 19) }
    ensures { result ≡ first_wrong count shape at text.now }
{
    let left = text.len() - at;
    if count <= left {
        return search(count, shape, text, at);
    }
    search(left, shape, text, at)
}
