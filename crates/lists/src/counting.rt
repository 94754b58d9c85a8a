// How many lines a text has, before any of them is read.
ghost use Rattle.std.specs.Prelude.{◌≡◌, length};
ghost use Rattle.laws.specs.Lists.{newlines};
ghost use Rattle.meaning.specs.Lists.{lines};

// The newlines: with no way out of its turns, so that they can go several at once. By a walk over the lines, a list of short lines that
// is refused 24 takes up to five times as long.
fn count_newlines(text: &[u8]) -> usize
    ensures { result ≡ newlines text.now }
{
    let mut n: usize = 0;
    for b in text {
        n += usize::from(*b == b'\n');
    }
    n
}

// One for each newline, and one more for a last line without.
pub fn count_lines(text: &[u8]) -> usize
    ensures { result ≡ length (lines text.now) }
{
    let n = text.len();
    if n == 0 {
        return 0;
    }
    let ended = count_newlines(text);
    if text[n - 1] == b'\n' {
        return ended;
    }
    ended + 1
}
