// The walks over the parts of a pattern: one measures their texts, one lays them one after the other.
ghost use Rattle.std.specs.Prelude.{◌≡◌, ◌≤◌, length, Ok};
ghost use Rattle.laws.specs.Laid.{Laid};
ghost use Rattle.meaning.specs.Answers.{fields_check};
ghost use Rattle.meaning.specs.OpenedBooks.{book_in};
ghost use Rattle.meaning.specs.Whole.{text};

use format::lengths::step_length;
use format::step::format_step;
use meaning::{Fields, Pair};
use pattern::parts::parts_of;
use rules::step::step_of;

// How many bytes the text of all parts has, where they are at most 2,048.
pub fn text_length(pair: Pair, book: &[u8], pattern: &[u8], f: Fields) -> usize
    requires f_value { fields_check f ≡ Ok tt }
    requires f_len_bound { length (text pair (book_in book.now) pattern.now f) ≤ 2048 }
    ensures { result ≡ length (text pair (book_in book.now) pattern.now f) }
{
    let mut n = 0;
    for part in parts_of(pattern) {
        let step = step_of(pair, pattern, part);
        n += step_length(book, step, pattern, f);
    }
    n
}

// All parts, where there is room for their text.
pub fn format_parts(pair: Pair, book: &[u8], pattern: &[u8], f: Fields, out: &mut [u8]) -> usize
    requires f_value { fields_check f ≡ Ok tt }
    requires f_in_bounds { length (text pair (book_in book.now) pattern.now f) ≤ length out.old }
    ensures { Laid out.old out.new 0 result (text pair (book_in book.now) pattern.now f) }
{
    let mut at = 0;
    for part in parts_of(pattern) {
        let step = step_of(pair, pattern, part);
        at = format_step(book, step, pattern, f, out, at);
    }
    at
}
