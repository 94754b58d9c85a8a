// The line at a place of a text, read by itself, with the place of the next one.
ghost use Rattle.std.specs.Prelude.{◌≡◌};
ghost use Rattle.meaning.specs.OpenedBooks.{book_in};
ghost use Rattle.meaning.specs.Promises.{ReadsLine};

use crate::lines::{Places, line_at};
use meaning::{Choices, LineRead};
use reader::parse_with;

// Reads the line that starts at a place, as it would be read by itself; there is none where the text ends, or after.
pub fn read_line(
    choices: Choices,
    book: &[u8],
    pattern: &[u8],
    text: &[u8],
    at: usize,
    year: i32,
) -> Option<LineRead>
    ensures { ReadsLine choices (book_in book.now) pattern.now text.now at year result }
{
    if text.len() <= at {
        return None;
    }
    let Places { end, next, .. } = line_at(text, at);
    let reading = parse_with(choices, book, pattern, &text[at..end], year);
    Some(LineRead {
        start: at,
        end,
        next,
        reading,
    })
}
