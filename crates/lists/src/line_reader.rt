// The line reader: a thin record that holds a pasted text and the place of its next line; plain functions on slice and number do the
// work. Its steps from the start give the lines in order: `steps-are-lines` in laws' Lists. As an iterator it gives where they are.
ghost use Rattle.std.specs.Prelude.{◌≡◌};
ghost use Rattle.std.specs.Iterator.{item_count};
ghost use Rattle.lists.specs.Walk.{lines_left, Walks};
ghost use Rattle.meaning.specs.OpenedBooks.{book_in};
ghost use Rattle.meaning.specs.Promises.{ReadsLine};

use crate::line::read_line;
use crate::lines::{Places, line_at};
use meaning::{Choices, LineRead};

#[derive(Clone, Copy)]
pub struct LineReader<'a> {
    pub text: &'a [u8],
    pub at: usize,
}

// At the first line of a text, where there is one.
pub fn line_reader<'a>(text: &'a [u8]) -> LineReader<'a>
    ensures { (result.text ≡ text.entry) × (result.at ≡ 0) }
{
    LineReader { text, at: 0 }
}

// The next line's own answer.
pub fn next_line<'a, 'b, 'c>(
    reader: LineReader<'a>,
    choices: Choices,
    book: &'b [u8],
    pattern: &'c [u8],
    year: i32,
) -> Option<LineRead>
    ensures { ReadsLine choices (book_in book.now) pattern.now reader.entry.text.now reader.entry.at year result }
{
    read_line(choices, book, pattern, reader.text, reader.at, year)
}

// Moved on, to where an answer says that the next line starts.
pub fn moved<'a>(reader: LineReader<'a>, next: usize) -> LineReader<'a>
    ensures { (result.text ≡ reader.entry.text) × (result.at ≡ next) }
{
    LineReader {
        text: reader.text,
        at: next,
    }
}

impl<'a> Iterator for LineReader<'a> {
    type Item = Places;

    ghost next_gives = { Walks };

    ghost remaining = { item_count lines_left };

    fn next(&mut self) -> Option<Places> {
        if self.text.len() <= self.at {
            return None;
        }
        let line = line_at(self.text, self.at);
        self.at = line.next;
        Some(line)
    }
}
