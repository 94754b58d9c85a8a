// Reading a text by a prepared pattern.
ghost use Rattle.std.specs.Prelude.{[], ◌≡◌, ◌≤◌, nat_abs, length, take, Ok, Some};
ghost use Rattle.meaning.specs.Answers.{current_year_check, text_check, read_answer};
ghost use Rattle.meaning.specs.OpenedBooks.{book_in};
ghost use Rattle.meaning.specs.Whole.{read_by, walk};
ghost use Rattle.word_reader.specs.Quick.{Whole};
ghost use Rattle.rows.specs.Rows.{in_row, Given};
ghost use Rattle.words.specs.Pieces.{steps_of};
ghost use Rattle.meaning.specs.Prepared.{read_steps};

use crate::exact::read_pieces;
use crate::quick::quick_words;
use fields::signed::size;
use meaning::Choices;
use reader::checks::text_check;
use rows::answers::give_refusal;
use rows::entries::lay_zeros;

// Every text, refused ones too.
fn read_exactly(
    choices: Choices,
    book: &[u8],
    tail: &[u64],
    used: usize,
    text: &[u8],
    year: i32,
    answer: &mut [i64],
) -> u32
    requires { (used ≤ length tail.now) × (48 ≤ length answer.old) }
    ensures { Given (in_row 48 (read_answer (read_by (text_check text.now) (walk choices (book_in book.now) (nat_abs year) 0 0 (steps_of tail.now (take used tail.now)) text.now [])))) answer.old answer.new result }
{
    match text_check(text) {
        Ok(()) => read_pieces(choices, book, tail, used, text, size(year), answer),
        Err(why) => give_refusal(why, 48, answer),
    }
}

// A text that passes 6 and 7, if its words can be read.
// The counts and values are cleared here, the places by quick_words: a whole row at once would be a call.
fn read_quickly(
    choices: Choices,
    book: &[u8],
    tail: &[u64],
    used: usize,
    text: &[u8],
    year: i32,
    answer: &mut [i64],
) -> Option<()>
    requires { (used ≤ length tail.now) × (48 ≤ length answer.old) }
    ensures { Whole choices (book_in book.now) (nat_abs year) (steps_of tail.now (take used tail.now)) text.now answer.old answer.new result × (result ≡ Some tt → text_check text.now ≡ Ok tt) }
{
    lay_zeros(18, answer, 0);
    match text_check(text) {
        Ok(()) => quick_words(choices, book, tail, used, text, size(year), answer),
        Err(_) => None,
    }
}

// Reads a text by the words of a prepared pattern, in a year that has passed 14: 6, 7, then the words in order.
pub fn read_words(
    choices: Choices,
    book: &[u8],
    tail: &[u64],
    used: usize,
    text: &[u8],
    year: i32,
    answer: &mut [i64],
) -> u32
    requires { (used ≤ length tail.now) × (48 ≤ length answer.old) × (current_year_check choices.edition year ≡ Ok tt) }
    ensures { Given (in_row 48 (read_answer (read_steps (Ok tt) choices (book_in book.now) (steps_of tail.now (take used tail.now)) text.now year))) answer.old answer.new result }
{
    match read_quickly(choices, book, tail, used, text, year, answer) {
        Some(()) => 0,
        None => read_exactly(choices, book, tail, used, text, year, answer),
    }
}
