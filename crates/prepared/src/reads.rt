// A text read by a row.
ghost use Rattle.std.specs.Prelude.{◌≤◌, length, take, Ok};
ghost use Rattle.meaning.specs.Answers.{read_answer};
ghost use Rattle.meaning.specs.OpenedBooks.{book_in};
ghost use Rattle.prepared.specs.Uses.{prepared_read};
ghost use Rattle.rows.specs.Rows.{in_row, Given};
ghost use Rattle.words.specs.Pieces.{steps_of};
ghost use Rattle.meaning.specs.Prepared.{read_steps};

use crate::opening::open;
use fields::checks::current_year_check;
use meaning::Choices;
use rows::answers::give_refusal;
use word_reader::reading::read_words;

// By words, 14 first.
fn read_in_year(
    choices: Choices,
    book: &[u8],
    tail: &[u64],
    used: usize,
    text: &[u8],
    year: i32,
    answer: &mut [i64],
) -> u32
    requires { (used ≤ length tail.now) × (48 ≤ length answer.old) }
    ensures { Given (in_row 48 (read_answer (read_steps (Ok tt) choices (book_in book.now) (steps_of tail.now (take used tail.now)) text.now year))) answer.old answer.new result }
{
    let edition = choices.edition;
    match current_year_check(edition, year) {
        Ok(()) => read_words(choices, book, tail, used, text, year, answer),
        Err(why) => give_refusal(why, 48, answer),
    }
}

// The answer as of any reading. Where the row is not that of a prepared pattern: 105, and nothing is altered.
pub fn read(
    choices: Choices,
    book: &[u8],
    row: &[u64],
    text: &[u8],
    year: i32,
    answer: &mut [i64],
) -> u32
    requires { 48 ≤ length answer.old }
    ensures { Given (prepared_read choices book.now row.now text.now year) answer.old answer.new result }
{
    let Some(opened) = open(row) else {
        return 105;
    };
    match opened {
        Err(why) => give_refusal(why, 48, answer),
        Ok(used) => read_in_year(choices, book, &row[3..259], used, text, year, answer),
    }
}
