// Names that go the plain way: English months and weekdays, by their letters. Of any other the row stays as it was.
ghost use Rattle.std.specs.Prelude.{true, ◌≡◌};
ghost use Rattle.meaning.specs.Names.{english};
ghost use Rattle.meaning.specs.OpenedBooks.{book_in};
ghost use Rattle.word_reader.specs.Quick as quick;
ghost use Rattle.words.specs.Coding.{is_spelled};
ghost use Rattle.words.specs.Fields as field;

use crate::keeping::{Moved, pass_behind};
use meaning::{Carried, Choices, ParseUnit};
use names::letters::spelled_at;
use names::rooms::OPENED;
use words::coding::{is_spelled, is_weekday, most_letters};

// A name that is spelled, and the byte behind it; a month is kept.
fn english_name(
    choices: Choices,
    w: u64,
    text: &[u8],
    from: Moved,
    answer: &mut [i64],
) -> Option<Moved>
    requires { (field.code w ≡ 22) × (is_spelled w ≡ true) × quick.Ready text.now from.next answer.old }
    ensures { quick.Named choices english w text.now from answer.old answer.new result }
{
    let weekday = is_weekday(w);
    let found = spelled_at(weekday, most_letters(w), text, from.next)?;
    let end = from.next + found.length;
    let next = pass_behind(choices, w, text, end)?;
    if weekday {
        return Some(Moved {
            next,
            mask: from.mask,
        });
    }
    let month = Carried {
        unit: ParseUnit::Month,
        value: (found.name + 1) as i64,
    };
    Some(from.keep(month, end, next, answer))
}

// A name, if it is spelled and no book is lent.
pub fn hot_name(
    choices: Choices,
    book: &[u8],
    w: u64,
    text: &[u8],
    from: Moved,
    answer: &mut [i64],
) -> Option<Moved>
    requires { (field.code w ≡ 22) × quick.Ready text.now from.next answer.old }
    ensures { quick.Named choices (book_in book.now) w text.now from answer.old answer.new result }
{
    if book.len() == OPENED {
        return None;
    }
    if is_spelled(w) {
        return english_name(choices, w, text, from, answer);
    }
    None
}
