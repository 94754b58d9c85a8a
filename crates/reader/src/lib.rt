// Reading a text by a pattern: the public reader, with the checks 1, 2, 3, 14, 6, 7 in that order and then the walk over the
// parts.
#![tactic(auto)]

pub mod checks;
pub mod date;
pub mod offset;
pub mod record;
pub mod walk;

ghost use Rattle.std.specs.Prelude.{◌≡◌, Ok};
ghost use Rattle.meaning.specs.Names.{english};
ghost use Rattle.meaning.specs.OpenedBooks.{book_in};
ghost use Rattle.meaning.specs.Promises.{Reads};
ghost use Rattle.meaning.specs.Trust.{trust_check};
ghost use Rattle.meaning.specs.Whole as whole;

use crate::checks::text_check;
use crate::walk::parse_parts;
use fields::checks::trust_check;
use fields::signed::size;
use meaning::{Choices, Edition, Pair, Reading, Refusal};

// Reads a text by a pattern and in a year that have passed 1, 2, 3 and 14, which are not asked again.
pub fn parse_checked(
    choices: Choices,
    book: &[u8],
    pattern: &[u8],
    text: &[u8],
    year: i32,
) -> Result<Reading, Refusal>
    requires { trust_check choices.edition pattern.now year ≡ Ok tt }
    ensures { result ≡ whole.read choices (book_in book.now) pattern.now text.now year }
{
    text_check(text)?;
    parse_parts(choices, book, pattern, text, size(year))
}

// Reads a text by a pattern, with these choices.
pub fn parse_with(
    choices: Choices,
    book: &[u8],
    pattern: &[u8],
    text: &[u8],
    year: i32,
) -> Result<Reading, Refusal>
    ensures { Reads choices (book_in book.now) pattern.now text.now year result }
{
    trust_check(choices.edition, pattern, year)?;
    parse_checked(choices, book, pattern, text, year)
}

// A pair's reading with no choice made: not strict, in the first edition.
pub fn plain(pair: Pair) -> Choices
    ensures { result ≡ whole.plain pair }
{
    Choices {
        pair,
        strict: false,
        edition: Edition::First,
    }
}

// The full pair's reader.
pub fn parse(pattern: &[u8], text: &[u8], year: i32) -> Result<Reading, Refusal>
    ensures { Reads (whole.plain Pair.Full) english pattern.now text.now year result }
{
    let none: [u8; 0] = [];
    parse_with(plain(Pair::Full), &none, pattern, text, year)
}
