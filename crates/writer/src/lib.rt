// The public writer: the checks 1, 2, 3, 4, 5 in that order, then the text.
#![tactic(auto)]

pub mod date;
pub mod walk;

ghost use Rattle.meaning.specs.Names.{english};
ghost use Rattle.meaning.specs.OpenedBooks.{book_in};
ghost use Rattle.meaning.specs.Promises.{Writes};

use crate::walk::{format_parts, text_length};
use fields::checks::fields_check;
use meaning::{Fields, Pair, Refusal};
use pattern::checks::pattern_check;

// Writes a record by a pattern of either pair, with the names of a lent book. A refused write alters no byte, an accepted one just those it reports. The text is
// measured where 8 bytes for each of the pattern, which are always enough, do not fit.
#[tactic(auto, unfolding(meaning::specs::Whole::write, meaning::specs::Whole::write_check, meaning::specs::Whole::output))]
pub fn format_with(
    pair: Pair,
    book: &[u8],
    pattern: &[u8],
    f: Fields,
    out: &mut [u8],
) -> Result<usize, Refusal>
    ensures { Writes pair (book_in book.now) pattern.now f out.old result out.new }
{
    pattern_check(pattern)?;
    fields_check(f)?;
    if out.len() < pattern.len() * 8 {
        let n = text_length(pair, book, pattern, f);
        if out.len() < n {
            return Err(Refusal::NoRoom(n));
        }
    }
    Ok(format_parts(pair, book, pattern, f, out))
}

// With the English names, for which an empty row stands.
fn format_english(pair: Pair, pattern: &[u8], f: Fields, out: &mut [u8]) -> Result<usize, Refusal>
    ensures { Writes pair english pattern.now f out.old result out.new }
{
    let none: [u8; 0] = [];
    format_with(pair, &none, pattern, f, out)
}

// The full pair's writer.
pub fn format(pattern: &[u8], f: Fields, out: &mut [u8]) -> Result<usize, Refusal>
    ensures { Writes Pair.Full english pattern.now f out.old result out.new }
{
    format_english(Pair::Full, pattern, f, out)
}
