// Names written as the bytes of a book of version 1: English, and the names of an opened book.
ghost use Rattle.books.specs.Writes.{WritesNames};
ghost use Rattle.meaning.specs.Books.{names_of};
ghost use Rattle.meaning.specs.Names.{english};
ghost use Rattle.meaning.specs.OpenedBooks.{names_at};

use crate::english::BOOK;
use crate::laying::{book_length, put_book};
use crate::places::rooms;
use crate::shelves::check_names;
use digits::laying::put_bytes;
use meaning::Refusal;

pub fn write_english(out: &mut [u8]) -> Result<usize, Refusal>
    ensures { WritesNames (names_of english) out.old result out.new }
{
    let n = BOOK.len();
    if out.len() < n {
        return Err(Refusal::NoRoom(n));
    }
    Ok(put_bytes(&BOOK, out, 0))
}

// Each length as it stands: where it is none that a name may have, that name is refused.
pub fn write_opened(row: &[u8], out: &mut [u8]) -> Result<usize, Refusal>
    ensures { WritesNames (names_at 255 64 row.now) out.old result out.new }
{
    let places = rooms();
    check_names(row, &places)?;
    let n = book_length(row, &places);
    if out.len() < n {
        return Err(Refusal::NoRoom(n));
    }
    Ok(put_book(row, &places, out))
}
