// Request [8], name books: a book's bytes opened into a lent row, and the book that a lent row holds written as bytes of version 1.
#![tactic(auto)]

pub mod english;
pub mod laying;
pub mod names;
pub mod places;
pub mod reading;
pub mod shelves;
pub mod writing;

ghost use Rattle.meaning.specs.Promises.{OpensBook, WritesBook};

use crate::laying::put_rooms;
use crate::reading::check_book;
use crate::writing::{write_english, write_opened};
use meaning::Refusal;

// An opened book: a room of 21 bytes for each of its 64 names.
const OPENED_SIZE: usize = 1344;

// Opens a book: lays its names over the start of a lent row, each in its room. A book that is refused leaves the row as it was.
#[tactic(auto, unfolding(meaning::specs::OpenedBooks::open_book, meaning::specs::OpenedBooks::open_output, meaning::specs::OpenedBooks::open_check))]
pub fn read_book(bytes: &[u8], book: &mut [u8]) -> Result<usize, Refusal>
    ensures { OpensBook bytes.now book.old result book.new }
{
    let mut places = [0; 64];
    check_book(bytes, &mut places)?;
    if book.len() < OPENED_SIZE {
        return Err(Refusal::NoRoom(OPENED_SIZE));
    }
    Ok(put_rooms(bytes, &places, book))
}

// Writes the book that a lent row holds: the one that was opened into it, or English where it has another size.
pub fn write_book(book: &[u8], out: &mut [u8]) -> Result<usize, Refusal>
    ensures { WritesBook book.now out.old result out.new }
{
    if book.len() == OPENED_SIZE {
        return write_opened(book, out);
    }
    write_english(out)
}
