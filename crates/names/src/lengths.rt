// How long the names of the specification are, by their list; months and weekdays by the lent book.
ghost use Rattle.std.specs.Prelude.{[], ◌≡◌, ◌<◌, length, get_or};
ghost use Rattle.meaning.specs.Names.{names, english};
ghost use Rattle.meaning.specs.OpenedBooks.{book_in};
ghost use Rattle.names.specs.Lists.{list_at};
ghost use Rattle.names.specs.Table.{IsOpened};

use crate::constants::{most_of, rows_of, table_of};
use crate::rooms::{OPENED, rooms_of};
use crate::tables::length_at;
use meaning::NameList;

// Of an English table.
fn english_length(table: usize, index: usize) -> usize
    requires { (table < 17) × (index < length (names english (list_at table))) }
    ensures { result ≡ length (get_or (names english (list_at table)) index []) }
{
    length_at(rows_of(table), index, most_of(table))
}

// Of those of an opened book.
fn opened_length(book: &[u8], table: usize, index: usize) -> usize
    requires { IsOpened book.now table × (index < length (names (book_in book.now) (list_at table))) }
    ensures { result ≡ length (get_or (names (book_in book.now) (list_at table)) index []) }
{
    let rooms = rooms_of(table);
    let from = rooms.from;
    length_at(&book[from..], index, rooms.most)
}

// How many bytes a name of a list has.
pub fn name_length(book: &[u8], list: NameList, index: usize) -> usize
    requires { index < length (names (book_in book.now) list) }
    ensures { result ≡ length (get_or (names (book_in book.now) list) index []) }
{
    let table = table_of(list);
    if 10 <= table && book.len() == OPENED {
        return opened_length(book, table, index);
    }
    english_length(table, index)
}
