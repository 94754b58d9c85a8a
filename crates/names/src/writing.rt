// Names out: the names of the specification, written by their list; months and weekdays by the lent book.
ghost use Rattle.std.specs.Prelude.{[], ◌≡◌, ◌+◌, ◌<◌, ◌≤◌, length, get_or};
ghost use Rattle.laws.specs.Laid.{Laid};
ghost use Rattle.meaning.specs.Names.{names, english};
ghost use Rattle.meaning.specs.OpenedBooks.{book_in};
ghost use Rattle.names.specs.Lists.{list_at};
ghost use Rattle.names.specs.Table.{IsOpened};

use crate::constants::{most_of, rows_of, table_of};
use crate::rooms::{OPENED, rooms_of};
use crate::tables::put_name;
use meaning::NameList;

// Of an English table.
fn put_english(table: usize, index: usize, out: &mut [u8], at: usize) -> usize
    requires english { (table < 17) × (index < length (names english (list_at table))) }
    requires index_in_bounds { at + length (get_or (names english (list_at table)) index []) ≤ length out.old }
    ensures { Laid out.old out.new at result (get_or (names english (list_at table)) index []) }
{
    put_name(rows_of(table), index, most_of(table), out, at)
}

// Of those of an opened book.
fn put_opened(book: &[u8], table: usize, index: usize, out: &mut [u8], at: usize) -> usize
    requires opened { IsOpened book.now table × (index < length (names (book_in book.now) (list_at table))) }
    requires index_in_bounds { at + length (get_or (names (book_in book.now) (list_at table)) index []) ≤ length out.old }
    ensures { Laid out.old out.new at result (get_or (names (book_in book.now) (list_at table)) index []) }
{
    let rooms = rooms_of(table);
    let from = rooms.from;
    put_name(&book[from..], index, rooms.most, out, at)
}

// Writes a name of a list at a place and gives the next place.
pub fn format_name(book: &[u8], list: NameList, index: usize, out: &mut [u8], at: usize) -> usize
    requires index_in_bounds { index < length (names (book_in book.now) list) }
    requires index_in_bounds_2 { at + length (get_or (names (book_in book.now) list) index []) ≤ length out.old }
    ensures { Laid out.old out.new at result (get_or (names (book_in book.now) list) index []) }
{
    let table = table_of(list);
    if 10 <= table && book.len() == OPENED {
        return put_opened(book, table, index, out, at);
    }
    put_english(table, index, out, at)
}
