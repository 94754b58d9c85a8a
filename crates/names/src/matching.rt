// Names in: the names of the specification, matched by their list; months and weekdays by the lent book.
ghost use Rattle.std.specs.Prelude.{◌≡◌, ◌<◌, length};
ghost use Rattle.meaning.specs.Names.{names, english};
ghost use Rattle.meaning.specs.OpenedBooks.{book_in};
ghost use Rattle.meaning.specs.Readers.{match_name};
ghost use Rattle.names.specs.Lists.{list_at};
ghost use Rattle.names.specs.Table.{found_in};

use crate::constants::{most_of, rows_of, table_of};
use crate::rooms::{OPENED, rooms_of};
use crate::tables::{Found, ROOM, first_name};
use meaning::NameList;

// In an English table.
fn match_table(table: usize, text: &[u8]) -> Option<Found>
    requires { table < 17 }
    ensures { result ≡ found_in (match_name (names english (list_at table)) text.now) }
{
    let rows = rows_of(table);
    first_name(rows, rows.len() / ROOM, most_of(table), false, text)
}

// In an English list. The lists that texts have most are each one table whose rows are known here, which reads them quicker. Called at
// two places, it stays a call of its own, so that it has no part in what a book takes.
fn match_english(list: NameList, text: &[u8]) -> Option<Found>
    ensures { result ≡ found_in (match_name (names english list) text.now) }
{
    match table_of(list) {
        10 => match_table(10, text),
        14 => match_table(14, text),
        15 => match_table(15, text),
        table => match_table(table, text),
    }
}

// In a list of an opened book, or an English one that is no weekday and no month.
fn match_opened(book: &[u8], list: NameList, text: &[u8]) -> Option<Found>
    requires { length book.now ≡ 1344 }
    ensures { result ≡ found_in (match_name (names (book_in book.now) list) text.now) }
{
    let table = table_of(list);
    if table < 10 {
        return match_english(list, text);
    }
    let rooms = rooms_of(table);
    let from = rooms.from;
    first_name(&book[from..], rooms.count, rooms.most, true, text)
}

// The first name of a list that begins the text.
pub fn match_name(book: &[u8], list: NameList, text: &[u8]) -> Option<Found>
    ensures { result ≡ found_in (match_name (names (book_in book.now) list) text.now) }
{
    if book.len() == OPENED {
        return match_opened(book, list, text);
    }
    match_english(list, text)
}
