// Names laid into a lent output, one after the other: each behind its length as in a book's bytes, or each in its room as in an
// opened book.
ghost use Rattle.std.specs.Prelude.{◌∷◌, ◌≡◌, suc, ◌+◌, ◌≤◌, ◌<◌, length};
ghost use Rattle.books.specs.Places.{names_by};
ghost use Rattle.laws.specs.Laid.{Laid};
ghost use Rattle.meaning.specs.Books.{book_bytes};
ghost use Rattle.meaning.specs.OpenedBooks.{in_room, opened_names};

use crate::names::name_at;
use digits::laying::{put_byte, put_bytes, put_times};

fn put_name(name: &[u8], out: &mut [u8], at: usize) -> usize
    requires name_len_bound { length name.now < 256 }
    requires name_in_bounds { at + suc (length name.now) ≤ length out.old }
    ensures { Laid out.old out.new at result (length name.now ∷ name.now) }
{
    let next = put_byte(name.len() as u8, out, at);
    put_bytes(name, out, next)
}

// The room of a name has 20 letters; where it has fewer, zeros fill it up.
fn put_room(name: &[u8], out: &mut [u8], at: usize) -> usize
    requires name_len_bound { length name.now < 256 }
    requires at_in_bounds { at + 21 ≤ length out.old }
    ensures { Laid out.old out.new at result (in_room name.now) }
{
    let next = put_byte(name.len() as u8, out, at);
    if 20 < name.len() {
        return put_bytes(&name[..20], out, next);
    }
    let end = put_bytes(name, out, next);
    put_times(0, 20 - name.len(), out, end)
}

pub fn put_rooms(bytes: &[u8], places: &[usize], out: &mut [u8]) -> usize
    requires places_len { length places.now ≡ 64 }
    requires in_bounds { 1344 ≤ length out.old }
    ensures { Laid out.old out.new 0 result (opened_names (names_by bytes.now places.now)) }
{
    let mut at = 0;
    for &place in places {
        at = put_room(name_at(bytes, place), out, at);
    }
    at
}

// How many bytes the book of these names has.
pub fn book_length(bytes: &[u8], places: &[usize]) -> usize
    requires { length places.now ≡ 64 }
    ensures { result ≡ length (book_bytes (names_by bytes.now places.now)) }
{
    let mut n = 5;
    for &place in places {
        n += 1 + name_at(bytes, place).len();
    }
    n
}

// The mark, version 1, and the names.
pub fn put_book(bytes: &[u8], places: &[usize], out: &mut [u8]) -> usize
    requires places_len { length places.now ≡ 64 }
    requires places_in_bounds { length (book_bytes (names_by bytes.now places.now)) ≤ length out.old }
    ensures { Laid out.old out.new 0 result (book_bytes (names_by bytes.now places.now)) }
{
    let mut at = put_bytes(b"LNB\x00\x01", out, 0);
    for &place in places {
        at = put_name(name_at(bytes, place), out, at);
    }
    at
}
