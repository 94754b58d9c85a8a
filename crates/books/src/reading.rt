// The check of a book's bytes: 20, 22 where there is no version, 21, 22, 23.
ghost use Rattle.std.specs.Prelude.{◌≡◌, ◌≤◌, length};
ghost use Rattle.books.specs.Checks.{start_check, Checks};
ghost use Rattle.books.specs.Places.{shelved_by};
ghost use Rattle.meaning.specs.Books.{is_mark, version_of, shelved_check};

use crate::places::find_names;
use crate::shelves::check_names;
use meaning::Refusal;

fn has_mark(bytes: &[u8]) -> bool
    ensures { result ≡ is_mark bytes.now }
{
    bytes.starts_with(b"LNB")
}

fn version(bytes: &[u8]) -> u32
    requires { 5 ≤ length bytes.now }
    ensures { result ≡ version_of bytes.now }
{
    bytes[3] as u32 * 256 + bytes[4] as u32
}

fn check_start(bytes: &[u8]) -> Result<(), Refusal>
    ensures { result ≡ start_check bytes.now }
{
    if !has_mark(bytes) {
        return Err(Refusal::BookMark);
    }
    if bytes.len() < 5 {
        return Err(Refusal::BookCut);
    }
    let v = version(bytes);
    if v < 1 || 2 < v {
        return Err(Refusal::BookVersion);
    }
    Ok(())
}

// The names that were found, and what is behind the last: only version 2 may have bytes there.
fn check_found(bytes: &[u8], places: &[usize], end: usize) -> Result<(), Refusal>
    requires in_bounds { 5 ≤ length bytes.now }
    requires places_len { length places.now ≡ 64 }
    ensures { result ≡ shelved_check (version_of bytes.now) (shelved_by bytes.now places.now (Some end)) }
{
    if version(bytes) != 2 && end < bytes.len() {
        return Err(Refusal::BookCut);
    }
    check_names(bytes, places)
}

#[tactic(auto, using(crate::proofs::reading::Laws::start_then), unfolding(meaning::specs::Books::book_check))]
pub fn check_book(bytes: &[u8], places: &mut [usize]) -> Result<(), Refusal>
    requires { length places.old ≡ 64 }
    ensures { Checks bytes.now places.new result }
{
    check_start(bytes)?;
    let end = find_names(bytes, places).ok_or(Refusal::BookCut)?;
    check_found(bytes, places, end)
}
