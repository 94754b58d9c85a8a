// The places of a book's names: in its bytes, where each says how far it is to the next, and in an opened book.
ghost use Rattle.std.specs.Prelude.{List, ◌≡◌, ℕ, length, drop};
ghost use Rattle.books.specs.Places.{names_by, shelved_by};
ghost use Rattle.meaning.specs.Books.{names_in};
ghost use Rattle.meaning.specs.OpenedBooks.{names_at};

// The place behind the last name, if the bytes do not end before the names do.
pub fn find_names(bytes: &[u8], places: &mut [usize]) -> Option<usize>
    requires { length places.old ≡ 64 }
    ensures { shelved_by bytes.now places.new result ≡ names_in 64 (drop 5 bytes.now) }
{
    let mut at = 5;
    for place in places.iter_mut() {
        let length = *bytes.get(at)? as usize;
        let next = at + 1 + length;
        if bytes.len() < next {
            return None;
        }
        *place = at;
        at = next;
    }
    Some(at)
}

pub fn rooms() -> [usize; 64]
    ensures { (row : List ℕ) → names_by row result ≡ names_at 255 64 row }
{
    std::array::from_fn(|i| i * 21)
}
