// Specification, "a reading place that goes in by value and comes back moved on": each step answers the moved cursor, or why
// it stopped and where.
ghost use Rattle.std.specs.Prelude.{◌≡◌, ◌≤◌, length, drop};
ghost use Rattle.meaning.specs.Names.{names};
ghost use Rattle.meaning.specs.OpenedBooks.{book_in};
ghost use Rattle.meaning.specs.Readers as reads;
ghost use Rattle.parse.specs.Steps as steps;

use meaning::{NameList, Numeral, Refusal, Trouble};
use numerals::{Number, read_number};

#[derive(Clone, Copy)]
pub struct Cursor {
    pub at: usize,
}

// Why a step stopped, and where.
#[derive(Clone, Copy)]
pub struct Stop {
    pub trouble: Trouble,
    pub place: usize,
}

impl Stop {
    // The refusal of a part that stopped so.
    pub fn in_part(self, part: usize) -> Refusal
        ensures { result ≡ Refusal.InPart self.trouble part self.place }
    {
        Refusal::InPart {
            trouble: self.trouble,
            part,
            place: self.place,
        }
    }
}

// What a step read, and the cursor behind it.
#[derive(Clone, Copy)]
pub struct Read<T> {
    pub value: T,
    pub next: Cursor,
}

impl Cursor {
    // "take k": the remaining text is handed on as the part from the cursor.
    pub fn take(self, kind: Numeral, k: usize, text: &[u8]) -> Result<Read<Number>, Stop>
        requires { self.at ≤ length text.now }
        ensures { result ≡ steps.taken_at self.at (reads.take_number kind k (drop self.at text.now)) }
    {
        match read_number(kind, k, &text[self.at..]) {
            Ok(value) => Ok(Read {
                value,
                next: Cursor { at: self.at + k },
            }),
            Err(trouble) => Err(Stop {
                trouble,
                place: self.at,
            }),
        }
    }

    // So many bytes, unseen.
    pub fn skip(self, k: usize, text: &[u8]) -> Result<Cursor, Stop>
        requires { self.at ≤ length text.now }
        ensures { result ≡ steps.skipped_at self.at (reads.skip k (drop self.at text.now)) }
    {
        if text.len() - self.at < k {
            return Err(Stop {
                trouble: Trouble::TooFew,
                place: self.at,
            });
        }
        Ok(Cursor { at: self.at + k })
    }

    // The first name of a list that begins the remaining text; `match` is a keyword.
    pub fn match_name(self, book: &[u8], list: NameList, text: &[u8]) -> Result<Read<usize>, Stop>
        requires { self.at ≤ length text.now }
        ensures { result ≡ steps.matched_at self.at (reads.match_name (names (book_in book.now) list) (drop self.at text.now)) }
    {
        match names::matching::match_name(book, list, &text[self.at..]) {
            Some(found) => Ok(Read {
                value: found.index,
                next: Cursor {
                    at: self.at + found.length,
                },
            }),
            None => Err(Stop {
                trouble: Trouble::NoName,
                place: self.at,
            }),
        }
    }

    // So many bytes that are a name of a list.
    pub fn match_letters(
        self,
        book: &[u8],
        list: NameList,
        k: usize,
        text: &[u8],
    ) -> Result<Read<usize>, Stop>
        requires { self.at ≤ length text.now }
        ensures { result ≡ steps.matched_at self.at (reads.letters k (names (book_in book.now) list) (drop self.at text.now)) }
    {
        let end = self.skip(k, text)?;
        match names::matching::match_name(book, list, &text[self.at..end.at]) {
            Some(found) => Ok(Read {
                value: found.index,
                next: Cursor {
                    at: self.at + found.length,
                },
            }),
            None => Err(Stop {
                trouble: Trouble::NoName,
                place: self.at,
            }),
        }
    }
}
