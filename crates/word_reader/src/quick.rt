// Reading straight into the row: a text that goes the plain way is read here, word by word. Where it can't be read this gives up, and
// exact tells why.
ghost use Rattle.std.specs.Prelude.{List, [], ◌∷◌, ◌≡◌, ℕ, ◌≤◌, length, take, drop};
ghost use Rattle.meaning.specs.OpenedBooks.{book_in};
ghost use Rattle.word_reader.specs.Quick as quick;
ghost use Rattle.words.specs.Fields as field;
ghost use Rattle.words.specs.Pieces as pieces;

use crate::exact::read_piece;
use crate::keeping::{Moved, finish, pass_behind};
use crate::named::hot_name;
use crate::plain::hot_word;
use meaning::Choices;
use parse::cursor::Cursor;
use parse::rule::parse_rule;
use rows::entries::lay_zeros;
use words::coding::rule_in;
use words::fields::code;
use words::pieces::{Piece, piece_count, piece_in};

// One piece.
fn quick_piece(
    choices: Choices,
    book: &[u8],
    piece: Piece,
    tail: &[u64],
    current_year: u32,
    text: &[u8],
    from: Moved,
    answer: &mut [i64],
) -> Option<Moved>
    requires { quick.Ready text.now from.next answer.old }
    ensures { quick.Quick choices (book_in book.now) current_year (pieces.piece_step tail.now piece ∷ []) text.now from answer.old answer.new result }
{
    let cursor = Cursor { at: from.next };
    match read_piece(choices, book, piece, tail, current_year, text, cursor) {
        Err(_) => None,
        Ok(read) => {
            let next = read.next.at;
            match read.value {
                None => Some(Moved {
                    next,
                    mask: from.mask,
                }),
                Some(carried) => Some(from.keep(carried, next, next, answer)),
            }
        }
    }
}

// A word piece by piece: symbols of every kind, and runs of bytes.
fn quick_pieces(
    choices: Choices,
    book: &[u8],
    w: u64,
    tail: &[u64],
    current_year: u32,
    text: &[u8],
    from: Moved,
    answer: &mut [i64],
) -> Option<Moved>
    requires { quick.Ready text.now from.next answer.old }
    ensures { quick.Quick choices (book_in book.now) current_year (pieces.steps_in tail.now w) text.now from answer.old answer.new result }
{
    let count = piece_count(w);
    let mut moved = from;
    // Over numbers: a word holds no pieces, each is worked out by its number.
    for k in 0..count {
        let piece = piece_in(w, k);
        moved = quick_piece(
            choices,
            book,
            piece,
            tail,
            current_year,
            text,
            moved,
            answer,
        )?;
    }
    Some(moved)
}

// A symbol that is not one of those, and the byte behind it.
fn quick_rule(
    choices: Choices,
    book: &[u8],
    w: u64,
    current_year: u32,
    text: &[u8],
    from: Moved,
    answer: &mut [i64],
) -> Option<Moved>
    requires { (field.code w ≡ 22) × quick.Ready text.now from.next answer.old }
    ensures { (row : List ℕ) → quick.Quick choices (book_in book.now) current_year (pieces.steps_in row w) text.now from answer.old answer.new result }
{
    let edition = choices.edition;
    let cursor = Cursor { at: from.next };
    match parse_rule(edition, book, rule_in(w), current_year, text, cursor) {
        Err(_) => None,
        Ok(read) => {
            let end = read.next.at;
            let next = pass_behind(choices, w, text, end)?;
            match read.value {
                None => Some(Moved {
                    next,
                    mask: from.mask,
                }),
                Some(carried) => Some(from.keep(carried, end, next, answer)),
            }
        }
    }
}

// A word: at once if it goes the plain way, else by its pieces.
fn quick_word(
    choices: Choices,
    book: &[u8],
    w: u64,
    tail: &[u64],
    current_year: u32,
    text: &[u8],
    from: Moved,
    answer: &mut [i64],
) -> Option<Moved>
    requires { quick.Ready text.now from.next answer.old }
    ensures { quick.Quick choices (book_in book.now) current_year (pieces.steps_in tail.now w) text.now from answer.old answer.new result }
{
    if let Some(moved) = hot_word(choices, w, text, from, answer) {
        return Some(moved);
    }
    if code(w) == 22 {
        if let Some(moved) = hot_name(choices, book, w, text, from, answer) {
            return Some(moved);
        }
        return quick_rule(choices, book, w, current_year, text, from, answer);
    }
    quick_pieces(choices, book, w, tail, current_year, text, from, answer)
}

// All words in order, in a row whose counts and values are zeros, if the text can be read so.
pub fn quick_words(
    choices: Choices,
    book: &[u8],
    tail: &[u64],
    used: usize,
    text: &[u8],
    current_year: u32,
    answer: &mut [i64],
) -> Option<()>
    requires { (used ≤ length tail.now) × (48 ≤ length answer.old) × (length text.now ≤ 2048) × quick.Cleared answer.old }
    ensures { quick.Whole choices (book_in book.now) current_year (pieces.steps_of tail.now (take used tail.now)) text.now answer.old answer.new result }
{
    lay_zeros(30, answer, 18);
    let mut moved = Moved { next: 0, mask: 0 };
    // By index: over the slice itself, prepared reads take up to 1 per cent more instructions.
    for i in 0..used {
        let w = tail[i];
        moved = quick_word(choices, book, w, tail, current_year, text, moved, answer)?;
    }
    if choices.strict && moved.next < text.len() {
        return None;
    }
    finish(moved.next, moved.mask, answer);
    Some(())
}
