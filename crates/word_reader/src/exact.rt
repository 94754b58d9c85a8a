// Reading piece by piece, straight into the row: every text is read or refused here as the definitions say, whatever the words are.
ghost use Rattle.std.specs.Prelude.{[], map, ◌≡◌, ◌+◌, ◌-◌, ◌≤◌, ◌%◌, length, take, drop, replicate};
ghost use Rattle.meaning.specs.Answers.{read_answer};
ghost use Rattle.meaning.specs.OpenedBooks.{book_in};
ghost use Rattle.meaning.specs.Reading.{literal_read, read_step};
ghost use Rattle.meaning.specs.Whole.{walk, walk_reading};
ghost use Rattle.parse.specs.Literals.{compared_from};
ghost use Rattle.parse.specs.Steps.{part_at};
ghost use Rattle.rows.specs.Rows.{in_row, Given};
ghost use Rattle.words.specs.Pieces.{held_bytes, piece_step, steps_of};

use crate::keeping::{Moved, finish};
use meaning::{Carried, Choices, Refusal, Trouble};
use parse::cursor::{Cursor, Read, Stop};
use parse::literals::compare;
use parse::rule::parse_rule;
use parse::steps::pass;
use rows::answers::give_refusal;
use rows::entries::lay_zeros;
use rules::step::Step;
use words::pieces::{Piece, piece_count, piece_in};

// The bytes that words hold, each compared with the one of the text.
fn compare_held(held: &[u64], text: &[u8], at: usize) -> Option<usize>
    requires { at + length held.now ≤ length text.now }
    ensures { result ≡ compared_from at (map (λ w. w % 256) held.now) text.now }
{
    for (i, w) in held.iter().enumerate() {
        if text[at + i] != (*w % 256) as u8 {
            return Some(at + i);
        }
    }
    None
}

fn differs(place: usize) -> Stop
    ensures { result ≡ record { trouble = Trouble.LiteralDiffers; place = place } }
{
    Stop {
        trouble: Trouble::LiteralDiffers,
        place,
    }
}

// Held bytes: passed over, or by a strict reading compared.
fn read_held(
    strict: bool,
    held: &[u64],
    text: &[u8],
    cursor: Cursor,
) -> Result<Read<Option<Carried>>, Stop>
    requires { cursor.at ≤ length text.now }
    ensures { result ≡ part_at cursor.at (literal_read strict (map (λ w. w % 256) held.now) (drop cursor.at text.now)) }
{
    let at = cursor.at;
    let count = held.len();
    if strict && count <= text.len() - at {
        if let Some(place) = compare_held(held, text, at) {
            return Err(differs(place));
        }
    }
    pass(count, text, cursor)
}

// A byte, so many times.
fn read_times(
    strict: bool,
    byte: u8,
    count: usize,
    text: &[u8],
    cursor: Cursor,
) -> Result<Read<Option<Carried>>, Stop>
    requires { cursor.at ≤ length text.now }
    ensures { result ≡ part_at cursor.at (literal_read strict (replicate count byte) (drop cursor.at text.now)) }
{
    let at = cursor.at;
    if strict && 0 < count {
        if count <= text.len() - at {
            let none: [u8; 0] = [];
            if let Some(place) = compare(Step::Times { byte, count }, &none, text, at + count) {
                return Err(differs(place));
            }
        }
    }
    pass(count, text, cursor)
}

// One piece, with a literal compared where the reading is strict.
// An arm for each of the three pieces: the proof of each needs which one it is.
pub fn read_piece(
    choices: Choices,
    book: &[u8],
    piece: Piece,
    tail: &[u64],
    current_year: u32,
    text: &[u8],
    cursor: Cursor,
) -> Result<Read<Option<Carried>>, Stop>
    requires { cursor.at ≤ length text.now }
    ensures { result ≡ part_at cursor.at (read_step choices (book_in book.now) current_year (piece_step tail.now piece) (drop cursor.at text.now)) }
{
    let strict = choices.strict;
    let edition = choices.edition;
    match piece {
        Piece::Times { byte, count } => read_times(strict, byte, count, text, cursor),
        Piece::Held {
            from,
            count,
            lost: _,
        } => {
            let start = from.min(tail.len());
            let end = start + count.min(tail.len() - start);
            read_held(strict, &tail[start..end], text, cursor)
        }
        Piece::Symbol(rule) => { parse_rule(edition, book, rule, current_year, text, cursor) }
    }
}

// All pieces of all words in order; the first that can't be read refuses the whole, and so does what a strict reading leaves.
pub fn read_pieces(
    choices: Choices,
    book: &[u8],
    tail: &[u64],
    used: usize,
    text: &[u8],
    current_year: u32,
    answer: &mut [i64],
) -> u32
    requires { (used ≤ length tail.now) × (length text.now ≤ 2048) × (48 ≤ length answer.old) }
    ensures { Given (in_row 48 (read_answer (walk_reading (walk choices (book_in book.now) current_year 0 0 (steps_of tail.now (take used tail.now)) text.now [])))) answer.old answer.new result }
{
    lay_zeros(48, answer, 0);
    let mut mask: u16 = 0;
    let mut at = 0;
    let mut part = 0;
    // One loop over words and their pieces: with a loop for each (it proves), prepared reads take up to 1.7 per cent more instructions.
    let mut i = 0;
    let mut k = 0;
    while i < used {
        let w = tail[i];
        if piece_count(w) <= k {
            i += 1;
            k = 0;
            continue;
        }
        let piece = piece_in(w, k);
        let cursor = Cursor { at };
        match read_piece(choices, book, piece, tail, current_year, text, cursor) {
            Err(stop) => return give_refusal(stop.in_part(part), 48, answer),
            Ok(read) => {
                let start = at;
                at = read.next.at;
                if let Some(carried) = read.value {
                    let kept = Moved { next: start, mask }.keep(carried, at, at, answer);
                    mask = kept.mask;
                }
            }
        }
        part += 1;
        k += 1;
    }
    if choices.strict {
        if at < text.len() {
            return give_refusal(Refusal::TextLeft(at), 48, answer);
        }
    }
    finish(at, mask, answer);
    0
}
