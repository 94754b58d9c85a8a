// How many bytes words write, with no byte written.
ghost use Rattle.std.specs.Prelude.{◌≡◌, ◌-◌, ◌≤◌, min, length, take, Ok};
ghost use Rattle.meaning.specs.Answers.{fields_check};
ghost use Rattle.meaning.specs.Writing.{signed_text};
ghost use Rattle.word_writer.specs.Written.{word_text, words_text, behind_text, held_text};
ghost use Rattle.words.specs.Fields as field;
ghost use Rattle.words.specs.Pieces.{held_bytes, most_bytes, most_of};

use digits::padded::padded_length;
use format::lengths::{rule_length, year_length};
use format::step::short_number;
use meaning::Fields;
use words::coding::rule_in;
use words::fields::{code, count, from, is_lost, last_byte, slot};
use words::pieces::short_in;

fn most_bytes(w: u64) -> usize
    ensures { result ≡ most_bytes w }
{
    let bytes = code(w) as usize;
    if 29 <= bytes { bytes + count(w) } else { bytes }
}

// The bytes that words write at most, with any book and for any record.
pub fn most_of(words: &[u64]) -> usize
    requires { length words.now ≤ 256 }
    ensures { result ≡ most_of words.now }
{
    let mut most = 0;
    for w in words {
        most += most_bytes(*w);
    }
    most
}

fn behind_length(w: u64) -> usize
    ensures { (result ≡ length (behind_text w)) × (result ≤ 1) }
{
    usize::from(last_byte(w) != 0)
}

// So many, but none that lie behind the end.
fn at_most(count: usize, from: usize, end: usize) -> usize
    ensures { result ≡ min count (end - from) }
{
    count.min(end.saturating_sub(from))
}

// How many of the bytes that a word holds in the row are written.
pub fn held_length(tail: &[u64], w: u64) -> usize
    ensures { (held_text tail.now w ≡ held_bytes tail.now (field.from w) result) × (result ≤ length tail.now - field.from w) }
{
    let n = at_most(count(w), from(w), tail.len());
    if is_lost(w) && 0 < n { n - 1 } else { n }
}

fn years_length(f: Fields, digits: usize) -> usize
    requires { (fields_check f ≡ Ok tt) × (digits ≤ 512) }
    ensures { (result ≡ length (signed_text digits f.year)) × (result ≤ 513) }
{
    year_length(f.year, digits)
}

// An arm for each code, as the text of a word is defined.
fn word_length(book: &[u8], tail: &[u64], w: u64, f: Fields) -> usize
    requires { fields_check f ≡ Ok tt }
    ensures { result ≡ length (word_text book.now tail.now f w) }
{
    let behind = behind_length(w);
    match code(w) {
        1 => 1,
        3 => 2 + behind,
        4 => padded_length(short_number(short_in(slot(w)), f), 1) + behind,
        9 => years_length(f, slot(w)) + behind,
        10 => 8 + behind,
        15 => years_length(f, 4) + 6 + behind,
        22 => rule_length(book, rule_in(w), f) + behind,
        29 => years_length(f, count(w)),
        30 => count(w),
        31 => held_length(tail, w),
        _ => 0,
    }
}

// The first so many words of a row.
pub fn words_length(book: &[u8], tail: &[u64], used: usize, f: Fields) -> usize
    requires f_value { fields_check f ≡ Ok tt }
    requires used_in_bounds { used ≤ length tail.now }
    requires used_bound { used ≤ 256 }
    ensures { result ≡ length (words_text book.now tail.now f (take used tail.now)) }
{
    let mut n = 0;
    for &w in &tail[..used] {
        n += word_length(book, tail, w, f);
    }
    n
}
