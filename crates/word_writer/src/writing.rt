// Writing by words: each lays the text of its steps behind that of the words before it. The output and the place in it are handed on as
// the leaves of digits and format take them: a struct of both would be taken apart at each.
ghost use Rattle.std.specs.Prelude.{true, false, ◌++◌, ◌≡◌, ◌+◌, ◌-◌, ◌≤◌, ◌<◌, length, take, get_or, Ok};
ghost use Rattle.laws.specs.Laid.{Laid};
ghost use Rattle.meaning.specs.Answers.{fields_check};
ghost use Rattle.meaning.specs.Bytes.{num};
ghost use Rattle.meaning.specs.OpenedBooks.{book_in};
ghost use Rattle.meaning.specs.Writing.{name_text, signed_text};
ghost use Rattle.word_writer.specs.Written.{word_text, words_text, behind_text, matched_text, two_more, plain_year, numbers_of, Small, is_quick, quick_text, other_text, spelled_name};
ghost use Rattle.words.specs.Coding.{list_in, is_spelled};
ghost use Rattle.words.specs.Fields as field;
ghost use Rattle.words.specs.Pieces.{held_bytes, steps_of};
ghost use Rattle.meaning.specs.Prepared.{write_steps, output_steps};

use crate::measuring::{held_length, most_of, words_length};
use digits::laying::{put_byte, put_times};
use digits::numbers::{put_four, put_short, put_two};
use fields::checks::fields_check;
use fields::signed::{is_negative, size};
use fields::values::second_of_day;
use format::rule::format_rule;
use format::symbols::put_name_of;
use format::years::zero_padded_i;
use meaning::unit_sizes::{SECS_PER_HOUR, SECS_PER_MINUTE};
use meaning::{Fields, Refusal};
use names::letters::put_spelled;
use names::rooms::OPENED;
use words::coding::{is_matched_name, is_spelled, is_weekday, list, most_letters, rule_in};
use words::fields::{code, count, first_byte, from, last_byte, second_byte, slot};

// The byte behind all else, where there is one.
fn put_behind(w: u64, out: &mut [u8], at: usize) -> usize
    requires { at + length (behind_text w) ≤ length out.old }
    ensures { Laid out.old out.new at result (behind_text w) }
{
    let b = last_byte(w);
    if b == 0 {
        return at;
    }
    put_byte(b, out, at)
}

// Two digits, and the byte behind them.
fn put_full(n: u32, w: u64, out: &mut [u8], at: usize) -> usize
    requires { (n < 100) × (at + length (num 2 n ++ behind_text w) ≤ length out.old) }
    ensures { Laid out.old out.new at result (num 2 n ++ behind_text w) }
{
    let next = put_two(n, out, at);
    put_behind(w, out, next)
}

// One digit or two, and the byte behind them.
fn put_few(n: u32, w: u64, out: &mut [u8], at: usize) -> usize
    requires { (n < 100) × (at + length (num 1 n ++ behind_text w) ≤ length out.old) }
    ensures { Laid out.old out.new at result (num 1 n ++ behind_text w) }
{
    let next = put_short(n, 1, out, at);
    put_behind(w, out, next)
}

// The last two of three numbers, each behind its byte.
fn put_two_more(b: u32, c: u32, w: u64, out: &mut [u8], at: usize) -> usize
    requires { (b < 100) × (c < 100) × (at + length (two_more (num 2 b) (num 2 c) w) ≤ length out.old) }
    ensures { Laid out.old out.new at result (two_more (num 2 b) (num 2 c) w) }
{
    let first = put_byte(first_byte(w), out, at);
    let second = put_two(b, out, first);
    let third = put_byte(second_byte(w), out, second);
    put_full(c, w, out, third)
}

// A year of any size.
fn put_year(f: Fields, digits: usize, out: &mut [u8], at: usize) -> usize
    requires { at + length (signed_text digits f.year) ≤ length out.old }
    ensures { Laid out.old out.new at result (signed_text digits f.year) }
{
    zero_padded_i(f.year, digits, out, at)
}

// Bytes that the row holds from a place on.
fn put_held(tail: &[u64], from: usize, n: usize, out: &mut [u8], at: usize) -> usize
    requires n_in_bounds { n ≤ length tail.now - from }
    requires n_in_bounds_2 { at + n ≤ length out.old }
    ensures { Laid out.old out.new at result (held_bytes tail.now from n) }
{
    // Over numbers: where nothing is held, the place may lie past the row's end, so there is no slice to go over.
    for j in 0..n {
        out[at + j] = (tail[from + j] % 256) as u8;
    }
    at + n
}

// Whether a word is one of those that patterns have most, with a year of four digits where it writes one. An arm for each code: by `matches!`, a prepared
// write takes up to 4 per cent more instructions.
fn is_quick(w: u64, year: u32) -> bool
    ensures { result ≡ is_quick year w }
{
    match code(w) {
        1 => true,
        3 => true,
        4 => true,
        9 => slot(w) == 4 && year < 10000,
        10 => true,
        15 => year < 10000,
        _ => false,
    }
}

// A quick word. The place of each number is taken from the word, also where the code alone says which it is: so no digit is worked out but those
// that are written.
// An arm for each code, as for `is_quick`.
fn put_quick(w: u64, numbers: &[u32; 11], out: &mut [u8], at: usize) -> usize
    requires small { Small numbers.now }
    requires w_value { is_quick (get_or numbers.now 10 0) w ≡ true }
    requires w_in_bounds { at + length (quick_text numbers.now w) ≤ length out.old }
    ensures { Laid out.old out.new at result (quick_text numbers.now w) }
{
    let short = slot(w);
    let part = (w % 8) as usize;
    let year = (w / 8 % 2) as usize + 9;
    match code(w) {
        1 => put_byte(last_byte(w), out, at),
        3 => put_full(numbers[short], w, out, at),
        4 => put_few(numbers[short], w, out, at),
        9 => {
            let next = put_four(numbers[year], out, at);
            put_behind(w, out, next)
        }
        10 => {
            let next = put_two(numbers[part], out, at);
            put_two_more(numbers[part + 1], numbers[part + 2], w, out, next)
        }
        _ => {
            let next = put_four(numbers[year], out, at);
            put_two_more(numbers[part + 1], numbers[part + 2], w, out, next)
        }
    }
}

// The number of a record's name among those that are spelled.
fn spelled_name(w: u64, f: Fields) -> usize
    requires { (fields_check f ≡ Ok tt) × (is_spelled w ≡ true) }
    ensures { result ≡ spelled_name f w }
{
    if is_weekday(w) {
        return (f.wday + 12) as usize;
    }
    (f.month - 1) as usize
}

// The name of a word, which is matched: an English month or weekday by its letters, any other by its list.
fn put_matched(book: &[u8], w: u64, f: Fields, out: &mut [u8], at: usize) -> usize
    requires f_value { fields_check f ≡ Ok tt }
    requires f_in_bounds { at + length (name_text (book_in book.now) (list_in (field.item w)) f) ≤ length out.old }
    ensures { Laid out.old out.new at result (name_text (book_in book.now) (list_in (field.item w)) f) }
{
    if book.len() != OPENED {
        if is_spelled(w) {
            return put_spelled(spelled_name(w, f), most_letters(w), out, at);
        }
    }
    put_name_of(book, list(w), f, out, at)
}

// A name that is matched, and the byte behind it: no rule is made of it.
fn put_name(book: &[u8], w: u64, f: Fields, out: &mut [u8], at: usize) -> usize
    requires f_value { fields_check f ≡ Ok tt }
    requires w_in_bounds { at + length (matched_text book.now f w) ≤ length out.old }
    ensures { Laid out.old out.new at result (matched_text book.now f w) }
{
    let next = put_matched(book, w, f, out, at);
    put_behind(w, out, next)
}

// What is rarest: an arm for each code, as the text of a word is defined.
fn put_other(tail: &[u64], w: u64, f: Fields, out: &mut [u8], at: usize) -> usize
    requires f_value { fields_check f ≡ Ok tt }
    requires w_in_bounds { at + length (other_text tail.now f w) ≤ length out.old }
    ensures { Laid out.old out.new at result (other_text tail.now f w) }
{
    match code(w) {
        9 => {
            let next = put_year(f, slot(w), out, at);
            put_behind(w, out, next)
        }
        15 => {
            let next = put_year(f, 4, out, at);
            put_two_more(f.month, f.day, w, out, next)
        }
        29 => put_year(f, count(w), out, at),
        30 => put_times(last_byte(w), count(w), out, at),
        31 => put_held(tail, from(w), held_length(tail, w), out, at),
        _ => at,
    }
}

// Any word that is not quick. The rarest are called at two places: so they stay a call, and nothing of them is worked out where it is not asked for.
// An arm for each code, as there.
fn put_slow(book: &[u8], tail: &[u64], w: u64, f: Fields, out: &mut [u8], at: usize) -> usize
    requires f_value { fields_check f ≡ Ok tt }
    requires w_value { is_quick (plain_year f) w ≡ false }
    requires w_in_bounds { at + length (word_text book.now tail.now f w) ≤ length out.old }
    ensures { Laid out.old out.new at result (word_text book.now tail.now f w) }
{
    match code(w) {
        22 => {
            if is_matched_name(w) {
                return put_name(book, w, f, out, at);
            }
            let next = format_rule(book, rule_in(w), f, out, at);
            put_behind(w, out, next)
        }
        31 => put_other(tail, w, f, out, at),
        _ => put_other(tail, w, f, out, at),
    }
}

fn numbers_of(f: Fields) -> [u32; 11]
    requires { fields_check f ≡ Ok tt }
    ensures { result ≡ numbers_of f }
{
    let y = f.year;
    let second = second_of_day(f.nanos);
    let year = if is_negative(y) { 10000 } else { size(y) };
    [
        f.month,
        f.day,
        second / SECS_PER_HOUR,
        second % SECS_PER_HOUR / SECS_PER_MINUTE,
        second % SECS_PER_MINUTE,
        f.day,
        f.day,
        f.day,
        f.month,
        f.day,
        year,
    ]
}

// The first so many words of a row, where there is room for their text.
fn put_words(book: &[u8], tail: &[u64], used: usize, f: Fields, out: &mut [u8]) -> usize
    requires f_value { fields_check f ≡ Ok tt }
    requires used_in_bounds { used ≤ length tail.now }
    requires tail_in_bounds { length (words_text book.now tail.now f (take used tail.now)) ≤ length out.old }
    ensures { Laid out.old out.new 0 result (words_text book.now tail.now f (take used tail.now)) }
{
    let numbers = numbers_of(f);
    let year = numbers[10];
    let mut at = 0;
    for &w in &tail[..used] {
        if is_quick(w, year) {
            at = put_quick(w, &numbers, out, at);
        } else {
            at = put_slow(book, tail, w, f, out, at);
        }
    }
    at
}

// Writes a record by words. A refused write alters no byte. The text is measured where the bytes that the words write at most do not fit.
pub fn write_words(
    book: &[u8],
    tail: &[u64],
    used: usize,
    f: Fields,
    out: &mut [u8],
) -> Result<usize, Refusal>
    requires used_in_bounds { used ≤ length tail.now }
    requires used_bound { used ≤ 256 }
    ensures { (result ≡ write_steps (Ok tt) (book_in book.now) (steps_of tail.now (take used tail.now)) f out.old) × (out.new ≡ output_steps (Ok tt) (book_in book.now) (steps_of tail.now (take used tail.now)) f out.old) }
{
    fields_check(f)?;
    if out.len() < most_of(&tail[..used]) {
        let n = words_length(book, tail, used, f);
        if out.len() < n {
            return Err(Refusal::NoRoom(n));
        }
    }
    Ok(put_words(book, tail, used, f, out))
}
