// Words that go the plain way are read at once: a byte, digits that stand where they are expected. Of any other the row stays as it was.
ghost use Rattle.std.specs.Prelude.{◌≡◌, ◌+◌, ◌-◌, ◌≤◌, ◌<◌, pos, length, drop, Some, None, IfSome};
ghost use Rattle.meaning.specs.Bytes.{when, is_digit};
ghost use Rattle.meaning.specs.Reading as reading;
ghost use Rattle.parse.specs.ShortReads.{short_digits};
ghost use Rattle.word_reader.specs.Quick as quick;
ghost use Rattle.words.specs.Fields as field;

use crate::keeping::{Moved, pass_behind, pass_byte};
use meaning::{Carried, Choices, ParseUnit};
use numerals::is_digit;
use parse::short::Digits;
use rules::numbers::most_read;
use rules::short::{short_most, short_quantity, short_unit};
use words::fields::{code, first_byte, last_byte, second_byte, slot};
use words::pieces::short_in;

// The number of a digit.
fn digit(b: u8) -> Option<u32>
    ensures { result ≡ when (is_digit b) (Some (b - 48)) None }
{
    if is_digit(b) {
        return Some((b - b'0') as u32);
    }
    None
}

// Two digits that stand there.
fn two_at(text: &[u8], at: usize) -> Option<u32>
    requires { at + 2 ≤ length text.now }
    ensures { IfSome result (quick.Two text.now at) }
{
    let tens = digit(text[at])?;
    let ones = digit(text[at + 1])?;
    Some(tens * 10 + ones)
}

// One digit, or two if so many may be read.
fn few_at(most: u8, text: &[u8], at: usize) -> Option<Digits>
    requires { at < length text.now }
    ensures { result ≡ short_digits 1 most (drop at text.now) }
{
    if !is_digit(text[at]) {
        return None;
    }
    let a = (text[at] - b'0') as u32;
    if most == 1 || text.len() <= at + 1 || !is_digit(text[at + 1]) {
        return Some(Digits { size: a, taken: 1 });
    }
    Some(Digits {
        size: a * 10 + (text[at + 1] - b'0') as u32,
        taken: 2,
    })
}

// A year of four digits behind which none stands.
fn year_at(text: &[u8], at: usize) -> Option<u32>
    requires { at + 4 ≤ length text.now }
    ensures { IfSome result (quick.FourDigits text.now at) }
{
    let century = two_at(text, at)?;
    let rest = two_at(text, at + 2)?;
    let end = at + 4;
    if end < text.len() && is_digit(text[end]) {
        return None;
    }
    Some(century * 100 + rest)
}

// A unit's value that counts up from zero.
fn of_count(unit: ParseUnit, n: u32) -> Carried
    ensures { result ≡ record { unit = unit; value = pos n } }
{
    Carried {
        unit,
        value: n as i64,
    }
}

// Two digits of a number, by its slot.
fn hot_two(choices: Choices, w: u64, text: &[u8], from: Moved, answer: &mut [i64]) -> Option<Moved>
    requires { (field.code w ≡ 3) × quick.Ready text.now from.next answer.old }
    ensures { quick.Hot choices w text.now from answer.old answer.new result }
{
    let end = from.next + 2;
    if text.len() < end {
        return None;
    }
    let n = two_at(text, from.next)?;
    let unit = short_unit(short_in(slot(w)));
    let next = pass_behind(choices, w, text, end)?;
    Some(from.keep(of_count(unit, n), end, next, answer))
}

// One digit or two of a number, by its slot.
fn hot_few(choices: Choices, w: u64, text: &[u8], from: Moved, answer: &mut [i64]) -> Option<Moved>
    requires { (field.code w ≡ 4) × quick.Ready text.now from.next answer.old }
    ensures { quick.Hot choices w text.now from answer.old answer.new result }
{
    let at = from.next;
    if text.len() <= at {
        return None;
    }
    let short = short_in(slot(w));
    let edition = choices.edition;
    let most = most_read(edition, short_quantity(short), short_most(short, 1));
    let read = few_at(most, text, at)?;
    let unit = short_unit(short);
    let end = at + read.taken;
    let next = pass_behind(choices, w, text, end)?;
    Some(from.keep(of_count(unit, read.size), end, next, answer))
}

// A year of four digits, where the word asks for no more.
fn hot_year(choices: Choices, w: u64, text: &[u8], from: Moved, answer: &mut [i64]) -> Option<Moved>
    requires { (field.code w ≡ 9) × quick.Ready text.now from.next answer.old }
    ensures { quick.Hot choices w text.now from answer.old answer.new result }
{
    let end = from.next + 4;
    if text.len() < end || 4 < slot(w) {
        return None;
    }
    let n = year_at(text, from.next)?;
    let next = pass_behind(choices, w, text, end)?;
    Some(from.keep(of_count(ParseUnit::Year, n), end, next, answer))
}

// The bytes between three numbers.
fn between(strict: bool, w: u64, text: &[u8], first: usize, second: usize) -> Option<()>
    ensures { IfSome result (λ _. quick.Between strict w text.now first second) }
{
    pass_byte(strict, first_byte(w), text, first)?;
    pass_byte(strict, second_byte(w), text, second)?;
    Some(())
}

// The units of three numbers.
#[derive(Clone, Copy)]
struct Units {
    first: ParseUnit,
    second: ParseUnit,
    third: ParseUnit,
}

const TIME: Units = Units {
    first: ParseUnit::Hour,
    second: ParseUnit::Minute,
    third: ParseUnit::Second,
};

const DATE: Units = Units {
    first: ParseUnit::Year,
    second: ParseUnit::Month,
    third: ParseUnit::DayOfMonth,
};

// The last two of three numbers, after a first of so many digits; all three are kept.
fn hot_rest<const WIDTH: usize>(
    choices: Choices,
    w: u64,
    units: Units,
    first: u32,
    text: &[u8],
    from: Moved,
    answer: &mut [i64],
) -> Option<Moved>
    requires { (48 ≤ length answer.old) × (length text.now ≤ 2048) × (from.next + WIDTH + 6 ≤ length text.now) }
    ensures { quick.Three choices w (reading.value units.first (pos first)) units.second units.third text.now from (from.next + WIDTH) answer.old answer.new result }
{
    let end = from.next + WIDTH;
    let second = two_at(text, end + 1)?;
    let third = two_at(text, end + 4)?;
    between(choices.strict, w, text, end, end + 3)?;
    let next = pass_behind(choices, w, text, end + 6)?;
    let one = from.keep(of_count(units.first, first), end, end + 1, answer);
    let two = one.keep(of_count(units.second, second), end + 3, end + 4, answer);
    Some(two.keep(of_count(units.third, third), end + 6, next, answer))
}

// Three numbers: the hour, the minute and the second.
fn hot_time(choices: Choices, w: u64, text: &[u8], from: Moved, answer: &mut [i64]) -> Option<Moved>
    requires { (field.code w ≡ 10) × quick.Ready text.now from.next answer.old }
    ensures { quick.Hot choices w text.now from answer.old answer.new result }
{
    if text.len() < from.next + 8 {
        return None;
    }
    let hour = two_at(text, from.next)?;
    hot_rest::<2>(choices, w, TIME, hour, text, from, answer)
}

// Three numbers: the year of four digits, the month and the day.
fn hot_date(choices: Choices, w: u64, text: &[u8], from: Moved, answer: &mut [i64]) -> Option<Moved>
    requires { (field.code w ≡ 15) × quick.Ready text.now from.next answer.old }
    ensures { quick.Hot choices w text.now from answer.old answer.new result }
{
    if text.len() < from.next + 10 {
        return None;
    }
    let year = year_at(text, from.next)?;
    hot_rest::<4>(choices, w, DATE, year, text, from, answer)
}

// A byte by itself.
fn hot_byte(choices: Choices, w: u64, text: &[u8], from: Moved) -> Option<Moved>
    requires { (field.code w ≡ 1) × (from.next ≤ length text.now) }
    ensures { (row : quick.Row) → quick.Hot choices w text.now from row row result }
{
    let next = pass_byte(choices.strict, last_byte(w), text, from.next)?;
    Some(Moved {
        next,
        mask: from.mask,
    })
}

// A word, if it goes the plain way.
// An arm for each code: the function that it calls asks for a word of this code.
pub fn hot_word(
    choices: Choices,
    w: u64,
    text: &[u8],
    from: Moved,
    answer: &mut [i64],
) -> Option<Moved>
    requires { quick.Ready text.now from.next answer.old }
    ensures { quick.Hot choices w text.now from answer.old answer.new result }
{
    match code(w) {
        1 => hot_byte(choices, w, text, from),
        3 => hot_two(choices, w, text, from, answer),
        4 => hot_few(choices, w, text, from, answer),
        9 => hot_year(choices, w, text, from, answer),
        10 => hot_time(choices, w, text, from, answer),
        15 => hot_date(choices, w, text, from, answer),
        _ => None,
    }
}
