// How many bytes a step writes, with no byte written. A text of at most 2,048 bytes is asked for, so that no sum overflows.
ghost use Rattle.std.specs.Prelude.{◌≡◌, ◌<◌, ◌≤◌, nat_abs, length, Ok};
ghost use Rattle.format.specs.Literals.{open_text};
ghost use Rattle.meaning.specs.Answers.{fields_check};
ghost use Rattle.meaning.specs.OpenedBooks.{book_in};
ghost use Rattle.meaning.specs.Writing.{signed_text, two_digit_text, group_text, zone_text, name_text, rule_text, step_text};
ghost use Rattle.pattern.specs.Next.{Lost};
ghost use Rattle.rules.specs.Steps.{means, Held};

use crate::step::short_number;
use crate::zones::{is_there, is_z};
use digits::padded::padded_length;
use fields::signed::{is_negative, size};
use fields::values::{place_of, quantity_of};
use meaning::unit_sizes::{SECS_PER_HOUR, SECS_PER_MINUTE};
use meaning::{Fields, Group, NameList, Role, Rule, Zone};
use names::lengths::name_length;
use pattern::quoted::{ends_in_quote, unescaped_length};
use rules::step::Step;

// An unclosed part loses an escaped quote at its end.
fn open_length(src: &[u8]) -> usize
    requires { Lost src.now }
    ensures { result ≡ length (open_text src.now) }
{
    let n = unescaped_length(src);
    if ends_in_quote(src) { n - 1 } else { n }
}

// The digits, and a minus where the year is negative.
pub fn year_length(z: i32, k: usize) -> usize
    requires { length (signed_text k z) ≤ 2048 }
    ensures { result ≡ length (signed_text k z) }
{
    let n = padded_length(size(z), k);
    if is_negative(z) { n + 1 } else { n }
}

// yy: two digits, behind a minus from -9 to -1.
fn two_digit_length(z: i32) -> usize
    ensures { result ≡ length (two_digit_text z) }
{
    if is_negative(z) && size(z) < 10 { 3 } else { 2 }
}

// Two digits of a zone, behind a colon or not, where the group is there.
fn group_length(colon: bool, group: Group, n: u32) -> usize
    requires { n < 100 }
    ensures { result ≡ length (group_text colon group n) }
{
    if is_there(group, n) {
        return if colon { 3 } else { 2 };
    }
    0
}

// A Z, or the sign, two digits of hours, and the groups.
fn zone_length(zone: Zone, z: i32) -> usize
    requires { nat_abs z ≤ 86399 }
    ensures { result ≡ length (zone_text zone.utc zone.colon zone.minutes zone.seconds z) }
{
    let n = size(z);
    if is_z(zone.utc, n) {
        return 1;
    }
    let m = group_length(
        zone.colon,
        zone.minutes,
        n % SECS_PER_HOUR / SECS_PER_MINUTE,
    );
    3 + m + group_length(zone.colon, zone.seconds, n % SECS_PER_MINUTE)
}

// The name that a record gives.
fn length_of_name(book: &[u8], names: NameList, f: Fields) -> usize
    requires { fields_check f ≡ Ok tt }
    ensures { result ≡ length (name_text (book_in book.now) names f) }
{
    name_length(book, names, place_of(names, f))
}

// An arm for each rule, as its text is defined: what is asked of the record is asked of that text.
pub fn rule_length(book: &[u8], rule: Rule, f: Fields) -> usize
    requires f_value { fields_check f ≡ Ok tt }
    requires f_len_bound { length (rule_text (book_in book.now) rule f) ≤ 2048 }
    ensures { result ≡ length (rule_text (book_in book.now) rule f) }
{
    match rule {
        Rule::Number {
            quantity,
            least,
            ..
        } => padded_length(quantity_of(quantity, f), least as usize),
        Rule::SkippedNumber {
            quantity,
            least,
            ..
        } => padded_length(quantity_of(quantity, f), least as usize),
        Rule::LetterQuarter => 2,
        Rule::SkippedName { names, .. } => length_of_name(book, names, f),
        Rule::MatchedName(names) => length_of_name(book, names, f),
        Rule::Letters { names, .. } => length_of_name(book, names, f),
        Rule::Years(k) => year_length(f.year, k),
        Rule::FixedYear(k) => year_length(f.year, k),
        Rule::TwoDigitYear => two_digit_length(f.year),
        Rule::Zone(zone) => zone_length(zone, f.offset),
    }
}

// What has a rule is measured by it. Called at five places, rule_length stays a call of its own, so that writing takes none of its
// stack.
// An arm for each step, as for a rule.
pub fn step_length(book: &[u8], step: Step, pattern: &[u8], f: Fields) -> usize
    requires f_value { fields_check f ≡ Ok tt }
    requires held { Held pattern.now step }
    requires step_len_bound { length (step_text (book_in book.now) f (means pattern.now step)) ≤ 2048 }
    ensures { result ≡ length (step_text (book_in book.now) f (means pattern.now step)) }
{
    match step {
        Step::Times { count, .. } => count,
        Step::Quoted { from, to } => unescaped_length(&pattern[from..to]),
        Step::Open { from } => open_length(&pattern[from..]),
        Step::Short { number, count } => padded_length(short_number(number, f), count as usize),
        Step::Year(k) => rule_length(book, Rule::Years(k), f),
        Step::MonthAbbreviated => rule_length(
            book,
            Rule::MatchedName(NameList::MonthAbbreviated),
            f,
        ),
        Step::MonthWide => rule_length(book, Rule::MatchedName(NameList::MonthWide), f),
        Step::WdayWide => rule_length(book, Rule::MatchedName(NameList::WdayWide), f),
        Step::Run { role, count, .. } => match role {
            Role::Literal => count,
            Role::Symbol(rule) => rule_length(book, rule, f),
        },
    }
}
