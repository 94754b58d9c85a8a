// What the parts behind a part can give: a digit as the first byte, or as the second.
ghost use Rattle.std.specs.Prelude.{◌≡◌, drop, replicate};
ghost use Rattle.meaning.specs.Bytes.{digit_at};
ghost use Rattle.meaning.specs.Writing.{steps};
ghost use Rattle.pattern.specs.First.{unescaped};
ghost use Rattle.rules.specs.Steps.{means, Held};
ghost use Rattle.trust.specs.Ahead as ahead;
ghost use Rattle.verdict.specs.Insides.{inside_second};

use crate::needs::most_digits;
use meaning::{NameList, Pair, Quantity, Role, Rule};
use numerals::is_digit;
use pattern::parts::next_part;
use pattern::quoted::bytes_of;
use rules::step::{Step, step_of};
use trust::Opening;

// How the names of a list begin: only the quarters' with a digit; some are one byte.
#[tactic(auto, unfolding(trust::specs::Ahead::opening))]
fn opening_of(list: NameList) -> Opening
    ensures { result ≡ ahead.opening list }
{
    match list {
        NameList::QuarterWide => Opening::Digit,
        NameList::EraNarrow
        | NameList::MonthNarrow
        | NameList::WdayNarrow
        | NameList::PeriodLetter
        | NameList::NoonLetter => Opening::OneLetter,
        NameList::EraAbbreviated
        | NameList::EraWide
        | NameList::MonthAbbreviated
        | NameList::MonthWide
        | NameList::WdayAbbreviated
        | NameList::WdayWide
        | NameList::WdayShort
        | NameList::PeriodUpper
        | NameList::PeriodLower
        | NameList::PeriodDotted
        | NameList::NoonUpper
        | NameList::NoonLower
        | NameList::NoonDotted => Opening::Word,
    }
}

#[tactic(auto, unfolding(trust::specs::Ahead::name_first))]
fn name_first(list: NameList) -> bool
    ensures { result ≡ ahead.name_first list }
{
    matches!(opening_of(list), Opening::Digit)
}

// An arm for each row of the definition; a symbol added to the table has to be given one here.
#[tactic(auto, unfolding(trust::specs::Ahead::rule_first))]
fn rule_first(rule: Rule) -> bool
    ensures { result ≡ ahead.rule_first rule }
{
    match rule {
        Rule::Number { .. }
        | Rule::SkippedNumber { .. }
        | Rule::Years(_)
        | Rule::FixedYear(_)
        | Rule::TwoDigitYear => true,
        Rule::LetterQuarter | Rule::Zone { .. } => false,
        Rule::SkippedName { names, .. } | Rule::MatchedName(names) | Rule::Letters { names, .. } =>
            name_first(names),
    }
}

#[tactic(auto, unfolding(trust::specs::Ahead::has_letters))]
fn name_second(list: NameList, behind: bool) -> bool
    ensures { result ≡ ahead.name_second list behind }
{
    matches!(opening_of(list), Opening::OneLetter) && behind
}

fn number_second(quantity: Quantity, least: u8, behind: bool) -> bool
    ensures { result ≡ ahead.number_second quantity least behind }
{
    2 <= least || 2 <= most_digits(quantity) || behind
}

// The same table for the second byte: which arm asks about the parts behind differs.
#[tactic(auto, unfolding(trust::specs::Ahead::rule_second))]
fn rule_second(rule: Rule, behind: bool) -> bool
    ensures { result ≡ ahead.rule_second rule behind }
{
    match rule {
        Rule::Number {
            quantity,
            least,
            ..
        }
        | Rule::SkippedNumber {
            quantity,
            least,
            ..
        } => number_second(quantity, least, behind),
        Rule::SkippedName { names, .. } | Rule::MatchedName(names) | Rule::Letters { names, .. } =>
            name_second(names, behind),
        Rule::LetterQuarter
        | Rule::Years(_)
        | Rule::FixedYear(_)
        | Rule::TwoDigitYear
        | Rule::Zone { .. } => true,
    }
}

// The first byte of an inside stands for itself, and the second element begins one or two bytes behind it.
#[tactic(auto, using(crate::proofs::lookahead::Literals::inside_none, crate::proofs::lookahead::Literals::inside_first), unfolding(meaning::specs::Bytes::digit_at))]
fn inside_first(src: &[u8]) -> bool
    ensures { result ≡ digit_at 0 (unescaped src.now) }
{
    !src.is_empty() && is_digit(src[0])
}

#[tactic(auto, using(crate::proofs::lookahead::Literals::second_none, crate::proofs::lookahead::Literals::second_behind, crate::proofs::lookahead::Literals::second_byte))]
fn inside_second(src: &[u8], behind: bool) -> bool
    ensures { result ≡ inside_second (unescaped src.now) behind }
{
    let Some(&first) = src.first() else {
        return behind
    };
    let Some(&second) = src.get(bytes_of(first)) else {
        return behind
    };
    is_digit(second)
}

#[tactic(auto, using(crate::proofs::lookahead::Literals::run_second), unfolding(crate::specs::Insides::inside_second))]
fn times_second(b: u8, count: usize, behind: bool) -> bool
    ensures { result ≡ inside_second (replicate count b) behind }
{
    if count < 2 {
        return behind;
    }
    is_digit(b)
}

// Short numbers and years begin with two digits, for some record at least; names with two letters.
// An arm for each step, as the bytes that it can write are told by its kind alone.
#[tactic(auto, using(crate::proofs::lookahead::Literals::run_first, crate::proofs::lookahead::Quick::year_first, pattern::proofs::parts::Walks::rest_all), unfolding(trust::specs::Ahead::step_first, trust::specs::Ahead::rule_first, trust::specs::Ahead::name_first, trust::specs::Ahead::opening))]
fn step_first(step: Step, pattern: &[u8]) -> bool
    requires { Held pattern.now step }
    ensures { result ≡ ahead.step_first (means pattern.now step) }
{
    match step {
        Step::Times { byte, .. } => is_digit(byte),
        Step::Quoted { from, to } => inside_first(&pattern[from..to]),
        Step::Open { from } => inside_first(&pattern[from..]),
        Step::Short { .. } | Step::Year(_) => true,
        Step::MonthAbbreviated | Step::MonthWide | Step::WdayWide => false,
        Step::Run { role, byte, .. } => match role {
            Role::Literal => is_digit(byte),
            Role::Symbol(rule) => rule_first(rule),
        },
    }
}

// An arm for each step, as for the first byte.
#[tactic(auto, using(crate::proofs::lookahead::Quick::short_second, crate::proofs::lookahead::Quick::year_second, pattern::proofs::parts::Walks::rest_all), unfolding(crate::specs::Insides::inside_second, trust::specs::Ahead::step_second, trust::specs::Ahead::has_letters, trust::specs::Ahead::opening))]
fn step_second(step: Step, pattern: &[u8], behind: bool) -> bool
    requires { Held pattern.now step }
    ensures { result ≡ ahead.step_second (means pattern.now step) behind }
{
    match step {
        Step::Times { byte, count } => times_second(byte, count, behind),
        Step::Quoted { from, to } => inside_second(&pattern[from..to], behind),
        Step::Open { from } => inside_second(&pattern[from..], behind),
        Step::Short { .. } | Step::Year(_) => true,
        Step::MonthAbbreviated | Step::MonthWide | Step::WdayWide => false,
        Step::Run { role, byte, count } => match role {
            Role::Literal => times_second(byte, count, behind),
            Role::Symbol(rule) => rule_second(rule, behind),
        },
    }
}

// Whether the first byte of what the parts from a place on write can be a digit.
pub fn digit_first(pattern: &[u8], place: usize) -> bool
    ensures { result ≡ ahead.digit_first (steps Pair.Full (drop place pattern.now)) }
{
    if pattern.len() <= place {
        return false;
    }
    let part = next_part(pattern, place);
    step_first(step_of(Pair::Full, pattern, part), pattern)
}

// The same of the second byte.
pub fn digit_second(pattern: &[u8], place: usize) -> bool
    ensures { result ≡ ahead.digit_second (steps Pair.Full (drop place pattern.now)) }
{
    if pattern.len() <= place {
        return false;
    }
    let part = next_part(pattern, place);
    let behind = digit_first(pattern, place + part.length);
    step_second(step_of(Pair::Full, pattern, part), pattern, behind)
}
