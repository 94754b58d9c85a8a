// The date symbols of "What each symbol does": from a byte and its count to the rule.
#![tactic(auto, unfolding(meaning::specs::Rules::rule_of, meaning::specs::Rules::pick, meaning::specs::Rules::otherwise_rule))]

ghost use Rattle.std.specs.Prelude.{◌≡◌};
ghost use Rattle.meaning.specs.Rules as table;

use crate::numbers::{number, one_or_two};
use meaning::{NameList, ParseUnit, Quantity, Role, Rule};

// A number that nothing is read from.
fn skipped(quantity: Quantity, least: u8, most: u8) -> Rule
    ensures { result ≡ Rule.SkippedNumber quantity least most }
{
    Rule::SkippedNumber {
        quantity,
        least,
        most,
    }
}

fn era(count: usize) -> Rule
    ensures { result ≡ table.rule_of table.era count }
{
    match count {
        0..=3 => Rule::SkippedName {
            names: NameList::EraAbbreviated,
            length: 2,
        },
        5 => Rule::SkippedName {
            names: NameList::EraNarrow,
            length: 1,
        },
        _ => Rule::MatchedName(NameList::EraWide),
    }
}

fn year(count: usize) -> Rule
    ensures { result ≡ table.rule_of table.year count }
{
    match count {
        2 => Rule::TwoDigitYear,
        1 | 3 | 4 => Rule::Years(count),
        _ => Rule::FixedYear(count),
    }
}

fn quarter(count: usize) -> Rule
    ensures { result ≡ table.rule_of table.quarter count }
{
    match count {
        2 => skipped(Quantity::Quarter, 2, 2),
        3 => Rule::LetterQuarter,
        4 => Rule::MatchedName(NameList::QuarterWide),
        _ => skipped(Quantity::Quarter, 1, 1),
    }
}

fn month(count: usize) -> Rule
    ensures { result ≡ table.rule_of table.month count }
{
    match count {
        1 => number(Quantity::Month, 1, 1, ParseUnit::Month),
        2 => number(Quantity::Month, 2, 2, ParseUnit::Month),
        3 => Rule::MatchedName(NameList::MonthAbbreviated),
        5 => Rule::SkippedName {
            names: NameList::MonthNarrow,
            length: 1,
        },
        _ => Rule::MatchedName(NameList::MonthWide),
    }
}

fn day_of_year(count: usize) -> Rule
    ensures { result ≡ table.rule_of table.day_of_year count }
{
    let least = match count {
        2 => 2,
        3 => 3,
        _ => 1,
    };
    number(Quantity::DayOfYear, least, 3, ParseUnit::DayOfYear)
}

fn weekday(count: usize) -> Rule
    ensures { result ≡ table.rule_of table.weekday count }
{
    match count {
        2 => skipped(Quantity::Weekday, 2, 2),
        3 => Rule::SkippedName {
            names: NameList::WdayAbbreviated,
            length: 3,
        },
        4 => Rule::MatchedName(NameList::WdayWide),
        5 => Rule::SkippedName {
            names: NameList::WdayNarrow,
            length: 1,
        },
        6 => Rule::SkippedName {
            names: NameList::WdayShort,
            length: 2,
        },
        7 => skipped(Quantity::WeekdayFromMonday, 1, 1),
        8 => skipped(Quantity::WeekdayFromMonday, 2, 2),
        _ => skipped(Quantity::Weekday, 1, 1),
    }
}

// The date symbols, as in the Rust's format_date_part and parse_date_part.
pub fn date_role(symbol: u8, count: usize) -> Role
    ensures { result ≡ table.date_role symbol count }
{
    let k = one_or_two(count);
    let rule = match symbol {
        b'G' => era(count),
        b'y' => year(count),
        b'q' => quarter(count),
        b'M' => month(count),
        b'w' => skipped(Quantity::Week, k, 2),
        b'd' => number(Quantity::Day, k, 2, ParseUnit::DayOfMonth),
        b'D' => day_of_year(count),
        b'e' => weekday(count),
        _ => return Role::Literal,
    };
    Role::Symbol(rule)
}
