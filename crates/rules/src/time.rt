// The time symbols of "What each symbol does": from a byte and its count to the rule.
#![tactic(auto, unfolding(meaning::specs::Rules::rule_of, meaning::specs::Rules::pick, meaning::specs::Rules::otherwise_rule))]

ghost use Rattle.std.specs.Prelude.{◌≡◌};
ghost use Rattle.meaning.specs.Rules as table;

use crate::numbers::{number, one_or_two};
use meaning::{Group, NameList, ParseUnit, Quantity, Role, Rule, Zone};

// So many digits of the second's fraction.
fn fraction(digits: u8, unit: ParseUnit) -> Rule
    ensures { result ≡ table.fraction digits unit }
{
    number(Quantity::Fraction(digits), digits, digits, unit)
}

fn period(count: usize) -> Rule
    ensures { result ≡ table.rule_of table.period count }
{
    let (names, length) = match count {
        0..=2 => (NameList::PeriodUpper, 2),
        4 => (NameList::PeriodDotted, 4),
        5 => (NameList::PeriodLetter, 1),
        _ => (NameList::PeriodLower, 2),
    };
    Rule::Letters { names, length }
}

fn noon(count: usize) -> Rule
    ensures { result ≡ table.rule_of table.noon count }
{
    Rule::MatchedName(match count {
        0..=2 => NameList::NoonUpper,
        4 => NameList::NoonDotted,
        5 => NameList::NoonLetter,
        _ => NameList::NoonLower,
    })
}

fn nanos(count: usize) -> Rule
    ensures { result ≡ table.rule_of table.nanos count }
{
    match count {
        1 => fraction(1, ParseUnit::Decis),
        2 => fraction(2, ParseUnit::Centis),
        4 => fraction(6, ParseUnit::Micros),
        5 => fraction(9, ParseUnit::Nanos),
        _ => fraction(3, ParseUnit::Millis),
    }
}

fn zone(utc: bool, count: usize) -> Rule
    ensures { result ≡ table.rule_of (table.zone 88 utc) count }
{
    let (colon, minutes, seconds) = match count {
        1 => (false, Group::NotZero, Group::Never),
        2 => (false, Group::Always, Group::Never),
        4 => (false, Group::Always, Group::NotZero),
        5 => (true, Group::Always, Group::NotZero),
        _ => (true, Group::Always, Group::Never),
    };
    Rule::Zone(Zone {
        utc,
        colon,
        minutes,
        seconds,
    })
}

// The time symbols, as in the Rust's format_time_part and parse_time_part.
pub fn time_role(symbol: u8, count: usize) -> Role
    ensures { result ≡ table.time_role symbol count }
{
    let k = one_or_two(count);
    let rule = match symbol {
        b'a' => period(count),
        b'b' => noon(count),
        b'h' => Rule::Number {
            quantity: Quantity::Hour1To12,
            least: k,
            most: 2,
            unit: ParseUnit::PeriodHour,
            zero: 12,
        },
        b'H' => number(Quantity::Hour0To23, k, 2, ParseUnit::Hour),
        b'K' => number(Quantity::Hour0To11, k, 2, ParseUnit::PeriodHour),
        b'k' => Rule::Number {
            quantity: Quantity::Hour1To24,
            least: k,
            most: 2,
            unit: ParseUnit::Hour,
            zero: 24,
        },
        b'm' => number(Quantity::Minute, k, 2, ParseUnit::Minute),
        b's' => number(Quantity::Second, k, 2, ParseUnit::Second),
        b'n' => nanos(count),
        b'X' => zone(true, count),
        b'x' => zone(false, count),
        _ => return Role::Literal,
    };
    Role::Symbol(rule)
}
