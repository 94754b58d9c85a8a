// The rule that a word holds.
ghost use Rattle.std.specs.Prelude.{◌≡◌, eqb};
ghost use Rattle.words.specs.Coding as coding;
ghost use Rattle.words.specs.Fields as field;

use meaning::{Group, NameList, ParseUnit, Quantity, Rule, Zone};

// By matches, since there is no cast from a number: the one table of each numbering of `rule_words`.
fn quantity_in(n: u64, digits: u8) -> Quantity
    ensures { result ≡ coding.quantity_in n digits }
{
    match n {
        0 => Quantity::Month,
        1 => Quantity::Quarter,
        2 => Quantity::Week,
        3 => Quantity::Day,
        4 => Quantity::DayOfYear,
        5 => Quantity::Weekday,
        6 => Quantity::WeekdayFromMonday,
        7 => Quantity::Hour1To12,
        8 => Quantity::Hour0To11,
        9 => Quantity::Hour0To23,
        10 => Quantity::Hour1To24,
        11 => Quantity::Minute,
        12 => Quantity::Second,
        _ => Quantity::Fraction(digits),
    }
}

fn list_in(n: u64) -> NameList
    ensures { result ≡ coding.list_in n }
{
    match n {
        0 => NameList::EraAbbreviated,
        1 => NameList::EraNarrow,
        2 => NameList::EraWide,
        3 => NameList::QuarterWide,
        4 => NameList::MonthAbbreviated,
        5 => NameList::MonthWide,
        6 => NameList::MonthNarrow,
        7 => NameList::WdayAbbreviated,
        8 => NameList::WdayWide,
        9 => NameList::WdayNarrow,
        10 => NameList::WdayShort,
        11 => NameList::PeriodUpper,
        12 => NameList::PeriodLower,
        13 => NameList::PeriodDotted,
        14 => NameList::PeriodLetter,
        15 => NameList::NoonUpper,
        16 => NameList::NoonLower,
        17 => NameList::NoonDotted,
        _ => NameList::NoonLetter,
    }
}

fn group_in(n: u64) -> Group
    ensures { result ≡ coding.group_in n }
{
    match n {
        0 => Group::Never,
        1 => Group::NotZero,
        _ => Group::Always,
    }
}

fn least(w: u64) -> u8
    ensures { result ≡ field.least w }
{
    (w / 16384 % 16) as u8
}

fn most(w: u64) -> u8
    ensures { result ≡ field.most w }
{
    (w / 262144 % 16) as u8
}

fn size(w: u64) -> usize
    ensures { result ≡ field.size w }
{
    (w / 2147483648 % 8) as usize
}

fn quantity(w: u64) -> Quantity
    ensures { result ≡ coding.quantity_in (field.item w) (field.least w) }
{
    quantity_in(w / 512 % 32, least(w))
}

pub fn list(w: u64) -> NameList
    ensures { result ≡ coding.list_in (field.item w) }
{
    list_in(w / 512 % 32)
}

// A number that no unit has stands for the last of them.
fn unit(w: u64) -> ParseUnit
    ensures { result ≡ coding.unit_in (field.unit w) }
{
    ParseUnit::try_from(w / 4194304 % 16).unwrap_or(ParseUnit::Offset)
}

fn zone_in(w: u64) -> Zone
    ensures { result ≡ coding.zone_in w }
{
    Zone {
        utc: w / 17179869184 % 2 == 1,
        colon: w / 34359738368 % 2 == 1,
        minutes: group_in(w / 68719476736 % 4),
        seconds: group_in(w / 274877906944 % 4),
    }
}

// Whether the rule is that of a name that is matched.
pub fn is_matched_name(w: u64) -> bool
    ensures { result ≡ eqb (field.kind w) 4 }
{
    w / 32 % 16 == 4
}

fn is_spelled_list(n: u64) -> bool
    ensures { result ≡ coding.is_spelled_list n }
{
    matches!(n, 4 | 5 | 8)
}

// Whether the name is matched by its letters, whether it is one of a weekday, and how many letters it has at most.
pub fn is_spelled(w: u64) -> bool
    ensures { result ≡ coding.is_spelled w }
{
    is_matched_name(w) && is_spelled_list(w / 512 % 32)
}

pub fn is_weekday(w: u64) -> bool
    ensures { result ≡ coding.is_weekday w }
{
    w / 512 % 32 == 8
}

pub fn most_letters(w: u64) -> usize
    ensures { result ≡ coding.most_letters w }
{
    if w / 512 % 32 == 4 { 3 } else { 9 }
}

pub fn rule_in(w: u64) -> Rule
    ensures { result ≡ coding.rule_in w }
{
    match w / 32 % 16 {
        0 => Rule::Number {
            quantity: quantity(w),
            least: least(w),
            most: most(w),
            unit: unit(w),
            zero: (w / 67108864 % 32) as u32,
        },
        1 => Rule::SkippedNumber {
            quantity: quantity(w),
            least: least(w),
            most: most(w),
        },
        2 => Rule::LetterQuarter,
        3 => Rule::SkippedName {
            names: list(w),
            length: size(w),
        },
        4 => Rule::MatchedName(list(w)),
        5 => Rule::Letters {
            names: list(w),
            length: size(w),
        },
        6 => Rule::TwoDigitYear,
        _ => Rule::Zone(zone_in(w)),
    }
}
