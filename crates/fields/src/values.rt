// What a record gives to write: the numbers, and the places of the names in their lists.
ghost use Rattle.std.specs.Prelude.{◌≡◌, ◌+◌, ◌-◌, ◌/◌, ◌%◌, ◌^◌, ◌≤◌, ◌<◌, eqb, ltb, Ok};
ghost use Rattle.meaning.specs.Answers.{fields_check};
ghost use Rattle.meaning.specs.Bytes.{when};
ghost use Rattle.meaning.specs.UnitSizes.{nanos_per_second};
ghost use Rattle.meaning.specs.Writing as written;

use crate::signed::is_negative;
use meaning::unit_sizes::{NANOS_PER_SEC, SECS_PER_HOUR, SECS_PER_MINUTE};
use meaning::{Fields, NameList, Quantity};

pub fn second_of_day(nanos: u64) -> u32
    requires { nanos ≤ 86399999999999 }
    ensures { result ≡ nanos / nanos_per_second }
{
    (nanos / NANOS_PER_SEC) as u32
}

// The powers of ten that cut a second's fraction.
const TENS: [u32; 10] = [
    1, 10, 100, 1000, 10000, 100000, 1000000, 10000000, 100000000, 1000000000,
];

fn ten_to(n: u8) -> u32
    requires { n < 10 }
    ensures { result ≡ 10 ^ n }
{
    TENS[n as usize]
}

// So many digits of the second's fraction; nine where more are asked for.
fn fraction(nanos: u64, digits: u8) -> u32
    ensures { result ≡ nanos % nanos_per_second / 10 ^ (9 - digits) }
{
    let whole = (nanos % NANOS_PER_SEC) as u32;
    if 9 <= digits {
        return whole;
    }
    whole / ten_to(9 - digits)
}

fn in_place_of_zero(k: u32, n: u32) -> u32
    ensures { result ≡ written.in_place_of_zero k n }
{
    if n == 0 { k } else { n }
}

#[tactic(auto, unfolding(meaning::specs::Writing::quantity_of))]
pub fn quantity_of(quantity: Quantity, f: Fields) -> u32
    requires { fields_check f ≡ Ok tt }
    ensures { result ≡ written.quantity_of quantity f }
{
    match quantity {
        Quantity::Month => f.month,
        Quantity::Quarter => (f.month - 1) / 3 + 1,
        Quantity::Week => f.week,
        Quantity::Day => f.day,
        Quantity::DayOfYear => f.doy,
        Quantity::Weekday => f.wday + 1,
        Quantity::WeekdayFromMonday => (f.wday + 6) % 7 + 1,
        Quantity::Hour1To12 => in_place_of_zero(12, second_of_day(f.nanos) / SECS_PER_HOUR % 12),
        Quantity::Hour0To11 => second_of_day(f.nanos) / SECS_PER_HOUR % 12,
        Quantity::Hour0To23 => second_of_day(f.nanos) / SECS_PER_HOUR,
        Quantity::Hour1To24 => in_place_of_zero(24, second_of_day(f.nanos) / SECS_PER_HOUR),
        Quantity::Minute => second_of_day(f.nanos) % SECS_PER_HOUR / SECS_PER_MINUTE,
        Quantity::Second => second_of_day(f.nanos) % SECS_PER_MINUTE,
        Quantity::Fraction(digits) => fraction(f.nanos, digits),
    }
}

fn era_place(year: i32) -> usize
    ensures { result ≡ when (written.is_negative year) 0 1 }
{
    if is_negative(year) { 0 } else { 1 }
}

fn period_place(am: usize, pm: usize, second: u32) -> usize
    ensures { result ≡ when (ltb second 43200) am pm }
{
    if second < 43200 { am } else { pm }
}

fn noon_place(am: usize, midnight: usize, pm: usize, noon: usize, second: u32) -> usize
    ensures { result ≡ when (eqb second 0) midnight (when (eqb second 43200) noon (when (ltb second 43200) am pm)) }
{
    if second == 0 {
        return midnight;
    }
    if second == 43200 {
        return noon;
    }
    period_place(am, pm, second)
}

// The place, in its list, of the name that is written.
#[tactic(auto, unfolding(meaning::specs::Writing::place_of))]
pub fn place_of(names: NameList, f: Fields) -> usize
    requires { fields_check f ≡ Ok tt }
    ensures { result ≡ written.place_of names f }
{
    let year = f.year;
    let month = (f.month - 1) as usize;
    let wday = f.wday as usize;
    let second = second_of_day(f.nanos);
    match names {
        NameList::EraAbbreviated => era_place(year),
        NameList::EraNarrow => era_place(year),
        NameList::EraWide => era_place(year),
        NameList::QuarterWide => month / 3,
        NameList::MonthAbbreviated => month,
        NameList::MonthWide => month,
        NameList::MonthNarrow => month,
        NameList::WdayAbbreviated => wday,
        NameList::WdayWide => wday,
        NameList::WdayNarrow => wday,
        NameList::WdayShort => wday,
        NameList::PeriodUpper => period_place(1, 3, second),
        NameList::PeriodLower => period_place(0, 2, second),
        NameList::PeriodDotted => period_place(0, 1, second),
        NameList::PeriodLetter => period_place(0, 1, second),
        NameList::NoonUpper => noon_place(1, 2, 4, 5, second),
        NameList::NoonLower => noon_place(0, 2, 3, 5, second),
        NameList::NoonDotted => noon_place(0, 1, 2, 3, second),
        NameList::NoonLetter => noon_place(0, 1, 2, 3, second),
    }
}
