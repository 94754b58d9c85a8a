// The cycle of 400 years: the year of a day in it, by the table, and its leap years.
ghost use Rattle.std.specs.Prelude.{◌≡◌, suc, ◌+◌, ◌*◌, ◌/◌, ◌<◌};
ghost use Rattle.laws.specs.CalendarLine.{InYear};
ghost use Rattle.meaning.specs.Calendar as calendar;

use crate::table::days_before;

// Nearly all years go the same way through the first test.
#[tactic(auto, unfolding(meaning::specs::Calendar::leap))]
pub fn is_leap(n: u32) -> bool
    ensures { result ≡ calendar.leap n }
{
    if n % 100 == 0 {
        return n % 400 == 0;
    }
    n % 4 == 0
}

pub fn year_length(leap: bool) -> u32
    ensures { result ≡ calendar.year_length leap }
{
    if leap { 366 } else { 365 }
}

// A year, by how many stand before it, whether it is leap, and how many days of it are past.
#[derive(Clone, Copy)]
pub struct YearDay {
    pub place: u32,
    pub leap: bool,
    pub past: u32,
}

// The table is asked only where a guess is at its year's end.
fn year_by_table(day: u32, place: u32, leap: bool) -> YearDay
    requires { (day < 146097) × (place ≡ (4 * day + 3) / 1461) × (leap ≡ calendar.leap (suc place)) }
    ensures { InYear 400 day result.place result.past × (result.leap ≡ calendar.leap (suc result.place)) }
{
    let length = year_length(leap);
    let past = day - days_before(place);
    if past < length {
        return YearDay { place, leap, past };
    }
    YearDay {
        place: place + 1,
        leap: is_leap(place + 2),
        past: past - length,
    }
}

// With 1461 days to four years the year found is the right one or, for the first days of a later century's years, the one before.
pub fn year_of(day: u32) -> YearDay
    requires { day < 146097 }
    ensures { InYear 400 day result.place result.past × (result.leap ≡ calendar.leap (suc result.place)) }
{
    let quarters = 4 * day + 3;
    let place = quarters / 1461;
    let leap = is_leap(place + 1);
    let past = quarters % 1461 / 4 + place / 100;
    if past < 365 {
        return YearDay { place, leap, past };
    }
    year_by_table(day, place, leap)
}
