// Request [2], the calendar: the day of a number, and the number of a day. Proleptic Gregorian; 0 is 1 January of year 1.
#![tactic(auto)]

ghost use Rattle.meaning.specs.Days.{DayOf};
ghost use Rattle.meaning.specs.Promises.{NumbersDay};

pub mod cycle;
pub mod line;
pub mod months;
pub mod numbers;
pub mod table;
pub mod weeks;

use crate::line::{on_line, since_monday, year_at, year_on_line};
use crate::months::month_of;
use crate::numbers::{number_at, place_of};
use crate::weeks::week_of;
use meaning::{Day, Refusal};

pub fn day_of(number: i32) -> Day
    ensures { DayOf number result }
{
    let n = on_line(number);
    let found = year_on_line(n);
    let in_month = month_of(found.leap, found.past);
    let since = since_monday(n);
    Day {
        year: year_at(found.place),
        month: in_month.month,
        day: in_month.day,
        doy: found.past + 1,
        week: week_of(found.place, found.leap, found.past, since),
        wday: (since + 1) % 7,
    }
}

pub fn day_number(year: i32, month: u32, day: u32) -> Result<i32, Refusal>
    ensures { NumbersDay year month day result }
{
    match place_of(year) {
        None => Err(Refusal::NoSuchDay),
        Some(place) => number_at(place, month, day),
    }
}
