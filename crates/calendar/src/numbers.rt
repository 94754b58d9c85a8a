// The number of a date, with its checks 17 and 18; and 17 alone, of a date whose year has four digits.
ghost use Rattle.std.specs.Prelude.{◌≡◌, ◌≤◌, ◌<◌, ltb, pos};
ghost use Rattle.calendar.specs.Places.{place_of, number_at, short_at};
ghost use Rattle.meaning.specs.Calendar.{month_length};
ghost use Rattle.meaning.specs.Days.{day_check};

use crate::cycle::is_leap;
use crate::line::{before_year, on_line};
use crate::months::{days_of, length_of};
use meaning::Refusal;

// Where a year is on the line, if there is such a year: by its number as if it were a day's, which is 2147625900 for year 0.
pub fn place_of(year: i32) -> Option<u32>
    ensures { result ≡ place_of year }
{
    let n = on_line(year);
    match n {
        2141746289..2147625900 => Some((n - 2141745900) as u32),
        2147625901..=2153505511 => Some((n - 2141745901) as u32),
        _ => None,
    }
}

// 18: on the line the numbers of 32 signed bits are 142252 to 4295109547.
fn short(n: u64) -> Result<i32, Refusal>
    ensures { result ≡ short_at n }
{
    if n < 142252 || 4295109547 < n {
        return Err(Refusal::NoDayNumber);
    }
    Ok((n as i64 - 2147625900) as i32)
}

// Whether a month has not so many days. Every month has 28.
fn is_past(leap: bool, month: u32, day: u32) -> bool
    requires { (1 ≤ month) × (month ≤ 12) }
    ensures { result ≡ ltb (month_length leap month) day }
{
    28 < day && length_of(leap, month) < day
}

// 17 of the month and the day, then 18.
#[tactic(auto, using(crate::proofs::numbers::Checks::few_days, crate::proofs::numbers::Checks::days_room), unfolding(crate::specs::Places::number_at))]
pub fn number_at(place: u32, month: u32, day: u32) -> Result<i32, Refusal>
    requires { place < 11760000 }
    ensures { result ≡ number_at place month day }
{
    let leap = is_leap(place + 1);
    if month < 1 || 12 < month || day < 1 || is_past(leap, month, day) {
        return Err(Refusal::NoSuchDay);
    }
    let past = days_of(leap, month - 1) + day - 1;
    short(before_year(place) + past as u64)
}

// 17 of a date of the years 1 to 9999, each of which has a number.
pub fn day_check(year: u32, month: u32, day: u32) -> Result<(), Refusal>
    requires { (1 ≤ year) × (year ≤ 9999) × (1 ≤ month) × (month ≤ 12) × (1 ≤ day) }
    ensures { result ≡ day_check (pos year) month day }
{
    if is_past(is_leap(year), month, day) {
        return Err(Refusal::NoSuchDay);
    }
    Ok(())
}
