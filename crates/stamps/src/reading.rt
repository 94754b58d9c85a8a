// A date-time that was read: the refusals 26, 27, 28 and 17, in that order, and the stamp that it stands for.
ghost use Rattle.std.specs.Prelude.{true, ◌≡◌, ◌≤◌, ◌<◌, eqb, Ok};
ghost use Rattle.meaning.specs.Bytes.{both};
ghost use Rattle.meaning.specs.Numerals.{integer};
ghost use Rattle.meaning.specs.Stamps as stamps;
ghost use Rattle.stamps.specs.Found.{date_time_of};

use crate::grammar::Parts;
use calendar::numbers::day_check;
use meaning::unit_sizes::{NANOS_PER_SEC, SECS_PER_HOUR, SECS_PER_MINUTE};
use meaning::{Refusal, Stamp};

// "hour to 23, minute to 59", of the time and of the offset.
fn is_clock(hour: u32, minute: u32) -> bool
    ensures { result ≡ stamps.is_clock hour minute }
{
    hour <= 23 && minute <= 59
}

// 26
#[tactic(auto, unfolding(meaning::specs::Stamps::in_range))]
fn in_range(t: Parts) -> bool
    ensures { result ≡ stamps.in_range (date_time_of t) }
{
    (1..=12).contains(&t.month)
        && (1..=31).contains(&t.day)
        && is_clock(t.hour, t.minute)
        && t.second <= 60
        && is_clock(t.shift.hour, t.shift.minute)
}

// 26, 27, 28, 17
#[tactic(auto, unfolding(meaning::specs::Stamps::date_time_check))]
fn check(t: Parts) -> Result<(), Refusal>
    requires { t.year < 10000 }
    ensures { result ≡ stamps.date_time_check (date_time_of t) }
{
    if !in_range(t) {
        return Err(Refusal::StampRange);
    }
    if t.second == 60 {
        return Err(Refusal::LeapSecond);
    }
    if t.year == 0 {
        return Err(Refusal::StampYear);
    }
    day_check(t.year, t.month, t.day)
}

fn seconds_of(hour: u32, minute: u32) -> u32
    requires { (hour ≤ 23) × (minute ≤ 59) }
    ensures { (result ≡ stamps.seconds_of hour minute) × (result < 86400) }
{
    hour * SECS_PER_HOUR + minute * SECS_PER_MINUTE
}

fn signed(negative: bool, n: u32) -> i32
    requires { n < 86400 }
    ensures { result ≡ integer (record { negative = negative; size = n }) }
{
    let z = n as i32;
    if negative { 0 - z } else { z }
}

// "-00:00 reads as offset 0 with a mark".
fn is_unknown(negative: bool, n: u32) -> bool
    ensures { result ≡ both negative (eqb n 0) }
{
    negative && n == 0
}

fn stamp_of(t: Parts) -> Stamp
    requires { (t.year < 10000) × (stamps.in_range (date_time_of t) ≡ true) × (t.nanos < 1000000000) }
    ensures { result ≡ stamps.stamp_of (date_time_of t) }
{
    let shift = t.shift;
    let second = seconds_of(t.hour, t.minute) + t.second;
    let n = seconds_of(shift.hour, shift.minute);
    Stamp {
        year: t.year as i32,
        month: t.month,
        day: t.day,
        nanos: second as u64 * NANOS_PER_SEC + t.nanos as u64,
        offset: signed(shift.negative, n),
        unknown: is_unknown(shift.negative, n),
    }
}

pub fn accept(t: Parts) -> Result<Stamp, Refusal>
    requires { (t.year < 10000) × (t.nanos < 1000000000) }
    ensures { result ≡ stamps.stamped_by (stamps.date_time_check (date_time_of t)) (Ok (stamps.stamp_of (date_time_of t))) }
{
    check(t)?;
    Ok(stamp_of(t))
}
