// Days and years on the line, on which nothing is negative: 14,700 cycles are added.
ghost use Rattle.std.specs.Prelude.{◌≡◌, suc, ◌%◌, ◌<◌};
ghost use Rattle.laws.specs.CalendarLine.{line, year_at, InYear};
ghost use Rattle.meaning.specs.Calendar.{leap, days_on};

use crate::cycle::{YearDay, year_of};

// Any number as a day of the line.
pub fn on_line(z: i32) -> u64
    ensures { result ≡ line z }
{
    (z as i64 + 2147625900) as u64
}

pub fn year_on_line(n: u64) -> YearDay
    requires { n < 4295251800 }
    ensures { InYear 11760000 n result.place result.past × (result.leap ≡ leap (suc result.place)) }
{
    let found = year_of((n % 146097) as u32);
    let cycles = (n / 146097) as u32;
    YearDay {
        place: 400 * cycles + found.place,
        leap: found.leap,
        past: found.past,
    }
}

// A cycle has whole weeks.
pub fn since_monday(n: u64) -> u32
    ensures { result ≡ n % 7 }
{
    (n % 146097) as u32 % 7
}

pub fn year_at(place: u32) -> i32
    requires { place < 11760000 }
    ensures { result ≡ year_at place }
{
    if 5880000 <= place {
        return (place - 5879999) as i32;
    }
    place as i32 - 5880000
}

// By the leap years among them, which takes less time than a look at the table.
pub fn before_year(place: u32) -> u64
    requires { place < 11760000 }
    ensures { result ≡ days_on place }
{
    let n = place as u64;
    365 * n + n / 4 + n / 400 - n / 100
}
