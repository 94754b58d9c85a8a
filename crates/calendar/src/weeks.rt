// The weeks of ISO 8601.
ghost use Rattle.std.specs.Prelude.{◌≡◌, suc, ◌+◌, ◌-◌, ◌≤◌, ◌<◌};
ghost use Rattle.laws.specs.CalendarLine.{WeekOn};
ghost use Rattle.meaning.specs.Calendar as calendar;

use crate::cycle::{is_leap, year_length};

// The week of a day, by its year's place, the days of the year past, and the days since Monday: that of the Thursday, which is in
// the same year, or in the one before, or within the first days of the next.
pub fn week_of(place: u32, leap: bool, past: u32, since: u32) -> u32
    requires { (1 ≤ place) × (place < 11759999) × (leap ≡ calendar.leap (suc place)) × (past < calendar.year_length leap) × (since < 7) }
    ensures { WeekOn (calendar.days_on place + (past + 3) - since) result }
{
    let ahead = past + 3;
    if ahead < since {
        return (ahead + year_length(is_leap(place)) - since) / 7 + 1;
    }
    let thursday = ahead - since;
    if thursday < year_length(leap) {
        // Sevenths of a small number, by one product.
        return thursday * 9363 / 65536 + 1;
    }
    1
}
