// The months of a year, by arithmetic: if February had 30 days, so many months from January on would have (367 * months + 5) / 12.
ghost use Rattle.std.specs.Prelude.{◌≡◌, suc, ◌≤◌, ◌<◌};
ghost use Rattle.calendar.specs.Months.{lost, stretched_past};
ghost use Rattle.laws.specs.CalendarLine.{InMonth};
ghost use Rattle.meaning.specs.Calendar.{year_length, before_month, month_length};

// The days that February has less than 30.
fn lost_days(leap: bool) -> u32
    ensures { result ≡ lost leap }
{
    if leap { 1 } else { 2 }
}

// The days of so many months from January on.
#[tactic(auto, unfolding(meaning::specs::Calendar::before_month))]
pub fn days_of(leap: bool, months: u32) -> u32
    requires { months < 13 }
    ensures { result ≡ before_month leap (suc months) }
{
    let days = (367 * months + 5) / 12;
    if months < 2 {
        return days;
    }
    days - lost_days(leap)
}

#[tactic(auto, unfolding(meaning::specs::Calendar::month_length, meaning::specs::Calendar::before_month))]
pub fn length_of(leap: bool, month: u32) -> u32
    requires { (1 ≤ month) × (month ≤ 12) }
    ensures { result ≡ month_length leap month }
{
    days_of(leap, month) - days_of(leap, month - 1)
}

// So many days past, as if February had 30.
fn stretched(leap: bool, past: u32) -> u32
    requires { past < year_length leap }
    ensures { result ≡ stretched_past leap past }
{
    let lost = lost_days(leap);
    if past < 61 - lost {
        return past;
    }
    past + lost
}

#[derive(Clone, Copy)]
pub struct MonthDay {
    pub month: u32,
    pub day: u32,
}

// In steps of 67 to a day and 2048 to a month, so that both come from one product.
pub fn month_of(leap: bool, past: u32) -> MonthDay
    requires { past < year_length leap }
    ensures { InMonth leap past result.month result.day }
{
    let steps = 67 * stretched(leap, past) + 2078;
    MonthDay {
        month: steps / 2048,
        day: steps % 2048 / 67 + 1,
    }
}
