// Days and their numbers as rows of numbers.
ghost use Rattle.std.specs.Prelude.{◌≤◌, length};
ghost use Rattle.meaning.specs.Answers.{day_answer};
ghost use Rattle.rows.specs.Rows.{in_row, Given};

use crate::entries::lay;
use meaning::Day;

pub fn give_day(day: Day, row: &mut [i64]) -> u32
    requires { 6 ≤ length row.old }
    ensures { Given (in_row 6 (day_answer day)) row.old row.new result }
{
    let numbers = [
        i64::from(day.year),
        i64::from(day.month),
        i64::from(day.day),
        i64::from(day.doy),
        i64::from(day.week),
        i64::from(day.wday),
    ];
    lay(&numbers, row, 0);
    0
}
