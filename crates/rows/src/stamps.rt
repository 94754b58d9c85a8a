// Stamps of RFC 3339 as rows of numbers.
ghost use Rattle.std.specs.Prelude.{◌≤◌, length};
ghost use Rattle.meaning.specs.Answers.{accepted, stamp_numbers, stamp_answer};
ghost use Rattle.rows.specs.Fits.{NumberFits, StampedFits};
ghost use Rattle.rows.specs.Rows.{in_row, Given};

use crate::answers::give_refusal;
use crate::entries::{entry, lay};
use meaning::{Refusal, Stamp};

fn give_stamp(stamp: Stamp, row: &mut [i64]) -> u32
    requires { (6 ≤ length row.old) × NumberFits stamp.nanos }
    ensures { Given (in_row 6 (accepted (stamp_numbers stamp))) row.old row.new result }
{
    let numbers = [
        i64::from(stamp.year),
        i64::from(stamp.month),
        i64::from(stamp.day),
        entry(stamp.nanos),
        i64::from(stamp.offset),
        i64::from(stamp.unknown),
    ];
    lay(&numbers, row, 0);
    0
}

pub fn give_stamped(stamped: Result<Stamp, Refusal>, row: &mut [i64]) -> u32
    requires { (6 ≤ length row.old) × StampedFits stamped }
    ensures { Given (in_row 6 (stamp_answer stamped)) row.old row.new result }
{
    match stamped {
        Ok(stamp) => give_stamp(stamp, row),
        Err(why) => give_refusal(why, 6, row),
    }
}
