// The answers, each laid over the start of a lent row with the number that is returned.
ghost use Rattle.std.specs.Prelude.{◌∷◌, [], ◌≡◌, ◌≤◌, pos, nat_abs, length};
ghost use Rattle.refusals.specs.Told.{detail_of};
ghost use Rattle.rows.specs.Fits.{NumberFits, WhyFits, CountFits, IntegerFits};
ghost use Rattle.meaning.specs.Answers.{accepted, refused, count_answer, integer_answer};
ghost use Rattle.rows.specs.Rows.{in_row, Given};

use crate::entries::{entry, lay, lay_zeros};
use meaning::Refusal;
use refusals::{Detail, tell};

fn detail_entry(d: Detail) -> i64
    requires { NumberFits (nat_abs (detail_of d)) }
    ensures { result ≡ detail_of d }
{
    if d.negative {
        -entry(d.size)
    } else {
        entry(d.size)
    }
}

// The details, then zeros. A call of its own, as put_part of mending: in place, both would make mending take more of the stack than
// SHEET_MEND_STACK.
#[inline(never)]
pub fn give_refusal(why: Refusal, entries: usize, row: &mut [i64]) -> u32
    requires { (2 ≤ entries) × (entries ≤ length row.old) × WhyFits why }
    ensures { Given (in_row entries (refused why)) row.old row.new result }
{
    let told = tell(why);
    let first = detail_entry(told.first);
    match told.second {
        Some(second) => {
            lay(&[first, detail_entry(second)], row, 0);
            lay_zeros(entries - 2, row, 2);
        }
        None => {
            lay(&[first], row, 0);
            lay_zeros(entries - 1, row, 1);
        }
    }
    told.number
}

// A count, then 0.
pub fn give_count(n: u64, row: &mut [i64]) -> u32
    requires { (2 ≤ length row.old) × NumberFits n }
    ensures { Given (in_row 2 (accepted (pos n ∷ []))) row.old row.new result }
{
    lay(&[entry(n), 0], row, 0);
    0
}

// A length or a count, or the refusal's details.
pub fn give_counted(counted: Result<usize, Refusal>, row: &mut [i64]) -> u32
    requires { (2 ≤ length row.old) × CountFits counted }
    ensures { Given (in_row 2 (count_answer counted)) row.old row.new result }
{
    match counted {
        Ok(n) => give_count(n as u64, row),
        Err(why) => give_refusal(why, 2, row),
    }
}

// A number with a sign, then 0.
fn give_signed(n: i32, row: &mut [i64]) -> u32
    requires { 2 ≤ length row.old }
    ensures { Given (in_row 2 (accepted (n ∷ []))) row.old row.new result }
{
    lay(&[i64::from(n), 0], row, 0);
    0
}

// A number with a sign, or the refusal's details.
pub fn give_integer(number: Result<i32, Refusal>, row: &mut [i64]) -> u32
    requires { (2 ≤ length row.old) × IntegerFits number }
    ensures { Given (in_row 2 (integer_answer number)) row.old row.new result }
{
    match number {
        Ok(n) => give_signed(n, row),
        Err(why) => give_refusal(why, 2, row),
    }
}
