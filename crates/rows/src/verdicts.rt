// The answers of the check as rows of numbers.
ghost use Rattle.std.specs.Prelude.{◌≤◌, length, Ok};
ghost use Rattle.meaning.specs.Answers.{verdict_answer};
ghost use Rattle.rows.specs.Fits.{NumberFits, VerdictFits};
ghost use Rattle.rows.specs.Rows.{in_row, Given};

use crate::answers::give_refusal;
use crate::entries::{entry, lay, lay_zeros};
use meaning::{Fields, Refusal, Verdict};

fn give_no(part: usize, f: Fields, row: &mut [i64]) -> u32
    requires { (10 ≤ length row.old) × NumberFits part × NumberFits f.nanos }
    ensures { Given (in_row 10 (verdict_answer (Ok (Verdict.No part f)))) row.old row.new result }
{
    let numbers = [
        0,
        entry(part as u64),
        i64::from(f.year),
        i64::from(f.month),
        i64::from(f.day),
        i64::from(f.doy),
        i64::from(f.week),
        i64::from(f.wday),
        entry(f.nanos),
        i64::from(f.offset),
    ];
    lay(&numbers, row, 0);
    0
}

fn give_yes(row: &mut [i64]) -> u32
    requires { 10 ≤ length row.old }
    ensures { Given (in_row 10 (verdict_answer (Ok Verdict.Yes))) row.old row.new result }
{
    lay(&[1], row, 0);
    lay_zeros(9, row, 1);
    0
}

pub fn give_verdict(verdict: Result<Verdict, Refusal>, row: &mut [i64]) -> u32
    requires { (10 ≤ length row.old) × VerdictFits verdict }
    ensures { Given (in_row 10 (verdict_answer verdict)) row.old row.new result }
{
    match verdict {
        Ok(Verdict::Yes) => give_yes(row),
        Ok(Verdict::No { part, record }) => give_no(part, record, row),
        Err(why) => give_refusal(why, 10, row),
    }
}
