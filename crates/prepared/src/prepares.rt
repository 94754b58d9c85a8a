// A pattern prepared, with the answer in a row of its own.
ghost use Rattle.std.specs.Prelude.{◌≡◌, ◌≤◌, length};
ghost use Rattle.prepared.specs.PreparedRows.{prepared_row};
ghost use Rattle.prepared.specs.Uses.{prepared_answer};
ghost use Rattle.rows.specs.Rows.{in_row, Given};

use crate::opening::TAG;
use crate::preparing::prepare;
use meaning::Pair;
use rows::answers::{give_count, give_refusal};

// The answer: how many words its steps have and 0, or the refusal's details; the row is prepared in either case.
pub fn prepare_row(pair: Pair, pattern: &[u8], row: &mut [u64], answer: &mut [i64]) -> u32
    requires { (259 ≤ length row.old) × (2 ≤ length answer.old) }
    ensures { Given (in_row 2 (prepared_answer pair pattern.now)) answer.old answer.new result × (row.new ≡ prepared_row pair pattern.now row.old) }
{
    match prepare(pair, pattern, row) {
        Ok(()) => give_count(row[0] - TAG, answer),
        Err(why) => give_refusal(why, 2, answer),
    }
}
