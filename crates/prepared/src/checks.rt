// A pattern checked by its row, which has held the verdicts since it was prepared.
ghost use Rattle.std.specs.Prelude.{◌≤◌, length};
ghost use Rattle.meaning.specs.Answers.{current_year_check, verdict_answer};
ghost use Rattle.prepared.specs.Uses.{prepared_verdict};
ghost use Rattle.prepared.specs.Verdicts.{unmet_held};
ghost use Rattle.rows.specs.Rows.{in_row, Given};
ghost use Rattle.trust.specs.Check as trust;

use crate::opening::open;
use crate::verdicts::verdict_in;
use fields::checks::current_year_check;
use meaning::Edition;
use rows::answers::give_refusal;
use rows::verdicts::give_verdict;
use verdict::shown;

// Of an accepted pattern, 14 first.
fn check_in_year(edition: Edition, row: &[u64], year: i32, answer: &mut [i64]) -> u32
    requires { (259 ≤ length row.now) × (10 ≤ length answer.old) }
    ensures { Given (in_row 10 (verdict_answer (trust.verdict_by (current_year_check edition year) (trust.shown (unmet_held edition row.now))))) answer.old answer.new result }
{
    match current_year_check(edition, year) {
        Ok(()) => give_verdict(Ok(shown(verdict_in(edition, row))), answer),
        Err(why) => give_refusal(why, 10, answer),
    }
}

// The answer as of any check. Where the row is not that of a prepared pattern: 105, and nothing is altered.
pub fn check(edition: Edition, row: &[u64], year: i32, answer: &mut [i64]) -> u32
    requires { 10 ≤ length answer.old }
    ensures { Given (prepared_verdict edition row.now year) answer.old answer.new result }
{
    let Some(opened) = open(row) else {
        return 105;
    };
    match opened {
        Err(why) => give_refusal(why, 10, answer),
        Ok(_) => check_in_year(edition, row, year, answer),
    }
}
