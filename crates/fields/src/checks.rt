// Refusals 4 and 14, and the checks that end with 14.
ghost use Rattle.std.specs.Prelude.{◌≡◌};
ghost use Rattle.meaning.specs.Answers.{refuse_unless, within, fields_check, first_current_year, current_year_check};
ghost use Rattle.meaning.specs.Trust.{trust_check};
ghost use Rattle.meaning.specs.declared.Refusal.TheVariants.{FieldRange};

use crate::signed::{is_negative, size};
use meaning::unit_sizes::{NANOS_PER_DAY, SECS_PER_DAY_U64};
use meaning::{Edition, Fields, Refusal};
use pattern::checks::pattern_check;

// Both stay within a day.
const MOST_NANOS: u64 = NANOS_PER_DAY - 1;

const MOST_OFFSET: u64 = SECS_PER_DAY_U64 - 1;

// 4 of a field, by its number, whose value is not within its range.
fn field_check(field: u32, low: u64, high: u64, n: u64) -> Result<(), Refusal>
    ensures { result ≡ refuse_unless (within low high n) (FieldRange field) }
{
    if low <= n && n <= high {
        return Ok(());
    }
    Err(Refusal::FieldRange(field))
}

// 4: the first field that is out of its range.
#[tactic(auto, unfolding(meaning::specs::Answers::fields_check))]
pub fn fields_check(f: Fields) -> Result<(), Refusal>
    ensures { result ≡ fields_check f }
{
    field_check(1, 1, 5879611, size(f.year) as u64)?;
    field_check(2, 1, 12, f.month as u64)?;
    field_check(3, 1, 31, f.day as u64)?;
    field_check(4, 1, 366, f.doy as u64)?;
    field_check(5, 1, 53, f.week as u64)?;
    field_check(6, 0, 6, f.wday as u64)?;
    field_check(7, 0, MOST_NANOS, f.nanos)?;
    field_check(8, 0, MOST_OFFSET, size(f.offset) as u64)
}

fn first_current_year(edition: Edition) -> u32
    ensures { result ≡ first_current_year edition }
{
    match edition {
        Edition::First => 1,
        Edition::Second => 81,
    }
}

// 14: the current year is 1 to 9999, in the second edition 81 to 9999.
#[tactic(auto, unfolding(meaning::specs::Answers::current_year_check))]
pub fn current_year_check(edition: Edition, year: i32) -> Result<(), Refusal>
    ensures { result ≡ current_year_check edition year }
{
    if !is_negative(year) && first_current_year(edition) <= size(year) && size(year) <= 9999 {
        return Ok(());
    }
    Err(Refusal::CurrentYear(year))
}

// 1, 2, 3 and 14: what is asked once of a pattern and a year, whatever is read by them.
#[tactic(auto, unfolding(meaning::specs::Trust::trust_check))]
pub fn trust_check(edition: Edition, pattern: &[u8], year: i32) -> Result<(), Refusal>
    ensures { result ≡ trust_check edition pattern.now year }
{
    let of_year = current_year_check(edition, year);
    pattern_check(pattern)?;
    of_year
}
