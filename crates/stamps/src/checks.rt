// What is asked of a stamp before it is written: the refusals 4, 28, 17, 29, in that order.
ghost use Rattle.std.specs.Prelude.{◌≡◌};
ghost use Rattle.meaning.specs.Stamps as stamps;

use calendar::numbers::day_check;
use fields::checks::fields_check;
use fields::signed::{is_negative, size};
use meaning::unit_sizes::SECS_PER_MINUTE;
use meaning::{Fields, Refusal, Stamp};

// With what is always in range for the fields that a stamp does not have.
fn fields_of(t: Stamp) -> Fields
    ensures { result ≡ stamps.stamp_fields t }
{
    Fields {
        year: t.year,
        month: t.month,
        day: t.day,
        doy: 1,
        week: 1,
        wday: 0,
        nanos: t.nanos,
        offset: t.offset,
    }
}

fn has_four_digits(year: i32) -> bool
    ensures { result ≡ stamps.four_digits year }
{
    !is_negative(year) && (1..=9999).contains(&size(year))
}

// 29
fn is_written(t: Stamp) -> bool
    ensures { result ≡ stamps.offset_written t }
{
    let n = size(t.offset);
    n % SECS_PER_MINUTE == 0 && (!t.unknown || n == 0)
}

// 4, 28, 17, 29
#[tactic(auto, unfolding(meaning::specs::Stamps::stamp_check))]
pub fn stamp_check(t: Stamp) -> Result<(), Refusal>
    ensures { result ≡ stamps.stamp_check t }
{
    fields_check(fields_of(t))?;
    if !has_four_digits(t.year) {
        return Err(Refusal::StampYear);
    }
    day_check(size(t.year), t.month, t.day)?;
    if !is_written(t) {
        return Err(Refusal::StampOffset);
    }
    Ok(())
}
