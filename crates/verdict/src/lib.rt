// Demand 3, the pattern check: whether every part comes back for every record of a real day, or the first that does not, with
// such a record that shows it.
#![tactic(auto)]

pub mod lookahead;
pub mod needs;

ghost use Rattle.std.specs.Prelude.{◌≡◌, ◌-◌, ◌≤◌, length, drop};
ghost use Rattle.meaning.specs.Splitting.{contents};
ghost use Rattle.meaning.specs.Trust.{Says};
ghost use Rattle.meaning.specs.Writing.{steps};
ghost use Rattle.trust.specs.Check as trust;

use crate::lookahead::{digit_first, digit_second};
use crate::needs::step_need;
use fields::checks::trust_check;
use meaning::{Edition, Fields, Pair, Refusal, Verdict};
use pattern::parts::next_part;
use rules::step::step_of;
use trust::{Need, Unmet};

// Whether what the parts from a place on can write meets a need: each arm is a row of the definition's table.
#[tactic(auto, unfolding(trust::specs::Check::meets))]
fn meets(need: Need, pattern: &[u8], place: usize) -> bool
    ensures { result ≡ trust.meets need (steps Pair.Full (drop place pattern.now)) }
{
    match need {
        Need::Nothing => true,
        Need::NoDigit => !digit_first(pattern, place),
        Need::NoSecondDigit => !digit_second(pattern, place),
        Need::Broken | Need::LosesYear => false,
    }
}

// Three real days: Monday, 5 February 2024, at 3:04:07; Saturday, 23 November 2024, at 22:38:59; and Friday, 23 November of the
// year 1,000,001, at the same time. The numbers of each differ, so that none can stand in the place of another.
fn short_numbers() -> Fields
    ensures { result ≡ trust.short_numbers }
{
    Fields {
        year: 2024,
        month: 2,
        day: 5,
        doy: 36,
        week: 6,
        wday: 1,
        nanos: 11047000000000,
        offset: 28800,
    }
}

fn long_numbers() -> Fields
    ensures { result ≡ trust.long_numbers }
{
    Fields {
        year: 2024,
        month: 11,
        day: 23,
        doy: 328,
        week: 47,
        wday: 6,
        nanos: 81539000000000,
        offset: -32400,
    }
}

fn long_year() -> Fields
    ensures { result ≡ trust.long_year }
{
    Fields {
        year: 1000001,
        month: 11,
        day: 23,
        doy: 327,
        week: 47,
        wday: 5,
        nanos: 81539000000000,
        offset: -32400,
    }
}

// A record for which a part with this need fails.
fn witness(need: Need) -> Fields
    ensures { result ≡ trust.witness need }
{
    match need {
        Need::NoDigit => short_numbers(),
        Need::Nothing | Need::NoSecondDigit | Need::Broken => long_numbers(),
        Need::LosesYear => long_year(),
    }
}

// What the check answers, by the first part whose need is not met.
pub fn shown(unmet: Option<Unmet>) -> Verdict
    ensures { result ≡ trust.shown unmet }
{
    match unmet {
        None => Verdict::Yes,
        Some(Unmet { part, need }) => Verdict::No {
            part,
            record: witness(need),
        },
    }
}

// The first of the parts that start from a place on and before another whose need those behind it do not meet.
pub fn first_unmet(edition: Edition, pattern: &[u8], from: usize, to: usize) -> Option<Unmet>
    requires { to ≤ length pattern.now }
    ensures { result ≡ trust.first_unmet edition (to - from) 0 (contents (drop from pattern.now)) }
{
    // Not by `parts_of`: the walk is between two places, and asks for the place behind each part.
    let mut place = from;
    let mut i = 0;
    while place < to {
        let part = next_part(pattern, place);
        let need = step_need(edition, step_of(Pair::Full, pattern, part), pattern);
        place += part.length;
        if !meets(need, pattern, place) {
            return Some(Unmet { part: i, need });
        }
        i += 1;
    }
    None
}

// Whether a pattern can be trusted to read back what it wrote, in an edition and a current year: the refusals 1, 2, 3, 14; yes exactly when
// every part comes back for every record of a real day; else the first part that fails for some such record, with one.
pub fn verdict_on(edition: Edition, pattern: &[u8], year: i32) -> Result<Verdict, Refusal>
    ensures { Says edition pattern.now year result }
{
    trust_check(edition, pattern, year)?;
    Ok(shown(first_unmet(edition, pattern, 0, pattern.len())))
}
