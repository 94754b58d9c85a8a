// The unit of a number; `unit as usize` is the number of a unit.
ghost use Rattle.std.specs.Prelude.{◌≡◌, ◌<◌, MatchResult};
ghost use Rattle.meaning.specs.Whole.{unit_number};

use crate::ParseUnit;

// There are fifteen units, so that no larger number has one.
#[derive(Clone, Copy)]
pub struct NoUnit;

impl TryFrom<u64> for ParseUnit {
    type Error = NoUnit;

    ghost try_from_gives = { λ number r. MatchResult r (λ unit. unit_number unit ≡ number) (λ none. 14 < number) };

    fn try_from(number: u64) -> Result<Self, NoUnit> {
        match number {
            0 => Ok(ParseUnit::Year),
            1 => Ok(ParseUnit::Month),
            2 => Ok(ParseUnit::DayOfMonth),
            3 => Ok(ParseUnit::DayOfYear),
            4 => Ok(ParseUnit::Hour),
            5 => Ok(ParseUnit::Period),
            6 => Ok(ParseUnit::PeriodHour),
            7 => Ok(ParseUnit::Minute),
            8 => Ok(ParseUnit::Second),
            9 => Ok(ParseUnit::Decis),
            10 => Ok(ParseUnit::Centis),
            11 => Ok(ParseUnit::Millis),
            12 => Ok(ParseUnit::Micros),
            13 => Ok(ParseUnit::Nanos),
            14 => Ok(ParseUnit::Offset),
            _ => Err(NoUnit),
        }
    }
}
