// The numbers that patterns have most, which at a count of one or two need no rule looked up.
ghost use Rattle.std.specs.Prelude.{◌≡◌};
ghost use Rattle.rules.specs.ShortRules.{short_time, short_of_pair, short_of, short_quantity, short_unit, short_most, short_rule};

use crate::numbers::number;
use meaning::{Pair, ParseUnit, Quantity, Rule};

// M, d, H, m and s.
#[derive(Clone, Copy)]
pub enum Short {
    Month,
    Day,
    Hour,
    Minute,
    Second,
}

fn short_time(symbol: u8) -> Option<Short>
    ensures { result ≡ short_time symbol }
{
    match symbol {
        b'H' => Some(Short::Hour),
        b'm' => Some(Short::Minute),
        b's' => Some(Short::Second),
        _ => None,
    }
}

fn short_of_pair(pair: Pair, symbol: u8) -> Option<Short>
    ensures { result ≡ short_of_pair pair symbol }
{
    match pair {
        Pair::Full => short_time(symbol),
        Pair::Date => None,
    }
}

// Which of them a symbol is, if it is one.
#[tactic(auto, unfolding(crate::specs::ShortRules::short_of))]
pub fn short_of(pair: Pair, symbol: u8) -> Option<Short>
    ensures { result ≡ short_of pair symbol }
{
    match symbol {
        b'M' => Some(Short::Month),
        b'd' => Some(Short::Day),
        _ => short_of_pair(pair, symbol),
    }
}

// What it is of.
pub fn short_quantity(short: Short) -> Quantity
    ensures { result ≡ short_quantity short }
{
    match short {
        Short::Month => Quantity::Month,
        Short::Day => Quantity::Day,
        Short::Hour => Quantity::Hour0To23,
        Short::Minute => Quantity::Minute,
        Short::Second => Quantity::Second,
    }
}

// The unit that it carries.
pub fn short_unit(short: Short) -> ParseUnit
    ensures { result ≡ short_unit short }
{
    match short {
        Short::Month => ParseUnit::Month,
        Short::Day => ParseUnit::DayOfMonth,
        Short::Hour => ParseUnit::Hour,
        Short::Minute => ParseUnit::Minute,
        Short::Second => ParseUnit::Second,
    }
}

// The most digits that it is read from.
pub fn short_most(short: Short, count: u8) -> u8
    ensures { result ≡ short_most short count }
{
    match short {
        Short::Month => count,
        Short::Day | Short::Hour | Short::Minute | Short::Second => 2,
    }
}

pub fn short_rule(short: Short, count: u8) -> Rule
    ensures { result ≡ short_rule short count }
{
    number(
        short_quantity(short),
        count,
        short_most(short, count),
        short_unit(short),
    )
}
