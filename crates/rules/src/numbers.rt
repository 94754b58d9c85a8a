// What the rules of date and time symbols share: the rule of a number, how many digits it has, and from how many it is read.
ghost use Rattle.std.specs.Prelude.{◌≡◌, eqb};
ghost use Rattle.meaning.specs.Bytes.{when};
ghost use Rattle.meaning.specs.Reading.{most_read};
ghost use Rattle.meaning.specs.Rules as table;

use meaning::{Edition, ParseUnit, Quantity, Rule};

// A number of which no other value reads as 0.
pub fn number(quantity: Quantity, least: u8, most: u8, unit: ParseUnit) -> Rule
    ensures { result ≡ table.number quantity least most unit }
{
    Rule::Number {
        quantity,
        least,
        most,
        unit,
        zero: 0,
    }
}

// One digit for a count of 1, else two.
pub fn one_or_two(count: usize) -> u8
    ensures { result ≡ when (eqb count 1) 1 2 }
{
    if count == 1 { 1 } else { 2 }
}

// How many bytes a number is read from at most: by its rule, but a month in the second edition from two.
pub fn most_read(edition: Edition, quantity: Quantity, most: u8) -> u8
    ensures { result ≡ most_read edition quantity most }
{
    match edition {
        Edition::First => most,
        Edition::Second => match quantity {
            Quantity::Month => 2,
            _ => most,
        },
    }
}
