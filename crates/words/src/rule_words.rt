// The word of a rule: the numbers that `coding` takes apart again.
ghost use Rattle.std.specs.Prelude.{◌≡◌, ◌<◌};
ghost use Rattle.words.specs.Packing.{quantity_number, list_number, group_number, slot_number, slot_word, rule_word};

use meaning::{Group, NameList, ParseUnit, Quantity, Rule, Zone};

// By a match, since no cast gives this: a fraction has its digits in it.
fn quantity_number(quantity: Quantity) -> u64
    ensures { (result ≡ quantity_number quantity) × (result < 14) }
{
    match quantity {
        Quantity::Month => 0,
        Quantity::Quarter => 1,
        Quantity::Week => 2,
        Quantity::Day => 3,
        Quantity::DayOfYear => 4,
        Quantity::Weekday => 5,
        Quantity::WeekdayFromMonday => 6,
        Quantity::Hour1To12 => 7,
        Quantity::Hour0To11 => 8,
        Quantity::Hour0To23 => 9,
        Quantity::Hour1To24 => 10,
        Quantity::Minute => 11,
        Quantity::Second => 12,
        Quantity::Fraction(_) => 13,
    }
}

fn list_number(names: NameList) -> u64
    ensures { (result ≡ list_number names) × (result < 19) }
{
    names as u64
}

fn group_number(group: Group) -> u64
    ensures { (result ≡ group_number group) × (result < 3) }
{
    group as u64
}

// The slot of a number that patterns have most; 5 for any other.
fn slot_number(quantity: Quantity) -> u64
    ensures { (result ≡ slot_number quantity) × (result < 6) }
{
    match quantity {
        Quantity::Month => 0,
        Quantity::Day => 1,
        Quantity::Hour0To23 => 2,
        Quantity::Minute => 3,
        Quantity::Second => 4,
        _ => 5,
    }
}

// One of these by itself: two digits, or one or two.
fn slot_word(slot: u64, least: u8) -> u64
    requires { slot < 5 }
    ensures { result ≡ slot_word slot least }
{
    if least == 2 {
        3 + 32 * slot
    } else {
        4 + 32 * slot
    }
}

fn number_word(quantity: Quantity, least: u8, most: u8, unit: ParseUnit, zero: u32) -> u64
    ensures { result ≡ rule_word (Rule.Number quantity least most unit zero) }
{
    let slot = slot_number(quantity);
    if slot < 5 {
        return slot_word(slot, least);
    }
    22 + 512 * quantity_number(quantity)
        + 16384 * least as u64
        + 262144 * most as u64
        + 4194304 * unit as u64
        + 67108864 * zero as u64
}

fn zone_word(zone: Zone) -> u64
    ensures { result ≡ rule_word (Rule.Zone zone) }
{
    246 + 17179869184 * u64::from(zone.utc)
        + 34359738368 * u64::from(zone.colon)
        + 68719476736 * group_number(zone.minutes)
        + 274877906944 * group_number(zone.seconds)
}

// The word of a rule, where no byte is behind it.
// A formula for each rule, as the definition has them: other numbers go to other places of the word.
pub fn rule_word(rule: Rule) -> u64
    requires { rule_word rule < 72057594037927936 }
    ensures { result ≡ rule_word rule }
{
    match rule {
        Rule::Number {
            quantity,
            least,
            most,
            unit,
            zero,
        } => number_word(quantity, least, most, unit, zero),
        Rule::SkippedNumber {
            quantity,
            least,
            most,
        } => 54 + 512 * quantity_number(quantity) + 16384 * least as u64 + 262144 * most as u64,
        Rule::LetterQuarter => 86,
        Rule::SkippedName { names, length } => 118
            + 512 * list_number(names)
            + 2147483648 * length as u64,
        Rule::MatchedName(names) => 150 + 512 * list_number(names),
        Rule::Letters { names, length } => 182
            + 512 * list_number(names)
            + 2147483648 * length as u64,
        Rule::Years(k) => 9 + 32 * k as u64,
        Rule::FixedYear(k) => 29 + 32 * k as u64,
        Rule::TwoDigitYear => 214,
        Rule::Zone(zone) => zone_word(zone),
    }
}
