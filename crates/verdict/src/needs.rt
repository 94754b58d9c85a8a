// What a part needs of the text behind it.
ghost use Rattle.std.specs.Prelude.{◌≡◌, leb};
ghost use Rattle.laws.specs.Widths.{most_digits};
ghost use Rattle.meaning.specs.Bytes.{when};
ghost use Rattle.meaning.specs.Reading.{most_read};
ghost use Rattle.rules.specs.Steps.{long_year, means, Held};
ghost use Rattle.trust.specs.Needs as needs;

use meaning::{Edition, Group, Quantity, Role, Rule};
use pattern::quoted::ends_in_quote;
use rules::numbers::most_read;
use rules::short::{short_most, short_quantity};
use rules::step::Step;
use trust::Need;

// The most digits that a quantity has.
#[tactic(auto, unfolding(laws::specs::Widths::most_digits))]
pub fn most_digits(quantity: Quantity) -> u8
    ensures { result ≡ most_digits quantity }
{
    match quantity {
        Quantity::Quarter | Quantity::Weekday | Quantity::WeekdayFromMonday => 1,
        Quantity::Month
        | Quantity::Week
        | Quantity::Day
        | Quantity::Hour1To12
        | Quantity::Hour0To11
        | Quantity::Hour0To23
        | Quantity::Hour1To24
        | Quantity::Minute
        | Quantity::Second => 2,
        Quantity::DayOfYear => 3,
        Quantity::Fraction(digits) => digits,
    }
}

fn number_need(quantity: Quantity, least: u8, most: u8) -> Need
    ensures { result ≡ needs.number_need quantity least most }
{
    if most < most_digits(quantity) {
        Need::Broken
    } else if least < most {
        Need::NoDigit
    } else {
        Need::Nothing
    }
}

// The same of a number that is read in an edition.
fn read_need(edition: Edition, quantity: Quantity, least: u8, most: u8) -> Need
    ensures { result ≡ needs.number_need quantity least (most_read edition quantity most) }
{
    number_need(quantity, least, most_read(edition, quantity, most))
}

fn group_need(colon: bool, group: Group) -> Need
    ensures { result ≡ needs.group_need colon group }
{
    match group {
        Group::NotZero if colon => Need::NoSecondDigit,
        Group::NotZero => Need::NoDigit,
        Group::Never | Group::Always => Need::Nothing,
    }
}

fn last_group(minutes: Group, seconds: Group) -> Group
    ensures { result ≡ needs.last_group minutes seconds }
{
    match seconds {
        Group::Never => minutes,
        Group::NotZero | Group::Always => seconds,
    }
}

// "7 is the first count from 5 up that always does."
fn fixed_year_need(count: usize) -> Need
    ensures { result ≡ when (leb 7 count) Need.Nothing Need.LosesYear }
{
    if 7 <= count {
        Need::Nothing
    } else {
        Need::LosesYear
    }
}

// An arm for each rule, as the table of needs has a row.
#[tactic(auto, unfolding(trust::specs::Needs::rule_need))]
fn rule_need(edition: Edition, rule: Rule) -> Need
    ensures { result ≡ needs.rule_need edition rule }
{
    match rule {
        Rule::Number {
            quantity,
            least,
            most,
            ..
        } => read_need(edition, quantity, least, most),
        Rule::SkippedNumber {
            quantity,
            least,
            most,
        } => number_need(quantity, least, most),
        Rule::LetterQuarter
        | Rule::SkippedName { .. }
        | Rule::MatchedName(_)
        | Rule::Letters { .. } => Need::Nothing,
        Rule::Years(_) => Need::NoDigit,
        Rule::FixedYear(count) => fixed_year_need(count),
        Rule::TwoDigitYear => Need::LosesYear,
        Rule::Zone(zone) => group_need(zone.colon, last_group(zone.minutes, zone.seconds)),
    }
}

// y, more than twice.
#[tactic(auto, unfolding(trust::specs::Needs::rule_need))]
fn year_need(edition: Edition, count: usize) -> Need
    ensures { result ≡ needs.rule_need edition (long_year count) }
{
    if count <= 4 {
        Need::NoDigit
    } else {
        fixed_year_need(count)
    }
}

// An unclosed part that loses a byte when it is written does not come back: a read skips that byte too.
// An arm for each step, as for a rule: which of its fields the need hangs on differs.
#[tactic(auto, unfolding(trust::specs::Needs::step_need, trust::specs::Needs::rule_need))]
pub fn step_need(edition: Edition, step: Step, pattern: &[u8]) -> Need
    requires { Held pattern.now step }
    ensures { result ≡ needs.step_need edition (means pattern.now step) }
{
    match step {
        Step::Open { from } => {
            if ends_in_quote(&pattern[from..]) {
                Need::Broken
            } else {
                Need::Nothing
            }
        }
        Step::Short { number, count } => read_need(
            edition,
            short_quantity(number),
            count,
            short_most(number, count),
        ),
        Step::Year(count) => year_need(edition, count),
        Step::Times { .. }
        | Step::Quoted { .. }
        | Step::MonthAbbreviated
        | Step::MonthWide
        | Step::WdayWide => { Need::Nothing }
        Step::Run { role, .. } => match role {
            Role::Literal => Need::Nothing,
            Role::Symbol(rule) => rule_need(edition, rule),
        },
    }
}
