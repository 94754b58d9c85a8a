// What each part of a pattern is, laid over the start of a lent row: -1 where it stands for itself, else what the symbol carries.
ghost use Rattle.std.specs.Prelude.{◌++◌, map, ◌≡◌, ◌-◌, ◌≤◌, pos, negsuc, length, replicate};
ghost use Rattle.meaning.specs.Answers.{split_answer};
ghost use Rattle.meaning.specs.Reading.{name_carries, unit_of, rule_unit};
ghost use Rattle.meaning.specs.Rules.{role_of};
ghost use Rattle.meaning.specs.Splitting as splitting;
ghost use Rattle.meaning.specs.Whole.{unit_number, split};
ghost use Rattle.meaning.specs.Writing.{run_step, step_of, steps};
ghost use Rattle.pattern.specs.First.{content_of};
ghost use Rattle.pattern.specs.Next.{Next};
ghost use Rattle.rows.specs.Rows.{in_row, Given, laid, carried_entry, step_entry, unit_entries};

use crate::answers::{give_count, give_refusal};
use crate::entries::{entry, lay, lay_times};
use meaning::{Kind, NameList, Pair, ParseUnit, Part, Role, Rule};
use parse::named::name_carries;
use pattern::checks::bytes_check;
use pattern::parts::parts_of;
use reader::record::unit_number;
use rules::role_of;

// The entry of a symbol that carries nothing: no unit has this number.
const NOTHING: i64 = 15;

fn unit_entry(unit: ParseUnit) -> i64
    ensures { result ≡ pos (unit_number unit) }
{
    entry(unit_number(unit) as u64)
}

// All names of a list carry the same unit, so the first says it.
fn names_entry(names: NameList) -> i64
    ensures { result ≡ carried_entry (unit_of (name_carries names 0)) }
{
    match name_carries(names, 0) {
        None => NOTHING,
        Some(carried) => unit_entry(carried.unit),
    }
}

// An arm for each rule, as the definition has a row: no field of a rule says which unit it carries.
#[tactic(auto, unfolding(meaning::specs::Reading::rule_unit))]
fn rule_entry(rule: Rule) -> i64
    ensures { result ≡ carried_entry (rule_unit rule) }
{
    match rule {
        Rule::Number { unit, .. } => unit_entry(unit),
        Rule::SkippedNumber { .. } | Rule::LetterQuarter | Rule::SkippedName { .. } => NOTHING,
        Rule::MatchedName(names) | Rule::Letters { names, .. } => names_entry(names),
        Rule::Years(_) | Rule::FixedYear(_) | Rule::TwoDigitYear => unit_entry(ParseUnit::Year),
        Rule::Zone(_) => unit_entry(ParseUnit::Offset),
    }
}

#[tactic(auto, unfolding(meaning::specs::Reading::step_unit))]
fn run_entry(b: u8, count: usize) -> i64
    ensures { result ≡ step_entry (run_step (role_of Pair.Full b count) b count) }
{
    match role_of(Pair::Full, b, count) {
        Role::Literal => -1,
        Role::Symbol(rule) => rule_entry(rule),
    }
}

#[tactic(auto, unfolding(meaning::specs::Writing::step_of, meaning::specs::Reading::step_unit))]
fn part_entry(pattern: &[u8], part: Part) -> i64
    requires { Next pattern.now part.start part }
    ensures { result ≡ step_entry (step_of Pair.Full (content_of pattern.now part)) }
{
    match part.kind {
        Kind::Run => run_entry(pattern[part.start], part.length),
        Kind::Quotes | Kind::Quoted | Kind::Open => -1,
    }
}

// The entries of the parts, then -1; how many parts there are.
fn lay_entries(pattern: &[u8], row: &mut [i64]) -> usize
    requires { (length pattern.now ≤ 256) × (256 ≤ length row.old) }
    ensures { (result ≤ 256) × (result ≡ length (splitting.parts pattern.now)) × (row.new ≡ laid (map step_entry (steps Pair.Full pattern.now) ++ replicate (256 - result) (negsuc 0)) row.old) }
{
    let mut used = 0;
    // Not `enumerate`, as for the parts themselves.
    for part in parts_of(pattern) {
        lay(&[part_entry(pattern, part)], row, used);
        used += 1;
    }
    lay_times(-1, 256 - used, row, used);
    used
}

pub fn give_units(pattern: &[u8], answer: &mut [i64], units: &mut [i64]) -> u32
    requires { (2 ≤ length answer.old) × (256 ≤ length units.old) }
    ensures { Given (in_row 2 (split_answer (split pattern.now))) answer.old answer.new result × (units.new ≡ laid (unit_entries pattern.now) units.old) }
{
    match bytes_check(pattern) {
        Ok(()) => give_count(lay_entries(pattern, units) as u64, answer),
        Err(why) => give_refusal(why, 2, answer),
    }
}
