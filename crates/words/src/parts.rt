// The word of a part, and what the part holds in the row.
ghost use Rattle.std.specs.Prelude.{◌≡◌, ◌+◌, ◌*◌, ◌≤◌, length, get_or};
ghost use Rattle.std.proofs.lemmas.List.Edits.{sets};
ghost use Rattle.meaning.specs.Rules.{role_of};
ghost use Rattle.meaning.specs.declared.Kind.TheVariants as kinds;
ghost use Rattle.pattern.specs.First.{unescaped, content_of};
ghost use Rattle.pattern.specs.Next.{Next};
ghost use Rattle.rules.specs.Steps.{long_year};
ghost use Rattle.words.specs.Laying.{role_meant, Holds};
ghost use Rattle.words.specs.Packing.{bit, times_word, role_word, held_word, held_inside, part_word, held_in};

use crate::rule_words::rule_word;
use meaning::{Kind, NameList, Pair, Part, Role, Rule};
use pattern::quoted::{ends_in_quote, unescaped_bytes, unescaped_length};
use rules::short::short_rule;
use rules::step::{Step, step_of};

// A word, and where what is held starts once its part is.
#[derive(Clone, Copy)]
pub struct Placed {
    pub word: u64,
    pub at: usize,
}

// A byte that stands for itself, so many times.
fn times_word(b: u8, n: usize) -> u64
    requires { n ≤ 256 }
    ensures { result ≡ times_word b n }
{
    let byte = 72057594037927936 * b as u64;
    if n == 1 {
        1 + byte
    } else {
        30 + 32 * n as u64 + byte
    }
}

// y, more than twice.
fn year_rule(count: usize) -> Rule
    ensures { result ≡ long_year count }
{
    if count <= 4 {
        Rule::Years(count)
    } else {
        Rule::FixedYear(count)
    }
}

// What the table has for a run, by the step that was chosen for it.
// An arm for each step: this undoes, kind by kind, what chose it.
fn role_meant(step: Step) -> Role
    ensures { result ≡ role_meant step }
{
    match step {
        Step::Times { .. } | Step::Quoted { .. } | Step::Open { .. } => Role::Literal,
        Step::Short { number, count } => Role::Symbol(short_rule(number, count)),
        Step::Year(count) => Role::Symbol(year_rule(count)),
        Step::MonthAbbreviated => Role::Symbol(Rule::MatchedName(NameList::MonthAbbreviated)),
        Step::MonthWide => Role::Symbol(Rule::MatchedName(NameList::MonthWide)),
        Step::WdayWide => Role::Symbol(Rule::MatchedName(NameList::WdayWide)),
        Step::Run { role, .. } => role,
    }
}

// The word of a run: a byte that stands for itself, or a rule. There is no third role.
fn run_word(pair: Pair, pattern: &[u8], part: Part) -> u64
    requires next { Next pattern.now part.start part }
    requires kind_value { (part.kind ≡ kinds.Run) × (part.length ≤ 256) }
    ensures { result ≡ role_word (role_of pair (get_or pattern.now part.start 0) part.length) (get_or pattern.now part.start 0) part.length }
{
    let start = part.start;
    let n = part.length;
    let role = role_meant(step_of(pair, pattern, part));
    match role {
        Role::Literal => times_word(pattern[start], n),
        Role::Symbol(rule) => rule_word(rule),
    }
}

// What stands between quotes, with a quote for each escaped one: a word for each byte.
fn lay_held(src: &[u8], tail: &mut [u64], at: usize)
    requires { at + length (unescaped src.now) ≤ length tail.old }
    ensures { tail.new ≡ sets tail.old at (unescaped src.now) }
{
    for (i, b) in unescaped_bytes(src).enumerate() {
        tail[at + i] = u64::from(b);
    }
}

fn held_word(at: usize, n: usize, lost: bool) -> u64
    requires { (at ≤ 256) × (n ≤ 256) }
    ensures { result ≡ 31 + 32 * n + 16384 * at + 8388608 * bit lost }
{
    31 + 32 * n as u64 + 16384 * at as u64 + 8388608 * u64::from(lost)
}

// An inside: a byte by itself, or bytes that are held before a place.
fn hold(src: &[u8], lost: bool, tail: &mut [u64], before: usize) -> Placed
    requires { (length (held_inside (unescaped src.now) lost) ≤ before) × (before ≤ 256) × (before ≤ length tail.old) }
    ensures { (result.word ≡ held_word result.at (unescaped src.now) lost) × Holds tail.old tail.new before (held_inside (unescaped src.now) lost) result.at }
{
    let n = unescaped_length(src);
    if n == 1 && !lost {
        return Placed {
            word: times_word(src[0], 1),
            at: before,
        };
    }
    let at = before - n;
    lay_held(src, tail, at);
    Placed {
        word: held_word(at, n, lost),
        at,
    }
}

// The word of a part; what the part holds is laid before a place.
pub fn part_word(pair: Pair, pattern: &[u8], part: Part, tail: &mut [u64], before: usize) -> Placed
    requires next { Next pattern.now part.start part }
    requires length_bound { (part.length ≤ 256) × (length (held_in (content_of pattern.now part)) ≤ before) × (before ≤ 256) × (before ≤ length tail.old) }
    ensures { (result.word ≡ part_word pair result.at (content_of pattern.now part)) × Holds tail.old tail.new before (held_in (content_of pattern.now part)) result.at }
{
    let kind = part.kind;
    let start = part.start;
    let n = part.length;
    match kind {
        Kind::Run => Placed {
            word: run_word(pair, pattern, part),
            at: before,
        },
        Kind::Quotes => Placed {
            word: times_word(b'\'', n / 2),
            at: before,
        },
        Kind::Quoted => hold(&pattern[start + 1..start + n - 1], false, tail, before),
        Kind::Open => hold(
            &pattern[start + 1..],
            ends_in_quote(&pattern[start + 1..]),
            tail,
            before,
        ),
    }
}
