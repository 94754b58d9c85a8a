// What a step writes.
ghost use Rattle.std.specs.Prelude.{◌≡◌, ◌+◌, ◌≤◌, length, Ok};
ghost use Rattle.laws.specs.Laid.{Laid};
ghost use Rattle.meaning.specs.Answers.{fields_check};
ghost use Rattle.meaning.specs.OpenedBooks.{book_in};
ghost use Rattle.meaning.specs.Writing.{run_step, step_text, quantity_of};
ghost use Rattle.rules.specs.ShortRules.{short_quantity};
ghost use Rattle.rules.specs.Steps.{means, Held};

use crate::literals::{put_open, put_unescaped};
use crate::rule::format_rule;
use crate::years::zero_padded_i;
use digits::laying::put_times;
use digits::numbers::put_short;
use fields::values::second_of_day;
use meaning::unit_sizes::{SECS_PER_HOUR, SECS_PER_MINUTE};
use meaning::{Fields, NameList, Role};
use names::writing::format_name;
use rules::short::Short;
use rules::step::Step;

// The number that a short one writes.
pub fn short_number(short: Short, f: Fields) -> u32
    requires { fields_check f ≡ Ok tt }
    ensures { result ≡ quantity_of (short_quantity short) f }
{
    match short {
        Short::Month => f.month,
        Short::Day => f.day,
        Short::Hour => second_of_day(f.nanos) / SECS_PER_HOUR,
        Short::Minute => second_of_day(f.nanos) % SECS_PER_HOUR / SECS_PER_MINUTE,
        Short::Second => second_of_day(f.nanos) % SECS_PER_MINUTE,
    }
}

// By the table: a byte that stands for itself, or what the rule of a symbol writes. There is no third role.
fn put_run(
    book: &[u8],
    role: Role,
    b: u8,
    count: usize,
    f: Fields,
    out: &mut [u8],
    at: usize,
) -> usize
    requires f_value { fields_check f ≡ Ok tt }
    requires count_in_bounds { at + length (step_text (book_in book.now) f (run_step role b count)) ≤ length out.old }
    ensures { Laid out.old out.new at result (step_text (book_in book.now) f (run_step role b count)) }
{
    match role {
        Role::Literal => put_times(b, count, out, at),
        Role::Symbol(rule) => format_rule(book, rule, f, out, at),
    }
}

// An arm for each step, as its text is defined: the room for that text is what the arm's writer asks for.
pub fn format_step(
    book: &[u8],
    step: Step,
    pattern: &[u8],
    f: Fields,
    out: &mut [u8],
    at: usize,
) -> usize
    requires f_value { fields_check f ≡ Ok tt }
    requires held { Held pattern.now step }
    requires step_in_bounds { at + length (step_text (book_in book.now) f (means pattern.now step)) ≤ length out.old }
    ensures { Laid out.old out.new at result (step_text (book_in book.now) f (means pattern.now step)) }
{
    match step {
        Step::Times { byte, count } => put_times(byte, count, out, at),
        Step::Quoted { from, to } => put_unescaped(&pattern[from..to], out, at),
        Step::Open { from } => put_open(&pattern[from..], out, at),
        Step::Short { number, count } => {
            put_short(short_number(number, f), count as usize, out, at)
        }
        Step::Year(k) => zero_padded_i(f.year, k, out, at),
        Step::MonthAbbreviated => {
            format_name(
                book,
                NameList::MonthAbbreviated,
                (f.month - 1) as usize,
                out,
                at,
            )
        }
        Step::MonthWide => format_name(book, NameList::MonthWide, (f.month - 1) as usize, out, at),
        Step::WdayWide => format_name(book, NameList::WdayWide, f.wday as usize, out, at),
        Step::Run { role, byte, count } => put_run(book, role, byte, count, f, out, at),
    }
}
