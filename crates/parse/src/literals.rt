// Literals compared, for a strict reading: what a part stands for with the bytes of the text that it passed over. Each answers the
// place of the first byte of the text that is another one.
ghost use Rattle.std.specs.Prelude.{◌≡◌, ◌-◌, ◌≤◌, length, replicate};
ghost use Rattle.parse.specs.Literals.{Ended, compared_from, compared};
ghost use Rattle.pattern.specs.First.{unescaped};
ghost use Rattle.rules.specs.Steps.{means, Held};

use meaning::Role;
use pattern::quoted::{unescaped_bytes, unescaped_length};
use rules::step::Step;

// A byte, so many times.
fn compare_times(byte: u8, count: usize, text: &[u8], end: usize) -> Option<usize>
    requires count_le_end { count ≤ end }
    requires end_in_bounds { end ≤ length text.now }
    ensures { result ≡ compared_from (end - count) (replicate count byte) text.now }
{
    // Over places: one of them is the answer, and an iterator over a part of the text would count from where that begins.
    for i in end - count..end {
        if text[i] != byte {
            return Some(i);
        }
    }
    None
}

// The inside of quotes, where an escaped quote is one byte.
fn compare_inside(inside: &[u8], text: &[u8], end: usize) -> Option<usize>
    requires inside_len_bound { length (unescaped inside.now) ≤ end }
    requires end_in_bounds { end ≤ length text.now }
    ensures { result ≡ compared_from (end - length (unescaped inside.now)) (unescaped inside.now) text.now }
{
    let start = end - unescaped_length(inside);
    for (i, b) in (start..end).zip(unescaped_bytes(inside)) {
        if text[i] != b {
            return Some(i);
        }
    }
    None
}

// What a step stands for with the bytes before a place. It calls itself for a run that stands for itself, which keeps it a call of
// its own: a reading that is not strict does not carry it along.
// An arm for each step that stands for bytes; what a symbol reads is not compared.
pub fn compare(step: Step, pattern: &[u8], text: &[u8], end: usize) -> Option<usize>
    requires held { Held pattern.now step }
    requires ended { Ended (means pattern.now step) (length text.now) end }
    ensures { result ≡ compared (means pattern.now step) text.now end }
{
    match step {
        Step::Times { byte, count } => compare_times(byte, count, text, end),
        Step::Quoted { from, to } => compare_inside(&pattern[from..to], text, end),
        Step::Open { from } => compare_inside(&pattern[from..], text, end),
        Step::Run { role, byte, count } => match role {
            Role::Literal => compare(Step::Times { byte, count }, pattern, text, end),
            Role::Symbol(_) => None,
        },
        _ => None,
    }
}
