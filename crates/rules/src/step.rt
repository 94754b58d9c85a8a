// A step: what a part does, with everything about it decided. What patterns have most has kinds of its own, which are chosen
// without a look at the table.
ghost use Rattle.std.specs.Prelude.{◌<◌};
ghost use Rattle.pattern.specs.Next.{Next};
ghost use Rattle.rules.specs.Steps.{RunChosen, Chosen};

use crate::role_of;
use crate::short::{Short, short_of};
use meaning::{Kind, Pair, Part, Role};

#[derive(Clone, Copy)]
pub enum Step {
    // A byte that stands for itself, so many times.
    Times { byte: u8, count: usize },
    // What stands between quotes: the pattern from a place up to another.
    Quoted { from: usize, to: usize },
    // What stands behind a quote that nothing closes.
    Open { from: usize },
    // M, d, H, m or s, once or twice.
    Short { number: Short, count: u8 },
    // y, more than twice.
    Year(usize),
    // MMM, MMMM and eeee.
    MonthAbbreviated,
    MonthWide,
    WdayWide,
    // Any other run, with what the table has for it.
    Run { role: Role, byte: u8, count: usize },
}

// The step of so many equal bytes. Not a `match` on the byte and the count, by which each write takes up to 0.5 per cent more instructions.
fn run_step(pair: Pair, b: u8, count: usize) -> Step
    requires { 0 < count }
    ensures { RunChosen pair b count result }
{
    if b < b'A' {
        return Step::Times { byte: b, count };
    }
    if count < 3 {
        if let Some(number) = short_of(pair, b) {
            return Step::Short {
                number,
                count: count as u8,
            };
        }
    } else {
        if b == b'y' {
            return Step::Year(count);
        }
        if count == 3 {
            if b == b'M' {
                return Step::MonthAbbreviated;
            }
        }
        if count == 4 {
            if b == b'M' {
                return Step::MonthWide;
            }
            if b == b'e' {
                return Step::WdayWide;
            }
        }
    }
    Step::Run {
        role: role_of(pair, b, count),
        byte: b,
        count,
    }
}

// The step of a part: what it means is what the table says of the part.
pub fn step_of(pair: Pair, pattern: &[u8], part: Part) -> Step
    requires { Next pattern.now part.start part }
    ensures { Chosen pair pattern.now part result }
{
    let kind = part.kind;
    let start = part.start;
    let n = part.length;
    match kind {
        Kind::Run => run_step(pair, pattern[start], n),
        Kind::Quotes => Step::Times {
            byte: b'\'',
            count: n / 2,
        },
        Kind::Quoted => Step::Quoted {
            from: start + 1,
            to: start + n - 1,
        },
        Kind::Open => Step::Open { from: start + 1 },
    }
}
