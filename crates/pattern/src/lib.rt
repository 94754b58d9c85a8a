// "Splitting": a pattern part by part, its refusals 1, 2 and 3, and all its parts at once.
#![tactic(auto)]

pub mod checks;
pub mod parts;
pub mod quoted;

ghost use Rattle.std.specs.Prelude.{◌≡◌, ◌≤◌, length};
ghost use Rattle.meaning.specs.Promises.{Splits};
ghost use Rattle.meaning.specs.Splitting.{parts, no_part};
ghost use Rattle.meaning.specs.Whole.{split_into};

use crate::checks::bytes_check;
use crate::parts::parts_of;
use meaning::{Kind, Part, Refusal, Split};

// What an entry of a split holds that no part uses.
fn no_part() -> Part
    ensures { result ≡ no_part }
{
    Part {
        kind: Kind::Run,
        start: 0,
        length: 0,
    }
}

// The split of a pattern that passed the checks.
fn split_parts(pattern: &[u8]) -> Split
    requires { length pattern.now ≤ 256 }
    ensures { result ≡ split_into (parts pattern.now) }
{
    let empty = no_part();
    let mut parts = [empty; 256];
    let mut used = 0;
    // Not `enumerate`: how many there are is part of the answer, and its number is gone after the loop.
    for part in parts_of(pattern) {
        parts[used] = part;
        used += 1;
    }
    Split { parts, used }
}

// "A split answers up to 256 parts held by value": all parts of a pattern, or refusal 1 or 2 and no part.
#[tactic(auto, unfolding(meaning::specs::Whole::split))]
pub fn parse_format_string(pattern: &[u8]) -> Result<Split, Refusal>
    ensures { Splits pattern.now result }
{
    bytes_check(pattern)?;
    Ok(split_parts(pattern))
}
