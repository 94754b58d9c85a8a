// The parts of a pattern, laid over the start of a lent row by kind, start and length.
ghost use Rattle.std.specs.Prelude.{◌∷◌, [], ◌++◌, ◌≡◌, ◌+◌, ◌-◌, ◌≤◌, length, replicate};
ghost use Rattle.std.proofs.lemmas.List.Edits.{sets};
ghost use Rattle.meaning.specs.Answers.{split_answer};
ghost use Rattle.meaning.specs.Splitting as splitting;
ghost use Rattle.meaning.specs.Whole.{split};
ghost use Rattle.rows.specs.Fits.{NumberFits};
ghost use Rattle.rows.specs.Rows.{in_row, Given, laid, kind_number, part_numbers, split_numbers};

use crate::answers::{give_count, give_refusal};
use crate::entries::{entry, lay, lay_zeros};
use meaning::{Kind, Part};
use pattern::checks::bytes_check;
use pattern::parts::parts_of;

fn kind_number(kind: Kind) -> u64
    ensures { result ≡ kind_number kind }
{
    kind as u64
}

#[tactic(auto, unfolding(crate::specs::Rows::part_numbers))]
fn lay_part(part: Part, row: &mut [i64], at: usize)
    requires { (at + 3 ≤ length row.old) × NumberFits part.start × NumberFits part.length }
    ensures { row.new ≡ sets row.old at (part_numbers (part ∷ [])) }
{
    let number = entry(kind_number(part.kind));
    let start = entry(part.start as u64);
    let length = entry(part.length as u64);
    lay(&[number, start, length], row, at);
}

// The parts, then zeros; how many parts there are.
fn lay_parts(pattern: &[u8], row: &mut [i64]) -> usize
    requires { (length pattern.now ≤ 256) × (768 ≤ length row.old) }
    ensures { (result ≤ 256) × (result ≡ length (splitting.parts pattern.now)) × (row.new ≡ laid (part_numbers (splitting.parts pattern.now ++ replicate (256 - result) splitting.no_part)) row.old) }
{
    let mut used = 0;
    // Not `enumerate`: how many there are is the answer, and its number is gone after the loop.
    for part in parts_of(pattern) {
        lay_part(part, row, 3 * used);
        used += 1;
    }
    lay_zeros(768 - 3 * used, row, 3 * used);
    used
}

pub fn give_split(pattern: &[u8], answer: &mut [i64], parts: &mut [i64]) -> u32
    requires { (2 ≤ length answer.old) × (768 ≤ length parts.old) }
    ensures { Given (in_row 2 (split_answer (split pattern.now))) answer.old answer.new result × (parts.new ≡ laid (split_numbers (split pattern.now)) parts.old) }
{
    match bytes_check(pattern) {
        Ok(()) => give_count(lay_parts(pattern, parts) as u64, answer),
        Err(why) => give_refusal(why, 2, answer),
    }
}
