// A pattern packed into the words of a row: those of its steps from the start, the bytes that these hold at the end.
ghost use Rattle.std.specs.Prelude.{◌≡◌, ◌-◌, ◌≤◌, length, Ok};
ghost use Rattle.std.proofs.lemmas.List.Edits.{sets};
ghost use Rattle.meaning.specs.Answers.{pattern_check};
ghost use Rattle.words.specs.Packing.{packed, held_by};

use crate::parts::part_word;
use crate::pending::{Pending, join, keep};
use meaning::Pair;
use pattern::parts::parts_of;

// How many words there are, and where the bytes start that they hold.
#[derive(Clone, Copy)]
pub struct Packed {
    pub used: usize,
    pub held: usize,
}

pub fn pack(pair: Pair, pattern: &[u8], tail: &mut [u64]) -> Packed
    requires { (256 ≤ length tail.old) × (pattern_check pattern.now ≡ Ok tt) }
    ensures { (result.used ≡ length (packed pair pattern.now)) × (result.held ≡ 256 - length (held_by pattern.now)) × (tail.new ≡ sets (sets tail.old 0 (packed pair pattern.now)) result.held (held_by pattern.now)) }
{
    let mut pending = Pending {
        used: 0,
        first: 0,
        second: 0,
    };
    let mut held = 256;
    for part in parts_of(pattern) {
        let placed = part_word(pair, pattern, part, tail, held);
        pending = join(pending, placed.word, tail);
        held = placed.at;
    }
    let used = keep(pending.first, tail, pending.used);
    Packed {
        used: keep(pending.second, tail, used),
        held,
    }
}
