// What a quick reading keeps as it goes: the next place, the mask of the units read, and a value in its entries of the row.
ghost use Rattle.std.specs.Prelude.{[], ◌∷◌, ◌≡◌, ◌+◌, ◌≤◌, ◌<◌, length, drop, Some, None, IfSome};
ghost use Rattle.meaning.specs.Readers.{got};
ghost use Rattle.meaning.specs.Reading.{literal_read};
ghost use Rattle.word_reader.specs.Quick as quick;

use meaning::{Carried, Choices};
use reader::record::unit_number;
use words::fields::last_byte;

// The next place, and the mask of the units read. The text and the row stay arguments of their own: a struct of both would pass two
// addresses by value, which the WebAssembly archive can't take.
#[derive(Clone, Copy)]
pub struct Moved {
    pub next: usize,
    pub mask: u16,
}

impl Moved {
    // Keeps a value and the places of its part, which ends at one place; reading goes on at another.
    pub fn keep(self, carried: Carried, end: usize, next: usize, answer: &mut [i64]) -> Moved
        requires { (48 ≤ length answer.old) × (self.next ≤ 2048) × (end ≤ 2048) }
        ensures { (result.next ≡ next) × quick.Kept (quick.gave_one (Some carried) self.next end) answer.old answer.new self.mask result.mask × (drop 48 answer.new ≡ drop 48 answer.old) }
    {
        let u = unit_number(carried.unit);
        answer[3 + u] = carried.value;
        answer[18 + u] = self.next as i64;
        answer[33 + u] = end as i64;
        Moved {
            next,
            mask: self.mask | (1u16 << u),
        }
    }
}

// A byte that stands for itself: the place behind it.
pub fn pass_byte(strict: bool, byte: u8, text: &[u8], at: usize) -> Option<usize>
    ensures { IfSome result (λ next. (next ≡ at + 1) × (at < length text.now) × (literal_read strict (byte ∷ []) (drop at text.now) ≡ got 1 None)) }
{
    if text.len() <= at || strict && text[at] != byte {
        return None;
    }
    Some(at + 1)
}

// The byte behind all else, where there is one.
pub fn pass_behind(choices: Choices, w: u64, text: &[u8], at: usize) -> Option<usize>
    requires { at ≤ length text.now }
    ensures { IfSome result (quick.Behind choices w text.now at) }
{
    let b = last_byte(w);
    if b == 0 {
        return Some(at);
    }
    pass_byte(choices.strict, b, text, at)
}

// The bytes read, the mask, and how many units that is.
pub fn finish(at: usize, mask: u16, answer: &mut [i64])
    requires { (48 ≤ length answer.old) × (at ≤ 2048) }
    ensures { answer.new ≡ quick.counted at mask answer.old }
{
    answer[0] = at as i64;
    answer[1] = mask as i64;
    answer[2] = u16::count_ones(mask) as i64;
}
