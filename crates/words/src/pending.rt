// Words that follow one another are joined where they can be: a byte goes into the word before it, and three numbers with a byte between
// them become one word. So two words are pending until it is clear that they are final.
ghost use Rattle.std.specs.Prelude.{[], ◌≡◌, ◌+◌, ◌≤◌, ◌<◌, ◌%◌, eqb, ltb, length};
ghost use Rattle.laws.specs.Laid.{Laid};
ghost use Rattle.meaning.specs.Bytes.{both};
ghost use Rattle.words.specs.Fields.{last_byte};
ghost use Rattle.words.specs.Joins.{Room, Joins};
ghost use Rattle.words.specs.Packing.{is_number, joins_byte, with_bytes, three_word, kept};

use crate::fields::{code, last_byte};

// How many words are laid, and two behind them that can still be joined; 0 is none.
#[derive(Clone, Copy)]
pub struct Pending {
    pub used: usize,
    pub first: u64,
    pub second: u64,
}

// Whether a word of this code has room for a byte behind it.
fn is_number(c: u64) -> bool
    ensures { result ≡ is_number c }
{
    matches!(c, 3 | 4 | 9 | 10 | 15 | 22)
}

// Whether the lower fields of a word are these, and a byte is behind them.
fn has_byte(w: u64, fields: u64) -> bool
    ensures { result ≡ both (eqb (w % 72057594037927936) fields) (ltb 0 (last_byte w)) }
{
    w % 72057594037927936 == fields && 0 < last_byte(w)
}

fn joins_byte(w: u64, byte: u64) -> bool
    ensures { result ≡ joins_byte w byte }
{
    w < 72057594037927936 && is_number(code(w)) && has_byte(byte, 1)
}

// Whether three words are these numbers, with a byte behind the first and the second.
fn are_three(a: u64, first: u64, b: u64, second: u64, c: u64, third: u64) -> bool
    ensures { result ≡ both (eqb c third) (with_bytes first second a b) }
{
    c == third && has_byte(a, first) && has_byte(b, second)
}

fn three_word(kind: u64, a: u64, b: u64) -> u64
    requires { kind < 32 }
    ensures { result ≡ three_word kind a b }
{
    kind + 1099511627776 * last_byte(a) as u64 + 281474976710656 * last_byte(b) as u64
}

// A word that is final is laid, where it is one.
pub fn keep(w: u64, tail: &mut [u64], used: usize) -> usize
    requires { used + length (kept w []) ≤ length tail.old }
    ensures { Laid tail.old tail.new used result (kept w []) }
{
    if w == 0 {
        return used;
    }
    tail[used] = w;
    used + 1
}

// The next word joins those that are pending, or makes the first of them final.
pub fn join(before: Pending, w: u64, tail: &mut [u64]) -> Pending
    requires { Room tail.old before w }
    ensures { Joins tail.old tail.new before w result }
{
    let used = before.used;
    let a = before.first;
    let b = before.second;
    if joins_byte(b, w) {
        return Pending {
            used,
            first: a,
            second: b + (w - 1),
        };
    }
    if are_three(a, 137, b, 3, w, 35) {
        return Pending {
            used,
            first: 0,
            second: three_word(15, a, b),
        };
    }
    if are_three(a, 67, b, 99, w, 131) {
        return Pending {
            used,
            first: 0,
            second: three_word(10, a, b),
        };
    }
    Pending {
        used: keep(a, tail, used),
        first: b,
        second: w,
    }
}
