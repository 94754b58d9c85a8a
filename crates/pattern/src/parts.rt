// "Splitting" of the specification, part by part: the part at a place, the inside of a quoted one, and the walk over all parts.
ghost use Rattle.std.specs.Prelude.{◌≡◌, ◌+◌, ◌*◌, ◌≤◌, ◌<◌, length, drop};
ghost use Rattle.std.specs.Iterator.{item_count};
ghost use Rattle.meaning.specs.Splitting.{parts};
ghost use Rattle.pattern.specs.First.{run_length, escaped_count, inside_size, first_content, part_of};
ghost use Rattle.pattern.specs.Walk.{parts_left, Walks};

use meaning::{Kind, Part};

// The place behind the bytes b from a place on.
fn run_end(pattern: &[u8], at: usize, b: u8) -> usize
    requires { at ≤ length pattern.now }
    ensures { result ≡ at + run_length b (drop at pattern.now) }
{
    // Not `for`, `position` or `take_while`, by which each write and check takes about 1 per cent more instructions.
    let mut i = at;
    while i < pattern.len() && pattern[i] == b {
        i += 1;
    }
    i
}

// The place behind the escaped quotes from a place on.
fn escaped_end(pattern: &[u8], at: usize) -> usize
    requires { at ≤ length pattern.now }
    ensures { result ≡ at + 2 * escaped_count (drop at pattern.now) }
{
    // By hand: by slice patterns here and below, a check takes up to 6 per cent more instructions, a write up to 3.
    let mut behind = at;
    while behind + 1 < pattern.len() && pattern[behind] == b'\'' && pattern[behind + 1] == b'\'' {
        behind += 2;
    }
    behind
}

// The place of the quote that closes a part whose inside starts at a place, or the pattern's end.
fn inside_end(pattern: &[u8], at: usize) -> usize
    requires { at ≤ length pattern.now }
    ensures { result ≡ at + inside_size (drop at pattern.now) }
{
    // By hand, as above: it goes by one byte or by two, which no iterator of a slice does.
    let mut i = at;
    while i < pattern.len() {
        if pattern[i] == b'\'' {
            if i + 1 == pattern.len() || pattern[i + 1] != b'\'' {
                return i;
            }
            i += 2;
        } else {
            i += 1;
        }
    }
    i
}

// The part that starts at a place outside quotes.
pub fn next_part(pattern: &[u8], at: usize) -> Part
    requires { at < length pattern.now }
    ensures { result ≡ part_of at (first_content (drop at pattern.now)) }
{
    let first = pattern[at];
    if first != b'\'' {
        let end = run_end(pattern, at + 1, first);
        return Part {
            kind: Kind::Run,
            start: at,
            length: end - at,
        };
    }
    let behind = escaped_end(pattern, at);
    if at < behind {
        return Part {
            kind: Kind::Quotes,
            start: at,
            length: behind - at,
        };
    }
    let end = inside_end(pattern, at + 1);
    if end < pattern.len() {
        return Part {
            kind: Kind::Quoted,
            start: at,
            length: end + 1 - at,
        };
    }
    Part {
        kind: Kind::Open,
        start: at,
        length: end - at,
    }
}

// The parts from a place outside quotes on.
#[derive(Drop)]
pub struct Parts<'a> {
    pattern: &'a [u8],
    place: usize,
}

// All parts of a pattern, in order.
#[tactic(auto, unfolding(meaning::specs::Splitting::parts))]
pub fn parts_of(pattern: &[u8]) -> Parts
    ensures gives { parts_left result ≡ parts pattern.now }
    ensures starts { (result.pattern.now ≡ pattern.now) × (result.place ≡ 0) }
{
    Parts { pattern, place: 0 }
}

impl<'a> Iterator for Parts<'a> {
    type Item = Part;

    ghost next_gives = { Walks };

    ghost remaining = { item_count parts_left };

    // In its place in each walk: as a call, each write and read takes 6 per cent more instructions.
    #[inline(always)]
    fn next(&mut self) -> Option<Part> {
        if self.pattern.len() <= self.place {
            return None;
        }
        let part = next_part(self.pattern, self.place);
        self.place += part.length;
        Some(part)
    }
}
