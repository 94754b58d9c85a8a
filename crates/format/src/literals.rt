// Literals: what stands between quotes, with a quote for each escaped one.
ghost use Rattle.std.specs.Prelude.{◌+◌, ◌≤◌, length};
ghost use Rattle.format.specs.Literals.{open_text};
ghost use Rattle.laws.specs.Laid.{Laid};
ghost use Rattle.pattern.specs.First.{unescaped};
ghost use Rattle.pattern.specs.Next.{Lost};

use pattern::quoted::{ends_in_quote, unescaped_bytes};

pub fn put_unescaped(src: &[u8], out: &mut [u8], at: usize) -> usize
    requires { at + length (unescaped src.now) ≤ length out.old }
    ensures { Laid out.old out.new at result (unescaped src.now) }
{
    // A count by hand: the place after the last byte is the answer.
    let mut next = at;
    for b in unescaped_bytes(src) {
        out[next] = b;
        next += 1;
    }
    next
}

// An unclosed part loses an escaped quote at its end.
pub fn put_open(src: &[u8], out: &mut [u8], at: usize) -> usize
    requires lost { Lost src.now }
    requires src_in_bounds { at + length (open_text src.now) ≤ length out.old }
    ensures { Laid out.old out.new at result (open_text src.now) }
{
    if ends_in_quote(src) {
        let n = src.len();
        return put_unescaped(&src[..n - 2], out, at);
    }
    put_unescaped(src, out, at)
}
