// The walks over the parts of a pattern: one measures the mended pattern, one lays it.
ghost use Rattle.std.specs.Prelude.{◌++◌, ◌≡◌, ◌+◌, ◌-◌, ◌≤◌, length, replicate};
ghost use Rattle.laws.specs.Laid.{Laid};
ghost use Rattle.meaning.specs.Mending.{space};
ghost use Rattle.trust.specs.Mending.{mended};

use crate::parts::{own_change, spaces_behind};
use digits::laying::{put_bytes, put_times};
use meaning::{Change, Edition};
use pattern::parts::parts_of;

// How many bytes the mended pattern has.
pub fn mended_length(edition: Edition, pattern: &[u8]) -> usize
    requires { length pattern.now ≤ 256 }
    ensures { result ≡ length (mended edition pattern.now) }
{
    let mut n = 0;
    for part in parts_of(pattern) {
        let own = own_change(edition, pattern, part, 0);
        let spaces = spaces_behind(edition, pattern, part);
        n += part.length + (own.after - own.before) + spaces;
    }
    n
}

// A part as it stands in the pattern, what its own change adds, and the spaces behind it.
#[inline(never)]
fn put_part(src: &[u8], own: Change, spaces: usize, out: &mut [u8], at: usize) -> usize
    requires before_le_after { own.before ≤ own.after }
    requires spaces_in_bounds { at + (length src.now + (own.after - own.before) + spaces) ≤ length out.old }
    ensures { Laid out.old out.new at result (src.now ++ replicate (own.after - own.before) own.byte ++ replicate spaces space) }
{
    let added = own.after - own.before;
    let mut next = put_bytes(src, out, at);
    next = put_times(own.byte, added, out, next);
    put_times(b' ', spaces, out, next)
}

// The mended pattern, where there is room for it.
pub fn put_mended(edition: Edition, pattern: &[u8], out: &mut [u8]) -> usize
    requires pattern_len_bound { length pattern.now ≤ 256 }
    requires pattern_in_bounds { length (mended edition pattern.now) ≤ length out.old }
    ensures { Laid out.old out.new 0 result (mended edition pattern.now) }
{
    let mut at = 0;
    for part in parts_of(pattern) {
        let own = own_change(edition, pattern, part, 0);
        let spaces = spaces_behind(edition, pattern, part);
        at = put_part(
            &pattern[part.start..part.start + part.length],
            own,
            spaces,
            out,
            at,
        );
    }
    at
}
