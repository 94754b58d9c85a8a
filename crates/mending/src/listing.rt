// The list of the changes.
ghost use Rattle.std.specs.Prelude.{[], ◌≡◌, ◌+◌, ◌≤◌, length};
ghost use Rattle.meaning.specs.Mending.{no_change, changes_of, listed};
ghost use Rattle.mending.specs.Listing.{with_change};
ghost use Rattle.trust.specs.Mending.{mended, changes};

use crate::parts::{own_change, spaces_behind};
use meaning::{Change, Changes, Edition};
use pattern::parts::parts_of;

// What an entry of a list holds that no change uses.
fn no_change() -> Change
    ensures { result ≡ no_change }
{
    Change {
        place: 0,
        byte: 0,
        before: 0,
        after: 0,
    }
}

// The empty list.
pub fn no_changes() -> Changes
    ensures { result ≡ changes_of [] }
{
    Changes {
        listed: [no_change(); 128],
        used: 0,
    }
}

// Lists a change, unless it changes nothing.
fn list(changes: &mut Changes, change: Change)
    requires { changes.old.used + length (listed change) ≤ 128 }
    ensures { changes.new ≡ with_change changes.old change }
{
    if change.before != change.after {
        changes.listed[changes.used] = change;
        changes.used += 1;
    }
}

// The changes of a pattern whose mended pattern has at most 256 bytes.
pub fn list_changes(edition: Edition, pattern: &[u8]) -> Changes
    requires pattern_len_bound { length pattern.now ≤ 256 }
    requires pattern_len_bound_2 { length (mended edition pattern.now) ≤ 256 }
    ensures { result ≡ changes_of (changes edition pattern.now) }
{
    let mut changes = no_changes();
    let mut at = 0;
    for part in parts_of(pattern) {
        let own = own_change(edition, pattern, part, at);
        let spaces = spaces_behind(edition, pattern, part);
        list(&mut changes, own);
        at += part.length + (own.after - own.before);
        let between = Change {
            place: at,
            byte: b' ',
            before: 0,
            after: spaces,
        };
        list(&mut changes, between);
        at += spaces;
    }
    changes
}
