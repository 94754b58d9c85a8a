// Listed changes undone: whether they fit the pattern, how long it was, and its bytes.
ghost use Rattle.std.specs.Prelude.{true, ◌≡◌, ◌≤◌, length, drop, replicate};
ghost use Rattle.laws.specs.Laid.{Laid};
ghost use Rattle.meaning.specs.Mending as mending;
ghost use Rattle.meaning.specs.Readers.{begins};

use digits::laying::{put_bytes, put_times};
use meaning::{Change, Changes};

// Whether a byte stands so often at a place.
fn stands(pattern: &[u8], place: usize, b: u8, times: usize) -> bool
    requires { place ≤ length pattern.now }
    ensures { result ≡ begins (replicate times b) (drop place pattern.now) }
{
    times <= pattern.len() - place && pattern[place..place + times].iter().all(|&c| c == b)
}

// Whether a change fits the pattern, whose bytes before a place are done with.
#[tactic(auto, unfolding(meaning::specs::Mending::fits))]
fn fits(pattern: &[u8], at: usize, change: Change) -> bool
    ensures { result ≡ mending.fits pattern.now at change }
{
    at <= change.place
        && change.place <= pattern.len()
        && change.before <= change.after
        && stands(pattern, change.place, change.byte, change.after)
}

// The entries of a list that are changes.
pub fn listed(changes: &Changes) -> &[Change]
    ensures { result.now ≡ mending.changes_in changes.now }
{
    let entries = changes.listed.as_slice();
    &entries[..changes.used.min(entries.len())]
}

pub fn all_fit(pattern: &[u8], changes: &[Change]) -> bool
    ensures { result ≡ mending.all_fit pattern.now 0 changes.now }
{
    let mut at = 0;
    for change in changes {
        if !fits(pattern, at, *change) {
            return false;
        }
        at = change.place + change.after;
    }
    true
}

// How many bytes the pattern had.
pub fn undone_length(pattern: &[u8], changes: &[Change]) -> usize
    requires { mending.all_fit pattern.now 0 changes.now ≡ true }
    ensures { result ≡ length (mending.undone_from pattern.now 0 changes.now) }
{
    let mut n = 0;
    let mut at = 0;
    for change in changes {
        n += change.place - at + change.before;
        at = change.place + change.after;
    }
    n + (pattern.len() - at)
}

// The pattern as it was, where there is room for it.
pub fn put_undone(pattern: &[u8], changes: &[Change], out: &mut [u8]) -> usize
    requires changes_value { mending.all_fit pattern.now 0 changes.now ≡ true }
    requires changes_in_bounds { length (mending.undone_from pattern.now 0 changes.now) ≤ length out.old }
    ensures { Laid out.old out.new 0 result (mending.undone_from pattern.now 0 changes.now) }
{
    let mut to = 0;
    let mut at = 0;
    for change in changes {
        let place = change.place;
        to = put_bytes(&pattern[at..place], out, to);
        to = put_times(change.byte, change.before, out, to);
        at = place + change.after;
    }
    put_bytes(&pattern[at..], out, to)
}
