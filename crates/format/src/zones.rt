// Zones out: the sign, two digits of hours, and the groups of two digits that the rule has.
ghost use Rattle.std.specs.Prelude.{Bool, ◌∷◌, ◌≡◌, ◌+◌, ◌≤◌, eqb, length};
ghost use Rattle.laws.specs.Laid.{Laid};
ghost use Rattle.meaning.specs.Bytes.{when, both, minus, plus};
ghost use Rattle.meaning.specs.Writing.{is_there, group_text, offset_digits, all_zero, is_minus, zone_text};

use digits::laying::put_byte;
use digits::numbers::{put_marked, zero_padded};
use fields::signed::{is_negative, size};
use meaning::unit_sizes::{SECS_PER_HOUR, SECS_PER_MINUTE};
use meaning::{Group, Zone};

// Arm by arm as the definition's own table: in one expression it would be no plainer.
pub fn is_there(group: Group, n: u32) -> bool
    ensures { result ≡ is_there group n }
{
    match group {
        Group::Never => false,
        Group::NotZero => n != 0,
        Group::Always => true,
    }
}

fn put_group(colon: bool, group: Group, n: u32, out: &mut [u8], at: usize) -> usize
    requires { at + length (group_text colon group n) ≤ length out.old }
    ensures { Laid out.old out.new at result (group_text colon group n) }
{
    if is_there(group, n) {
        return put_marked(b':', colon, n, 2, out, at);
    }
    at
}

// Behind the sign: hours, minutes, seconds.
fn put_offset(zone: Zone, n: u32, out: &mut [u8], at: usize) -> usize
    requires { at + length (offset_digits zone.colon zone.minutes zone.seconds n) ≤ length out.old }
    ensures { Laid out.old out.new at result (offset_digits zone.colon zone.minutes zone.seconds n) }
{
    let a = zero_padded(n / SECS_PER_HOUR, 2, out, at);
    let b = put_group(
        zone.colon,
        zone.minutes,
        n % SECS_PER_HOUR / SECS_PER_MINUTE,
        out,
        a,
    );
    put_group(zone.colon, zone.seconds, n % SECS_PER_MINUTE, out, b)
}

// Whether every digit of a group is zero, where it is there.
fn is_zero(group: Group, n: u32) -> bool
    ensures { (c : Bool) → result ≡ all_zero (group_text c group n) }
{
    matches!(group, Group::Never) || n == 0
}

// Whether every digit behind the sign is zero.
fn is_nothing(zone: Zone, n: u32) -> bool
    ensures { result ≡ all_zero (offset_digits zone.colon zone.minutes zone.seconds n) }
{
    n / SECS_PER_HOUR == 0
        && is_zero(zone.minutes, n % SECS_PER_HOUR / SECS_PER_MINUTE)
        && is_zero(zone.seconds, n % SECS_PER_MINUTE)
}

// A plus where every digit is zero.
fn is_minus(zone: Zone, z: i32) -> bool
    ensures { result ≡ is_minus zone.colon zone.minutes zone.seconds z }
{
    !is_nothing(zone, size(z)) && is_negative(z)
}

fn sign_of(negative: bool) -> u8
    ensures { result ≡ when negative minus plus }
{
    if negative { b'-' } else { b'+' }
}

fn put_zone(zone: Zone, negative: bool, n: u32, out: &mut [u8], at: usize) -> usize
    requires { at + length (when negative minus plus ∷ offset_digits zone.colon zone.minutes zone.seconds n) ≤ length out.old }
    ensures { Laid out.old out.new at result (when negative minus plus ∷ offset_digits zone.colon zone.minutes zone.seconds n) }
{
    let next = put_byte(sign_of(negative), out, at);
    put_offset(zone, n, out, next)
}

pub fn is_z(utc: bool, n: u32) -> bool
    ensures { result ≡ both utc (eqb n 0) }
{
    utc && n == 0
}

// X with offset 0 writes Z at any count.
pub fn format_zone(zone: Zone, z: i32, out: &mut [u8], at: usize) -> usize
    requires { at + length (zone_text zone.utc zone.colon zone.minutes zone.seconds z) ≤ length out.old }
    ensures { Laid out.old out.new at result (zone_text zone.utc zone.colon zone.minutes zone.seconds z) }
{
    let n = size(z);
    if is_z(zone.utc, n) {
        return put_byte(b'Z', out, at);
    }
    put_zone(zone, is_minus(zone, z), n, out, at)
}
