// The text of a stamp, laid into a lent output, and how long it is.
ghost use Rattle.std.specs.Prelude.{◌∷◌, ◌++◌, ◌≡◌, ◌+◌, ◌/◌, ◌%◌, ◌≤◌, ◌<◌, length, Ok};
ghost use Rattle.laws.specs.Laid.{Laid};
ghost use Rattle.meaning.specs.Bytes.{num, minus, colon};
ghost use Rattle.meaning.specs.Stamps as stamps;

use digits::laying::{put_byte, put_bytes};
use digits::numbers::{put_marked, put_nine, zero_padded};
use fields::signed::size;
use format::zones::format_zone;
use meaning::unit_sizes::{NANOS_PER_SEC, SECS_PER_HOUR, SECS_PER_MINUTE};
use meaning::{Group, Stamp, Zone};

// Z for zero, else hours and minutes with a colon.
const OFFSET: Zone = Zone {
    utc: true,
    colon: true,
    minutes: Group::Always,
    seconds: Group::Never,
};

fn put_date(year: u32, month: u32, day: u32, out: &mut [u8], at: usize) -> usize
    requires { (year < 10000) × (month < 100) × (day < 100) × (at + 10 ≤ length out.old) }
    ensures { Laid out.old out.new at result (num 4 year ++ minus ∷ num 2 month ++ minus ∷ num 2 day) }
{
    let behind_year = zero_padded(year, 4, out, at);
    let behind_month = put_marked(b'-', true, month, 2, out, behind_year);
    put_marked(b'-', true, day, 2, out, behind_month)
}

// A second of the day, behind a T.
fn put_time(second: u32, out: &mut [u8], at: usize) -> usize
    requires { (second < 86400) × (at + 9 ≤ length out.old) }
    ensures { Laid out.old out.new at result (84 ∷ num 2 (second / 3600) ++ colon ∷ num 2 (second % 3600 / 60) ++ colon ∷ num 2 (second % 60)) }
{
    let behind_hour = put_marked(b'T', true, second / SECS_PER_HOUR, 2, out, at);
    let minute = second % SECS_PER_HOUR / SECS_PER_MINUTE;
    let behind_minute = put_marked(b':', true, minute, 2, out, behind_hour);
    put_marked(b':', true, second % SECS_PER_MINUTE, 2, out, behind_minute)
}

fn put_fraction(nanos: u32, out: &mut [u8], at: usize) -> usize
    requires { (nanos < 1000000000) × (at + length (stamps.fraction_text nanos) ≤ length out.old) }
    ensures { Laid out.old out.new at result (stamps.fraction_text nanos) }
{
    if nanos == 0 {
        return at;
    }
    let next = put_byte(b'.', out, at);
    put_nine(nanos, out, next)
}

// "-00:00 is written only with that mark; offset 0 without it is written Z".
fn put_offset(t: Stamp, out: &mut [u8], at: usize) -> usize
    requires { at + length (stamps.stamp_offset t) ≤ length out.old }
    ensures { Laid out.old out.new at result (stamps.stamp_offset t) }
{
    if t.unknown {
        return put_bytes(b"-00:00", out, at);
    }
    format_zone(OFFSET, t.offset, out, at)
}

fn offset_length(t: Stamp) -> usize
    requires { stamps.stamp_check t ≡ Ok tt }
    ensures { result ≡ length (stamps.stamp_offset t) }
{
    if t.unknown {
        return 6;
    }
    if size(t.offset) == 0 {
        return 1;
    }
    6
}

pub fn stamp_length(t: Stamp) -> usize
    requires { stamps.stamp_check t ≡ Ok tt }
    ensures { result ≡ length (stamps.stamp_text t) }
{
    if t.nanos % NANOS_PER_SEC == 0 {
        return 19 + offset_length(t);
    }
    29 + offset_length(t)
}

pub fn put_stamp(t: Stamp, out: &mut [u8]) -> usize
    requires { (stamps.stamp_check t ≡ Ok tt) × (length (stamps.stamp_text t) ≤ length out.old) }
    ensures { Laid out.old out.new 0 result (stamps.stamp_text t) }
{
    let second = (t.nanos / NANOS_PER_SEC) as u32;
    let nanos = (t.nanos % NANOS_PER_SEC) as u32;
    let behind_date = put_date(size(t.year), t.month, t.day, out, 0);
    let behind_time = put_time(second, out, behind_date);
    let behind_fraction = put_fraction(nanos, out, behind_time);
    put_offset(t, out, behind_fraction)
}
