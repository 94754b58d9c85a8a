// Zones: the sign, two digits of hours, and the groups of two digits that the rule has or that are there.
ghost use Rattle.std.specs.Prelude.{◌≡◌, ◌≤◌, length, drop};
ghost use Rattle.meaning.specs.Readers as reads;
ghost use Rattle.meaning.specs.Reading as reading;
ghost use Rattle.parse.specs.Steps.{part_at};
ghost use Rattle.parse.specs.Zones.{sign_at, counted_at, zone_from};

use crate::cursor::{Cursor, Read, Stop};
use meaning::unit_sizes::{SECS_PER_HOUR_U64, SECS_PER_MINUTE_U64};
use meaning::{Carried, Group, Numeral, ParseUnit, Trouble, Zone};
use numerals::extents::is_digit_at;
use numerals::integer_of;

#[derive(Clone, Copy)]
pub enum ZoneSign {
    Utc,
    Ahead,
    BehindUtc,
}

// "take one byte (8), Z gives 0 for X alone, else it must be a sign (11)"
fn zone_sign(utc: bool, text: &[u8], cursor: Cursor) -> Result<Read<ZoneSign>, Stop>
    requires { cursor.at ≤ length text.now }
    ensures { result ≡ sign_at cursor.at (reads.zone_sign utc (drop cursor.at text.now)) }
{
    let next = cursor.skip(1, text)?;
    match text[cursor.at] {
        b'Z' if utc => Ok(Read {
            value: ZoneSign::Utc,
            next,
        }),
        b'+' => Ok(Read {
            value: ZoneSign::Ahead,
            next,
        }),
        b'-' => Ok(Read {
            value: ZoneSign::BehindUtc,
            next,
        }),
        _ => Err(Stop {
            trouble: Trouble::NoSign,
            place: cursor.at,
        }),
    }
}

fn take_count(k: usize, text: &[u8], cursor: Cursor) -> Result<Read<u32>, Stop>
    requires { cursor.at ≤ length text.now }
    ensures { result ≡ counted_at cursor.at (reads.take_count k (drop cursor.at text.now)) }
{
    let number = cursor.take(Numeral::Count, k, text)?;
    Ok(Read {
        value: number.value.size,
        next: number.next,
    })
}

fn colon_length(colon: bool) -> usize
    ensures { result ≡ reading.colon_length colon }
{
    if colon { 1 } else { 0 }
}

fn take_group(colon: bool, text: &[u8], cursor: Cursor) -> Result<Read<u32>, Stop>
    requires { cursor.at ≤ length text.now }
    ensures { result ≡ counted_at cursor.at (reading.take_group colon (drop cursor.at text.now)) }
{
    let next = cursor.skip(colon_length(colon), text)?;
    take_count(2, text, next)
}

// A group that may be missing is there if its first digit is.
fn zone_group(colon: bool, group: Group, text: &[u8], cursor: Cursor) -> Result<Read<u32>, Stop>
    requires { cursor.at ≤ length text.now }
    ensures { result ≡ counted_at cursor.at (reading.zone_group colon group (drop cursor.at text.now)) }
{
    match group {
        Group::Always => take_group(colon, text, cursor),
        Group::NotZero if is_digit_at(text, cursor.at + colon_length(colon)) => {
            take_group(colon, text, cursor)
        }
        _ => Ok(Read {
            value: 0,
            next: cursor,
        }),
    }
}

// Behind the sign: hours, minutes, seconds.
fn zone_from(
    zone: Zone,
    negative: bool,
    text: &[u8],
    cursor: Cursor,
) -> Result<Read<Option<Carried>>, Stop>
    requires { cursor.at ≤ length text.now }
    ensures { result ≡ part_at cursor.at (zone_from negative zone.colon zone.minutes zone.seconds (drop cursor.at text.now)) }
{
    let hours = take_count(2, text, cursor)?;
    let minutes = zone_group(zone.colon, zone.minutes, text, hours.next)?;
    let seconds = zone_group(zone.colon, zone.seconds, text, minutes.next)?;
    let size = hours.value as u64 * SECS_PER_HOUR_U64
        + minutes.value as u64 * SECS_PER_MINUTE_U64
        + seconds.value as u64;
    Ok(Read {
        value: Some(Carried {
            unit: ParseUnit::Offset,
            value: integer_of(negative, size),
        }),
        next: seconds.next,
    })
}

pub fn parse_zone(zone: Zone, text: &[u8], cursor: Cursor) -> Result<Read<Option<Carried>>, Stop>
    requires { cursor.at ≤ length text.now }
    ensures { result ≡ part_at cursor.at (reading.taken_zone zone.utc zone.colon zone.minutes zone.seconds (drop cursor.at text.now)) }
{
    let sign = zone_sign(zone.utc, text, cursor)?;
    match sign.value {
        ZoneSign::Utc => Ok(Read {
            value: Some(Carried {
                unit: ParseUnit::Offset,
                value: 0,
            }),
            next: sign.next,
        }),
        ZoneSign::Ahead => zone_from(zone, false, text, sign.next),
        ZoneSign::BehindUtc => zone_from(zone, true, text, sign.next),
    }
}
