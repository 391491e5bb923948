//! Writes dates, times and timestamps at a position of a text.
ghost use Rattle.std.specs.Prelude.{◌≡◌, ◌<◌, ◌≤◌, ◌+◌, ◌/◌, ◌%◌, option_map, length, IsTrue, ◌↔◌};
ghost use Rattle.std.specs.Prelude.{pos, unsigned_abs};
ghost use Rattle.std.specs.Int.{int_div_euclid, int_rem_euclid};
ghost use Rattle.ipc_model.specs.Ranges.{IsTimeOfDay, ticks_in_a_day};
ghost use Rattle.ipc_text_temporal.specs.Temporals as spec;
ghost use Rattle.ipc_text_temporal.specs.Temporals.{per_second, clock_text, fraction_text};
ghost use Rattle.ipc_text_temporal.specs.Temporals.{time_of_day, zone_text};
ghost use Rattle.ipc_text_temporal.specs.Places.{with_text, WritesText};

use crate::calendar::put_day;
use crate::places::{put_byte, put_three_digits, put_two_digits};
use ipc_model::{DateUnit, TimeUnit};

pub(crate) fn per_second(unit: TimeUnit) -> u64
    ensures { result ≡ per_second unit }
{
    match unit {
        TimeUnit::Second => 1,
        TimeUnit::Millisecond => 1_000,
        TimeUnit::Microsecond => 1_000_000,
        TimeUnit::Nanosecond => 1_000_000_000,
    }
}

// How many of a unit a day of 24 hours has (Schema.fbs, table Time).
pub(crate) fn ticks_in_a_day(unit: TimeUnit) -> i64
    ensures { result ≡ pos (ticks_in_a_day unit) }
{
    (86_400 * per_second(unit)) as i64
}

// The seconds of a number of units, and the remaining part of a second. A division by a constant is
// compiled to a multiplication.
#[inline(always)]
fn seconds_and_part(unit: TimeUnit, number: u64) -> (u64, u64)
    ensures seconds { result.0 ≡ number / per_second unit }
    ensures part { result.1 ≡ number % per_second unit }
{
    match unit {
        TimeUnit::Second => (number, 0),
        TimeUnit::Millisecond => (number / 1_000, number % 1_000),
        TimeUnit::Microsecond => (number / 1_000_000, number % 1_000_000),
        TimeUnit::Nanosecond => (number / 1_000_000_000, number % 1_000_000_000),
    }
}

// The day of a number of units from 1970-01-01, and the units after its midnight.
#[inline(always)]
fn day_and_time(unit: TimeUnit, number: i64) -> (i64, u64)
    ensures day { result.0 ≡ int_div_euclid number (pos (ticks_in_a_day unit)) }
    ensures time { result.1 ≡ unsigned_abs (int_rem_euclid number (pos (ticks_in_a_day unit))) }
    ensures within { result.1 < ticks_in_a_day unit }
{
    match unit {
        TimeUnit::Second => (number.div_euclid(86_400), number.rem_euclid(86_400) as u64),
        TimeUnit::Millisecond => (
            number.div_euclid(86_400_000),
            number.rem_euclid(86_400_000) as u64,
        ),
        TimeUnit::Microsecond => (
            number.div_euclid(86_400_000_000),
            number.rem_euclid(86_400_000_000) as u64,
        ),
        TimeUnit::Nanosecond => (
            number.div_euclid(86_400_000_000_000),
            number.rem_euclid(86_400_000_000_000) as u64,
        ),
    }
}

// Writes the text of a number of seconds after midnight.
#[inline(always)]
fn put_clock(text: &mut [u8], at: usize, seconds: u32)
    requires small { seconds < 86_400 }
    requires room { at + 8 ≤ length text.old }
    ensures same_room { length text.new ≡ length text.old }
    ensures text { text.new ≡ with_text text.old at (clock_text seconds) }
{
    put_two_digits(text, at, seconds / 3_600);
    put_byte(text, at + 2, b':');
    put_two_digits(text, at + 3, seconds / 60 % 60);
    put_byte(text, at + 5, b':');
    put_two_digits(text, at + 6, seconds % 60);
}

// Writes the text of a part of a second, and returns where it ends.
#[inline(always)]
fn put_fraction(text: &mut [u8], at: usize, unit: TimeUnit, part: u32) -> usize
    requires small { part < per_second unit }
    requires room { at + 10 ≤ length text.old }
    ensures within { result ≤ at + 10 }
    ensures same_room { length text.new ≡ length text.old }
    ensures end { result ≡ at + length (fraction_text unit part) }
    ensures text { text.new ≡ with_text text.old at (fraction_text unit part) }
{
    match unit {
        TimeUnit::Second => at,
        TimeUnit::Millisecond => {
            put_byte(text, at, b'.');
            put_three_digits(text, at + 1, part);
            at + 4
        }
        TimeUnit::Microsecond => {
            put_byte(text, at, b'.');
            put_three_digits(text, at + 1, part / 1_000);
            put_three_digits(text, at + 4, part % 1_000);
            at + 7
        }
        TimeUnit::Nanosecond => {
            put_byte(text, at, b'.');
            put_three_digits(text, at + 1, part / 1_000_000);
            put_three_digits(text, at + 4, part / 1_000 % 1_000);
            put_three_digits(text, at + 7, part % 1_000);
            at + 10
        }
    }
}

// Writes the text of a number of units after midnight, and returns the position after it.
#[inline(always)]
fn put_time_of_day(text: &mut [u8], at: usize, unit: TimeUnit, number: u64) -> usize
    requires small { number < ticks_in_a_day unit }
    requires room { at + 18 ≤ length text.old }
    ensures within { result ≤ at + 18 }
    ensures same_room { length text.new ≡ length text.old }
    ensures end { result ≡ at + length (time_of_day unit number) }
    ensures text { text.new ≡ with_text text.old at (time_of_day unit number) }
{
    let (seconds, part) = seconds_and_part(unit, number);
    put_clock(text, at, seconds as u32);
    put_fraction(text, at + 8, unit, part as u32)
}

// Writes `Z` for a time zone that is present and not empty, and returns where it ends.
#[inline(always)]
fn put_zone(text: &mut [u8], at: usize, timezone: Option<&str>) -> usize
    requires { at + 1 ≤ length text.old }
    ensures end { result ≡ at + length (zone_text (option_map (λ zone. zone.now) timezone.entry)) }
    ensures text { text.new
        ≡ with_text text.old at (zone_text (option_map (λ zone. zone.now) timezone.entry)) }
{
    match timezone {
        Some(zone) if !zone.is_empty() => {
            put_byte(text, at, b'Z');
            at + 1
        }
        _ => at,
    }
}

/// Writes the text of a date at `at`, as `date_text` does, and returns the position after it. If
/// there is no text, it writes nothing and returns `None`.
#[inline(always)]
pub(crate) fn put_date(text: &mut [u8], at: usize, unit: DateUnit, number: i64) -> Option<usize>
    requires { at + 32 ≤ length text.old }
    ensures { WritesText (spec.date_text unit number) at text.old text.new result }
{
    match unit {
        DateUnit::Day => put_day(text, at, number),
        DateUnit::Millisecond => {
            if number.rem_euclid(86_400_000) != 0 {
                return None;
            }
            put_day(text, at, number.div_euclid(86_400_000))
        }
    }
}

// Whether a number of units after midnight is a time of day: at least 0 and below 24 hours.
#[inline(always)]
fn is_time_of_day(unit: TimeUnit, number: i64) -> bool
    ensures { IsTrue result ↔ IsTimeOfDay unit number }
{
    number >= 0 && number < ticks_in_a_day(unit)
}

/// Writes the text of a time of day at `at`, as `time_text` does, and returns the position after
/// it. If there is no text, it writes nothing and returns `None`.
#[inline(always)]
pub(crate) fn put_time(text: &mut [u8], at: usize, unit: TimeUnit, number: i64) -> Option<usize>
    requires { at + 32 ≤ length text.old }
    ensures { WritesText (spec.time_text unit number) at text.old text.new result }
{
    if !is_time_of_day(unit, number) {
        return None;
    }
    Some(put_time_of_day(text, at, unit, number as u64))
}

/// Writes the text of a timestamp at `at`, as `timestamp_text` does, and returns the position after
/// it. If there is no text, it writes nothing and returns `None`.
#[inline(always)]
pub(crate) fn put_timestamp(
    text: &mut [u8],
    at: usize,
    unit: TimeUnit,
    timezone: Option<&str>,
    number: i64,
) -> Option<usize>
    requires { at + 32 ≤ length text.old }
    ensures { WritesText
        (spec.timestamp_text unit (option_map (λ zone. zone.now) timezone.entry) number)
        at text.old text.new result }
{
    let (day, time) = day_and_time(unit, number);
    let start = put_day(text, at, day)?;
    put_byte(text, start, b'T');
    let end = put_time_of_day(text, start + 1, unit, time);
    Some(put_zone(text, end, timezone))
}
