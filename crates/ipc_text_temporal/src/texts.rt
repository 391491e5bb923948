//! Writes dates, times and timestamps as short texts, or at a position of a text.
ghost use Rattle.std.specs.Prelude.{◌≡◌, ◌≤◌, ◌+◌, ◌++◌, option_map, length, take, ◌↔◌, drop};
ghost use Rattle.std.specs.Prelude.{IfSome, IsNone, IsSome};
ghost use Rattle.ipc_model.specs.Ranges.{IsTimeOfDay};
ghost use Rattle.ipc_model.specs.declared.schema.DateUnit.{DateUnit};
ghost use Rattle.ipc_model.specs.declared.schema.TimeUnit.{TimeUnit};
ghost use Rattle.ipc_text_temporal.specs.Temporals as spec;
ghost use Rattle.ipc_text_temporal.specs.Temporals.{temporal_text};
ghost use Rattle.ipc_text_temporal.specs.Places.{WritesText};
ghost use Rattle.ipc_text_temporal.specs.ShortTexts.{IsPlain};

use crate::short_text::ShortText;
use crate::temporal::{put_date, put_time, put_timestamp};
use ipc_model::{DataType, DateUnit, Text, TimeUnit};

/// Returns the text of a date, `YYYY-MM-DD`. `number` counts days or milliseconds from 1970-01-01.
/// Returns `None` outside the years 0001 to 9999, and for milliseconds that are no whole days.
#[tactic(auto, using(crate::proofs::Plain::date_plain))]
pub fn date_text(unit: DateUnit, number: i64) -> Option<ShortText>
    ensures { result ≡ spec.date_text unit number }
{
    let mut bytes = [0; 32];
    let len = put_date(&mut bytes, 0, unit, number)?;
    Some(ShortText::new(bytes, len))
}

/// Returns the text of a time of day: `hh:mm:ss`, followed by a point and 3, 6 or 9 digits if the
/// unit is not seconds. `number` counts units after midnight. Returns `None` below 0 and from 24
/// hours on.
#[tactic(auto, using(crate::proofs::Times::time_has_text))]
pub fn time_text(unit: TimeUnit, number: i64) -> Option<ShortText>
    ensures text { result ≡ spec.time_text unit number }
    ensures conforming { IsSome result ↔ IsTimeOfDay unit number }
{
    let mut bytes = [0; 32];
    let len = put_time(&mut bytes, 0, unit, number)?;
    Some(ShortText::new(bytes, len))
}

/// Returns the text of a timestamp. It is the date, `T`, `hh:mm:ss`, and a point with 3, 6 or 9
/// digits if the unit is not seconds. `Z` follows if there is a time zone that is not empty.
/// `number` counts units from 1970-01-01T00:00:00. Returns `None` outside the years 0001 to 9999.
#[tactic(auto, using(crate::proofs::Plain::timestamp_plain))]
pub fn timestamp_text(unit: TimeUnit, timezone: Option<&str>, number: i64) -> Option<ShortText>
    ensures { result ≡ spec.timestamp_text unit
        (option_map (λ zone. zone.now) timezone.entry) number }
{
    let mut bytes = [0; 32];
    let len = put_timestamp(&mut bytes, 0, unit, timezone, number)?;
    Some(ShortText::new(bytes, len))
}

// The time zone as a text that is lent.
#[inline(always)]
fn zone_of(timezone: &Option<Text>) -> Option<&str>
    ensures { option_map (λ zone. zone.now) result ≡ timezone.now }
{
    match timezone {
        Some(zone) => Some(zone.as_str()),
        None => None,
    }
}

// Writes the text of a date in days, as `put_temporal` does. Each unit has a function of its own
// that isn't inlined: it saves few registers, and the other arms do not pay for it.
#[inline(never)]
fn put_days(text: &mut [u8], at: usize, number: i64) -> Option<usize>
    requires { at + 32 ≤ length text.old }
    ensures { WritesText (spec.date_text DateUnit.Day number) at text.old text.new result }
{
    put_date(text, at, DateUnit::Day, number)
}

// Writes the text of a date in milliseconds.
#[inline(never)]
fn put_whole_days(text: &mut [u8], at: usize, number: i64) -> Option<usize>
    requires { at + 32 ≤ length text.old }
    ensures { WritesText (spec.date_text DateUnit.Millisecond number) at text.old text.new result }
{
    put_date(text, at, DateUnit::Millisecond, number)
}

// Writes the text of a time.
#[inline(never)]
fn put_any_time(text: &mut [u8], at: usize, unit: TimeUnit, number: i64) -> Option<usize>
    requires { at + 32 ≤ length text.old }
    ensures { WritesText (spec.time_text unit number) at text.old text.new result }
{
    put_time(text, at, unit, number)
}

// Writes the text of a timestamp in seconds.
#[inline(never)]
fn put_seconds(text: &mut [u8], at: usize, timezone: &Option<Text>, number: i64) -> Option<usize>
    requires { at + 32 ≤ length text.old }
    ensures { WritesText (spec.timestamp_text TimeUnit.Second timezone.now number)
        at text.old text.new result }
{
    put_timestamp(text, at, TimeUnit::Second, zone_of(timezone), number)
}

// Writes the text of a timestamp in milliseconds.
#[inline(never)]
fn put_milliseconds(
    text: &mut [u8],
    at: usize,
    timezone: &Option<Text>,
    number: i64,
) -> Option<usize>
    requires { at + 32 ≤ length text.old }
    ensures { WritesText (spec.timestamp_text TimeUnit.Millisecond timezone.now number)
        at text.old text.new result }
{
    put_timestamp(text, at, TimeUnit::Millisecond, zone_of(timezone), number)
}

// Writes the text of a timestamp in microseconds.
#[inline(never)]
fn put_microseconds(
    text: &mut [u8],
    at: usize,
    timezone: &Option<Text>,
    number: i64,
) -> Option<usize>
    requires { at + 32 ≤ length text.old }
    ensures { WritesText (spec.timestamp_text TimeUnit.Microsecond timezone.now number)
        at text.old text.new result }
{
    put_timestamp(text, at, TimeUnit::Microsecond, zone_of(timezone), number)
}

// Writes the text of a timestamp in nanoseconds.
#[inline(never)]
fn put_nanoseconds(
    text: &mut [u8],
    at: usize,
    timezone: &Option<Text>,
    number: i64,
) -> Option<usize>
    requires { at + 32 ≤ length text.old }
    ensures { WritesText (spec.timestamp_text TimeUnit.Nanosecond timezone.now number)
        at text.old text.new result }
{
    put_timestamp(text, at, TimeUnit::Nanosecond, zone_of(timezone), number)
}

// A point in time.
#[inline(always)]
fn put_any_timestamp(
    text: &mut [u8],
    at: usize,
    unit: TimeUnit,
    timezone: &Option<Text>,
    number: i64,
) -> Option<usize>
    requires { at + 32 ≤ length text.old }
    ensures { WritesText (spec.timestamp_text unit timezone.now number)
        at text.old text.new result }
{
    match unit {
        TimeUnit::Second => put_seconds(text, at, timezone, number),
        TimeUnit::Millisecond => put_milliseconds(text, at, timezone, number),
        TimeUnit::Microsecond => put_microseconds(text, at, timezone, number),
        TimeUnit::Nanosecond => put_nanoseconds(text, at, timezone, number),
    }
}

/// Writes the text of a date, a time or a timestamp at `at`, and returns the position after it. The
/// text is that of `date_text`, `time_text` or `timestamp_text`. If the number has no text or is of
/// another type, it writes nothing and returns `None`.
///
/// `text` must have at least 32 bytes from `at` on. The bytes before the text and after its end are
/// unchanged.
#[inline(never)]
#[tactic(auto, using(crate::proofs::Plain::moment_plain))]
pub fn put_temporal(text: &mut [u8], at: usize, kind: &DataType, number: i64) -> Option<usize>
    requires { at + 32 ≤ length text.old }
    ensures end { IfSome result (λ end. end ≤ at + 32) }
    ensures same_room { length text.new ≡ length text.old }
    ensures unchanged { IsNone result → text.new ≡ text.old }
    ensures text { option_map (λ end. take end text.new) result
        ≡ option_map (λ moment. take at text.old ++ moment)
        (temporal_text kind.now number) }
    ensures behind { IfSome result (λ end. drop end text.new ≡ drop end text.old) }
    // The text needs no escapes in JSON, and no quotes in CSV.
    ensures plain { IfSome (temporal_text kind.now number) IsPlain }
{
    match kind {
        DataType::Date(DateUnit::Day) => put_days(text, at, number),
        DataType::Date(DateUnit::Millisecond) => put_whole_days(text, at, number),
        DataType::Time(unit) => put_any_time(text, at, *unit, number),
        DataType::Timestamp { unit, timezone } => {
            put_any_timestamp(text, at, *unit, timezone, number)
        }
        _ => None,
    }
}

/// Returns the text of a date, a time or a timestamp, if it has one. Returns `None` for any other
/// type.
pub fn temporal_text(kind: &DataType, number: i64) -> Option<ShortText>
    ensures { result ≡ temporal_text kind.now number }
{
    let mut bytes = [0; 32];
    let len = put_temporal(&mut bytes, 0, kind, number)?;
    Some(ShortText::new(bytes, len))
}
