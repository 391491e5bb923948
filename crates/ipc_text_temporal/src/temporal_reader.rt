//! Reads dates, times and timestamps: parses a text into a number, and compares the number's text
//! with it.
ghost use Rattle.std.specs.Prelude.{◌≡◌, ◌<◌, ◌+◌, ◌*◌, ◌/◌, ◌%◌, ◌++◌, ◌∷◌, ◌^◌, ℕ, ℤ, pos, ◌*ℤ◌};
ghost use Rattle.std.specs.Prelude.{◌+ℤ◌, List, IfSome, Some, option_map, FitsSigned};
ghost use Rattle.std.specs.Int.{w64};
ghost use Rattle.ipc_model.specs.Ranges.{ticks_in_a_day};
ghost use Rattle.ipc_text_temporal.specs.Calendar.{Civil, two_digits, four_digits, civil_text};
ghost use Rattle.ipc_text_temporal.specs.Calendar.{day_text};
ghost use Rattle.ipc_text_temporal.specs.Temporals as spec;
ghost use Rattle.ipc_text_temporal.specs.Temporals.{per_second, three_digits, clock_text};
ghost use Rattle.ipc_text_temporal.specs.Temporals.{fraction_text, time_of_day, date_of_day};
ghost use Rattle.jiff_core.specs.Calendar.{IsEpochDay};

use crate::short_text::ShortText;
use crate::temporal::{per_second, ticks_in_a_day};
use crate::texts::{date_text, time_text, timestamp_text};
use ipc_model::{DateUnit, TimeUnit};
use jiff_core::civil::Date;

// The number of the first digit, and the rest of the text.
fn take_digit(text: &[u8]) -> Option<(u32, &[u8])>
    ensures small { IfSome result (λ taken. taken.0 < 10) }
    ensures all { (n : ℕ) (rest : List ℕ) → n < 10 → text.now ≡ (48 + n) ∷ rest
        → option_map {U = ℕ × List ℕ} (λ taken. (taken.0, taken.1.now)) result ≡ Some (n, rest) }
{
    match text {
        [byte, rest @ ..] if *byte >= b'0' && *byte <= b'9' => {
            Some((u32::from(*byte - b'0'), rest))
        }
        _ => None,
    }
}

// The number of the first two digits, and the rest of the text.
fn take_two_digits(text: &[u8]) -> Option<(u32, &[u8])>
    ensures small { IfSome result (λ taken. taken.0 < 100) }
    ensures all { (n : ℕ) (rest : List ℕ) → n < 100 → text.now ≡ two_digits n ++ rest
        → option_map {U = ℕ × List ℕ} (λ taken. (taken.0, taken.1.now)) result ≡ Some (n, rest) }
{
    let (tens, text) = take_digit(text)?;
    let (ones, text) = take_digit(text)?;
    Some((tens * 10 + ones, text))
}

// The number of the first three digits, and the rest of the text.
fn take_three_digits(text: &[u8]) -> Option<(u32, &[u8])>
    ensures small { IfSome result (λ taken. taken.0 < 1_000) }
    ensures all { (n : ℕ) (rest : List ℕ) → n < 1_000 → text.now ≡ three_digits n ++ rest
        → option_map {U = ℕ × List ℕ} (λ taken. (taken.0, taken.1.now)) result ≡ Some (n, rest) }
{
    let (hundreds, text) = take_digit(text)?;
    let (rest, text) = take_two_digits(text)?;
    Some((hundreds * 100 + rest, text))
}

// The number of the first four digits, and the rest of the text.
fn take_four_digits(text: &[u8]) -> Option<(u32, &[u8])>
    ensures small { IfSome result (λ taken. taken.0 < 10_000) }
    ensures all { (n : ℕ) (rest : List ℕ) → n < 10_000 → text.now ≡ four_digits n ++ rest
        → option_map {U = ℕ × List ℕ} (λ taken. (taken.0, taken.1.now)) result ≡ Some (n, rest) }
{
    let (hundreds, text) = take_two_digits(text)?;
    let (rest, text) = take_two_digits(text)?;
    Some((hundreds * 100 + rest, text))
}

// The text after its first byte.
fn after_first_byte(text: &[u8]) -> Option<&[u8]>
    ensures { (byte : ℕ) (rest : List ℕ) → text.now ≡ byte ∷ rest
        → option_map {U = List ℕ} (λ left. left.now) result ≡ Some rest }
{
    match text {
        [_, rest @ ..] => Some(rest),
        _ => None,
    }
}

// The year, month and day at the front of the text, and the rest of the text.
fn take_date(text: &[u8]) -> Option<(i16, i8, i8, &[u8])>
    ensures { (c : Civil) (rest : List ℕ) → c.year < 10_000 → c.month < 100 → c.day < 100
        → text.now ≡ civil_text c ++ rest
        → option_map {U = ℤ × ℤ × ℤ × List ℕ} (λ taken. (taken.0, taken.1, taken.2, taken.3.now))
        result ≡ Some (pos c.year, pos c.month, pos c.day, rest) }
{
    let (year, text) = take_four_digits(text)?;
    let (month, text) = take_two_digits(after_first_byte(text)?)?;
    let (day, text) = take_two_digits(after_first_byte(text)?)?;
    Some((year as i16, month as i8, day as i8, text))
}

// The number of the day at the front of the text, and the rest of the text.
fn take_day(text: &[u8]) -> Option<(i64, &[u8])>
    ensures small { IfSome result (λ taken. IsEpochDay taken.0) }
    ensures all { (z : ℤ) (day rest : List ℕ) → day_text z ≡ Some day → text.now ≡ day ++ rest
        → option_map {U = ℤ × List ℕ} (λ taken. (taken.0, taken.1.now)) result ≡ Some (z, rest) }
{
    let (year, month, day, text) = take_date(text)?;
    let Ok(date) = Date::new(year, month, day) else {
        return None;
    };
    Some((i64::from(date.to_unix_epoch_day()), text))
}

// The seconds after midnight of the time at the front of the text, and the rest of the text.
fn take_clock(text: &[u8]) -> Option<(u64, &[u8])>
    ensures small { IfSome result (λ taken. taken.0 < 1_000_000) }
    ensures all { (n : ℕ) (rest : List ℕ) → n < 86_400 → text.now ≡ clock_text n ++ rest
        → option_map {U = ℕ × List ℕ} (λ taken. (taken.0, taken.1.now)) result ≡ Some (n, rest) }
{
    let (hours, text) = take_two_digits(text)?;
    let (minutes, text) = take_two_digits(after_first_byte(text)?)?;
    let (seconds, text) = take_two_digits(after_first_byte(text)?)?;
    Some((u64::from(hours * 3_600 + minutes * 60 + seconds), text))
}

// The number of the first two groups of three digits, and the rest of the text.
fn take_six_digits(text: &[u8]) -> Option<(u32, &[u8])>
    ensures small { IfSome result (λ taken. taken.0 < 1_000_000) }
    ensures all { (n : ℕ) (rest : List ℕ) → n < 1_000_000
        → text.now ≡ three_digits (n / 1_000) ++ three_digits (n % 1_000) ++ rest
        → option_map {U = ℕ × List ℕ} (λ taken. (taken.0, taken.1.now)) result ≡ Some (n, rest) }
{
    let (thousands, text) = take_three_digits(text)?;
    let (ones, text) = take_three_digits(text)?;
    Some((thousands * 1_000 + ones, text))
}

// The number of the first three groups of three digits, and the rest of the text.
fn take_nine_digits(text: &[u8]) -> Option<(u32, &[u8])>
    ensures small { IfSome result (λ taken. taken.0 < 1_000_000_000) }
    ensures all { (n : ℕ) (rest : List ℕ) → n < 1_000_000_000
        → text.now ≡ three_digits (n / 1_000_000) ++ three_digits (n / 1_000 % 1_000)
        ++ three_digits (n % 1_000) ++ rest
        → option_map {U = ℕ × List ℕ} (λ taken. (taken.0, taken.1.now)) result ≡ Some (n, rest) }
{
    let (millions, text) = take_three_digits(text)?;
    let (thousands, text) = take_three_digits(text)?;
    let (ones, text) = take_three_digits(text)?;
    Some((millions * 1_000_000 + thousands * 1_000 + ones, text))
}

// The part of a second in this unit at the front of the text, and the rest of the text.
fn take_fraction(unit: TimeUnit, text: &[u8]) -> Option<(u32, &[u8])>
    ensures small { IfSome result (λ taken. taken.0 < 1_000_000_000) }
    ensures all { (n : ℕ) (rest : List ℕ) → n < per_second unit
        → text.now ≡ fraction_text unit n ++ rest
        → option_map {U = ℕ × List ℕ} (λ taken. (taken.0, taken.1.now)) result ≡ Some (n, rest) }
{
    match unit {
        TimeUnit::Second => Some((0, text)),
        TimeUnit::Millisecond => take_three_digits(after_first_byte(text)?),
        TimeUnit::Microsecond => take_six_digits(after_first_byte(text)?),
        TimeUnit::Nanosecond => take_nine_digits(after_first_byte(text)?),
    }
}

// The units after midnight of the time of day at the front of the text, and the rest of the text.
fn take_time_of_day(unit: TimeUnit, text: &[u8]) -> Option<(u64, &[u8])>
    ensures small { IfSome result (λ taken. taken.0 < 2 ^ 50) }
    ensures all { (n : ℕ) (rest : List ℕ) → n < ticks_in_a_day unit
        → text.now ≡ time_of_day unit n ++ rest
        → option_map {U = ℕ × List ℕ} (λ taken. (taken.0, taken.1.now)) result ≡ Some (n, rest) }
{
    let (seconds, text) = take_clock(text)?;
    let (part, text) = take_fraction(unit, text)?;
    Some((seconds * per_second(unit) + u64::from(part), text))
}

// The number, where this is its text.
fn if_canonical(number: i64, canonical: Option<ShortText>, text: &[u8]) -> Option<i64>
    ensures only { IfSome result (λ z. (z ≡ number) × (canonical ≡ Some text.now)) }
    ensures all { canonical ≡ Some text.now → result ≡ Some number }
{
    if canonical?.as_str().as_bytes() == text {
        Some(number)
    } else {
        None
    }
}

// The number of a day in this unit.
fn date_of_day(unit: DateUnit, day: i64) -> i64
    requires { IsEpochDay day }
    ensures { result ≡ date_of_day unit day }
{
    match unit {
        DateUnit::Day => day,
        DateUnit::Millisecond => day * 86_400_000,
    }
}

/// Reads a date, `YYYY-MM-DD` in the years 0001 to 9999. Returns its days or milliseconds from
/// 1970-01-01, or `None` for any other text.
pub fn read_date(unit: DateUnit, text: &[u8]) -> Option<i64>
    ensures only { IfSome result (λ z. spec.date_text unit z ≡ Some text.now) }
    ensures all { (z : ℤ) → spec.date_text unit z ≡ Some text.now → result ≡ Some z }
{
    let (day, _) = take_day(text)?;
    let number = date_of_day(unit, day);
    if_canonical(number, date_text(unit, number), text)
}

/// Reads a time, `hh:mm:ss`, followed by a point and 3, 6 or 9 digits if the unit is not seconds.
/// Returns the number of units after midnight, or `None` for any other text.
pub fn read_time(unit: TimeUnit, text: &[u8]) -> Option<i64>
    ensures only { IfSome result (λ z. spec.time_text unit z ≡ Some text.now) }
    ensures all { (z : ℤ) → spec.time_text unit z ≡ Some text.now → result ≡ Some z }
{
    let (units, _) = take_time_of_day(unit, text)?;
    let number = units as i64;
    if_canonical(number, time_text(unit, number), text)
}

// The number of a timestamp that is `units` units after the midnight with which the day begins.
fn timestamp(unit: TimeUnit, day: i64, units: u64) -> Option<i64>
    requires day { IsEpochDay day }
    requires small { units < 2 ^ 50 }
    ensures { (z : ℤ) → FitsSigned w64 z → day *ℤ pos (ticks_in_a_day unit) +ℤ pos units ≡ z
        → result ≡ Some z }
{
    let number = i128::from(day) * i128::from(ticks_in_a_day(unit)) + i128::from(units);
    match i64::try_from(number) {
        Ok(number) => Some(number),
        Err(_) => None,
    }
}

/// Reads a timestamp: a date, `T`, a time as in `read_time`, and `Z` if there is a time zone that
/// is not empty. Returns the number of units from 1970-01-01T00:00:00, or `None` for any other
/// text.
pub fn read_timestamp(unit: TimeUnit, timezone: Option<&str>, text: &[u8]) -> Option<i64>
    ensures only { IfSome result (λ z. spec.timestamp_text unit
        (option_map (λ zone. zone.now) timezone.entry) z ≡ Some text.now) }
    ensures all { (z : ℤ) → FitsSigned w64 z → spec.timestamp_text unit
        (option_map (λ zone. zone.now) timezone.entry) z ≡ Some text.now → result ≡ Some z }
{
    let (day, rest) = take_day(text)?;
    let (units, _) = take_time_of_day(unit, after_first_byte(rest)?)?;
    let number = timestamp(unit, day, units)?;
    if_canonical(number, timestamp_text(unit, timezone, number), text)
}
