//! Reads dates and timestamps by the positions of their digits, and passes other texts to
//! `ipc_text_temporal`.
ghost use Rattle.std.specs.Prelude.{◌≡◌, ◌<◌, ◌≤◌, ◌+◌, ◌*◌, ◌/◌, ◌%◌, ◌++◌, ℤ, pos, length};
ghost use Rattle.std.specs.Prelude.{get_or, drop, ◌-◌, take, unsigned_abs, IfSome, Some};
ghost use Rattle.std.specs.Prelude.{FitsSigned, IsTrue, ℕ};
ghost use Rattle.std.specs.Int.{w64, int_div_euclid, int_rem_euclid};
ghost use Rattle.ipc_model.specs.Ranges.{ticks_in_a_day};
ghost use Rattle.ipc_text_temporal.specs.Calendar.{day_text};
ghost use Rattle.ipc_text_temporal.specs.Temporals.{timestamp_text, per_second, clock_text};
ghost use Rattle.ipc_text_temporal.specs.Temporals.{fraction_text, zone_text};
ghost use Rattle.jiff_core.specs.Calendar.{IsEpochDay};

use ipc_model::{DateUnit, Text, TimeUnit};
use ipc_text_temporal::{read_date, read_timestamp};
use jiff_core::civil::Date;

// The number of the day 0001-01-01, the first that has a text.
const FIRST_DAY: i64 = -719_162;

// Within this number of days before and after 1970-01-01, nanoseconds fit.
const DAYS_OF_NANOSECONDS: i64 = 106_000;

// The number of the digit at a position, or at least 10 if there is no digit.
#[inline(always)]
fn digit_at(text: &[u8], place: usize) -> u32
    requires { place < length text.now }
    ensures { result < 10 → get_or text.now place 0 ≡ 48 + result }
{
    u32::from(text[place].wrapping_sub(b'0'))
}

// The number of the two digits from a position on, or 100 if they are no digits.
#[inline(always)]
fn pair_at(text: &[u8], place: usize) -> u32
    requires { place + 1 < length text.now }
    ensures first { result < 100 → get_or text.now place 0 ≡ 48 + result / 10 }
    ensures second { result < 100 → get_or text.now (place + 1) 0 ≡ 48 + result % 10 }
    ensures small { result ≤ 100 }
{
    let tens = digit_at(text, place);
    let ones = digit_at(text, place + 1);
    if tens > 9 || ones > 9 {
        return 100;
    }
    tens * 10 + ones
}

// The number of the three digits from a position on, or 1,000 if they are no digits.
#[inline(always)]
fn three_at(text: &[u8], place: usize) -> u32
    requires { place + 2 < length text.now }
    ensures first { result < 1_000 → get_or text.now place 0 ≡ 48 + result / 100 }
    ensures second { result < 1_000 → get_or text.now (place + 1) 0 ≡ 48 + result % 100 / 10 }
    ensures third { result < 1_000 → get_or text.now (place + 2) 0 ≡ 48 + result % 100 % 10 }
    ensures small { result ≤ 1_000 }
{
    let hundreds = digit_at(text, place);
    let rest = pair_at(text, place + 1);
    if hundreds > 9 || rest > 99 {
        return 1_000;
    }
    hundreds * 100 + rest
}

// Whether each leading byte of `text` is between those of `least` and `most`. All positions are
// tested in one loop without a branch.
#[inline(always)]
fn lies_between(text: &[u8], least: &[u8], most: &[u8]) -> bool
    requires inside { length least.now ≤ length text.now }
    requires both { length most.now ≡ length least.now }
    ensures { IsTrue result → (k : ℕ) → k < length least.now
        → (get_or least.now k 0 ≤ get_or text.now k 0)
        × (get_or text.now k 0 ≤ get_or most.now k 0) }
{
    let mut lies = true;
    for i in 0..least.len() {
        lies &= least[i] <= text[i] && text[i] <= most[i];
    }
    lies
}

// The number of the two bytes from a position on, which are known to be digits.
#[inline(always)]
fn pair_here(text: &[u8], place: usize) -> u32
    requires inside { place + 1 < length text.now }
    requires tens { (48 ≤ get_or text.now place 0) × (get_or text.now place 0 ≤ 57) }
    requires ones { (48 ≤ get_or text.now (place + 1) 0) × (get_or text.now (place + 1) 0 ≤ 57) }
    ensures first { get_or text.now place 0 ≡ 48 + result / 10 }
    ensures second { get_or text.now (place + 1) 0 ≡ 48 + result % 10 }
    ensures small { result < 100 }
{
    u32::from(text[place]) * 10 + u32::from(text[place + 1]) - 528
}

// The number of the three bytes from a position on, which are known to be digits.
#[inline(always)]
fn three_here(text: &[u8], place: usize) -> u32
    requires inside { place + 2 < length text.now }
    requires hundreds { (48 ≤ get_or text.now place 0) × (get_or text.now place 0 ≤ 57) }
    requires tens { (48 ≤ get_or text.now (place + 1) 0) × (get_or text.now (place + 1) 0 ≤ 57) }
    requires ones { (48 ≤ get_or text.now (place + 2) 0) × (get_or text.now (place + 2) 0 ≤ 57) }
    ensures first { get_or text.now place 0 ≡ 48 + result / 100 }
    ensures second { get_or text.now (place + 1) 0 ≡ 48 + result % 100 / 10 }
    ensures third { get_or text.now (place + 2) 0 ≡ 48 + result % 100 % 10 }
    ensures small { result < 1_000 }
{
    let hundreds = u32::from(text[place]) * 100;
    hundreds + u32::from(text[place + 1]) * 10 + u32::from(text[place + 2]) - 5_328
}

// The number of the day at the front of the text.
#[inline(never)]
fn leading_day(text: &[u8]) -> Option<i64>
    requires { 10 ≤ length text.now }
    ensures text { IfSome result (λ z. day_text z ≡ Some (take 10 text.now)) }
    ensures small { IfSome result (λ z. IsEpochDay z) }
{
    if !lies_between(text, b"0000-00-00", b"9999699699") {
        return None;
    }
    if text[4] != b'-' || text[7] != b'-' {
        return None;
    }
    let hundreds = pair_here(text, 0);
    let years = pair_here(text, 2);
    let month = pair_here(text, 5);
    let day = pair_here(text, 8);
    let Ok(date) = Date::new((hundreds * 100 + years) as i16, month as i8, day as i8) else {
        return None;
    };
    let number = i64::from(date.to_unix_epoch_day());
    if number < FIRST_DAY {
        return None;
    }
    Some(number)
}

// The seconds after midnight of the time at the front of the text.
#[inline(always)]
fn leading_clock(text: &[u8]) -> Option<u64>
    requires { 8 ≤ length text.now }
    ensures text { IfSome result (λ n. take 8 text.now ≡ clock_text n) }
    ensures small { IfSome result (λ n. n < 86_400) }
{
    if !lies_between(text, b"00:00:00", b"99C99C99") {
        return None;
    }
    if text[2] != b':' || text[5] != b':' {
        return None;
    }
    let hours = pair_here(text, 0);
    let minutes = pair_here(text, 3);
    let seconds = pair_here(text, 6);
    if hours > 23 || minutes > 59 || seconds > 59 {
        return None;
    }
    Some(u64::from(hours * 3_600 + minutes * 60 + seconds))
}

// The number of the three digits after a point.
#[inline(always)]
fn millis(text: &[u8]) -> Option<u64>
    ensures text { IfSome result (λ n. text.now ≡ fraction_text TimeUnit.Millisecond n) }
    ensures small { IfSome result (λ n. n < 1_000) }
{
    if text.len() != 4 || text[0] != b'.' {
        return None;
    }
    let part = three_at(text, 1);
    if part > 999 {
        return None;
    }
    Some(u64::from(part))
}

// The number of the six digits after a digit and a point. The first digit is that of the seconds:
// with it there are eight positions, which are tested at once.
#[inline(always)]
fn micros_after_digit(text: &[u8]) -> Option<u64>
    requires { 1 ≤ length text.now }
    ensures text { IfSome result (λ n. take (length text.now - 1) (drop 1 text.now)
        ≡ fraction_text TimeUnit.Microsecond n) }
    ensures small { IfSome result (λ n. n < 1_000_000) }
{
    if text.len() != 8 || !lies_between(text, b"0.000000", b"97999999") || text[1] != b'.' {
        return None;
    }
    let first = three_here(text, 2);
    let second = three_here(text, 5);
    Some(u64::from(first * 1_000 + second))
}

// The number of the nine digits after a point.
#[inline(always)]
fn nanos(text: &[u8]) -> Option<u64>
    ensures text { IfSome result (λ n. text.now ≡ fraction_text TimeUnit.Nanosecond n) }
    ensures small { IfSome result (λ n. n < 1_000_000_000) }
{
    if text.len() != 10 || text[0] != b'.' {
        return None;
    }
    let first = three_at(text, 1);
    let second = three_at(text, 4);
    let third = three_at(text, 7);
    if first > 999 || second > 999 || third > 999 {
        return None;
    }
    Some(u64::from(first * 1_000_000 + second * 1_000 + third))
}

// The part of a second in this unit, whose text follows a digit.
#[inline(always)]
fn fraction_after_digit(unit: TimeUnit, text: &[u8]) -> Option<u64>
    requires { 1 ≤ length text.now }
    ensures text { IfSome result (λ n. take (length text.now - 1) (drop 1 text.now)
        ≡ fraction_text unit n) }
    ensures small { IfSome result (λ n. n < per_second unit) }
{
    match unit {
        TimeUnit::Second if text.len() == 1 => Some(0),
        TimeUnit::Second => None,
        TimeUnit::Millisecond => millis(&text[1..]),
        TimeUnit::Microsecond => micros_after_digit(text),
        TimeUnit::Nanosecond => nanos(&text[1..]),
    }
}

// The units of a number of seconds and a part of one.
#[inline(always)]
fn units_of(unit: TimeUnit, seconds: u64, part: u64) -> u64
    requires seconds { seconds < 86_400 }
    requires part { part < per_second unit }
    ensures units { result ≡ seconds * per_second unit + part }
    ensures within { result < ticks_in_a_day unit }
{
    match unit {
        TimeUnit::Second => seconds + part,
        TimeUnit::Millisecond => seconds * 1_000 + part,
        TimeUnit::Microsecond => seconds * 1_000_000 + part,
        TimeUnit::Nanosecond => seconds * 1_000_000_000 + part,
    }
}

// The number of units from 1970-01-01 to a time of a day, if a quick bound shows that it fits.
#[inline(always)]
fn timestamp_of(unit: TimeUnit, day: i64, units: u64) -> Option<i64>
    requires day { IsEpochDay day }
    requires units { units < ticks_in_a_day unit }
    ensures day { IfSome result (λ z. int_div_euclid z (pos (ticks_in_a_day unit)) ≡ day) }
    ensures units { IfSome result
        (λ z. unsigned_abs (int_rem_euclid z (pos (ticks_in_a_day unit))) ≡ units) }
{
    match unit {
        TimeUnit::Second => Some(day * 86_400 + units as i64),
        TimeUnit::Millisecond => Some(day * 86_400_000 + units as i64),
        TimeUnit::Microsecond => Some(day * 86_400_000_000 + units as i64),
        TimeUnit::Nanosecond => {
            if day < -DAYS_OF_NANOSECONDS || day > DAYS_OF_NANOSECONDS {
                return None;
            }
            Some(day * 86_400_000_000_000 + units as i64)
        }
    }
}

// The text without its final `Z`, which it has if there is a time zone that is not empty.
#[inline(always)]
fn without_zone<'a>(timezone: &Option<Text>, text: &'a [u8]) -> Option<&'a [u8]>
    ensures { IfSome result (λ front. text.now ≡ front.now ++ zone_text timezone.now) }
{
    match timezone {
        Some(zone) if !zone.is_empty() => match text {
            [front @ .., b'Z'] => Some(front),
            _ => None,
        },
        _ => Some(text),
    }
}

// Reads a timestamp from the positions of its digits, if that is possible.
#[inline(never)]
fn plain_timestamp(unit: TimeUnit, timezone: &Option<Text>, text: &[u8]) -> Option<i64>
    ensures { IfSome result (λ z. timestamp_text unit timezone.now z ≡ Some text.now) }
{
    let text = without_zone(timezone, text)?;
    if text.len() < 19 || text[10] != b'T' {
        return None;
    }
    let day = leading_day(text)?;
    let seconds = leading_clock(&text[11..])?;
    let part = fraction_after_digit(unit, &text[18..])?;
    timestamp_of(unit, day, units_of(unit, seconds, part))
}

// Reads a day from the positions of its digits, if that is possible.
#[inline(never)]
fn plain_day(text: &[u8]) -> Option<i64>
    ensures text { IfSome result (λ z. day_text z ≡ Some text.now) }
    ensures fits { IfSome result (λ z. FitsSigned w64 z) }
{
    if text.len() != 10 {
        return None;
    }
    leading_day(text)
}

// Reads any timestamp. It is a function of its own, so that only such texts take its stack space.
#[inline(never)]
fn any_timestamp(unit: TimeUnit, timezone: &Option<Text>, text: &[u8]) -> Option<i64>
    ensures only { IfSome result (λ z. timestamp_text unit timezone.now z ≡ Some text.now) }
    ensures all { (z : ℤ) → FitsSigned w64 z → timestamp_text unit timezone.now z ≡ Some text.now
        → result ≡ Some z }
{
    match timezone {
        Some(zone) => read_timestamp(unit, Some(zone.as_str()), text),
        None => read_timestamp(unit, None, text),
    }
}

/// Reads a timestamp, as `ipc_text_temporal::read_timestamp` does.
#[inline(always)]
pub(crate) fn read_timestamp_field(
    unit: TimeUnit,
    timezone: &Option<Text>,
    text: &[u8],
) -> Option<i64>
    ensures only { IfSome result (λ z. timestamp_text unit timezone.now z ≡ Some text.now) }
    ensures all { (z : ℤ) → FitsSigned w64 z → timestamp_text unit timezone.now z ≡ Some text.now
        → result ≡ Some z }
{
    if let Some(number) = plain_timestamp(unit, timezone, text) {
        return Some(number);
    }
    any_timestamp(unit, timezone, text)
}

/// Reads the number of a day, as `ipc_text_temporal::read_date` does.
pub(crate) fn read_day(text: &[u8]) -> Option<i64>
    ensures only { IfSome result (λ z. day_text z ≡ Some text.now) }
    ensures all { (z : ℤ) → day_text z ≡ Some text.now → result ≡ Some z }
{
    if let Some(number) = plain_day(text) {
        return Some(number);
    }
    read_date(DateUnit::Day, text)
}
