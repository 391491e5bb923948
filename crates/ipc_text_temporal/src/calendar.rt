ghost use Rattle.std.specs.Prelude.{◌≡◌, ◌≤◌, ◌+◌, IfSome, length, int_lt, neg_ℤ, pos, ◌≤ℤ◌};
ghost use Rattle.jiff_core.specs.Date.{epoch_day};
ghost use Rattle.ipc_text_temporal.specs.Calendar.{day_text, days_before_epoch, last_day};
ghost use Rattle.ipc_text_temporal.specs.Places.{WritesText};

use crate::places::{put_byte, put_four_digits, put_two_digits};
use jiff_core::civil::Date;

// The number of the day 0001-01-01, and that of 9999-12-31.
const FIRST_DAY: i64 = -719_162;

const LAST_DAY: i64 = 2_932_896;

// Whether the day with this number is before the year 0001.
#[inline(always)]
fn is_too_early(day: i64) -> bool
    ensures { result ≡ int_lt day (neg_ℤ (pos days_before_epoch)) }
{
    day < FIRST_DAY
}

// Whether the day with this number is after the year 9999.
#[inline(always)]
fn is_too_late(day: i64) -> bool
    ensures { result ≡ int_lt (pos last_day) day }
{
    day > LAST_DAY
}

// The day with this number, which is in the years 0001 to 9999. It is counted from -9999-01-01 on,
// so that there is no other answer.
#[inline(always)]
fn date_of(day: i64) -> Date
    requires first { neg_ℤ (pos days_before_epoch) ≤ℤ day }
    requires last { day ≤ℤ pos last_day }
    ensures { epoch_day result ≡ day }
{
    Date::from_days_since_min((day + 4_371_587) as u32)
}

/// Writes the text of a day in the years 0001 to 9999, and returns the position after it. For any
/// other day it writes nothing and returns `None`.
#[inline(always)]
pub(crate) fn put_day(text: &mut [u8], at: usize, day: i64) -> Option<usize>
    requires { at + 10 ≤ length text.old }
    ensures end { IfSome result (λ end. end ≡ at + 10) }
    ensures same_room { length text.new ≡ length text.old }
    ensures text { WritesText (day_text day) at text.old text.new result }
{
    if is_too_early(day) || is_too_late(day) {
        return None;
    }
    let date = date_of(day);
    put_four_digits(text, at, u32::from(date.year.unsigned_abs()));
    put_byte(text, at + 4, b'-');
    put_two_digits(text, at + 5, u32::from(date.month));
    put_byte(text, at + 7, b'-');
    put_two_digits(text, at + 8, u32::from(date.day));
    Some(at + 10)
}
