//! Numbers in decimal, eight digits at a time.
//!
//! The digits of a number below 10^8 are the eight bytes of one `u64`, computed for all of its
//! parts at once: halves of four digits, quarters of two, and bytes of one. A shift drops the
//! leading zeros. No branch depends on the number of digits, and nothing is copied. A loop over
//! pairs of digits would take most of the time of printing rows.
//!
//! A part is cut in two by one product for all parts, whose factor is a little more than the
//! reciprocal and gives the same quotients for numbers that are as small as these. A mask keeps the
//! quotients and drops what the product of the part above has pushed in between.
ghost use Rattle.std.specs.Prelude.{◌≡◌, ◌≤◌, ◌<◌, ◌+◌, ◌*◌, ◌++◌, ◌/◌, ◌%◌, length, take};
ghost use Rattle.std.specs.Fmt.{decimal, signed_decimal};
ghost use Rattle.std.specs.Int.{w64, to_le_bytes};
ghost use Rattle.job_print.specs.Digits.{last_digits};

use crate::bytes::put_bytes;

const EIGHT_DIGITS: u64 = 100_000_000;

// A number below 10^8 as two of four digits each, the first in the upper half.
#[inline(always)]
fn in_fours(number: u32) -> u64
    requires { number < 100000000 }
    ensures { result ≡ number / 10000 * 4294967296 + number % 10000 }
{
    let number = u64::from(number);
    let high = (number * 109_951_163) >> 40;
    number + high * (0x1_0000_0000 - 10_000)
}

// A number below 10^8 as four of two digits each, the first in the upmost quarter.
#[inline(always)]
fn in_pairs(number: u32) -> u64
    requires { number < 100000000 }
    ensures { result ≡ number / 1000000 * 281474976710656 + number / 10000 % 100 * 4294967296
        + number / 100 % 100 * 65536 + number % 100 }
{
    let fours = in_fours(number);
    let high = ((fours * 5_243) >> 19) & 0x7f_0000_007f;
    fours + high * (0x1_0000 - 100)
}

// The digits of a number below 10^8 as numbers, the first in the highest byte.
#[inline(always)]
fn in_digits(number: u32) -> u64
    requires { number < 100000000 }
    ensures { result ≡ number / 10000000 * 72057594037927936
        + number / 1000000 % 10 * 281474976710656 + number / 100000 % 10 * 1099511627776
        + number / 10000 % 10 * 4294967296 + number / 1000 % 10 * 16777216
        + number / 100 % 10 * 65536 + number / 10 % 10 * 256 + number % 10 }
{
    let pairs = in_pairs(number);
    let high = ((pairs * 103) >> 10) & 0xf_000f_000f_000f;
    pairs + high * (0x100 - 10)
}

// The digit 0 in each of eight bytes.
const ZEROS: u64 = 0x3030_3030_3030_3030;

// The eight digits of a number below 10^8, the first in the lowest byte.
#[inline(always)]
fn eight_digits(number: u32) -> u64
    requires { number < 100000000 }
    ensures { to_le_bytes w64 result ≡ last_digits 8 number }
{
    (in_digits(number) + ZEROS).swap_bytes()
}

// The digit 0 in each of eight bytes, less one in the last, so that the last digit counts as shown
// in any case.
const ZEROS_BEFORE_LAST: u64 = 0x2f30_3030_3030_3030;

// The eight digits of a number below 10^8, the first in the lowest byte, and the number of leading
// zeros: no bit is set in their bytes once the digit 0 is taken from each.
#[inline(always)]
#[tactic(auto, using(crate::proofs::numbers::Zeros::zeros_are))]
fn digits_and_zeros(number: u32) -> (u64, usize)
    requires { number < 100000000 }
    ensures digits { to_le_bytes w64 result.0 ≡ last_digits 8 number }
    ensures zeros { result.1 + length (decimal number) ≡ 8 }
{
    let digits = eight_digits(number);
    let zeros = (digits - ZEROS_BEFORE_LAST).trailing_zeros() / 8;
    (digits, zeros as usize)
}

// Writes the eight digits of a number below 10^8, and returns where they end.
#[inline(always)]
fn put_eight(text: &mut [u8], at: usize, number: u32) -> usize
    requires room { at + 8 ≤ length text.old }
    requires digits { number < 100000000 }
    ensures end { result ≡ at + 8 }
    ensures text { take result text.new ≡ take at text.old ++ last_digits 8 number }
{
    put_bytes(text, at, eight_digits(number).to_le_bytes());
    at + 8
}

// Writes a number below 10^8 without zeros before it, and returns where it ends.
#[inline(always)]
fn put_first(text: &mut [u8], at: usize, number: u32) -> usize
    requires room { at + 8 ≤ length text.old }
    requires digits { number < 100000000 }
    ensures end { result ≤ at + 8 }
    ensures text { take result text.new ≡ take at text.old ++ decimal number }
{
    let (digits, zeros) = digits_and_zeros(number);
    put_bytes(text, at, (digits >> (8 * zeros)).to_le_bytes());
    at + (8 - zeros)
}

/// Writes a number in decimal from `at` on, and returns where it ends. The bytes after the end may
/// change too, up to `at + 24`.
#[inline(always)]
pub fn put_u64(text: &mut [u8], at: usize, number: u64) -> usize
    requires { at + 24 ≤ length text.old }
    ensures end { result ≤ at + 24 }
    ensures text { take result text.new ≡ take at text.old ++ decimal number }
{
    if number < EIGHT_DIGITS {
        return put_first(text, at, number as u32);
    }
    let high = number / EIGHT_DIGITS;
    let middle = if high < EIGHT_DIGITS {
        put_first(text, at, high as u32)
    } else {
        let first = put_first(text, at, (high / EIGHT_DIGITS) as u32);
        put_eight(text, first, (high % EIGHT_DIGITS) as u32)
    };
    put_eight(text, middle, (number % EIGHT_DIGITS) as u32)
}

/// Writes the decimal digits of a signed number, after a minus sign if it is below 0.
#[inline(always)]
pub fn put_i64(text: &mut [u8], at: usize, number: i64) -> usize
    requires { at + 25 ≤ length text.old }
    ensures end { result ≤ at + 25 }
    ensures text { take result text.new ≡ take at text.old ++ signed_decimal number }
{
    text[at] = b'-';
    put_u64(text, at + usize::from(number < 0), number.unsigned_abs())
}
