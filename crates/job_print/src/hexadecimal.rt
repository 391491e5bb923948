//! Bytes as hexadecimal digits at a place, sixteen bytes at a time.
//!
//! A digit is computed and not looked up, so that the digits of sixteen bytes are found at once.
ghost use Rattle.std.specs.Prelude.{◌≡◌, ◌≤◌, ◌<◌, ◌+◌, ◌*◌, ◌++◌, ◌∷◌, [], length, take};
ghost use Rattle.std.specs.Char.{digit_char};
ghost use Rattle.hex.specs.Hex.{encode_lower};

use crate::bytes::put_word;

/// Returns the digit of a number below 16, in lower case.
#[inline(always)]
pub(crate) fn hex_digit(number: u8) -> u8
    requires { number < 16 }
    ensures { result ≡ digit_char number }
{
    if number < 10 {
        b'0' + number
    } else {
        b'a' + (number - 10)
    }
}

// The two digits of a byte.
#[inline(always)]
fn digits_of(byte: u8) -> [u8; 2]
    ensures { result ≡ encode_lower (byte ∷ []) }
{
    [hex_digit(byte / 16), hex_digit(byte % 16)]
}

// Writes two digits for each byte, and returns where they end.
#[inline(always)]
fn put_digits(text: &mut [u8], at: usize, bytes: &[u8]) -> usize
    requires { at + 2 * length bytes.now ≤ length text.old }
    ensures end { result ≡ at + 2 * length bytes.now }
    ensures text { take result text.new ≡ take at text.old ++ encode_lower bytes.now }
{
    let mut end = at;
    for byte in bytes {
        end = put_word(text, end, &digits_of(*byte));
    }
    end
}

// The digits of sixteen bytes.
#[inline(always)]
fn sixteen_digits(bytes: &[u8; 16]) -> [u8; 32]
    ensures { result ≡ encode_lower bytes.now }
{
    let mut digits = [0; 32];
    put_digits(&mut digits, 0, bytes);
    digits
}

/// Writes two digits for each byte, sixteen bytes at a time, and returns where they end.
#[inline(always)]
pub fn put_digits_at(text: &mut [u8], at: usize, bytes: &[u8]) -> usize
    requires { at + 2 * length bytes.now ≤ length text.old }
    ensures end { result ≡ at + 2 * length bytes.now }
    ensures text { take result text.new ≡ take at text.old ++ encode_lower bytes.now }
{
    let mut end = at;
    let mut rest = bytes;
    while let Some((first, more)) = rest.split_first_chunk::<16>() {
        end = put_word(text, end, &sixteen_digits(first));
        rest = more;
    }
    put_digits(text, end, rest)
}
