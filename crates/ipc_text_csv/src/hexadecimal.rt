//! Decodes hexadecimal digits, those of sixteen bytes at once, by computing their values.
ghost use Rattle.std.specs.Prelude.{◌≡◌, ◌≤◌, ◌<◌, ◌+◌, ◌*◌, ◌&&◌, nat_lt, length, IsTrue, Some};
ghost use Rattle.std.specs.Prelude.{None, ℕ, List, ◌++◌, take, false, slice_index};
ghost use Rattle.hex.specs.Hex.{hex_digit_value};
ghost use Rattle.ipc_text_csv.specs.CsvCells.{decoded_hex};

// The value of a digit, in either case, or 255 of a byte that is none.
#[inline(always)]
fn digit_value(byte: u8) -> u8
    ensures digit { result < 16 → hex_digit_value byte ≡ Some result }
    ensures none { 16 ≤ result → hex_digit_value byte ≡ None }
{
    let number = byte.wrapping_sub(b'0');
    let letter = (byte | 32).wrapping_sub(b'a');
    if number < 10 {
        number
    } else if letter < 6 {
        letter + 10
    } else {
        255
    }
}

// Whether both are values of digits.
#[inline(always)]
fn are_values(high: u8, low: u8) -> bool
    ensures { result ≡ (nat_lt high 16 && nat_lt low 16) }
{
    high < 16 && low < 16
}

// The values of the digits of sixteen bytes.
#[inline(always)]
fn values_of(text: &[u8; 32]) -> [u8; 32]
    ensures digit { (k : ℕ) → k < 32 → slice_index result k < 16
        → hex_digit_value (slice_index text.now k) ≡ Some (slice_index result k) }
    ensures none { (k : ℕ) → k < 32 → 16 ≤ slice_index result k
        → hex_digit_value (slice_index text.now k) ≡ None }
{
    let mut values = [0; 32];
    for i in 0..32 {
        values[i] = digit_value(text[i]);
    }
    values
}

// The sixteen bytes of pairs of digits, and whether all are digits.
#[inline(always)]
fn decode_sixteen(text: &[u8; 32]) -> ([u8; 16], bool)
    ensures bytes { IsTrue result.1 → decoded_hex text.now ≡ Some result.0 }
    ensures none { result.1 ≡ false → decoded_hex text.now ≡ None }
{
    let values = values_of(text);
    let mut bytes = [0; 16];
    let mut good = true;
    for i in 0..16 {
        let high = values[2 * i];
        let low = values[2 * i + 1];
        good &= are_values(high, low);
        bytes[i] = high % 16 * 16 + low % 16;
    }
    (bytes, good)
}

// Writes the bytes of pairs of digits one by one, and says whether all are digits.
#[inline(always)]
fn decode_each(text: &[u8], bytes: &mut [u8]) -> bool
    requires { length text.now ≡ 2 * length bytes.old }
    ensures bytes { IsTrue result → decoded_hex text.now ≡ Some bytes.new }
    ensures none { result ≡ false → decoded_hex text.now ≡ None }
    ensures room { length bytes.new ≡ length bytes.old }
{
    let mut good = true;
    for i in 0..bytes.len() {
        let high = digit_value(text[2 * i]);
        let low = digit_value(text[2 * i + 1]);
        good &= are_values(high, low);
        bytes[i] = high % 16 * 16 + low % 16;
    }
    good
}

// Puts sixteen bytes in the place of those from `at` on.
#[inline(always)]
fn put_sixteen(bytes: &mut [u8], at: usize, sixteen: &[u8; 16])
    requires { at + 16 ≤ length bytes.old }
    ensures bytes { take (at + 16) bytes.new ≡ take at bytes.old ++ sixteen.now }
    ensures room { length bytes.new ≡ length bytes.old }
{
    bytes[at..at + 16].copy_from_slice(sixteen);
}

// Writes the bytes of the digits after the first `at` bytes. Returns whether all are digits.
#[inline(always)]
fn decode_from(text: &[u8], bytes: &mut [u8], at: usize) -> bool
    requires { length text.now + 2 * at ≡ 2 * length bytes.old }
    ensures bytes { IsTrue result → (more : List ℕ) × (decoded_hex text.now ≡ Some more)
        × (bytes.new ≡ take at bytes.old ++ more) }
    ensures none { result ≡ false → decoded_hex text.now ≡ None }
{
    decode_each(text, &mut bytes[at..])
}

/// Writes the bytes of pairs of digits, in either case. Returns whether all are digits. No branch
/// depends on the digits.
#[inline(never)]
pub(crate) fn decode_pairs(text: &[u8], bytes: &mut [u8]) -> bool
    requires { length text.now ≡ 2 * length bytes.old }
    ensures bytes { IsTrue result → decoded_hex text.now ≡ Some bytes.new }
    ensures none { result ≡ false → decoded_hex text.now ≡ None }
{
    let mut good = true;
    let mut at = 0;
    let mut rest = text;
    while let Some((first, more)) = rest.split_first_chunk::<32>() {
        let (sixteen, are_digits) = decode_sixteen(first);
        put_sixteen(bytes, at, &sixteen);
        good &= are_digits;
        at += 16;
        rest = more;
    }
    good & decode_from(rest, bytes, at)
}
