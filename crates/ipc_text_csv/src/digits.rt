//! Reads numbers with few decimal digits in one pass.
ghost use Rattle.std.specs.Prelude.{◌≡◌, ◌<◌, ◌≤◌, ◌+◌, ◌^◌, IfSome, decimal, length, get_or, true};
ghost use Rattle.std.specs.Prelude.{FitsSigned};
ghost use Rattle.std.specs.Fmt.{signed_decimal};
ghost use Rattle.std.specs.Int.{w64};

// Whether these can be the digits of a number below 10^18: 1 to 18 digits, without a leading zero.
fn are_short_digits(digits: &[u8]) -> bool
    ensures { result ≡ true → (0 < length digits.now) × (length digits.now ≤ 18)
        × (get_or digits.now 0 0 ≡ 48 → length digits.now ≡ 1) }
{
    match digits {
        [] | [b'0', _, ..] => false,
        _ => digits.len() <= 18,
    }
}

// The value of a digit, or 10 and more of a byte that is none.
#[inline(always)]
fn value_of(digit: u8) -> u64
    ensures { result < 10 → digit ≡ 48 + result }
{
    u64::from(digit).wrapping_sub(48)
}

/// Reads a number below 10^18 in decimal. Returns `None` for any other text.
pub(crate) fn read_short(digits: &[u8]) -> Option<u64>
    ensures only { IfSome result (λ n. decimal n ≡ digits.now) }
    ensures small { IfSome result (λ n. n < 10 ^ 18) }
{
    if !are_short_digits(digits) {
        return None;
    }
    let mut number = 0u64;
    for digit in digits {
        let value = value_of(*digit);
        if value > 9 {
            return None;
        }
        number = number * 10 + value;
    }
    Some(number)
}

/// Reads a signed number of at most 18 decimal digits. Returns `None` for any other text.
#[inline(never)]
pub(crate) fn read_short_signed(text: &[u8]) -> Option<i64>
    ensures only { IfSome result (λ z. signed_decimal z ≡ text.now) }
    ensures fits { IfSome result (λ z. FitsSigned w64 z) }
{
    match text {
        [b'-', digits @ ..] => match read_short(digits)? {
            0 => None,
            number => Some(-(number as i64)),
        },
        _ => Some(read_short(text)? as i64),
    }
}
