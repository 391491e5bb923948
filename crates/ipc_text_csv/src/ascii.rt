//! Validates UTF-8, eight bytes at a time where a text is ASCII.
ghost use Rattle.std.specs.Prelude.{◌≡◌, IfSome, IsSome, IsTrue};
ghost use Rattle.std.specs.Str.{IsAscii, IsUtf8};

// Whether eight bytes are ASCII.
#[inline(always)]
fn are_ascii(eight: &[u8; 8]) -> bool
    ensures { IsTrue result → IsAscii eight.now }
{
    let mut good = true;
    for i in 0..8 {
        good &= eight[i] < 128;
    }
    good
}

// Whether each of some bytes is ASCII.
#[inline(always)]
fn is_each_ascii(bytes: &[u8]) -> bool
    ensures { IsTrue result → IsAscii bytes.now }
{
    for byte in bytes {
        if *byte > 127 {
            return false;
        }
    }
    true
}

// Whether bytes are ASCII.
#[inline(always)]
fn is_ascii(bytes: &[u8]) -> bool
    ensures { IsTrue result → IsAscii bytes.now }
{
    let mut good = true;
    let mut rest = bytes;
    while let Some((eight, more)) = rest.split_first_chunk::<8>() {
        good &= are_ascii(eight);
        rest = more;
    }
    good && is_each_ascii(rest)
}

// The text that bytes are, ASCII or not.
#[inline(never)]
fn any_text(bytes: &[u8]) -> Option<&str>
    ensures only { IfSome result (λ text. (text.now ≡ bytes.now) × IsUtf8 bytes.now) }
    ensures all { IsUtf8 bytes.now → IsSome result }
{
    match str::from_utf8(bytes) {
        Ok(text) => Some(text),
        Err(_) => None,
    }
}

/// Returns the bytes as a text, or `None` if they are not UTF-8.
#[inline(always)]
pub(crate) fn text_of(bytes: &[u8]) -> Option<&str>
    ensures only { IfSome result (λ text. (text.now ≡ bytes.now) × IsUtf8 bytes.now) }
    ensures all { IsUtf8 bytes.now → IsSome result }
{
    if is_ascii(bytes) {
        return Some(unsafe { str::from_utf8_unchecked(bytes) });
    }
    any_text(bytes)
}
