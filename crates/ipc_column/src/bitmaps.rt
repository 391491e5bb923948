//! Validity bitmaps.
ghost use Rattle.std.specs.Prelude.{◌≡◌, ◌≤◌, ◌<◌, ◌+◌, ◌*◌, ℕ, IsTrue, length, true};
ghost use Rattle.ipc_scalar.specs.Bytes.{bit};
ghost use Rattle.ipc_column.specs.checks.Checks.{has_bitmap};
ghost use Rattle.ipc_column.specs.Values.{is_valid};

use ipc_scalar::bit;

/// Returns whether a slot is valid, by the bitmap of its column. Without a bitmap each slot is
/// valid.
#[inline(always)]
pub fn is_valid(validity: &[u8], slot: usize) -> bool
    requires { has_bitmap (slot + 1) (length validity.now) ≡ true }
    ensures { result ≡ is_valid validity.now slot }
{
    validity.is_empty() || bit(validity, slot)
}

// Whether each set bit of the first `count` bytes is also set in another bitmap.
fn bits_are_among(few: &[u8], many: &[u8], count: usize) -> bool
    requires few { count ≤ length few.now }
    requires many { count ≤ length many.now }
    ensures { IsTrue result → (i : ℕ) → i < 8 * count → bit few.now i ≡ true
        → bit many.now i ≡ true }
{
    for i in 0..count {
        if few[i] & many[i] != few[i] {
            return false;
        }
    }
    true
}

/// Returns true only if each of `count` slots that is valid in one bitmap is also valid in another.
/// It compares one byte at a time.
pub fn valid_are_among(few: &[u8], many: &[u8], count: usize) -> bool
    requires few { has_bitmap count (length few.now) ≡ true }
    requires many { has_bitmap count (length many.now) ≡ true }
    ensures { IsTrue result → (i : ℕ) → i < count → is_valid few.now i ≡ true
        → is_valid many.now i ≡ true }
{
    if many.is_empty() {
        return true;
    }
    let whole = if few.is_empty() { 0 } else { count / 8 };
    if !bits_are_among(few, many, whole) {
        return false;
    }
    for slot in 8 * whole..count {
        if is_valid(few, slot) && !is_valid(many, slot) {
            return false;
        }
    }
    true
}
