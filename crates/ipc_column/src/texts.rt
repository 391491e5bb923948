ghost use Rattle.std.specs.Prelude.{◌≡◌, ◌≤◌, ◌<◌, ◌+◌, ◌-◌, ◌*◌, ◌^◌, [], length, true, IsTrue};
ghost use Rattle.std.specs.Str.{is_utf8};
ghost use Rattle.ipc_column.specs.checks.Checks.{AreCharBoundaries, all_slots, has_bitmap};
ghost use Rattle.ipc_column.specs.checks.Checks.{are_ascending, text_good};
ghost use Rattle.ipc_column.specs.Values.{offset_position};

use crate::offsets::{bytes_between, place_at};
use crate::visit::visit;
use simdutf8::basic::from_utf8;

/// Returns the text of bytes that are known to be UTF-8.
#[inline(always)]
pub(crate) fn text_of(bytes: &[u8]) -> &str
    requires { is_utf8 bytes.now ≡ true }
    ensures { result.now ≡ bytes.now }
{
    unsafe { std::str::from_utf8_unchecked(bytes) }
}

fn is_text(bytes: &[u8]) -> bool
    ensures { result ≡ is_utf8 bytes.now }
{
    simdutf8::is_utf8(bytes)
}

// Whether each of `slots` slots begins at a character boundary of the text, which begins where the
// first slot does.
fn are_char_boundaries(text: &str, offsets: &[u8], slots: usize) -> bool
    requires bytes { 4 * (slots + 1) ≤ length offsets.now }
    requires order { are_ascending offsets.now slots (offset_position offsets.now slots) ≡ true }
    ensures { IsTrue result → AreCharBoundaries offsets.now text.now 0 slots }
{
    let first = place_at(offsets, 0);
    for slot in 0..slots {
        if !text.is_char_boundary(place_at(offsets, slot) - first) {
            return false;
        }
    }
    true
}

/// Returns whether all `slots` slots, null slots included, hold UTF-8. The bytes from the first
/// offset to the last are scanned once, as one text that may be cut where the slots begin.
pub(crate) fn are_texts(offsets: &[u8], values: &[u8], slots: usize) -> bool
    requires bytes { 4 * (slots + 1) ≤ length offsets.now }
    requires order { are_ascending offsets.now slots (length values.now) ≡ true }
    ensures { IsTrue result → all_slots (text_good [] offsets.now values.now) 0 slots ≡ true }
{
    match from_utf8(&values[place_at(offsets, 0)..place_at(offsets, slots)]) {
        Ok(text) => are_char_boundaries(text, offsets, slots),
        Err(_) => false,
    }
}

// Whether a slot, one of `slots`, is null or holds UTF-8. The slot is visited.
fn is_null_or_text(
    validity: &[u8],
    offsets: &[u8],
    values: &[u8],
    slots: usize,
    slot: usize,
    tests: &mut u64,
) -> bool
    requires slot { slot < slots }
    requires bitmap { has_bitmap slots (length validity.now) ≡ true }
    requires bytes { 4 * (slots + 1) ≤ length offsets.now }
    requires order { are_ascending offsets.now slots (length values.now) ≡ true }
    requires fits { tests.old + 1 < 2 ^ 64 }
    ensures good { result ≡ text_good validity.now offsets.now values.now slot }
    ensures counted { tests.new ≡ tests.old + 1 }
{
    !visit(validity, slot, tests) || is_text(bytes_between(offsets, values, slots, slot))
}

/// Returns whether each slot from `from` up to `to`, of `slots` slots, is null or holds UTF-8.
pub(crate) fn are_null_or_texts(
    validity: &[u8],
    offsets: &[u8],
    values: &[u8],
    slots: usize,
    from: usize,
    to: usize,
    tests: &mut u64,
) -> bool
    requires range { from ≤ to }
    requires inside { to ≤ slots }
    requires bitmap { has_bitmap slots (length validity.now) ≡ true }
    requires bytes { 4 * (slots + 1) ≤ length offsets.now }
    requires order { are_ascending offsets.now slots (length values.now) ≡ true }
    requires fits { tests.old + (to - from) < 2 ^ 64 }
    ensures good { result
        ≡ all_slots (text_good validity.now offsets.now values.now) from (to - from) }
    ensures counted { tests.new ≤ tests.old + (to - from) }
{
    for slot in from..to {
        if !is_null_or_text(validity, offsets, values, slots, slot, tests) {
            return false;
        }
    }
    true
}
