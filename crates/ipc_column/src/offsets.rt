ghost use Rattle.std.specs.Prelude.{◌≡◌, ◌≤◌, ◌<◌, ◌+◌, ◌*◌, ◌^◌, ℕ, List, length, true};
ghost use Rattle.ipc_column.specs.checks.Checks.{are_ascending, have_slots};
ghost use Rattle.ipc_column.specs.Values.{offset, offset_position, between};
ghost use Rattle.ipc_column.specs.Views.{part_columns};

use crate::fixed::u32_at;
use crate::ranges::ColumnRanges;

// Offset `i`.
#[inline(always)]
fn offset_at(offsets: &[u8], i: usize) -> i32
    requires { 4 * (i + 1) ≤ length offsets.now }
    ensures { result ≡ offset offsets.now i }
{
    u32_at(offsets, i).cast_signed()
}

/// Returns the position that offset `i` states, if it is not negative.
#[inline(always)]
pub(crate) fn place_at(offsets: &[u8], i: usize) -> usize
    requires { 4 * (i + 1) ≤ length offsets.now }
    ensures { result ≡ offset_position offsets.now i }
{
    offset_at(offsets, i).unsigned_abs() as usize
}

/// Returns the first slot of the child that belongs to a slot of fixed-size lists, or 0 if there is
/// no child. The child has all slots up to the end of that list.
#[inline(always)]
pub(crate) fn fixed_place(size: u32, children: &[ColumnRanges], slot: usize) -> usize
    requires { (body : List ℕ)
        → have_slots (size * (slot + 1)) (part_columns body children.now) ≡ true }
    ensures some { 0 < length children.now → result ≡ size * slot }
    ensures none { length children.now ≡ 0 → result ≡ 0 }
    ensures room { result + size < 2 ^ 64 }
{
    if children.is_empty() {
        return 0;
    }
    // The child's own number of slots bounds the product.
    let _slots = children[0].slots;
    size as usize * slot
}

/// Returns whether the offsets of `slots` slots are not negative, do not decrease, and end within
/// `size` bytes.
#[tactic(auto, using(crate::proofs::Below::all_below_more))]
pub(crate) fn are_in_order(offsets: &[u8], slots: usize, size: usize) -> bool
    requires { 4 * (slots + 1) ≤ length offsets.now }
    ensures { result ≡ are_ascending offsets.now slots size }
{
    let mut ordered = true;
    for i in 0..slots {
        ordered &= offset_at(offsets, i) <= offset_at(offsets, i + 1);
    }
    0 <= offset_at(offsets, 0) && ordered && place_at(offsets, slots) <= size
}

/// Returns the bytes of a slot, one of `slots`.
#[inline(always)]
pub(crate) fn bytes_between<'a>(
    offsets: &[u8],
    values: &'a [u8],
    slots: usize,
    slot: usize,
) -> &'a [u8]
    requires slot { slot < slots }
    requires bytes { 4 * (slots + 1) ≤ length offsets.now }
    requires order { are_ascending offsets.now slots (length values.now) ≡ true }
    ensures { result.now ≡ between offsets.now values.now slot }
{
    let start = place_at(offsets, slot);
    let end = place_at(offsets, slot + 1);
    &values[start..end]
}
