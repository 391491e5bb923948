//! Whether the buffers of a column that was read are those that are written for its values.
ghost use Rattle.std.specs.Prelude.{◌≡◌, ◌≤◌, ◌<◌, ◌+◌, ◌*◌, ℕ, List, Bool, false, true, length};
ghost use Rattle.std.specs.Prelude.{IsTrue, [], drop, replicate, slice_index};
ghost use Rattle.std.specs.Prelude.{slice_index_or, take};
ghost use Rattle.ipc_scalar.specs.Bytes.{bit, num};
ghost use Rattle.ipc_column.specs.Lending.{MarksNulls};
ghost use Rattle.ipc_column.specs.Nested.{slot_values};
ghost use Rattle.ipc_column.specs.Values.{is_valid};
ghost use Rattle.ipc_column.specs.checks.Checks.{has_bitmap};
ghost use Rattle.ipc_encode.specs.Bitmaps.{bitmap};
ghost use Rattle.ipc_encode.specs.Columns.{bits_length};
ghost use Rattle.ipc_model.specs.declared.layout.Layout.TheVariants.{Lists};
ghost use Rattle.ipc_encode.specs.Buffers.{data_buffers};
ghost use Rattle.ipc_encode.specs.Limits.{HasExcessData};
ghost use Rattle.ipc_encode.specs.Segments.{segment_bytes};
ghost use Rattle.ipc_encode.specs.WholeColumns.{HasWrittenValidity, IsCanonical, UseAllItems};
ghost use Rattle.ipc_encode.specs.WholeColumns.{is_taken_whole, lent_buffers};

use crate::segments::Segment;
use ipc_column::{SlotView, is_valid, valid_are_among};
use ipc_model::Layout;
use ipc_scalar::get_u32;

/// Returns offset `i`, which is not negative.
#[inline(always)]
pub(crate) fn offset_at(offsets: &[u8], i: usize) -> u32
    requires { 4 * (i + 1) ≤ length offsets.now }
    ensures { result ≡ num offsets.now (4 * i) 4 }
{
    get_u32(offsets, 4 * i).unwrap_or(0)
}

// Whether each null slot ends where it begins.
pub(crate) fn nulls_are_empty(marks: &[u8], offsets: &[u8], count: usize) -> bool
    requires bits { has_bitmap count (length marks.now) ≡ true }
    requires offsets { 4 * (count + 1) ≤ length offsets.now }
    ensures empty { IsTrue result → (i : ℕ) → i < count → is_valid marks.now i ≡ false
        → num offsets.now (4 * (i + 1)) 4 ≡ num offsets.now (4 * i) 4 }
    ensures bytes { (i : ℕ) → slice_index offsets.now i < 256 }
{
    if marks.is_empty() {
        return true;
    }
    for slot in 0..count {
        if !is_valid(marks, slot) && offset_at(offsets, slot + 1) != offset_at(offsets, slot) {
            return false;
        }
    }
    true
}

/// Returns true only if lists use all slots of their child, one list after another.
pub(crate) fn lists_use_all_items(view: &SlotView<'_>) -> bool
    ensures { IsTrue result → UseAllItems view.now }
{
    let buffers = view.buffers();
    let count = view.len();
    let Layout::Lists = buffers.layout else {
        return false;
    };
    if view.children() == 0 {
        return false;
    }
    let child = view.child(0);
    if count == 0 {
        return child.len() == 0;
    }
    if !nulls_are_empty(buffers.validity, buffers.offsets, count) {
        return false;
    }
    let start = offset_at(buffers.offsets, 0);
    let end = offset_at(buffers.offsets, count);
    start == 0 && end as usize == child.len()
}

// Whether all bytes are 0.
fn are_zeros(bytes: &[u8]) -> bool
    ensures { IsTrue result → bytes.now ≡ replicate (length bytes.now) 0 }
{
    for byte in bytes {
        if *byte != 0 {
            return false;
        }
    }
    true
}

// Whether each null slot of this width is zeros.
fn null_slots_are_zeros(marks: &[u8], bytes: &[u8], width: usize, count: usize) -> bool
    requires bits { has_bitmap count (length marks.now) ≡ true }
    requires bytes { width * count ≤ length bytes.now }
    ensures zeros { IsTrue result → (i : ℕ) → i < count → is_valid marks.now i ≡ false
        → take width (drop (width * i) bytes.now) ≡ replicate width 0 }
    ensures bytes { (i : ℕ) → slice_index bytes.now i < 256 }
{
    if marks.is_empty() {
        return true;
    }
    for slot in 0..count {
        if !is_valid(marks, slot) && !are_zeros(&bytes[width * slot..width * slot + width]) {
            return false;
        }
    }
    true
}

// Whether the bits after the first `count` are 0 in the last byte that has one of these.
fn unused_bits_are_zeros(bits: &[u8], count: usize) -> bool
    requires { count ≤ 8 * length bits.now }
    ensures { IsTrue result → (flags : List Bool) → length flags ≡ count
        → ((i : ℕ) → i < count → bit bits.now i ≡ slice_index_or flags i false)
        → take (bits_length count) bits.now ≡ bitmap flags }
{
    count % 8 == 0 || bits[count / 8] < 1 << (count % 8)
}

/// Returns true only if the validity bitmap of a column, if it marks exactly the null slots, begins
/// with the one that is written: unused bits are 0.
pub(crate) fn has_written_validity(view: &SlotView<'_>) -> bool
    ensures { IsTrue result → MarksNulls view.now.column.validity (slot_values view.now)
        → HasWrittenValidity view.now }
{
    view.null_count() == 0 || unused_bits_are_zeros(view.buffers().validity, view.len())
}

// Whether the buffers of a column that follow its validity bitmap are those that are written.
fn has_written_data(view: &SlotView<'_>) -> bool
    ensures whole { IsTrue result → is_taken_whole view.now.column.layout ≡ true }
    ensures lists { IsTrue result → view.now.column.layout ≡ Lists → UseAllItems view.now }
    ensures lent { IsTrue result
        → lent_buffers view.now.column.layout view.now.column (length (slot_values view.now))
        ≡ data_buffers view.now.column.layout (slot_values view.now) }
    ensures short { IsTrue result
        → ¬ HasExcessData view.now.column.layout (slot_values view.now) }
{
    let buffers = view.buffers();
    let count = view.len();
    match view.layout() {
        Layout::Null | Layout::Structs | Layout::FixedLists(_) => true,
        Layout::Bits => {
            unused_bits_are_zeros(buffers.values, count)
                && valid_are_among(buffers.values, buffers.validity, count)
        }
        Layout::Numbers { bits, .. } => {
            null_slots_are_zeros(buffers.validity, buffers.values, bits.bytes(), count)
        }
        Layout::FixedBytes(width) => {
            null_slots_are_zeros(buffers.validity, buffers.values, width as usize, count)
        }
        Layout::VariableBytes { .. } => {
            count == 0
                || offset_at(buffers.offsets, 0) == 0
                    && nulls_are_empty(buffers.validity, buffers.offsets, count)
        }
        Layout::Lists => lists_use_all_items(view),
        Layout::Indices { .. } => false,
    }
}

/// Returns true only if the buffers of a column begin with those that are written for its values:
/// unused bits and null slots are 0, offsets begin at 0, null slots are empty, and lists use all
/// slots of their child.
pub(crate) fn is_canonical(view: &SlotView<'_>) -> bool
    ensures { IsTrue result → IsCanonical view.now }
{
    has_written_data(view) && has_written_validity(view)
}

/// Lends the first bytes of a buffer.
pub(crate) fn first_bytes(bytes: &[u8], len: usize) -> Segment<'_>
    requires { len ≤ length bytes.now }
    ensures { segment_bytes result ≡ take len bytes.now }
{
    Segment::Borrowed(&bytes[..len])
}

/// Returns the validity bitmap of `count` slots with `null_count` nulls: no bytes if none is null.
pub(crate) fn lent_validity(marks: &[u8], count: usize, null_count: usize) -> Segment<'_>
    requires { 0 < null_count → count ≤ 8 * length marks.now }
    ensures none { null_count ≡ 0 → segment_bytes result ≡ [] }
    ensures some { 0 < null_count
        → segment_bytes result ≡ take (bits_length count) marks.now }
{
    if null_count == 0 {
        return Segment::Zeros(0);
    }
    first_bytes(marks, count.div_ceil(8))
}
