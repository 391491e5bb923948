ghost use Rattle.std.specs.Prelude.{◌≡◌, ◌≤◌, ◌+◌, ◌*◌, length, pos, slice_range};
ghost use Rattle.ipc_scalar.specs.Bytes.{num};
ghost use Rattle.ipc_model.specs.Layouts.{number_bytes};
ghost use Rattle.ipc_column.specs.Values.{number_in, place_below, signed_at};

use ipc_model::IntBits;

/// Returns the unsigned number in a slot of two bytes.
#[inline(always)]
pub(crate) fn u16_at(values: &[u8], slot: usize) -> u16
    requires { 2 * (slot + 1) ≤ length values.now }
    ensures { result ≡ num values.now (2 * slot) 2 }
{
    u16::from_le_bytes(values.as_chunks::<2>().0[slot])
}

/// Returns the unsigned number in a slot of four bytes.
#[inline(always)]
pub(crate) fn u32_at(values: &[u8], slot: usize) -> u32
    requires { 4 * (slot + 1) ≤ length values.now }
    ensures { result ≡ num values.now (4 * slot) 4 }
{
    u32::from_le_bytes(values.as_chunks::<4>().0[slot])
}

/// Returns the unsigned number in a slot of eight bytes.
#[inline(always)]
pub(crate) fn u64_at(values: &[u8], slot: usize) -> u64
    requires { 8 * (slot + 1) ≤ length values.now }
    ensures { result ≡ num values.now (8 * slot) 8 }
{
    u64::from_le_bytes(values.as_chunks::<8>().0[slot])
}

/// Returns the signed number in a slot.
#[inline(always)]
pub(crate) fn signed_at(bits: IntBits, values: &[u8], slot: usize) -> i64
    requires { number_bytes bits * (slot + 1) ≤ length values.now }
    ensures { result ≡ signed_at bits values.now (number_bytes bits * slot) }
{
    match bits {
        IntBits::B8 => i64::from(values[slot].cast_signed()),
        IntBits::B16 => i64::from(u16_at(values, slot).cast_signed()),
        IntBits::B32 => i64::from(u32_at(values, slot).cast_signed()),
        IntBits::B64 => u64_at(values, slot).cast_signed(),
    }
}

/// Returns the unsigned number in a slot.
#[inline(always)]
pub(crate) fn unsigned_at(bits: IntBits, values: &[u8], slot: usize) -> u64
    requires { number_bytes bits * (slot + 1) ≤ length values.now }
    ensures { result ≡ num values.now (number_bytes bits * slot) (number_bytes bits) }
{
    match bits {
        IntBits::B8 => u64::from(values[slot]),
        IntBits::B16 => u64::from(u16_at(values, slot)),
        IntBits::B32 => u64::from(u32_at(values, slot)),
        IntBits::B64 => u64_at(values, slot),
    }
}

// The number as a position, if it is below `count`.
#[inline(always)]
fn place_below(number: u64, count: usize) -> Option<usize>
    ensures { result ≡ place_below count (pos number) }
{
    if number < count as u64 {
        Some(number as usize)
    } else {
        None
    }
}

/// Returns the index in a slot, if it is that of one of `count` values.
#[inline(always)]
pub(crate) fn index_in(
    bits: IntBits,
    signed: bool,
    indices: &[u8],
    slot: usize,
    count: usize,
) -> Option<usize>
    requires { number_bytes bits * (slot + 1) ≤ length indices.now }
    ensures { result ≡ place_below count (number_in bits signed indices.now slot) }
{
    if !signed {
        return place_below(unsigned_at(bits, indices, slot), count);
    }
    let index = signed_at(bits, indices, slot);
    if index < 0 {
        return None;
    }
    place_below(index.unsigned_abs(), count)
}

/// Returns the bytes of a slot of `width` bytes.
#[inline(always)]
pub(crate) fn bytes_of(width: u32, values: &[u8], slot: usize) -> &[u8]
    requires { width * (slot + 1) ≤ length values.now }
    ensures { result.now ≡ slice_range values.now (width * slot) (width * slot + width) }
{
    let start = width as usize * slot;
    &values[start..start + width as usize]
}
