//! Packed bits.
ghost use Rattle.std.specs.Prelude.{◌≡◌, ◌+◌, ◌++◌, ◌*◌, ◌≤◌, Bool, List, [], ◌∷◌, OnOk, length};
ghost use Rattle.std.specs.Prelude.{replicate, true};
ghost use Rattle.ipc_scalar.specs.Bytes.{clear};
ghost use Rattle.ipc_encode.specs.Bitmaps.{bitmap};

use ipc_scalar::bit;
use std::alloc::AllocError;

/// Appends a bit to `bits` packed ones. Bits after the last are 0.
#[inline(always)]
pub(crate) fn push_bit(bytes: &mut Vec<u8>, bits: usize, bit: bool) -> Result<(), AllocError>
    ensures { (flags : List Bool) → length flags ≡ bits → bytes.old.items ≡ bitmap flags
        → OnOk result (bytes.new.items ≡ bitmap (flags ++ bit ∷ [])) }
{
    let place = bits / 8;
    if place < bytes.len() {
        bytes[place] |= u8::from(bit) << (bits % 8);
        return Ok(());
    }
    bytes.push(u8::from(bit))?;
    Ok(())
}

/// Appends `bits` packed bits that are set to an empty buffer.
pub(crate) fn set_bits(bytes: &mut Vec<u8>, bits: usize) -> Result<(), AllocError>
    ensures { bytes.old.items ≡ []
        → OnOk result (bytes.new.items ≡ bitmap (replicate bits true)) }
{
    bytes.resize(bits / 8, 0xff)?;
    if bits % 8 != 0 {
        bytes.push((1 << (bits % 8)) - 1)?;
    }
    Ok(())
}

/// Drops the bits after the first `bits` packed ones. Bits after the last are 0.
pub(crate) fn cut_bits(bytes: &mut Vec<u8>, bits: usize)
    ensures cut { (flags more : List Bool) → length flags ≡ bits
        → bytes.old.items ≡ bitmap (flags ++ more) → bytes.new.items ≡ bitmap flags }
    ensures none { bytes.old.items ≡ [] → bytes.new.items ≡ [] }
{
    bytes.truncate(bits.div_ceil(8));
    let place = bits / 8;
    if place < bytes.len() {
        bytes[place] &= (1 << (bits % 8)) - 1;
    }
}

/// Returns the number of clear bits from bit `from` to the one before bit `to`.
pub(crate) fn clear_between(bytes: &[u8], from: usize, to: usize) -> usize
    requires { to ≤ 8 * length bytes.now }
    ensures { from ≤ to → clear bytes.now from + result ≡ clear bytes.now to }
{
    let mut count = 0;
    for slot in from..to {
        count += usize::from(!bit(bytes, slot));
    }
    count
}
