ghost use Rattle.std.specs.Prelude.{◌≡◌, ◌≤◌, ◌+◌, ◌*◌, length, IfOk};
ghost use Rattle.std.specs.Str.{is_utf8};
ghost use Rattle.ipc_flat.specs.Flat.{points, elements_of, text_of};
ghost use Rattle.ipc_flat.specs.Faulty.{ok_if};
ghost use Rattle.ipc_flat.specs.declared.fault.FlatFault.TheVariants.{NotUtf8};
ghost use Rattle.ipc_flat.specs.Views.{IsAnswer};

use crate::fault::FlatFault;
use ipc_scalar::get_u32;
use std::str;

// Where the offset at `at` points: so far forward from `at` itself.
#[tactic(auto, unfolding(crate::specs::Flat::points))]
pub(crate) fn target(bytes: &[u8], at: usize) -> Result<usize, FlatFault>
    ensures place { result ≡ points bytes.now at }
    ensures inside { IfOk result (λ q. q ≤ length bytes.now) }
{
    let offset = get_u32(bytes, at).ok_or(FlatFault::OutOfBounds)? as usize;
    if offset == 0 {
        return Err(FlatFault::OffsetZero);
    }
    if offset > bytes.len() - at {
        return Err(FlatFault::OutOfBounds);
    }
    Ok(at + offset)
}

// The place of the first element, and the number of elements, of the vector to which the offset at
// `at` points, where each element takes `width` bytes.
#[tactic(auto, unfolding(crate::specs::Flat::elements_of))]
pub(crate) fn elements_at(
    bytes: &[u8],
    at: usize,
    width: usize,
) -> Result<(usize, usize), FlatFault>
    ensures place { result ≡ elements_of bytes.now at width }
    ensures inside { IfOk result (λ e. e.0 + e.1 * width ≤ length bytes.now) }
{
    let vector = target(bytes, at)?;
    let count = get_u32(bytes, vector).ok_or(FlatFault::OutOfBounds)? as usize;
    let first = vector + 4;
    match count.checked_mul(width) {
        Some(taken) if taken <= bytes.len() - first => Ok((first, count)),
        _ => Err(FlatFault::OutOfBounds),
    }
}

// Bytes as a text.
#[tactic(auto, using(crate::proofs::Utf8::is_text, crate::proofs::Utf8::is_no_text))]
fn text_of_bytes(bytes: &[u8]) -> Result<&str, FlatFault>
    ensures { IsAnswer (λ s. s.now) result (ok_if (is_utf8 bytes.now) NotUtf8 bytes.now) }
{
    str::from_utf8(bytes).map_err(|_| FlatFault::NotUtf8)
}

// The text to which the offset at `at` points.
#[tactic(auto, unfolding(crate::specs::Flat::text_of))]
pub(crate) fn text_at(bytes: &[u8], at: usize) -> Result<&str, FlatFault>
    ensures { IsAnswer (λ s. s.now) result (text_of bytes.now at) }
{
    let (start, len) = elements_at(bytes, at, 1)?;
    text_of_bytes(&bytes[start..start + len])
}
