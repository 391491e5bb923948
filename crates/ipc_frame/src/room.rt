//! The room of buffers, which grows as bytes come. No clause of `Vec` bounds its capacity after
//! `extend_from_slice` or `resize`, so room is made by `reserve_exact` and compared afterwards.
ghost use Rattle.std.specs.Prelude.{◌≡◌, ◌<◌, ◌≤◌, ◌+◌, ◌*◌, ◌++◌, max, vec_len, vec_capacity};
ghost use Rattle.std.specs.Prelude.{OnOk};

use std::alloc::AllocError;

// For how many bytes room is made and cleared at most at once, where few came.
pub const MAX_CLEARED: usize = 65_536;

// Whether a buffer still has this capacity. If not, more memory was taken than is promised, and the
// call fails.
pub fn check_capacity(buffer: &Vec<u8>, capacity: usize) -> Result<(), AllocError>
    ensures { OnOk result (vec_capacity buffer.now ≡ capacity) }
{
    if buffer.capacity() == capacity {
        Ok(())
    } else {
        Err(AllocError)
    }
}

// Makes space after the contents of a full buffer, for some of the wanted bytes: its length or one
// piece, whichever is more.
pub fn make_room(buffer: &mut Vec<u8>, wanted: usize) -> Result<(), AllocError>
    requires { 0 < wanted }
    ensures room { OnOk result (vec_len buffer.new < vec_capacity buffer.new) }
    ensures items { buffer.new.items ≡ buffer.old.items }
    ensures few { OnOk result (vec_capacity buffer.new
        ≤ max (vec_capacity buffer.old) (2 * vec_len buffer.old + MAX_CLEARED)) }
{
    if buffer.len() == buffer.capacity() {
        buffer.reserve_exact(wanted.min(buffer.len().max(MAX_CLEARED)))?;
    }
    Ok(())
}

// Appends bytes. A buffer without room for them doubles, or grows by their number if that is more.
pub fn append(buffer: &mut Vec<u8>, bytes: &[u8]) -> Result<(), AllocError>
    ensures items { OnOk result (buffer.new.items ≡ buffer.old.items ++ bytes.now) }
    ensures longer { vec_len buffer.old ≤ vec_len buffer.new }
    ensures few { OnOk result (vec_capacity buffer.new
        ≤ max (vec_capacity buffer.old) (2 * vec_len buffer.new + MAX_CLEARED)) }
{
    if buffer.capacity() - buffer.len() < bytes.len() {
        buffer.reserve_exact(bytes.len().max(buffer.len()))?;
    }
    let capacity = buffer.capacity();
    buffer.extend_from_slice(bytes)?;
    check_capacity(buffer, capacity)
}
