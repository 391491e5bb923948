//! Copies bytes to memory of the caller.
ghost use Rattle.ipc_stream_session.specs.Copies.{Copies};

/// Copies all bytes of `source` to the beginning of `target`, or none if `target` is too short.
/// Returns the number of bytes of `source` in both cases.
pub fn copy_into(source: &[u8], target: &mut [u8]) -> usize
    ensures { Copies source.now target.old target.new result }
{
    if source.len() <= target.len() {
        target[..source.len()].copy_from_slice(source);
    }
    source.len()
}
