ghost use Rattle.std.specs.Prelude.{◌<◌, ℕ, length, take, OnErr, OnOk};
ghost use Rattle.std.specs.Io.KnownBytes.{Appends};
ghost use Rattle.ipc_device.specs.Failures.{CountsAny, CountsFailures};

use crate::failed::Failed;
use crate::sink::Sink;

/// Sends all of `bytes` to `sink`, by as many calls as it needs: none for no bytes. Returns
/// `Failed` if the sink failed; then it has taken a beginning of the bytes.
pub fn send_all<W: Sink>(sink: &mut W, bytes: &[u8]) -> Result<(), Failed>
    ensures sent { OnOk result (Appends (W.written sink.old) (W.written sink.new) bytes.now) }
    ensures cut { OnErr result ((n : ℕ)
        × Appends (W.written sink.old) (W.written sink.new) (take n bytes.now)) }
    ensures failures { CountsAny (W.failures sink.old) (W.failures sink.new) result }
    // With bytes to send the sink is called, so a sink that failed before fails again.
    ensures called { 0 < length bytes.now
        → CountsFailures (W.failures sink.old) (W.failures sink.new) result }
{
    let mut sent = 0;
    while sent < bytes.len() {
        let count = sink.write(&bytes[sent..])?;
        sent += count;
    }
    Ok(())
}
