ghost use Rattle.std.specs.Prelude.{◌≡◌, ◌<◌, ◌≤◌, ◌+◌, length};
ghost use Rattle.std.specs.Prelude.{IfOk, IfErr, OnOk, OnErr};
ghost use Rattle.std.specs.Io.KnownBytes.{Keeps};
ghost use Rattle.ipc_frame.specs.Failures.{FailsAs, IsOutside};
ghost use Rattle.ipc_frame.specs.Parts.{FitsExpectation, HasSize, Undecided, received_bytes};
ghost use Rattle.ipc_frame.specs.Parts.{GrowsWithBytes, bytes_needed, capacity_of};
ghost use Rattle.ipc_frame.specs.Pulled.{ReadsAfter, Comes};

use crate::partial_message::{Expectation, PartialMessage, bytes_needed};
use ipc_device::Source;
use ipc_model::{Fault, Limits};

// Calls the source once, for at most `room` bytes, which overwrite those after the first `start`
// bytes.
pub fn read_after<R: Source>(
    source: &mut R,
    buffer: &mut [u8],
    start: usize,
    room: usize,
) -> Result<usize, Fault>
    requires some { 0 < room }
    requires within { start + room ≤ length buffer.old }
    ensures few { IfOk result (λ k. k ≤ room) }
    ensures behind { IfOk result (λ k. ReadsAfter (R.remaining source.old)
        (R.remaining source.new) buffer.old buffer.new start k) }
    ensures same { length buffer.new ≡ length buffer.old }
    ensures fewer { IfOk result (λ k. (R.bound source.new + k) ≤ R.bound source.old) }
    ensures lost { OnErr result (Keeps (R.remaining source.old) (R.remaining source.new)) }
    ensures only { IfErr result (λ fault. fault ≡ Fault.Read) }
    ensures failures { FailsAs (R.failures source.old) (R.failures source.new) result }
{
    match source.read(&mut buffer[start..start + room]) {
        Ok(count) => Ok(count),
        Err(_) => Err(Fault::Read),
    }
}

// Calls the source once, for at most the bytes up to the next decision, and appends what comes to
// the part that is awaited.
pub fn read_part<R: Source>(
    limits: &Limits,
    source: &mut R,
    parts: &mut PartialMessage,
    expectation: Expectation,
) -> Result<usize, Fault>
    requires { Undecided limits.now parts.old expectation }
    ensures fits { OnOk result (FitsExpectation limits.now parts.new expectation) }
    ensures comes { IfOk result (λ k. Comes (R.remaining source.old)
        (R.remaining source.new) (received_bytes parts.old) (received_bytes parts.new)
        (bytes_needed parts.old expectation) k) }
    ensures fewer { IfOk result (λ k. (R.bound source.new + k) ≤ R.bound source.old) }
    ensures lost { OnErr result (Keeps (R.remaining source.old) (R.remaining source.new)) }
    ensures only { IfErr result IsOutside }
    ensures failures { FailsAs (R.failures source.old) (R.failures source.new) result }
    ensures memory { IfErr result (λ fault. fault ≡ Fault.OutOfMemory → HasSize expectation) }
    ensures room { OnOk result (GrowsWithBytes (capacity_of parts.old) (capacity_of parts.new)
        (length (received_bytes parts.new))) }
{
    let wants = bytes_needed(limits, parts, expectation);
    match expectation {
        Expectation::Continuation => parts.start.read(source, wants),
        Expectation::Size => parts.start.read(source, wants),
        Expectation::Metadata(_) => parts.meta.read(source, wants),
        Expectation::Body(_) => parts.body.read(source, wants),
    }
}
