ghost use Rattle.std.specs.Prelude.{ℕ, List, [], Option, Some, ◌≡◌, ◌≤◌, ◌<◌, length, IfOk, OnOk};
ghost use Rattle.std.specs.Io.KnownBytes.{Keeps, WriteAppends};
ghost use Rattle.ipc_device.specs.Failures.{CountsFailures};

use crate::failed::Failed;

/// A device that takes the bytes of a stream. A call may take any number of them.
pub trait Sink {
    /// The bytes that the sink holds, if it reports them.
    ghost written: { Self → Option (List ℕ) };

    /// The bytes that the sink took and has not handed on, if it reports them.
    ghost held_back: { Self → Option (List ℕ) };

    /// The failure count: 0 until a call fails, and 1 afterwards.
    ghost failures: { Self → ℕ };

    /// Takes some of the first bytes of `bytes`. Returns their number, which is at least 1 if
    /// `bytes` is not empty. A call that fails takes no byte, and each later call fails too.
    fn write(&mut self, bytes: &[u8]) -> Result<usize, Failed>
        ensures count { IfOk result (λ k. k ≤ length bytes.now) }
        ensures some { IfOk result (λ k. 0 < length bytes.now → 0 < k) }
        ensures bytes { WriteAppends (written self.old) (written self.new) result bytes.now }
        ensures failures { CountsFailures (failures self.old) (failures self.new) result };

    /// Hands on all bytes that the sink holds back. After success it holds back none.
    fn flush(&mut self) -> Result<(), Failed>
        ensures bytes { Keeps (written self.old) (written self.new) }
        ensures handed_on { OnOk result (held_back self.new ≡ Some []) }
        ensures failures { CountsFailures (failures self.old) (failures self.new) result };
}
