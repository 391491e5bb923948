ghost use Rattle.std.specs.Prelude.{ℕ, List, Option, ◌≤◌, ◌+◌, length, IfOk};
ghost use Rattle.std.specs.Io.KnownBytes.{ReadConsumes};
ghost use Rattle.ipc_device.specs.Failures.{CountsFailures};

use crate::failed::Failed;

/// A device that returns the bytes of a stream, in pieces of its own choice.
pub trait Source {
    /// The bytes that are still to come, if the source reports them.
    ghost remaining: { Self → Option (List ℕ) };

    /// The failure count: 0 until a call fails, and 1 afterwards.
    ghost failures: { Self → ℕ };

    /// An upper bound of the number of bytes that are still to come.
    ghost bound: { Self → ℕ };

    /// Puts the next bytes at the front of `into` and returns their number. It is 0 only if `into`
    /// is empty or the source is at its end. A call that fails takes no byte, and each later call
    /// fails too.
    fn read(&mut self, into: &mut [u8]) -> Result<usize, Failed>
        ensures count { IfOk result (λ k. k ≤ length into.new) }
        ensures bytes { ReadConsumes (remaining self.old) (remaining self.new) result into.new }
        ensures fewer { IfOk result (λ k. (bound self.new + k) ≤ bound self.old) }
        ensures failures { CountsFailures (failures self.old) (failures self.new) result };
}
