ghost use Rattle.std.specs.Prelude.{◌≡◌, ◌<◌, ◌≤◌, ◌+◌, ◌⊎◌, true, false, [], length, Some, IfOk};
ghost use Rattle.std.specs.Prelude.{OnErr, OnOk};
ghost use Rattle.std.specs.Io.KnownBytes.{Keeps, ReadConsumes, WriteAppends};
ghost use Rattle.ipc_device.specs.Failures.{CountsFailures, count_or};

use crate::failed::Failed;
use crate::sink::Sink;
use crate::source::Source;

/// A device for tests. It moves at most `step` bytes in a call, and fails when its calls are used
/// up. A flush counts as a call.
#[derive(Drop)]
pub struct Limited<D> {
    inner: D,
    step: usize,
    calls_left: u64,
    failed: bool,
    ghost moves: { 0 < step },
    ghost spent: { failed ≡ true → calls_left ≡ 0 },
}

impl<D> Limited<D> {
    /// Creates a device over `inner`, of which at most `calls` calls succeed. `step` must be above
    /// 0.
    pub fn new(inner: D, step: usize, calls: u64) -> Self
        requires { 0 < step }
        ensures inner { result.inner ≡ inner }
        ensures step { result.step ≡ step }
        ensures calls { result.calls_left ≡ calls }
        ensures works { result.failed ≡ false }
    {
        Limited {
            inner,
            step,
            calls_left: calls,
            failed: false,
        }
    }

    /// Returns the inner device.
    pub fn into_inner(self) -> D
        ensures { result ≡ self.inner }
    {
        let Limited {
            inner,
            step: _,
            calls_left: _,
            failed: _,
        } = self;
        inner
    }
}

impl<D: Source> Source for Limited<D> {
    ghost remaining = { λ l. D.remaining l.inner };

    ghost failures = { λ l. count_or l.failed (D.failures l.inner) };

    ghost bound = { λ l. D.bound l.inner };

    fn read(&mut self, into: &mut [u8]) -> Result<usize, Failed>
        ensures count { IfOk result (λ k. k ≤ length into.new) }
        ensures bytes { ReadConsumes (D.remaining self.old.inner)
            (D.remaining self.new.inner) result into.new }
        ensures fewer { IfOk result (λ k. (D.bound self.new.inner + k) ≤ D.bound self.old.inner) }
        ensures failures { CountsFailures (count_or self.old.failed (D.failures self.old.inner))
            (count_or self.new.failed (D.failures self.new.inner)) result }
        // No call moves more than a step, and each that succeeds uses one up.
        ensures step { IfOk result (λ k. k ≤ self.old.step) }
        ensures spent { IfOk result (λ k. self.new.calls_left + 1 ≡ self.old.calls_left) }
        // A call fails only if no calls remain or the inner device failed.
        ensures cause { OnErr result ((self.old.calls_left ≡ 0) ⊎ (D.failures self.new.inner ≡ 1)) }
    {
        if self.failed || self.calls_left == 0 {
            self.failed = true;
            return Err(Failed);
        }
        self.calls_left -= 1;
        let room = into.len().min(self.step);
        self.inner.read(&mut into[..room])
    }
}

impl<D: Sink> Sink for Limited<D> {
    ghost written = { λ l. D.written l.inner };

    ghost held_back = { λ l. D.held_back l.inner };

    ghost failures = { λ l. count_or l.failed (D.failures l.inner) };

    fn write(&mut self, bytes: &[u8]) -> Result<usize, Failed>
        ensures count { IfOk result (λ k. k ≤ length bytes.now) }
        ensures some { IfOk result (λ k. 0 < length bytes.now → 0 < k) }
        ensures bytes { WriteAppends (D.written self.old.inner)
            (D.written self.new.inner) result bytes.now }
        ensures failures { CountsFailures (count_or self.old.failed (D.failures self.old.inner))
            (count_or self.new.failed (D.failures self.new.inner)) result }
        // No call moves more than a step, and each that succeeds uses one up.
        ensures step { IfOk result (λ k. k ≤ self.old.step) }
        ensures spent { IfOk result (λ k. self.new.calls_left + 1 ≡ self.old.calls_left) }
        // A call fails only if no calls remain or the inner device failed.
        ensures cause { OnErr result ((self.old.calls_left ≡ 0) ⊎ (D.failures self.new.inner ≡ 1)) }
    {
        if self.failed || self.calls_left == 0 {
            self.failed = true;
            return Err(Failed);
        }
        self.calls_left -= 1;
        let room = bytes.len().min(self.step);
        self.inner.write(&bytes[..room])
    }

    fn flush(&mut self) -> Result<(), Failed>
        ensures bytes { Keeps (D.written self.old.inner) (D.written self.new.inner) }
        ensures failures { CountsFailures (count_or self.old.failed (D.failures self.old.inner))
            (count_or self.new.failed (D.failures self.new.inner)) result }
        ensures handed_on { OnOk result (D.held_back self.new.inner ≡ Some []) }
        ensures spent { OnOk result (self.new.calls_left + 1 ≡ self.old.calls_left) }
        // A call fails only if no calls remain or the inner device failed.
        ensures cause { OnErr result ((self.old.calls_left ≡ 0) ⊎ (D.failures self.new.inner ≡ 1)) }
    {
        if self.failed || self.calls_left == 0 {
            self.failed = true;
            return Err(Failed);
        }
        self.calls_left -= 1;
        self.inner.flush()
    }
}
