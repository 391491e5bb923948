ghost use Rattle.std.specs.Prelude.{◌≡◌, ◌≤◌, ◌<◌, ◌+◌, ◌-◌, ◌*◌, ◌^◌, ◌⊎◌, true, false, []};
ghost use Rattle.std.specs.Prelude.{length, None, Some, IfOk, OnErr, OnOk};
ghost use Rattle.std.specs.Io.KnownBytes.{Keeps, ReadConsumes, WriteAppends};
ghost use Rattle.ipc_device.specs.Failures.{CountsFailures, count_or, none_if};

use crate::failed::Failed;
use crate::sink::Sink;
use crate::source::Source;
use std::io::{Read, Write};

/// Uses a reader of std as a source, or a writer of std as a sink.
///
/// Each call makes one call of the reader or writer. Any error is a failure; so is a writer that
/// takes none of the bytes that it is given. A device fails after 2^64 - 1 calls, so a reader
/// returns finitely many bytes. The bytes that a writer holds back are known only after a
/// successful flush: there are none.
///
/// A call uses up one of these calls, even if it fails, unless none remain or one failed before. No
/// contract of std says when a reader or writer fails, so no clause says that a call fails only
/// then.
#[derive(Drop)]
pub struct Device<T> {
    inner: T,
    calls_left: u64,
    failed: bool,
    flushed: bool,
}

impl<T> Device<T> {
    /// Creates a device from a reader or a writer. No call of it has failed.
    pub fn new(inner: T) -> Self
        ensures inner { result.inner ≡ inner }
        ensures calls { result.calls_left ≡ 2 ^ 64 - 1 }
        ensures works { result.failed ≡ false }
        ensures flushed { result.flushed ≡ false }
    {
        Device {
            inner,
            calls_left: u64::MAX,
            failed: false,
            flushed: false,
        }
    }

    /// Returns the reader or writer.
    pub fn into_inner(self) -> T
        ensures { result ≡ self.inner }
    {
        let Device {
            inner,
            calls_left: _,
            failed: _,
            flushed: _,
        } = self;
        inner
    }
}

impl<T: Read> Source for Device<T> {
    ghost remaining = { λ d. T.remaining d.inner };

    ghost failures = { λ d. count_or d.failed 0 };

    ghost bound = { λ d. d.calls_left * 2 ^ 64 };

    fn read(&mut self, into: &mut [u8]) -> Result<usize, Failed>
        ensures count { IfOk result (λ k. k ≤ length into.new) }
        ensures bytes { ReadConsumes (T.remaining self.old.inner)
            (T.remaining self.new.inner) result into.new }
        ensures fewer { IfOk result (λ k. (self.new.calls_left * 2 ^ 64 + k)
            ≤ self.old.calls_left * 2 ^ 64) }
        ensures failures { CountsFailures (count_or self.old.failed 0) (count_or self.new.failed 0)
            result }
        ensures spent { OnOk result (self.new.calls_left + 1 ≡ self.old.calls_left) }
        // A call fails without the reader only if no calls remain or one failed before.
        ensures cause { OnErr result ((self.old.failed ≡ true) ⊎ (self.old.calls_left ≡ 0)
            ⊎ (self.new.calls_left + 1 ≡ self.old.calls_left)) }
    {
        if self.failed || self.calls_left == 0 {
            self.failed = true;
            return Err(Failed);
        }
        self.calls_left -= 1;
        match self.inner.read(into) {
            Ok(count) => Ok(count),
            Err(_) => {
                self.failed = true;
                Err(Failed)
            }
        }
    }
}

impl<T: Write> Sink for Device<T> {
    ghost written = { λ d. T.contents d.inner };

    // A writer of std does not report which bytes it holds back. After a flush there are none.
    ghost held_back = { λ d. none_if d.flushed };

    ghost failures = { λ d. count_or d.failed 0 };

    fn write(&mut self, bytes: &[u8]) -> Result<usize, Failed>
        ensures count { IfOk result (λ k. k ≤ length bytes.now) }
        ensures some { IfOk result (λ k. 0 < length bytes.now → 0 < k) }
        ensures bytes { WriteAppends (T.contents self.old.inner)
            (T.contents self.new.inner) result bytes.now }
        ensures failures { CountsFailures (count_or self.old.failed 0) (count_or self.new.failed 0)
            result }
        // After the writer took bytes, it is unknown which of them it holds back.
        ensures unknown { OnOk result (none_if self.new.flushed ≡ None) }
        ensures spent { OnOk result (self.new.calls_left + 1 ≡ self.old.calls_left) }
        // A call fails without the writer only if no calls remain or one failed before.
        ensures cause { OnErr result ((self.old.failed ≡ true) ⊎ (self.old.calls_left ≡ 0)
            ⊎ (self.new.calls_left + 1 ≡ self.old.calls_left)) }
    {
        if self.failed || self.calls_left == 0 {
            self.failed = true;
            return Err(Failed);
        }
        self.calls_left -= 1;
        self.flushed = false;
        match self.inner.write(bytes) {
            Ok(count) if count > 0 || bytes.is_empty() => Ok(count),
            _ => {
                self.failed = true;
                Err(Failed)
            }
        }
    }

    fn flush(&mut self) -> Result<(), Failed>
        ensures bytes { Keeps (T.contents self.old.inner) (T.contents self.new.inner) }
        ensures handed_on { OnOk result (none_if self.new.flushed ≡ Some []) }
        ensures failures { CountsFailures (count_or self.old.failed 0) (count_or self.new.failed 0)
            result }
        ensures spent { OnOk result (self.new.calls_left + 1 ≡ self.old.calls_left) }
        // A call fails without the writer only if no calls remain or one failed before.
        ensures cause { OnErr result ((self.old.failed ≡ true) ⊎ (self.old.calls_left ≡ 0)
            ⊎ (self.new.calls_left + 1 ≡ self.old.calls_left)) }
    {
        if self.failed || self.calls_left == 0 {
            self.failed = true;
            return Err(Failed);
        }
        self.calls_left -= 1;
        match self.inner.flush() {
            Ok(()) => {
                self.flushed = true;
                Ok(())
            }
            Err(_) => {
                self.failed = true;
                Err(Failed)
            }
        }
    }
}
