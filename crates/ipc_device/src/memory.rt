ghost use Rattle.std.specs.Prelude.{◌≡◌, ◌≤◌, ◌<◌, ◌+◌, ◌-◌, ◌⊎◌, true, false, [], length, drop};
ghost use Rattle.std.specs.Prelude.{Some, IfOk, IsOk, OnErr, OnOk, vec_capacity, vec_len};
ghost use Rattle.std.specs.Io.KnownBytes.{Keeps, ReadConsumes, WriteAppends};
ghost use Rattle.ipc_device.specs.Failures.{CountsFailures, count_or};

use crate::failed::Failed;
use crate::sink::Sink;
use crate::source::Source;

/// A source and a sink in memory. Writing appends to its bytes, and reading returns them in order.
///
/// No call of the source fails. A call of the sink fails if memory for the bytes ran out; each
/// later call of the sink fails too.
#[derive(Debug, Drop)]
pub struct Memory {
    bytes: Vec<u8>,
    at: usize,
    failed: bool,
    ghost in_range: { at ≤ vec_len bytes },
}

impl Memory {
    /// Creates a source of these bytes, which is also a sink that already holds them.
    pub fn new(bytes: Vec<u8>) -> Self
        ensures gives { ⟦<Memory as Source>⟧.remaining result ≡ Some bytes.items }
        ensures holds { ⟦<Memory as Sink>⟧.written result ≡ Some bytes.items }
        ensures works { ⟦<Memory as Sink>⟧.failures result ≡ 0 }
    {
        Memory {
            bytes,
            at: 0,
            failed: false,
        }
    }

    /// Returns the bytes that were not read yet.
    pub fn unread(&self) -> &[u8]
        ensures { ⟦<Memory as Source>⟧.remaining self.now ≡ Some result.now }
    {
        &self.bytes[self.at..]
    }

    /// Returns all bytes that it holds, whether they were read or not.
    pub fn into_bytes(self) -> Vec<u8>
        ensures { ⟦<Memory as Sink>⟧.written self ≡ Some result.items }
    {
        let Memory {
            bytes,
            at: _,
            failed: _,
        } = self;
        bytes
    }
}

impl Source for Memory {
    ghost remaining = { λ m. Some (drop m.at m.bytes.items) };

    ghost failures = { λ m. 0 };

    ghost bound = { λ m. length m.bytes.items - m.at };

    fn read(&mut self, into: &mut [u8]) -> Result<usize, Failed>
        ensures count { IfOk result (λ k. k ≤ length into.new) }
        ensures bytes { ReadConsumes (Some (drop self.old.at self.old.bytes.items))
            (Some (drop self.new.at self.new.bytes.items)) result into.new }
        ensures fewer { IfOk result (λ k. (length self.new.bytes.items - self.new.at + k)
            ≤ length self.old.bytes.items - self.old.at) }
        ensures failures { CountsFailures 0 0 result }
        // It never fails.
        ensures works { IsOk result }
    {
        let unread = &self.bytes[self.at..];
        let count = unread.len().min(into.len());
        into[..count].copy_from_slice(&unread[..count]);
        self.at += count;
        Ok(count)
    }
}

impl Sink for Memory {
    ghost written = { λ m. Some m.bytes.items };

    ghost held_back = { λ m. Some [] };

    ghost failures = { λ m. count_or m.failed 0 };

    fn write(&mut self, bytes: &[u8]) -> Result<usize, Failed>
        ensures count { IfOk result (λ k. k ≤ length bytes.now) }
        ensures some { IfOk result (λ k. 0 < length bytes.now → 0 < k) }
        ensures bytes { WriteAppends (Some self.old.bytes.items)
            (Some self.new.bytes.items) result bytes.now }
        ensures failures { CountsFailures (count_or self.old.failed 0) (count_or self.new.failed 0)
            result }
        // It fails only where the vector has no room for all bytes and could not grow, or where
        // that happened before.
        ensures full { OnErr result ((self.old.failed ≡ true)
            ⊎ (vec_capacity self.old.bytes < vec_len self.old.bytes + length bytes.now)) }
    {
        if self.failed {
            return Err(Failed);
        }
        if self.bytes.extend_from_slice(bytes).is_err() {
            self.failed = true;
            return Err(Failed);
        }
        Ok(bytes.len())
    }

    fn flush(&mut self) -> Result<(), Failed>
        ensures bytes { Keeps (Some self.old.bytes.items) (Some self.new.bytes.items) }
        ensures handed_on { OnOk result (⟦<Memory as Sink>⟧.held_back self.new ≡ Some []) }
        ensures failures { CountsFailures (count_or self.old.failed 0) (count_or self.new.failed 0)
            result }
        // It fails only where a write did before.
        ensures works { self.old.failed ≡ false → IsOk result }
    {
        if self.failed {
            return Err(Failed);
        }
        Ok(())
    }
}
