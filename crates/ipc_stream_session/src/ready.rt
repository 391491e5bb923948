//! The bytes of a stream that wait to be taken.
ghost use Rattle.std.specs.Prelude.{◌≡◌, ◌≤◌, length, vec_len};
ghost use Rattle.ipc_stream_session.specs.Tables.{MovesBytes};

use std::marker::Model;

/// Bytes that are taken from the front, in order. Contracts describe it as the list of the bytes
/// that were not taken.
#[derive(Drop)]
pub(crate) struct Ready {
    bytes: Vec<u8>,
    taken: usize,
}

impl Model for Ready {
    ghost use Rattle.std.specs.Prelude.{List, ℕ, drop, ◌≤◌, vec_len};

    ghost Value = { List ℕ };

    ghost view = { λ r. drop r.taken r.bytes.items };

    ghost invariant = { λ r. r.taken ≤ vec_len r.bytes };
}

impl Ready {
    // All of these bytes wait.
    pub(crate) fn new(bytes: Vec<u8>) -> Ready
        ensures { result ≡ bytes.items }
    {
        Ready { bytes, taken: 0 }
    }

    // Returns the number of bytes that wait.
    pub(crate) fn len(&self) -> usize
        ensures { result ≡ length self.now }
    {
        self.bytes.len() - self.taken
    }

    // Moves the first bytes to the beginning of `target`: all, or as many as it has room for.
    pub(crate) fn take(&mut self, target: &mut [u8]) -> usize
        ensures { MovesBytes self.old self.new target.old target.new result }
    {
        let count = self.len().min(target.len());
        let end = self.taken + count;
        target[..count].copy_from_slice(&self.bytes[self.taken..end]);
        self.taken = end;
        count
    }
}
