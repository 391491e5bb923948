use crate::pull::read_after;
use ipc_device::Source;
use ipc_model::Fault;
use std::marker::Model;

// The first eight bytes of a message, as far as they came: its mark and the size of its metadata.
// They are an array and no `Vec`, so the mark, the size and the end mark take no memory.
#[derive(Drop)]
pub struct MessagePrefix {
    bytes: [u8; 8],
    len: usize,
}

impl Model for MessagePrefix {
    ghost use Rattle.std.specs.Prelude.{ℕ, List, ◌≤◌, take};

    ghost Value = { List ℕ };

    ghost view = { λ s. take s.len s.bytes };

    ghost invariant = { λ s. s.len ≤ 8 };
}

impl MessagePrefix {
    ghost use Rattle.std.specs.Prelude.{◌≡◌, ◌<◌, ◌≤◌, ◌+◌, ◌++◌, [], length, IfErr, IfOk, OnErr};
    ghost use Rattle.std.specs.Io.KnownBytes.{Keeps};
    ghost use Rattle.ipc_frame.specs.Failures.{FailsAs};
    ghost use Rattle.ipc_frame.specs.Pulled.{Comes};

    // With no byte.
    pub fn new() -> MessagePrefix
        ensures { result ≡ [] }
    {
        MessagePrefix {
            bytes: [0; 8],
            len: 0,
        }
    }

    // How many bytes came.
    pub fn len(&self) -> usize
        ensures len { result ≡ length self.now }
        ensures few { result ≤ 8 }
    {
        self.len
    }

    // The bytes that came.
    pub fn as_slice(&self) -> &[u8]
        ensures { result.now ≡ self.now }
    {
        &self.bytes[..self.len]
    }

    // Appends bytes to those that came.
    pub fn extend(&mut self, bytes: &[u8])
        requires { length self.old + length bytes.now ≤ 8 }
        ensures { self.new ≡ self.old ++ bytes.now }
    {
        let end = self.len + bytes.len();
        self.bytes[self.len..end].copy_from_slice(bytes);
        self.len = end;
    }

    // Calls the source once, for at most the wanted bytes, and appends what comes.
    pub fn read<R: Source>(&mut self, source: &mut R, wanted: usize) -> Result<usize, Fault>
        requires some { 0 < wanted }
        requires few { length self.old + wanted ≤ 8 }
        ensures comes { IfOk result (λ k. Comes (R.remaining source.old)
            (R.remaining source.new) self.old self.new wanted k) }
        ensures fewer { IfOk result (λ k. (R.bound source.new + k) ≤ R.bound source.old) }
        ensures lost { OnErr result (Keeps (R.remaining source.old) (R.remaining source.new)) }
        ensures only { IfErr result (λ fault. fault ≡ Fault.Read) }
        ensures failures { FailsAs (R.failures source.old) (R.failures source.new) result }
    {
        let count = read_after(source, &mut self.bytes, self.len, wanted)?;
        self.len += count;
        Ok(count)
    }
}
