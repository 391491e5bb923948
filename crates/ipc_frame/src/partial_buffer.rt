ghost use Rattle.std.specs.Prelude.{◌≤◌, vec_len};

use crate::pull::read_after;
use crate::room::{MAX_CLEARED, append, check_capacity, make_room};
use ipc_device::Source;
use ipc_model::Fault;
use std::alloc::{AllocError, Global};

// The bytes of a message's metadata or body that came, at the front of a buffer. The bytes after
// them, old or cleared, are overwritten by the next reads.
#[derive(Drop)]
pub struct PartialBuffer {
    buffer: Vec<u8>,
    len: usize,
    ghost within: { len ≤ vec_len buffer },
}

impl PartialBuffer {
    ghost use Rattle.std.specs.Prelude.{◌≡◌, ◌<◌, ◌≤◌, ◌+◌, ◌*◌, ◌^◌, ◌++◌, [], length, max, IfErr};
    ghost use Rattle.std.specs.Prelude.{IfOk, OnErr, OnOk, vec_capacity};
    ghost use Rattle.std.specs.Io.KnownBytes.{Keeps};
    ghost use Rattle.ipc_frame.specs.Buffers.{KeepsOne, filled_bytes};
    ghost use Rattle.ipc_frame.specs.Failures.{FailsAs, IsOutside};
    ghost use Rattle.ipc_frame.specs.Pulled.{Comes};

    // With no byte.
    pub fn new(alloc: Global) -> PartialBuffer
        ensures came { filled_bytes result ≡ [] }
        ensures room { vec_capacity result.buffer ≡ 0 }
    {
        PartialBuffer {
            buffer: Vec::new(alloc),
            len: 0,
        }
    }

    // How many bytes came.
    pub fn len(&self) -> usize
        ensures len { result ≡ length (filled_bytes self.now) }
        ensures small { result < 2 ^ 63 }
    {
        self.len
    }

    // The bytes that came.
    pub fn as_slice(&self) -> &[u8]
        ensures { result.now ≡ filled_bytes self.now }
    {
        &self.buffer[..self.len]
    }

    // Appends bytes to those that came.
    pub fn extend(&mut self, bytes: &[u8]) -> Result<(), AllocError>
        ensures came { OnOk result (filled_bytes self.new ≡ filled_bytes self.old ++ bytes.now) }
        ensures few { OnOk result (vec_capacity self.new.buffer
            ≤ max (vec_capacity self.old.buffer)
            (2 * length (filled_bytes self.new) + MAX_CLEARED)) }
    {
        self.buffer.truncate(self.len);
        append(&mut self.buffer, bytes)?;
        self.len = self.buffer.len();
        Ok(())
    }

    // Makes sure that there is space to read into after the bytes that came. If there is none, it
    // clears space for some of the wanted bytes.
    fn make_place(&mut self, wanted: usize) -> Result<(), AllocError>
        requires { 0 < wanted }
        ensures place { OnOk result (self.new.len < vec_len self.new.buffer) }
        ensures came { filled_bytes self.new ≡ filled_bytes self.old }
        ensures few { OnOk result (vec_capacity self.new.buffer
            ≤ max (vec_capacity self.old.buffer) (2 * self.old.len + MAX_CLEARED)) }
    {
        if self.len < self.buffer.len() {
            return Ok(());
        }
        make_room(&mut self.buffer, wanted)?;
        let capacity = self.buffer.capacity();
        let room = (capacity - self.len).min(MAX_CLEARED).min(wanted);
        self.buffer.resize(self.len + room, 0)?;
        check_capacity(&self.buffer, capacity)
    }

    // Calls the source once, for at most the wanted bytes, and appends what comes.
    pub fn read<R: Source>(&mut self, source: &mut R, wanted: usize) -> Result<usize, Fault>
        requires { 0 < wanted }
        ensures comes { IfOk result (λ k. Comes (R.remaining source.old)
            (R.remaining source.new) (filled_bytes self.old) (filled_bytes self.new) wanted k) }
        ensures fewer { IfOk result (λ k. (R.bound source.new + k) ≤ R.bound source.old) }
        ensures lost { OnErr result (Keeps (R.remaining source.old) (R.remaining source.new)) }
        ensures only { IfErr result IsOutside }
        ensures failures { FailsAs (R.failures source.old) (R.failures source.new) result }
        ensures few { OnOk result (vec_capacity self.new.buffer
            ≤ max (vec_capacity self.old.buffer)
            (2 * length (filled_bytes self.new) + MAX_CLEARED)) }
    {
        self.make_place(wanted)?;
        let room = (self.buffer.len() - self.len).min(wanted);
        let count = read_after(source, &mut self.buffer, self.len, room)?;
        self.len += count;
        Ok(count)
    }

    // Takes a buffer to read over, if no byte came and it has more room than the one that is there.
    pub fn reuse(&mut self, buffer: Vec<u8>)
        ensures came { filled_bytes self.new ≡ filled_bytes self.old }
        ensures kept { KeepsOne
            ((filled_bytes self.old ≡ []) × (vec_capacity self.old.buffer < vec_capacity buffer))
            (vec_capacity self.old.buffer) (vec_capacity self.new.buffer) (vec_capacity buffer) }
    {
        if self.len == 0 && self.buffer.capacity() < buffer.capacity() {
            self.buffer = buffer;
        }
    }

    // The bytes that came.
    pub fn into_vec(self) -> Vec<u8>
        ensures { result.items ≡ filled_bytes self }
    {
        let PartialBuffer { buffer, len } = self;
        let mut buffer = buffer;
        buffer.truncate(len);
        buffer
    }
}
