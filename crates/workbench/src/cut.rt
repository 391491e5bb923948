//! How the bytes of a stream are cut into pieces.

use ipc_stream::{Failed, Limited, Memory, Source};

/// How a stream is cut into pieces.
#[derive(Clone, Copy)]
pub enum Cut {
    /// Into pieces of this many bytes, at least one.
    Each(usize),
    /// In two, after this many bytes.
    At(usize),
}

/// A source that gives its first bytes alone, and then the others.
#[derive(Drop)]
pub struct InTwo<D> {
    inner: D,
    // How many of the first bytes are still to come.
    first: usize,
}

impl<D> InTwo<D> {
    /// Returns the source that was cut.
    pub fn into_inner(self) -> D {
        let InTwo { inner, first: _ } = self;
        inner
    }
}

impl<D: Source> Source for InTwo<D> {
    ghost remaining = { λ s. D.remaining s.inner };

    ghost failures = { λ s. D.failures s.inner };

    ghost bound = { λ s. D.bound s.inner };

    fn read(&mut self, into: &mut [u8]) -> Result<usize, Failed> {
        let room = if self.first == 0 {
            into.len()
        } else {
            into.len().min(self.first)
        };
        let count = self.inner.read(&mut into[..room])?;
        self.first = self.first.saturating_sub(count);
        Ok(count)
    }
}

/// A source of these bytes that is cut in this way.
pub fn source_of(stream: Vec<u8>, cut: Cut) -> Limited<InTwo<Memory>> {
    let inner = Memory::new(stream);
    match cut {
        Cut::Each(size) => Limited::new(InTwo { inner, first: 0 }, size.max(1), u64::MAX),
        Cut::At(first) => Limited::new(InTwo { inner, first }, usize::MAX, u64::MAX),
    }
}
