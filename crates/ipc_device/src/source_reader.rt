ghost use Rattle.std.specs.Prelude.{◌≡◌, ℕ, false, true, OnErr};
ghost use Rattle.std.specs.Io.{ReadsAtMost};
ghost use Rattle.std.specs.Io.KnownBytes.{Keeps, ReadConsumes};

use crate::source::Source;
use std::io::{Error, ErrorKind, Read, Result};

/// Uses a source as a reader of std, as the crate `csv` needs it, and notes whether it failed.
///
/// A failed call of the source is an error of the kind `Other`, and so is each later call.
pub struct SourceReader<S: Source> {
    source: S,
    // Whether the source failed.
    failed: bool,
    ghost fails: { failed ≡ true → S.failures source ≡ 1 },
    ghost works: { failed ≡ false → S.failures source ≡ 0 },
}

impl<S: Source> SourceReader<S> {
    /// Creates a reader of this source. One call that asks for no byte shows whether the source had
    /// failed.
    pub fn new(source: S) -> SourceReader<S>
        ensures { Keeps (S.remaining source) (S.remaining result.source) }
    {
        let mut source = source;
        let failed = source.read(&mut []).is_err();
        SourceReader { source, failed }
    }

    /// Returns the source.
    pub fn into_inner(self) -> S
        ensures { result ≡ self.source }
    {
        let SourceReader { source, failed: _ } = self;
        source
    }
}

/// A reader that reports whether its device failed.
pub trait ReportsFailure {
    /// The failure count of the device: 0 until a call fails, and 1 afterwards.
    ghost failures: { Self → ℕ };

    /// Returns whether a call of the device failed.
    fn has_failed(&self) -> bool
        ensures failed { result ≡ true → failures self.now ≡ 1 }
        ensures works { result ≡ false → failures self.now ≡ 0 };
}

impl<S: Source> ReportsFailure for SourceReader<S> {
    ghost failures = { λ r. S.failures r.source };

    fn has_failed(&self) -> bool {
        self.failed
    }
}

impl<S: Source> Read for SourceReader<S> {
    ghost remaining = { λ r. S.remaining r.source };

    fn read(&mut self, into: &mut [u8]) -> Result<usize>
        ensures bound { ReadsAtMost result into.new }
        ensures bytes { ReadConsumes (S.remaining self.old.source)
            (S.remaining self.new.source) result into.new }
        // An error comes only if the source failed.
        ensures only { OnErr result (S.failures self.new.source ≡ 1) }
    {
        if self.failed {
            return Err(Error::from(ErrorKind::Other));
        }
        match self.source.read(into) {
            Ok(count) => Ok(count),
            Err(_) => {
                self.failed = true;
                Err(Error::from(ErrorKind::Other))
            }
        }
    }
}
