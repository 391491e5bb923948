ghost use Rattle.std.specs.Prelude.{◌≡◌, ◌≢◌, ◌↔◌, IsTrue, IfErr, None};
ghost use Rattle.std.specs.Io.{ReadsAtMost, WritesAtMost};
ghost use Rattle.std.specs.Io.KnownBytes.{Keeps, ReadConsumes, WriteAppends};
ghost use Rattle.std.specs.IoError.{error_kind, raw_os_error};

use std::io::{Error, ErrorKind, Read, Result, Write};

/// A reader or writer that never returns `ErrorKind::Interrupted`: the code repeats a call that a
/// signal interrupts, and after 2^64 - 1 tries returns `ErrorKind::TimedOut`. No clause states the
/// tries.
///
/// All else is passed through from the inner reader or writer. The system's code of the last error
/// is kept.
#[derive(Drop)]
pub struct Retry<T> {
    inner: T,
    code: Option<i32>,
}

impl<T> Retry<T> {
    /// Creates one from a reader or writer.
    pub fn new(inner: T) -> Self
        ensures inner { result.inner ≡ inner }
        ensures code { result.code ≡ None }
    {
        Retry { inner, code: None }
    }

    /// Returns the system's code of the last error that a call returned, if it had one.
    pub fn code(&self) -> Option<i32>
        ensures { result ≡ self.now.code }
    {
        self.code
    }

    // Keeps the code of an error, which is returned.
    fn note(&mut self, error: Error) -> Error
        ensures same { result ≡ error }
        ensures inner { self.new.inner ≡ self.old.inner }
        ensures code { self.new.code ≡ raw_os_error error }
    {
        self.code = error.raw_os_error();
        error
    }
}

// Whether a signal interrupted the call.
fn is_interrupted(error: &Error) -> bool
    ensures { IsTrue result ↔ (error_kind error.now ≡ ErrorKind.Interrupted) }
{
    error.kind() == ErrorKind::Interrupted
}

// The error of a call that is interrupted without end.
fn too_many_tries() -> Error
    ensures { error_kind result ≡ ErrorKind.TimedOut }
{
    Error::from(ErrorKind::TimedOut)
}

impl<T: Read> Read for Retry<T> {
    ghost remaining = { λ r. T.remaining r.inner };

    fn read(&mut self, into: &mut [u8]) -> Result<usize>
        ensures bound { ReadsAtMost result into.new }
        ensures bytes { ReadConsumes (T.remaining self.old.inner)
            (T.remaining self.new.inner) result into.new }
        ensures retried { IfErr result (λ e. error_kind e ≢ ErrorKind.Interrupted) }
        ensures code { IfErr result (λ e. self.new.code ≡ raw_os_error e) }
    {
        for _ in 0..u64::MAX {
            match self.inner.read(into) {
                Err(error) if is_interrupted(&error) => {}
                Err(error) => return Err(self.note(error)),
                result => return result,
            }
        }
        Err(self.note(too_many_tries()))
    }
}

impl<T: Write> Write for Retry<T> {
    ghost contents = { λ r. T.contents r.inner };

    fn write(&mut self, bytes: &[u8]) -> Result<usize>
        ensures bound { WritesAtMost result bytes.now }
        ensures bytes { WriteAppends (T.contents self.old.inner)
            (T.contents self.new.inner) result bytes.now }
        ensures retried { IfErr result (λ e. error_kind e ≢ ErrorKind.Interrupted) }
        ensures code { IfErr result (λ e. self.new.code ≡ raw_os_error e) }
    {
        for _ in 0..u64::MAX {
            match self.inner.write(bytes) {
                Err(error) if is_interrupted(&error) => {}
                Err(error) => return Err(self.note(error)),
                result => return result,
            }
        }
        Err(self.note(too_many_tries()))
    }

    fn flush(&mut self) -> Result<()>
        ensures bytes { Keeps (T.contents self.old.inner) (T.contents self.new.inner) }
        ensures retried { IfErr result (λ e. error_kind e ≢ ErrorKind.Interrupted) }
        ensures code { IfErr result (λ e. self.new.code ≡ raw_os_error e) }
    {
        for _ in 0..u64::MAX {
            match self.inner.flush() {
                Err(error) if is_interrupted(&error) => {}
                Err(error) => return Err(self.note(error)),
                result => return result,
            }
        }
        Err(self.note(too_many_tries()))
    }
}
