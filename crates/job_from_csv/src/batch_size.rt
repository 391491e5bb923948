//! The size of the batches that are sent.
ghost use Rattle.std.specs.Prelude.{◌≡◌, Err, IsSome, false, true};
ghost use Rattle.job_from_csv.specs.Batches.{AreLimitsFor};

use ipc_model::{Limits, WriteFault};

/// The size of the batches into which rows are divided.
#[derive(Clone, Copy, Debug, PartialEq, Eq)]
pub struct BatchSize {
    /// The maximum number of rows of a batch, from 1 to 2^31 - 1.
    pub rows: u64,
    /// The maximum number of bytes of the body of a message, or `None` for the standard limit.
    /// Above the standard limit it stands for that limit.
    pub bytes: Option<u64>,
}

impl BatchSize {
    // The limits of a stream with batches of this size.
    pub(crate) fn limits(self) -> Limits
        ensures { AreLimitsFor self result }
    {
        let usual = Limits::standard();
        Limits {
            metadata: usual.metadata,
            body: self.bytes.unwrap_or(usual.body).min(usual.body),
            slots: usual.slots,
            fields: usual.fields,
            depth: usual.depth,
            text: usual.text,
            pairs: usual.pairs,
        }
    }

    // Whether a batch with rows ends before a row because of this answer to its push: with the row
    // it would be too long for the bytes of this size.
    #[inline(always)]
    pub(crate) fn is_exceeded(self, pushed: &Result<(), WriteFault>) -> bool
        ensures exceeded { result ≡ true
            → IsSome self.bytes × (pushed.now ≡ Err WriteFault.TooLong) }
        ensures other { result ≡ false → IsSome self.bytes → pushed.now ≡ Err WriteFault.TooLong
            → ⊥ }
    {
        match pushed {
            Err(WriteFault::TooLong) => self.bytes.is_some(),
            _ => false,
        }
    }
}
