//! How printing ended.

ghost use Rattle.std.specs.Prelude.{◌≡◌};
ghost use Rattle.ipc_stream_read.specs.Counts.{count_up};
ghost use Rattle.job_print.specs.Streams.{stop_of_reading};

use ipc_model::{Fault, WriteFault};
use ipc_stream_read::{End, ReadStop};
use ipc_text_temporal::TextFault;

/// Why printing stopped.
#[derive(Debug, Drop)]
pub enum PrintStop {
    /// The stream was refused at the message with this number, the count of the messages before it.
    Read(Fault, u64),
    /// What was read could not be written.
    Write(WriteFault),
    /// What was read has no text.
    Text(TextFault),
    /// With the next part of the message with this number, the count of the messages before it,
    /// more bytes would be held than the maximum.
    Held(u64),
    /// The schema is another than the one that is expected: the path of the first field that
    /// differs.
    OtherSchema(Vec<u64>),
}

impl PrintStop {
    // Why reading stopped, at the message with this number.
    pub(crate) fn of_reading(why: ReadStop, message: u64) -> PrintStop
        ensures { result ≡ stop_of_reading why message }
    {
        match why {
            ReadStop::Refused(fault) => PrintStop::Read(fault, message),
            ReadStop::Held => PrintStop::Held(message),
        }
    }
}

/// How many batches were read, and how many rows they have. A count stops at 2^64 - 1.
#[derive(Clone, Copy, Debug, PartialEq, Eq)]
pub struct PrintCounts {
    /// The batches.
    pub batches: u64,
    /// Their rows.
    pub rows: u64,
}

impl PrintCounts {
    /// Counts with no batch and no row.
    pub fn none() -> PrintCounts
        ensures { result ≡ record { batches = 0; rows = 0 } }
    {
        PrintCounts {
            batches: 0,
            rows: 0,
        }
    }

    /// Returns these counts with one batch more, of `rows` rows.
    pub fn with_batch(self, rows: usize) -> PrintCounts
        ensures batches { result.batches ≡ count_up self.batches 1 }
        ensures rows { result.rows ≡ count_up self.rows rows }
    {
        PrintCounts {
            batches: self.batches.saturating_add(1),
            rows: self.rows.saturating_add(rows as u64),
        }
    }
}

/// How printing a stream after its schema ended, if all that came before was printed.
#[derive(Clone, Copy, Debug, PartialEq, Eq)]
pub enum Outcome {
    /// At the stream's end, after these numbers of batches and rows.
    Whole(End, PrintCounts),
    /// Where the limit of rows was reached.
    Limited,
    /// Where reading broke off.
    Broken(Fault),
    /// At a row that has no text.
    Refused(TextFault),
    /// Where more bytes would be held than the maximum.
    Held,
}
