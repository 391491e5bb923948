//! Why a stream is not rewritten.
ghost use Rattle.std.specs.Prelude.{◌≡◌};
ghost use Rattle.job_rewrite.specs.Rewriting.{stop_of_reading};

use crate::options::Total;
use ipc_model::{Fault, WriteFault};
use ipc_stream_read::ReadStop;

/// Why a stream is not rewritten.
#[derive(Debug, Drop)]
pub enum RewriteStop {
    /// The stream was refused at the message with this number, counted from 0.
    Read(Fault, u64),
    /// What was read could not be written.
    Write(WriteFault),
    /// The batch with this number, counted from 0, would exceed this total of what is written.
    Above(Total, u64),
    /// The message of the schema and the end-of-stream mark have more bytes than may be written.
    NoRoom,
    /// With the next part of the message with this number, counted from 0, more bytes would be held
    /// of what is read than the options allow.
    Held(u64),
    /// The schema is another than the one that is expected: the path of the first field that
    /// differs.
    OtherSchema(Vec<u64>),
}

impl RewriteStop {
    // Why reading stopped, at the message with this number.
    pub(crate) fn of_reading(why: ReadStop, message: u64) -> RewriteStop
        ensures { result ≡ stop_of_reading why message }
    {
        match why {
            ReadStop::Refused(fault) => RewriteStop::Read(fault, message),
            ReadStop::Held => RewriteStop::Held(message),
        }
    }
}

impl From<WriteFault> for RewriteStop {
    ghost use Rattle.std.specs.Prelude.{◌≡◌};
    ghost use Rattle.job_rewrite.specs.declared.stop.RewriteStop.TheVariants.{Write};

    ghost from_gives = { λ fault stop. stop ≡ Write fault };

    fn from(fault: WriteFault) -> RewriteStop {
        RewriteStop::Write(fault)
    }
}
