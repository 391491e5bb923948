//! Why a call of a writer is refused.
ghost use Rattle.std.specs.Prelude.{◌≡◌, ◌↔◌, IsTrue, Some};
ghost use Rattle.ipc_stream_session.specs.WriteErrors.{error_line, error_number};
ghost use Rattle.ipc_stream_session.specs.declared.write_error.WriteError.TheVariants.{Refused};

use ipc_model::{Fault, WriteFault};
use ipc_text_temporal::TextFault;
use std::error::Error;
use std::fmt;

/// Why a call of a `WriteSession` is refused.
#[derive(Debug, PartialEq, Eq, Drop)]
pub enum WriteError {
    /// The state of the writer does not allow the call.
    Misuse,
    /// A text is not UTF-8.
    NotUtf8,
    /// X6: the text is not the JSON of a schema, or `Schema::check` refuses its schema with
    /// `Limits::standard`.
    BadSchemaJson,
    /// F25 to F34: a reader of the schema refuses the buffers of a batch or of a dictionary.
    Invalid(Fault),
    /// W1 to W11: as in `StreamWriter`.
    Refused(WriteFault),
}

impl WriteError {
    /// Returns the number: 65 for a misuse, 66 for a text that is not UTF-8, the number after the
    /// letter F, 100 more than that after the letter W, or 200 more than that after the letter X.
    pub fn number(&self) -> u32
        ensures { result ≡ error_number self.now }
    {
        match self {
            WriteError::Misuse => 65,
            WriteError::NotUtf8 => 66,
            WriteError::BadSchemaJson => 206,
            WriteError::Invalid(fault) => u32::from(fault.number()),
            WriteError::Refused(fault) => 100 + u32::from(fault.number()),
        }
    }

    // Whether this is W10, which only repeats that the writer has ended.
    pub(crate) fn is_repeated(&self) -> bool
        ensures { IsTrue result ↔ (self.now ≡ Refused WriteFault.Failed) }
    {
        matches!(self, WriteError::Refused(WriteFault::Failed))
    }
}

/// Prints the line of a refusal, as in `W7 DictionaryFull`. The other errors have words of their
/// own.
impl fmt::Display for WriteError {
    ghost output = { λ error. Some (error_line error) };

    fn fmt<W: fmt::Write>(&self, f: &mut fmt::Formatter<W>) -> fmt::Result {
        match self {
            WriteError::Misuse => f.write_str("call out of order"),
            WriteError::NotUtf8 => f.write_str("text is not UTF-8"),
            WriteError::BadSchemaJson => write!(f, "{}", TextFault::BadSchemaJson),
            WriteError::Invalid(fault) => write!(f, "{fault}"),
            WriteError::Refused(fault) => write!(f, "{fault}"),
        }
    }
}

impl Error for WriteError {}

impl From<WriteFault> for WriteError {
    ghost from_gives = { λ fault error. error ≡ Refused fault };

    fn from(fault: WriteFault) -> WriteError {
        WriteError::Refused(fault)
    }
}
