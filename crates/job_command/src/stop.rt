//! The exit status and the line of each reason why a job stops.
ghost use Rattle.std.specs.Prelude.{◌≡◌, ◌++◌, ◌∷◌, [], OnOk};
ghost use Rattle.std.specs.Io.KnownBytes.{Appends};
ghost use Rattle.job_command.specs.Jobs.{stop_of_csv, stop_of_print, stop_of_rewrite, stop_status};
ghost use Rattle.job_command.specs.Lines.{stop_text};
ghost use Rattle.ipc_device.specs.Failures.{CountsAny, CountsFailures};

use crate::stop_line::{
    end_line, send, send_above, send_fault, send_held, send_other_schema, send_read_fault,
    send_text_fault, send_write_fault,
};
use csv::ByteRecord;
use ipc_device::{Failed, Sink};
use ipc_model::{Fault, Schema, WriteFault};
use ipc_text_temporal::TextFault;
use job_rewrite::Total;

/// Why a job stopped.
#[derive(Debug, Drop)]
pub enum Stop {
    /// The stream was refused at the message with this number, or the source failed there.
    Read(Fault, u64),
    /// The CSV input failed.
    Input,
    /// The file with the schema cannot be read.
    Schema,
    /// The file with the schema is not the JSON text of a schema; its bytes.
    SchemaText(Vec<u8>),
    /// What was read could not be written.
    Write(WriteFault),
    /// The batch with this number, counted from 0, would exceed this total of what is written.
    Above(Total, u64),
    /// The message of the schema and the end-of-stream mark have more bytes than may be written.
    NoRoom,
    /// With the next part of the message with this number, more bytes would be held of the stream
    /// than the maximum.
    Held(u64),
    /// The schema of the stream is another than the one that is expected: the path of the first
    /// field that differs.
    OtherSchema(Vec<u64>),
    /// Rows of CSV could not be written.
    Rows {
        /// Why they could not be written.
        fault: WriteFault,
        /// The schema.
        schema: Schema,
    },
    /// What was read has no text, or is not a valid text.
    Text(TextFault),
    /// A record of CSV is another header than the schema's, or no row of the schema.
    Record {
        /// X4 or X5.
        fault: TextFault,
        /// The refused record, with all its fields.
        fields: ByteRecord,
        /// The schema.
        schema: Schema,
    },
}

impl From<TextFault> for Stop {
    ghost use Rattle.std.specs.Prelude.{◌≡◌};
    ghost use Rattle.job_command.specs.declared.stop.Stop.TheVariants.{Text};

    ghost from_gives = { λ fault stop. stop ≡ Text fault };

    fn from(fault: TextFault) -> Stop {
        Stop::Text(fault)
    }
}

impl From<job_print::PrintStop> for Stop {
    ghost from_gives = { λ why stop. stop ≡ stop_of_print why };

    fn from(why: job_print::PrintStop) -> Stop {
        match why {
            job_print::PrintStop::Read(fault, message) => Stop::Read(fault, message),
            job_print::PrintStop::Write(fault) => Stop::Write(fault),
            job_print::PrintStop::Text(fault) => Stop::Text(fault),
            job_print::PrintStop::Held(message) => Stop::Held(message),
            job_print::PrintStop::OtherSchema(path) => Stop::OtherSchema(path),
        }
    }
}

impl From<job_rewrite::RewriteStop> for Stop {
    ghost from_gives = { λ why stop. stop ≡ stop_of_rewrite why };

    fn from(why: job_rewrite::RewriteStop) -> Stop {
        match why {
            job_rewrite::RewriteStop::Read(fault, message) => Stop::Read(fault, message),
            job_rewrite::RewriteStop::Write(fault) => Stop::Write(fault),
            job_rewrite::RewriteStop::Above(total, number) => Stop::Above(total, number),
            job_rewrite::RewriteStop::NoRoom => Stop::NoRoom,
            job_rewrite::RewriteStop::Held(message) => Stop::Held(message),
            job_rewrite::RewriteStop::OtherSchema(path) => Stop::OtherSchema(path),
        }
    }
}

impl Stop {
    // Why a conversion from CSV by a schema stopped.
    pub(crate) fn of_csv(why: job_from_csv::FromCsvStop, schema: Schema) -> Stop
        ensures { result ≡ stop_of_csv schema why }
    {
        match why {
            job_from_csv::FromCsvStop::Input => Stop::Input,
            job_from_csv::FromCsvStop::Write(fault) => Stop::Rows { fault, schema },
            job_from_csv::FromCsvStop::Text(fault) => Stop::Text(fault),
            job_from_csv::FromCsvStop::Record { fault, fields } => Stop::Record {
                fault,
                fields,
                schema,
            },
        }
    }

    /// Returns the exit status: 1 if what was read is refused, 3 if a device failed, 4 if memory
    /// ran out.
    pub fn exit_status(&self) -> u8
        ensures { result ≡ stop_status self.now }
    {
        match self {
            Stop::Read(fault, _) => fault.exit_status(),
            Stop::Input | Stop::Schema => Fault::Read.exit_status(),
            Stop::Write(fault) => fault.exit_status(),
            Stop::Above(..) | Stop::NoRoom | Stop::Held(_) => 1,
            Stop::Rows { fault, .. } => fault.exit_status(),
            Stop::Text(TextFault::OutOfMemory) => WriteFault::OutOfMemory.exit_status(),
            Stop::Text(_) => 1,
            Stop::SchemaText(_) | Stop::OtherSchema(_) => 1,
            Stop::Record { .. } => 1,
        }
    }

    /// Writes it as one line to a sink: the fault with the number of its message, as in
    /// `F4 Truncated at message 1`, or the option whose total the output would exceed, with the
    /// number of the batch, or that of held bytes, with the number of the message, or the path at
    /// which the schema is another than the one that is expected. The input and the schema's file
    /// have a line without a message, and out of memory has no number. Nothing is allocated.
    ///
    /// Errors: the sink failed, and it may have taken a part of the line.
    pub fn write_line<E: Sink>(&self, messages: &mut E) -> Result<(), Failed>
        ensures line { OnOk result (Appends (E.written messages.old) (E.written messages.new)
            (stop_text self.now ++ 10 ∷ [])) }
        ensures failures { CountsFailures (E.failures messages.old) (E.failures messages.new)
            result }
    {
        self.send_text(messages)?;
        end_line(messages)
    }

    // Sends the line without its line feed.
    pub(crate) fn send_text<E: Sink>(&self, messages: &mut E) -> Result<(), Failed>
        ensures sent { OnOk result
            (Appends (E.written messages.old) (E.written messages.new) (stop_text self.now)) }
        ensures failures { CountsAny (E.failures messages.old) (E.failures messages.new) result }
    {
        match self {
            Stop::Read(fault, message) => send_read_fault(messages, fault, *message),
            Stop::Input => send_fault(messages, &Fault::Read),
            Stop::Schema => send(messages, "cannot read schema"),
            Stop::Write(fault) => send_write_fault(messages, fault),
            Stop::Above(total, number) => send_above(messages, total, *number),
            Stop::NoRoom => send(messages, "output above --max-total-bytes at the schema"),
            Stop::Held(message) => send_held(messages, *message),
            Stop::OtherSchema(path) => send_other_schema(messages, path),
            Stop::Rows { fault, .. } => send_write_fault(messages, fault),
            Stop::Text(fault) => send_text_fault(messages, fault),
            Stop::SchemaText(_) => send_text_fault(messages, &TextFault::BadSchemaJson),
            Stop::Record { fault, .. } => send_text_fault(messages, fault),
        }
    }
}
