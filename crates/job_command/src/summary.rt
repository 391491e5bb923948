//! Sends the line that sums up a job to a sink, part by part: it takes no memory.
ghost use Rattle.std.specs.Prelude.{◌≡◌, ◌++◌, ◌∷◌, [], OnOk};
ghost use Rattle.std.specs.Io.KnownBytes.{Appends};
ghost use Rattle.ipc_device.specs.Failures.{CountsAny, CountsFailures};
ghost use Rattle.job_command.specs.Summaries.{fault_json, member, message_of, summary_text};

use crate::stop::Stop;
use crate::stop_line::{end_line, send, send_number};
use ipc_device::{Failed, Sink};

// Sends one more member of a JSON object: its name, and a number or null.
fn send_member<E: Sink>(messages: &mut E, name: &str, value: Option<u64>) -> Result<(), Failed>
    ensures sent { OnOk result
        (Appends (E.written messages.old) (E.written messages.new) (member name.now value)) }
    ensures failures { CountsAny (E.failures messages.old) (E.failures messages.new) result }
{
    send(messages, ",\"")?;
    send(messages, name)?;
    send(messages, "\":")?;
    match value {
        Some(number) => send_number(messages, number),
        None => send(messages, "null"),
    }
}

// Sends the line of a job that stopped as a JSON string, or null if it is done. The line has no
// character that JSON escapes.
fn send_outcome<E: Sink>(messages: &mut E, outcome: &Result<(), Stop>) -> Result<(), Failed>
    ensures sent { OnOk result
        (Appends (E.written messages.old) (E.written messages.new) (fault_json outcome.now)) }
    ensures failures { CountsAny (E.failures messages.old) (E.failures messages.new) result }
{
    let Err(stop) = outcome else {
        return send(messages, "null");
    };
    send(messages, "\"")?;
    stop.send_text(messages)?;
    send(messages, "\"")
}

// The number of the message that was refused, or with which more bytes would be held.
fn message_of(outcome: &Result<(), Stop>) -> Option<u64>
    ensures { result ≡ message_of outcome.now }
{
    match outcome {
        Err(Stop::Read(_, message)) | Err(Stop::Held(message)) => Some(*message),
        _ => None,
    }
}

// Sends the summary of a job as one line of JSON, with this label before it.
pub fn send_summary<E: Sink>(
    messages: &mut E,
    label: &str,
    job: &str,
    status: u8,
    outcome: &Result<(), Stop>,
    batches: Option<u64>,
    rows: Option<u64>,
    bytes_in: u64,
    bytes_out: u64,
) -> Result<(), Failed>
    ensures sent { OnOk result (Appends (E.written messages.old) (E.written messages.new)
        (label.now ++ summary_text job.now status outcome.now batches rows bytes_in bytes_out
        ++ 10 ∷ [])) }
    ensures failures { CountsFailures (E.failures messages.old) (E.failures messages.new) result }
{
    send(messages, label)?;
    send(messages, "{\"job\":\"")?;
    send(messages, job)?;
    send(messages, "\"")?;
    send_member(messages, "status", Some(status as u64))?;
    send(messages, ",\"fault\":")?;
    send_outcome(messages, outcome)?;
    send_member(messages, "message", message_of(outcome))?;
    send_member(messages, "batches", batches)?;
    send_member(messages, "rows", rows)?;
    send_member(messages, "bytes_in", Some(bytes_in))?;
    send_member(messages, "bytes_out", Some(bytes_out))?;
    send(messages, "}")?;
    end_line(messages)
}
