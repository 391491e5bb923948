//! Sends the line of a job that stopped to a sink, part by part: it takes no memory.
ghost use Rattle.std.specs.Prelude.{◌≡◌, ◌∷◌, [], OnOk, codes};
ghost use Rattle.std.specs.Fmt.{decimal};
ghost use Rattle.std.specs.Io.KnownBytes.{Appends};
ghost use Rattle.ipc_model.specs.Texts.{fault_text, label, place_text, steps_text, stop_line};
ghost use Rattle.ipc_model.specs.Texts.{code_text};
ghost use Rattle.ipc_text_temporal.specs.FaultLines.{text_fault_line};
ghost use Rattle.ipc_device.specs.Failures.{CountsAny, CountsFailures};
ghost use Rattle.job_command.specs.Lines.{above_text, held_text, labelled, other_schema_text};
ghost use Rattle.job_command.specs.Lines.{write_line};

use ipc_device::{Failed, Sink, send_all};
use ipc_model::{Fault, WriteFault};
use ipc_text_temporal::TextFault;
use itoa::Buffer;
use job_rewrite::Total;

// Sends a text.
pub fn send<E: Sink>(messages: &mut E, text: &str) -> Result<(), Failed>
    ensures sent { OnOk result
        (Appends (E.written messages.old) (E.written messages.new) text.now) }
    ensures failures { CountsAny (E.failures messages.old) (E.failures messages.new) result }
{
    send_all(messages, text.as_bytes())
}

// Sends lines, each with this label before it.
pub fn send_labelled<E: Sink>(messages: &mut E, label: &str, lines: &[u8]) -> Result<(), Failed>
    ensures sent { OnOk result
        (Appends (E.written messages.old) (E.written messages.new) (labelled label.now lines.now)) }
    ensures failures { CountsAny (E.failures messages.old) (E.failures messages.new) result }
{
    let mut before = b'\n';
    for byte in lines {
        if before == b'\n' {
            send(messages, label)?;
        }
        send_all(messages, &[*byte])?;
        before = *byte;
    }
    Ok(())
}

// Sends the digits of a number.
pub fn send_number<E: Sink>(messages: &mut E, number: u64) -> Result<(), Failed>
    ensures sent { OnOk result
        (Appends (E.written messages.old) (E.written messages.new) (decimal number)) }
    ensures failures { CountsAny (E.failures messages.old) (E.failures messages.new) result }
{
    let mut digits = Buffer::new();
    send(messages, digits.format(number))
}

// Sends the number and the name of a fault, as in `F31 BadNullCount`.
fn send_label<E: Sink>(messages: &mut E, letter: &str, number: u8, name: &str) -> Result<(), Failed>
    ensures sent { OnOk result (Appends (E.written messages.old) (E.written messages.new)
        (label letter.now number name.now)) }
    ensures failures { CountsAny (E.failures messages.old) (E.failures messages.new) result }
{
    send(messages, letter)?;
    send_number(messages, number as u64)?;
    send(messages, " ")?;
    send(messages, name)
}

// Sends the code of a type that is not read.
fn send_code<E: Sink>(messages: &mut E, fault: &Fault) -> Result<(), Failed>
    ensures sent { OnOk result
        (Appends (E.written messages.old) (E.written messages.new) (code_text fault.now)) }
    ensures failures { CountsAny (E.failures messages.old) (E.failures messages.new) result }
{
    match fault {
        Fault::UnsupportedType(code) => {
            send(messages, "(")?;
            send_number(messages, *code as u64)?;
            send(messages, ")")
        }
        _ => Ok(()),
    }
}

// Sends a fault of the reader, as in `F13 UnsupportedType(3)`.
pub fn send_fault<E: Sink>(messages: &mut E, fault: &Fault) -> Result<(), Failed>
    ensures sent { OnOk result
        (Appends (E.written messages.old) (E.written messages.new) (fault_text fault.now)) }
    ensures failures { CountsAny (E.failures messages.old) (E.failures messages.new) result }
{
    send_label(messages, "F", fault.number(), fault.name())?;
    send_code(messages, fault)
}

// Sends a fault of the reader with the number of its message. Out of memory has neither.
pub fn send_read_fault<E: Sink>(messages: &mut E, fault: &Fault, message: u64) -> Result<(), Failed>
    ensures sent { OnOk result (Appends (E.written messages.old) (E.written messages.new)
        (stop_line fault.now message)) }
    ensures failures { CountsAny (E.failures messages.old) (E.failures messages.new) result }
{
    match fault {
        Fault::OutOfMemory => send(messages, "out of memory"),
        _ => {
            send_fault(messages, fault)?;
            send(messages, " at message ")?;
            send_number(messages, message)
        }
    }
}

// Sends a space and the numbers of a path with dots between them, or nothing for an empty path.
fn send_steps<E: Sink>(messages: &mut E, path: &[u32]) -> Result<(), Failed>
    ensures sent { OnOk result
        (Appends (E.written messages.old) (E.written messages.new) (steps_text path.now)) }
    ensures failures { CountsAny (E.failures messages.old) (E.failures messages.new) result }
{
    let Some((first, rest)) = path.split_first() else {
        return Ok(());
    };
    send(messages, " ")?;
    send_number(messages, *first as u64)?;
    for number in rest {
        send(messages, ".")?;
        send_number(messages, *number as u64)?;
    }
    Ok(())
}

// Sends the path to a field of a schema, as `send_steps` the path to a value. Its numbers have 64
// bits: a schema of any length has one.
fn send_field_path<E: Sink>(messages: &mut E, path: &[u64]) -> Result<(), Failed>
    ensures sent { OnOk result
        (Appends (E.written messages.old) (E.written messages.new) (steps_text path.now)) }
    ensures failures { CountsAny (E.failures messages.old) (E.failures messages.new) result }
{
    let Some((first, rest)) = path.split_first() else {
        return Ok(());
    };
    send(messages, " ")?;
    send_number(messages, *first)?;
    for number in rest {
        send(messages, ".")?;
        send_number(messages, *number)?;
    }
    Ok(())
}

// Sends the number of the row that does not fit, and the path to its value.
fn send_place<E: Sink>(messages: &mut E, fault: &WriteFault) -> Result<(), Failed>
    ensures sent { OnOk result
        (Appends (E.written messages.old) (E.written messages.new) (place_text fault.now)) }
    ensures failures { CountsAny (E.failures messages.old) (E.failures messages.new) result }
{
    match fault {
        WriteFault::Row { row, fault } => {
            send(messages, " at row ")?;
            send_number(messages, *row)?;
            send(messages, " path")?;
            send_steps(messages, fault.path.numbers())
        }
        _ => Ok(()),
    }
}

// Sends a fault of the writer. Out of memory has no number.
pub fn send_write_fault<E: Sink>(messages: &mut E, fault: &WriteFault) -> Result<(), Failed>
    ensures sent { OnOk result
        (Appends (E.written messages.old) (E.written messages.new) (write_line fault.now)) }
    ensures failures { CountsAny (E.failures messages.old) (E.failures messages.new) result }
{
    match fault {
        WriteFault::OutOfMemory => send(messages, "out of memory"),
        _ => {
            send_label(messages, "W", fault.number(), fault.name())?;
            send_place(messages, fault)
        }
    }
}

// Sends the option whose total a batch would exceed, and the number of the batch.
pub fn send_above<E: Sink>(messages: &mut E, total: &Total, number: u64) -> Result<(), Failed>
    ensures sent { OnOk result (Appends (E.written messages.old) (E.written messages.new)
        (above_text total.now number)) }
    ensures failures { CountsAny (E.failures messages.old) (E.failures messages.new) result }
{
    match total {
        Total::Batches => {
            send(messages, "output above --max-batches at batch ")?;
            send_number(messages, number)
        }
        Total::Rows => {
            send(messages, "output above --max-total-rows at batch ")?;
            send_number(messages, number)
        }
        Total::Bytes => {
            send(messages, "output above --max-total-bytes at batch ")?;
            send_number(messages, number)
        }
    }
}

// Sends the option whose maximum of held bytes would be exceeded, and the number of the message.
pub fn send_held<E: Sink>(messages: &mut E, message: u64) -> Result<(), Failed>
    ensures sent { OnOk result
        (Appends (E.written messages.old) (E.written messages.new) (held_text message)) }
    ensures failures { CountsAny (E.failures messages.old) (E.failures messages.new) result }
{
    send(messages, "held above --max-held at message ")?;
    send_number(messages, message)
}

// Sends the path of the first field in which a schema is another than the one that is expected.
pub fn send_other_schema<E: Sink>(messages: &mut E, path: &[u64]) -> Result<(), Failed>
    ensures sent { OnOk result (Appends (E.written messages.old) (E.written messages.new)
        (other_schema_text path.now)) }
    ensures failures { CountsAny (E.failures messages.old) (E.failures messages.new) result }
{
    send(messages, "other schema at path")?;
    send_field_path(messages, path)
}

// Sends a fault of texts with its place, the record before the column.
pub fn send_text_fault<E: Sink>(messages: &mut E, fault: &TextFault) -> Result<(), Failed>
    ensures sent { OnOk result
        (Appends (E.written messages.old) (E.written messages.new) (text_fault_line fault.now)) }
    ensures failures { CountsAny (E.failures messages.old) (E.failures messages.new) result }
{
    match fault {
        TextFault::NotFlat => send(messages, "X1 NotFlat"),
        TextFault::NoColumns => send(messages, "X2 NoColumns"),
        TextFault::NoTextForm { column } => {
            send(messages, "X3 NoTextForm at column ")?;
            send_number(messages, *column)
        }
        TextFault::BadField { record, column } => {
            send(messages, "X4 BadField at record ")?;
            send_number(messages, *record)?;
            send(messages, " column ")?;
            send_number(messages, *column)
        }
        TextFault::WrongFieldCount { record } => {
            send(messages, "X5 WrongFieldCount at record ")?;
            send_number(messages, *record)
        }
        TextFault::BadSchemaJson => send(messages, "X6 BadSchemaJson"),
        TextFault::OutOfMemory => send(messages, "out of memory"),
    }
}

// Sends the line feed.
pub fn end_line<E: Sink>(messages: &mut E) -> Result<(), Failed>
    ensures sent { OnOk result
        (Appends (E.written messages.old) (E.written messages.new) (10 ∷ [])) }
    ensures failures { CountsFailures (E.failures messages.old) (E.failures messages.new) result }
{
    messages.write(b"\n")?;
    Ok(())
}
