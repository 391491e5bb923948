//! Reads a schema from a file.
ghost use Rattle.std.specs.Prelude.{◌≡◌, ◌++◌, ◌+◌, ◌≤◌, List, ℕ, Some, IfErr, IfOk, IfSome, OnOk};
ghost use Rattle.std.specs.Prelude.{is_some};
ghost use Rattle.std.specs.Io.KnownBytes.{Consumes, IsAtEnd};
ghost use Rattle.job_command.specs.Jobs.{HasNoSchema, IsSchemaOf, IsUnreadable, file_bytes};
ghost use Rattle.job_command.specs.Jobs.{failures_of};

use crate::stop::Stop;
use ipc_device::Source;
use ipc_model::Schema;
use ipc_text_json::schema_from_json_bytes;
use ipc_text_temporal::TextFault;
use std::alloc::Global;

// The number of bytes that one call reads of a file.
const PIECE: usize = 4_096;

// Calls a file once, and appends what comes to the text. Returns the number of bytes, which is 0
// only at the end.
fn read_piece<P: Source>(file: &mut P, text: &mut Vec<u8>) -> Result<usize, Stop>
    ensures came { OnOk result ((piece : List ℕ) × (text.new.items ≡ text.old.items ++ piece)
        × Consumes (P.remaining file.old) (P.remaining file.new) piece) }
    ensures end { IfOk result (λ k. k ≡ 0 → IsAtEnd (P.remaining file.new)) }
    ensures fewer { IfOk result (λ k. (P.bound file.new + k) ≤ P.bound file.old) }
    ensures works { OnOk result (P.failures file.new ≡ 0) }
    ensures none { IfErr result (IsUnreadable (P.failures file.new)) }
{
    let mut piece = [0; PIECE];
    let Ok(count) = file.read(&mut piece) else {
        return Err(Stop::Schema);
    };
    if text.extend_from_slice(&piece[..count]).is_err() {
        return Err(Stop::Text(TextFault::OutOfMemory));
    }
    Ok(count)
}

// All bytes that a file still has.
fn read_whole<P: Source>(alloc: Global, file: &mut P) -> Result<Vec<u8>, Stop>
    ensures whole { IfOk result (λ text. IfSome (P.remaining file.old) (λ xs. text.items ≡ xs)) }
    ensures works { OnOk result (P.failures file.new ≡ 0) }
    ensures none { IfErr result (IsUnreadable (P.failures file.new)) }
{
    let mut text = Vec::new(alloc);
    let mut count = read_piece(file, &mut text)?;
    while count > 0 {
        count = read_piece(file, &mut text)?;
    }
    Ok(text)
}

// The schema whose JSON text an open file holds.
fn read_open<P: Source>(alloc: Global, file: &mut P) -> Result<Schema, Stop>
    ensures read { IfOk result (IsSchemaOf (P.remaining file.old)) }
    ensures works { OnOk result (P.failures file.new ≡ 0) }
    ensures none { IfErr result (HasNoSchema (P.remaining file.old) (P.failures file.new)) }
{
    let text = read_whole(alloc, file)?;
    match schema_from_json_bytes(alloc, text.as_slice()) {
        Ok(schema) => Ok(schema),
        Err(fault) => match fault {
            TextFault::OutOfMemory => Err(Stop::Text(fault)),
            _ => Err(Stop::SchemaText(text)),
        },
    }
}

/// Reads a schema from a file with its JSON text. Returns the file with the result.
pub fn read_schema<P: Source>(alloc: Global, file: Option<P>) -> (Result<Schema, Stop>, Option<P>)
    ensures read { IfOk result.0 (IsSchemaOf (file_bytes P.remaining file)) }
    ensures works { OnOk result.0 (failures_of P.failures result.1 ≡ 0) }
    ensures none { IfErr result.0
        (HasNoSchema (file_bytes P.remaining file) (failures_of P.failures result.1)) }
    ensures file { is_some result.1 ≡ is_some file }
{
    let Some(mut file) = file else {
        return (Err(Stop::Schema), None);
    };
    let schema = read_open(alloc, &mut file);
    (schema, Some(file))
}
