//! Says where and why a text is not the JSON of a schema.
ghost use Rattle.std.specs.Prelude.{◌≡◌, ◌≢◌, Ok, IfErr, IfOk, IfSome, Some, None, map, true};
ghost use Rattle.std.specs.Prelude.{false};
ghost use Rattle.std.specs.List.{AllByRecursion};
ghost use Rattle.serde_json.specs.Read.{read as read_text};
ghost use Rattle.serde_json.specs.View.{view};
ghost use Rattle.ipc_model.specs.Entries.{entries as spec_entries};
ghost use Rattle.ipc_model.specs.Limits.{IsStandard};
ghost use Rattle.ipc_model.specs.WellFormed.{HasGoodType, WellFormed};
ghost use Rattle.ipc_model.specs.declared.limits.Limits.{Limits};
ghost use Rattle.ipc_model.specs.declared.schema.DataType.{DataType};
ghost use Rattle.ipc_model.specs.declared.schema.Schema.{Schema};
ghost use Rattle.ipc_text_json.specs.SchemaErrors.{IsBadPart, IsErrorOf, IsField, IsFirstBadEntry};
ghost use Rattle.ipc_text_json.specs.SchemaErrors.{IsPairs, IsValueError};
ghost use Rattle.ipc_text_json.specs.SchemaJson.{schema_json, type_json};
ghost use Rattle.ipc_text_json.specs.SchemaTexts.{IsReadable};

use crate::schema_reader::{
    bool_in, count_in, field_members, read_dictionary, read_pairs, read_schema, read_type,
    schema_members, text_in,
};
use ipc_model::{Limits, Schema, SchemaFault};
use ipc_text_temporal::TextFault;
use serde_json::Value;
use std::alloc::Global;

/// Which part of an entry of "fields" is wrong.
#[derive(Clone, Copy, Debug, PartialEq, Eq, Drop)]
pub enum FieldPart {
    /// The value is not an object with exactly the members "children", "dictionary", "metadata",
    /// "name", "nullable" and "type".
    Keys,
    /// "children" is not an unsigned 64-bit number.
    Children,
    /// "dictionary" is neither null nor an array of a signed 64-bit id, the type of the indices,
    /// and whether the values are ordered.
    Dictionary,
    /// "metadata" is not an array of pairs of strings.
    Metadata,
    /// "name" is not a string.
    Name,
    /// "nullable" is neither true nor false.
    Nullable,
    /// "type" is not an array of a type's name and its parameters.
    Type,
}

/// Where and why a text is not the JSON of a schema.
#[derive(Clone, Copy, Debug, PartialEq, Eq, Drop)]
pub enum SchemaError {
    /// The text is not JSON. Reading it failed at this line and column, as `serde_json` counts
    /// them; no contract states them.
    NotJson {
        /// The line, from 1.
        line: u64,
        /// The column.
        column: u64,
    },
    /// The value is not an object with exactly the members "fields", an array, and "metadata".
    NotSchema,
    /// An entry of "fields" is not a field. It is the first such entry.
    BadField {
        /// The number of the entry, from 0.
        entry: u64,
        /// What is wrong with it.
        part: FieldPart,
    },
    /// "metadata" is not an array of pairs of strings.
    BadMetadata,
    /// The numbers of children do not fit the entries, or fields are nested deeper than 64.
    BadNesting,
    /// `Schema::check` refuses the schema with `Limits::standard`.
    Refused(SchemaFault),
}

// Whether a value is an array of pairs of strings.
fn is_pairs(alloc: Global, value: &Value) -> Result<bool, TextFault>
    ensures yes { result ≡ Ok true → IsPairs (view value.now) }
    ensures no { result ≡ Ok false → ¬ IsPairs (view value.now) }
    ensures refused { IfErr result (λ fault. fault ≡ TextFault.OutOfMemory) }
{
    match read_pairs(alloc, value) {
        Ok(_) => Ok(true),
        Err(TextFault::OutOfMemory) => Err(TextFault::OutOfMemory),
        Err(_) => Ok(false),
    }
}

// Whether a value is a type.
fn is_type(alloc: Global, value: &Value) -> Result<bool, TextFault>
    ensures yes { result ≡ Ok true → (kind : DataType) × (view value.now ≡ type_json kind) }
    ensures no { result ≡ Ok false → (kind : DataType) → HasGoodType kind
        → view value.now ≢ type_json kind }
    ensures refused { IfErr result (λ fault. fault ≡ TextFault.OutOfMemory) }
{
    match read_type(alloc, value) {
        Ok(_) => Ok(true),
        Err(TextFault::OutOfMemory) => Err(TextFault::OutOfMemory),
        Err(_) => Ok(false),
    }
}

// What of an entry is not that of a field, or `None` if the entry is a field.
fn bad_part(alloc: Global, entry: &Value) -> Result<Option<FieldPart>, TextFault>
    ensures bad { IfOk result (λ found. IfSome found (λ part. IsBadPart part (view entry.now))) }
    ensures none { result ≡ Ok None → IsField (view entry.now) }
    ensures refused { IfErr result (λ fault. fault ≡ TextFault.OutOfMemory) }
{
    let Ok(members) = field_members(entry) else {
        return Ok(Some(FieldPart::Keys));
    };
    let Ok(_count) = count_in(members.children) else {
        return Ok(Some(FieldPart::Children));
    };
    let Ok(_dictionary) = read_dictionary(members.dictionary) else {
        return Ok(Some(FieldPart::Dictionary));
    };
    if !is_pairs(alloc, members.metadata)? {
        return Ok(Some(FieldPart::Metadata));
    }
    let Ok(_name) = text_in(members.name) else {
        return Ok(Some(FieldPart::Name));
    };
    let Ok(_nullable) = bool_in(members.nullable) else {
        return Ok(Some(FieldPart::Nullable));
    };
    if !is_type(alloc, members.kind)? {
        return Ok(Some(FieldPart::Type));
    }
    Ok(None)
}

// The number of the first entry that is not a field, and what is wrong with it.
fn first_bad(alloc: Global, entries: &[Value]) -> Result<Option<(u64, FieldPart)>, TextFault>
    ensures bad { IfOk result (λ found. IfSome found
        (λ bad. IsFirstBadEntry (map view entries.now) bad.0 bad.1)) }
    ensures none { result ≡ Ok None → AllByRecursion IsField (map view entries.now) }
    ensures refused { IfErr result (λ fault. fault ≡ TextFault.OutOfMemory) }
{
    for number in 0..entries.len() {
        if let Some(part) = bad_part(alloc, &entries[number])? {
            return Ok(Some((number as u64, part)));
        }
    }
    Ok(None)
}

// Why a value has not the form of a schema.
fn form_error(alloc: Global, value: &Value) -> Result<SchemaError, TextFault>
    requires { (s : Schema) → AllByRecursion IsReadable (spec_entries s.fields)
        → view value.now ≢ schema_json s }
    ensures error { IfOk result (IsValueError (view value.now)) }
    ensures refused { IfErr result (λ fault. fault ≡ TextFault.OutOfMemory) }
{
    let Ok((entries, metadata)) = schema_members(value) else {
        return Ok(SchemaError::NotSchema);
    };
    if let Some((entry, part)) = first_bad(alloc, entries)? {
        return Ok(SchemaError::BadField { entry, part });
    }
    if is_pairs(alloc, metadata)? {
        Ok(SchemaError::BadNesting)
    } else {
        Ok(SchemaError::BadMetadata)
    }
}

// Why `Schema::check` refuses a schema with `Limits::standard`, if it does.
fn refusal(alloc: Global, schema: &Schema) -> Result<Option<SchemaError>, TextFault>
    ensures refusal { IfOk result
        (λ found. IfSome found (IsValueError (schema_json schema.now))) }
    ensures none { result ≡ Ok None
        → (limits : Limits) × IsStandard limits × WellFormed limits schema.now }
    ensures refused { IfErr result (λ fault. fault ≡ TextFault.OutOfMemory) }
{
    let Err(fault) = schema.check(alloc, &Limits::standard()) else {
        return Ok(None);
    };
    match fault {
        SchemaFault::OutOfMemory => Err(TextFault::OutOfMemory),
        _ => Ok(Some(SchemaError::Refused(fault))),
    }
}

// Why the value of a JSON text is not a schema's, as `schema_error`.
fn value_error(alloc: Global, value: &Value) -> Result<Option<SchemaError>, TextFault>
    ensures error { IfOk result (λ found. IfSome found (IsValueError (view value.now))) }
    ensures none { result ≡ Ok None → (s : Schema) × (limits : Limits)
        × (view value.now ≡ schema_json s) × IsStandard limits × WellFormed limits s }
    ensures refused { IfErr result (λ fault. fault ≡ TextFault.OutOfMemory) }
{
    match read_schema(alloc, value) {
        Ok(schema) => refusal(alloc, &schema),
        Err(TextFault::OutOfMemory) => Err(TextFault::OutOfMemory),
        Err(_) => Ok(Some(form_error(alloc, value)?)),
    }
}

/// Returns where and why a text is not the JSON of a schema. Use it for a text that
/// `schema_from_json` refused as X6. The result is `None` only if the text is that of a schema that
/// `Limits::standard` accepts.
///
/// The line and the column of `NotJson` are those of `serde_json`; no contract states them.
///
/// Errors: `OutOfMemory` only. It takes memory for the text's values and for the schema.
pub fn schema_error(alloc: Global, text: &str) -> Result<Option<SchemaError>, TextFault>
    ensures place { IfOk result (λ found. IfSome found (IsErrorOf text.now)) }
    ensures finds { result ≡ Ok None → (s : Schema) × (limits : Limits)
        × (read_text text.now ≡ Some (schema_json s)) × IsStandard limits × WellFormed limits s }
    ensures refused { IfErr result (λ fault. fault ≡ TextFault.OutOfMemory) }
{
    match Value::from_str(alloc, text) {
        Ok(value) => value_error(alloc, &value),
        Err(fault) if fault.is_memory() => Err(TextFault::OutOfMemory),
        Err(fault) => Ok(Some(SchemaError::NotJson {
            line: fault.line() as u64,
            column: fault.column() as u64,
        })),
    }
}
