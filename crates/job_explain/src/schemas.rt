//! Explains a schema's file that is not the JSON of a schema.
ghost use Rattle.std.specs.Prelude.{◌≡◌, ◌⊎◌, ◌++◌, [], IfOk, OnOk, Some, codes};
ghost use Rattle.serde_json.specs.Read.{read};
ghost use Rattle.ipc_model.specs.Limits.{IsStandard};
ghost use Rattle.ipc_model.specs.Texts.{label};
ghost use Rattle.ipc_model.specs.WellFormed.{WellFormed};
ghost use Rattle.ipc_model.specs.declared.limits.Limits.{Limits};
ghost use Rattle.ipc_model.specs.declared.schema.Schema.{Schema};
ghost use Rattle.ipc_text_json.specs.SchemaJson.{schema_json};
ghost use Rattle.job_explain.specs.Schemas.{ExplainsSchema, entry_words, error_words};
ghost use Rattle.job_explain.specs.Schemas.{expected_words, member_words, place_words};
ghost use Rattle.job_explain.specs.Schemas.{refusal_words};

use ipc_model::{Fault, SchemaFault};
use ipc_text_json::{FieldPart, SchemaError, schema_error};
use ipc_text_temporal::push_number;
use std::alloc::{AllocError, Global};

// A space and the name of the member in quotes; nothing for the entry as a whole.
fn member_name(part: FieldPart) -> &'static [u8]
    ensures { result.now ≡ member_words part }
{
    match part {
        FieldPart::Keys => b"",
        FieldPart::Children => b" \"children\"",
        FieldPart::Dictionary => b" \"dictionary\"",
        FieldPart::Metadata => b" \"metadata\"",
        FieldPart::Name => b" \"name\"",
        FieldPart::Nullable => b" \"nullable\"",
        FieldPart::Type => b" \"type\"",
    }
}

// What is expected in the place of an entry, or as the value of its member.
fn expected_words(part: FieldPart) -> &'static [u8]
    ensures { result.now ≡ expected_words part }
{
    match part {
        FieldPart::Keys => {
            br#"an object of "children", "dictionary", "metadata", "name", "nullable" and "type""#
        }
        FieldPart::Children => b"the number of children",
        FieldPart::Dictionary => {
            b"null or an array of an id, the type of the indices and true or false"
        }
        FieldPart::Metadata => b"an array of pairs of strings",
        FieldPart::Name => b"a string",
        FieldPart::Nullable => b"true or false",
        FieldPart::Type => b"an array such as [\"int\",64] or [\"utf8\"]",
    }
}

// Appends the words for a text that is not JSON from this place on.
fn push_place(out: &mut Vec<u8>, line: u64, column: u64) -> Result<(), AllocError>
    ensures { OnOk result (out.new.items ≡ out.old.items ++ place_words line column) }
{
    out.extend_from_slice(b"line ")?;
    push_number(out, line)?;
    out.extend_from_slice(b" column ")?;
    push_number(out, column)?;
    out.extend_from_slice(b": the text is not JSON")
}

// Appends the words for the entry with this index, of which this part is wrong.
fn push_entry(out: &mut Vec<u8>, entry: u64, part: FieldPart) -> Result<(), AllocError>
    ensures { OnOk result (out.new.items ≡ out.old.items ++ entry_words entry part) }
{
    out.extend_from_slice(b"fields[")?;
    push_number(out, entry)?;
    out.extend_from_slice(b"]")?;
    out.extend_from_slice(member_name(part))?;
    out.extend_from_slice(b": expected ")?;
    out.extend_from_slice(expected_words(part))
}

// Appends the number and the name of a fault of the reader.
fn push_label(out: &mut Vec<u8>, number: u8, name: &str) -> Result<(), AllocError>
    ensures { OnOk result (out.new.items ≡ out.old.items ++ label (codes "F") number name.now) }
{
    out.extend_from_slice(b"F")?;
    push_number(out, number as u64)?;
    out.extend_from_slice(b" ")?;
    out.extend_from_slice(name.as_bytes())
}

// Appends the words for a schema that is refused.
fn push_refusal(out: &mut Vec<u8>, fault: SchemaFault) -> Result<(), AllocError>
    ensures { OnOk result (out.new.items ≡ out.old.items ++ refusal_words fault) }
{
    let fault = Fault::from(fault);
    out.extend_from_slice(b"the schema is refused: ")?;
    push_label(out, fault.number(), fault.name())
}

// Appends the words for where a text is not the JSON of a schema, and what was expected there.
fn push_error(out: &mut Vec<u8>, error: &SchemaError) -> Result<(), AllocError>
    ensures { OnOk result (out.new.items ≡ out.old.items ++ error_words error.now) }
{
    match error {
        SchemaError::NotJson { line, column } => push_place(out, *line, *column),
        SchemaError::NotSchema => {
            out.extend_from_slice(b"expected an object of \"fields\", an array, and \"metadata\"")
        }
        SchemaError::BadField { entry, part } => push_entry(out, *entry, *part),
        SchemaError::BadMetadata => {
            out.extend_from_slice(b"\"metadata\": expected an array of pairs of strings")
        }
        SchemaError::BadNesting => {
            out.extend_from_slice(b"\"fields\": the numbers of children do not fit the entries, ")?;
            out.extend_from_slice(b"or fields are nested deeper than 64")?;
            Ok(())
        }
        SchemaError::Refused(fault) => push_refusal(out, *fault),
    }
}

// The line of an error.
fn line_of(alloc: Global, error: &SchemaError) -> Result<Vec<u8>, AllocError>
    ensures { IfOk result (λ out. out.items ≡ error_words error.now ++ codes "\n") }
{
    let mut out = Vec::new(alloc);
    push_error(&mut out, error)?;
    out.extend_from_slice(b"\n")?;
    Ok(out)
}

/// Explains why a file with this text has no schema, in a line with its line feed: where the text
/// is not the JSON of a schema, and what was expected there. The result is empty only if the text
/// is the JSON of a schema that `Limits::standard` accepts.
///
/// The line and the column of a text that is not JSON are those of `serde_json`, which no contract
/// states.
pub fn explain_schema(alloc: Global, text: &[u8]) -> Result<Vec<u8>, AllocError>
    ensures explains { IfOk result (λ out.
        ((out.items ≡ []) × ((s : Schema) × (limits : Limits)
        × (read text.now ≡ Some (schema_json s)) × IsStandard limits × WellFormed limits s))
        ⊎ ExplainsSchema text.now out.items) }
{
    let Ok(text) = str::from_utf8(text) else {
        return Vec::from_slice(alloc, b"the schema's file is not UTF-8\n");
    };
    match schema_error(alloc, text) {
        Ok(Some(error)) => line_of(alloc, &error),
        Ok(None) => Ok(Vec::new(alloc)),
        Err(_) => Err(AllocError),
    }
}
