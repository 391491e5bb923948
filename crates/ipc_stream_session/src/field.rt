//! Finds a field of a schema, or one below it, by the numbers of a path.
ghost use Rattle.std.specs.Prelude.{◌≡◌, ◌≤◌, IfNone, IfSome, Some, length, option_copied};
ghost use Rattle.std.specs.Prelude.{slice_get};
ghost use Rattle.ipc_model.specs.declared.schema.Field.{out-Field};
ghost use Rattle.ipc_stream_session.specs.Fields.{Describes, DescribesField, DescribesSchema};
ghost use Rattle.ipc_stream_session.specs.Fields.{FindsField, FindsText, IsCopy, IsFieldAt};
ghost use Rattle.ipc_stream_session.specs.Fields.{IsOptional, LeadsBelow, StopsBelow, key_of};
ghost use Rattle.ipc_stream_session.specs.Fields.{pair_value, text_of, text_of_field};
ghost use Rattle.ipc_stream_session.specs.Fields.{text_of_schema};

use crate::format::{slots_format, type_format};
use ipc_model::{Dictionary, Fault, Field, Schema, Text};
use std::alloc::{AllocError, Global};

/// What a field is, without its texts (Schema.fbs, table Field).
#[derive(Clone, Copy, Debug)]
pub struct FieldFacts {
    /// Whether its values may be null.
    pub nullable: bool,
    /// Its dictionary, if it is dictionary-encoded.
    pub dictionary: Option<Dictionary>,
    /// The number of children.
    pub children: usize,
    /// The number of pairs of key and value.
    pub pairs: usize,
}

/// One of the texts of a field (Schema.fbs, table Field). A format string describes a type (Arrow C
/// data interface, "Data type description -- format strings").
#[derive(Clone, Copy, Debug)]
pub enum FieldText {
    /// The name.
    Name,
    /// The format string of what the slots hold: of the indices if the field has a dictionary.
    Format,
    /// The format string of the dictionary's values.
    ValuesFormat,
    /// The key of the pair of this number, from 0.
    Key(u64),
    /// The value of the pair of this number, from 0.
    Value(u64),
}

// The facts of a schema as a whole: a struct of its fields.
fn facts_of_schema(schema: &Schema) -> FieldFacts
    ensures { DescribesSchema schema.now result }
{
    FieldFacts {
        nullable: false,
        dictionary: None,
        children: schema.fields.len(),
        pairs: schema.metadata.len(),
    }
}

// The facts of a field.
fn facts_of_field(field: &Field) -> FieldFacts
    ensures { DescribesField (out-Field field.now) result }
{
    FieldFacts {
        nullable: field.nullable,
        dictionary: field.dictionary,
        children: field.children.len(),
        pairs: field.metadata.len(),
    }
}

// The facts of a field, if there is one.
fn facts_of_found(found: Option<&Field>) -> Option<FieldFacts>
    ensures { Describes (option_copied found.entry) result }
{
    match found {
        None => None,
        Some(field) => Some(facts_of_field(field)),
    }
}

// The field of a number.
fn field_of(fields: &[Field], number: u64) -> Option<&Field>
    ensures finds { IfSome result (λ found. slice_get fields.now number ≡ Some found.now) }
    ensures none { IfNone result (length fields.now ≤ number) }
{
    if number >= fields.len() as u64 {
        return None;
    }
    Some(&fields[number as usize])
}

// The field to which all steps lead.
fn field_below<'a>(field: &'a Field, steps: &[u64]) -> Option<&'a Field>
    ensures finds { IfSome result (λ found. LeadsBelow field.now steps.now found.now) }
    ensures none { IfNone result (StopsBelow field.now steps.now) }
{
    match steps.split_first() {
        None => Some(field),
        Some((step, rest)) => match field_of(field.children.as_slice(), *step) {
            None => None,
            Some(next) => field_below(next, rest),
        },
    }
}

// The field to which a path leads. Its first number is that of one of these fields.
fn field_at<'a>(fields: &'a [Field], first: u64, rest: &[u64]) -> Option<&'a Field>
    ensures { IsFieldAt fields.now first rest.now (option_copied result) }
{
    match field_of(fields, first) {
        None => None,
        Some(field) => field_below(field, rest),
    }
}

// Describes what a path leads to: the schema as a whole if it is empty.
pub(crate) fn facts_at(schema: &Schema, path: &[u64]) -> Option<FieldFacts>
    ensures { FindsField schema.now path.now result }
{
    match path.split_first() {
        None => Some(facts_of_schema(schema)),
        Some((first, rest)) => facts_of_found(field_at(schema.fields.as_slice(), *first, rest)),
    }
}

// A text that was copied, or the fault if memory ran out.
fn copied(text: Result<String, AllocError>) -> Result<Option<String>, Fault>
    ensures { IsOptional text result }
{
    match text {
        Ok(text) => Ok(Some(text)),
        Err(_) => Err(Fault::OutOfMemory),
    }
}

// A copy of the key of a pair.
fn key_at(alloc: Global, pairs: &[(Text, Text)], number: u64) -> Result<Option<String>, Fault>
    ensures { IsCopy (key_of (slice_get pairs.now number)) result }
{
    if number >= pairs.len() as u64 {
        return Ok(None);
    }
    copied(String::from_str(alloc, pairs[number as usize].0.as_str()))
}

// A copy of the value of a pair.
fn value_at(alloc: Global, pairs: &[(Text, Text)], number: u64) -> Result<Option<String>, Fault>
    ensures { IsCopy (pair_value (slice_get pairs.now number)) result }
{
    if number >= pairs.len() as u64 {
        return Ok(None);
    }
    copied(String::from_str(alloc, pairs[number as usize].1.as_str()))
}

// A text of a schema as a whole.
fn text_of_schema(alloc: Global, schema: &Schema, text: FieldText) -> Result<Option<String>, Fault>
    ensures { IsCopy (text_of_schema schema.now text) result }
{
    match text {
        FieldText::Name => Ok(Some(String::new(alloc))),
        FieldText::Format => copied(String::from_str(alloc, "+s")),
        FieldText::ValuesFormat => Ok(None),
        FieldText::Key(number) => key_at(alloc, schema.metadata.as_slice(), number),
        FieldText::Value(number) => value_at(alloc, schema.metadata.as_slice(), number),
    }
}

// A text of a field.
fn text_of_field(alloc: Global, field: &Field, text: FieldText) -> Result<Option<String>, Fault>
    ensures { IsCopy (text_of_field (out-Field field.now) text) result }
{
    match text {
        FieldText::Name => copied(String::from_str(alloc, field.name.as_str())),
        FieldText::Format => copied(slots_format(alloc, &field.kind, field.dictionary)),
        FieldText::ValuesFormat => match field.dictionary {
            None => Ok(None),
            Some(_) => copied(type_format(alloc, &field.kind)),
        },
        FieldText::Key(number) => key_at(alloc, field.metadata.as_slice(), number),
        FieldText::Value(number) => value_at(alloc, field.metadata.as_slice(), number),
    }
}

// A text of a field, if there is one.
fn text_of_found(
    alloc: Global,
    found: Option<&Field>,
    text: FieldText,
) -> Result<Option<String>, Fault>
    ensures { IsCopy (text_of (option_copied found.entry) text) result }
{
    match found {
        None => Ok(None),
        Some(field) => text_of_field(alloc, field, text),
    }
}

// Copies a text of what a path leads to: of the schema as a whole if it is empty.
pub(crate) fn text_at(
    alloc: Global,
    schema: &Schema,
    path: &[u64],
    text: FieldText,
) -> Result<Option<String>, Fault>
    ensures { FindsText schema.now path.now text result }
{
    match path.split_first() {
        None => text_of_schema(alloc, schema, text),
        Some((first, rest)) => {
            let found = field_at(schema.fields.as_slice(), *first, rest);
            text_of_found(alloc, found, text)
        }
    }
}
