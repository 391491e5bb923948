//! Writes a schema as JSON.
ghost use Rattle.std.specs.Prelude.{◌≡◌, ◌++◌, ◌∷◌, [], map, flat_map, OnOk, IfOk, IfErr};
ghost use Rattle.std.specs.Prelude.{string_bytes, codes};
ghost use Rattle.json.specs.Tree.{json_tokens, items_tokens};
ghost use Rattle.serde_json.specs.Data.{string, number, unsigned};
ghost use Rattle.serde_json.specs.View.{items_of};
ghost use Rattle.serde_json.specs.Written.{compact_text, outline, items_outline};
ghost use Rattle.ipc_model.specs.declared.schema.Field.{out-Field};
ghost use Rattle.ipc_text_json.specs.SchemaJson as spec;
ghost use Rattle.ipc_text_json.specs.SchemaJson.{type_array, type_json, dictionary_json, pair_json};
ghost use Rattle.ipc_text_json.specs.SchemaJson.{pairs_json, own_json, field_json, schema_text};
ghost use Rattle.ipc_text_json.specs.SchemaJson.{pairs_text, tokens_of, first_tokens, last_tokens};
ghost use Rattle.ipc_text_json.specs.SchemaJson.{unit_name, date_unit_name, int_name, text_or_null};

use ipc_model::{DataType, DateUnit, Dictionary, Field, Schema, Text, TimeUnit};
use ipc_text_temporal::TextFault;
use json::Writer;
use std::alloc::{AllocError, Global};

fn unit_name(unit: TimeUnit) -> &'static str
    ensures { result.now ≡ unit_name unit }
{
    match unit {
        TimeUnit::Second => "s",
        TimeUnit::Millisecond => "ms",
        TimeUnit::Microsecond => "us",
        TimeUnit::Nanosecond => "ns",
    }
}

fn date_unit_name(unit: DateUnit) -> &'static str
    ensures { result.now ≡ date_unit_name unit }
{
    match unit {
        DateUnit::Day => "day",
        DateUnit::Millisecond => "ms",
    }
}

fn int_name(signed: bool) -> &'static str
    ensures { result.now ≡ int_name signed }
{
    if signed { "int" } else { "uint" }
}

// A type without members.
fn put_name(out: &mut Writer, name: &str) -> Result<(), AllocError>
    ensures ok { OnOk result (out.new.tokens
        ≡ out.old.tokens ++ json_tokens (outline (type_array name.now []))) }
    ensures before { out.new.before ≡ out.old.before }
{
    out.begin_array()?;
    out.string(name)?;
    out.end_array()
}

// A type with one number.
fn put_name_and_number(out: &mut Writer, name: &str, size: u64) -> Result<(), AllocError>
    ensures ok { OnOk result (out.new.tokens
        ≡ out.old.tokens ++ json_tokens (outline (type_array name.now
        (number (unsigned size) ∷ [])))) }
    ensures before { out.new.before ≡ out.old.before }
{
    out.begin_array()?;
    out.string(name)?;
    out.u64(size)?;
    out.end_array()
}

// A type with one text.
fn put_name_and_text(out: &mut Writer, name: &str, text: &str) -> Result<(), AllocError>
    ensures ok { OnOk result (out.new.tokens
        ≡ out.old.tokens ++ json_tokens (outline (type_array name.now (string text.now ∷ [])))) }
    ensures before { out.new.before ≡ out.old.before }
{
    out.begin_array()?;
    out.string(name)?;
    out.string(text)?;
    out.end_array()
}

fn put_text_or_null(out: &mut Writer, text: &Option<Text>) -> Result<(), AllocError>
    ensures ok { OnOk result (out.new.tokens
        ≡ out.old.tokens ++ json_tokens (outline (text_or_null text.now))) }
    ensures before { out.new.before ≡ out.old.before }
{
    match text {
        Some(text) => out.string(text.as_str()),
        None => out.null(),
    }
}

fn put_timestamp(out: &mut Writer, unit: TimeUnit, zone: &Option<Text>) -> Result<(), AllocError>
    ensures ok { OnOk result (out.new.tokens
        ≡ out.old.tokens ++ json_tokens
        (outline (type_array (codes "timestamp")
        (string (unit_name unit) ∷ text_or_null zone.now ∷ [])))) }
    ensures before { out.new.before ≡ out.old.before }
{
    out.begin_array()?;
    out.string("timestamp")?;
    out.string(unit_name(unit))?;
    put_text_or_null(out, zone)?;
    out.end_array()
}

fn put_type(out: &mut Writer, kind: &DataType) -> Result<(), AllocError>
    ensures ok { OnOk result (out.new.tokens
        ≡ out.old.tokens ++ json_tokens (outline (type_json kind.now))) }
    ensures before { out.new.before ≡ out.old.before }
{
    match kind {
        DataType::Null => put_name(out, "null"),
        DataType::Bool => put_name(out, "bool"),
        DataType::Int { bits, signed } => put_name_and_number(
            out,
            int_name(*signed),
            u64::from(bits.width()),
        ),
        DataType::Binary => put_name(out, "binary"),
        DataType::Utf8 => put_name(out, "utf8"),
        DataType::FixedSizeBinary(size) => {
            put_name_and_number(out, "fixed_size_binary", u64::from(*size))
        }
        DataType::Date(unit) => put_name_and_text(out, "date", date_unit_name(*unit)),
        DataType::Time(unit) => put_name_and_text(out, "time", unit_name(*unit)),
        DataType::Timestamp { unit, timezone } => put_timestamp(out, *unit, timezone),
        DataType::Duration(unit) => put_name_and_text(out, "duration", unit_name(*unit)),
        DataType::List => put_name(out, "list"),
        DataType::FixedSizeList(size) => {
            put_name_and_number(out, "fixed_size_list", u64::from(*size))
        }
        DataType::Struct => put_name(out, "struct"),
    }
}

fn put_dictionary(out: &mut Writer, dictionary: Option<Dictionary>) -> Result<(), AllocError>
    ensures ok { OnOk result (out.new.tokens
        ≡ out.old.tokens ++ json_tokens (outline (dictionary_json dictionary))) }
    ensures before { out.new.before ≡ out.old.before }
{
    let Some(dictionary) = dictionary else {
        return out.null();
    };
    let index = dictionary.index;
    out.begin_array()?;
    out.i64(dictionary.id)?;
    put_name_and_number(out, int_name(index.signed), u64::from(index.bits.width()))?;
    out.boolean(dictionary.ordered)?;
    out.end_array()
}

fn put_pair(out: &mut Writer, pair: &(Text, Text)) -> Result<(), AllocError>
    ensures ok { OnOk result (out.new.tokens
        ≡ out.old.tokens ++ json_tokens (outline (pair_json pair.now))) }
    ensures before { out.new.before ≡ out.old.before }
{
    out.begin_array()?;
    out.string(pair.0.as_str())?;
    out.string(pair.1.as_str())?;
    out.end_array()
}

// Pairs and the closing bracket.
fn put_pairs(out: &mut Writer, pairs: &[(Text, Text)]) -> Result<(), AllocError>
    ensures ok { OnOk result (out.new.tokens
        ≡ out.old.tokens ++ items_tokens (items_outline (items_of (map pair_json pairs.now)))) }
    ensures before { out.new.before ≡ out.old.before }
{
    for pair in pairs {
        put_pair(out, pair)?;
    }
    out.end_array()
}

fn put_pair_array(out: &mut Writer, pairs: &[(Text, Text)]) -> Result<(), AllocError>
    ensures ok { OnOk result (out.new.tokens
        ≡ out.old.tokens ++ json_tokens (outline (pairs_json pairs.now))) }
    ensures before { out.new.before ≡ out.old.before }
{
    out.begin_array()?;
    put_pairs(out, pairs)
}

// The keys before the name: the number of children, the dictionary and the pairs.
fn put_first_members(out: &mut Writer, field: &Field) -> Result<(), AllocError>
    ensures ok { OnOk result
        (out.new.tokens ≡ out.old.tokens ++ first_tokens (out-Field field.now)) }
    ensures before { out.new.before ≡ out.old.before }
{
    out.key("children")?;
    out.u64(field.children.len() as u64)?;
    out.key("dictionary")?;
    put_dictionary(out, field.dictionary)?;
    out.key("metadata")?;
    out.begin_array()?;
    put_pairs(out, field.metadata.as_slice())
}

// The other keys: of the name, of whether it is nullable, and of the type.
fn put_last_members(out: &mut Writer, field: &Field) -> Result<(), AllocError>
    ensures ok { OnOk result
        (out.new.tokens ≡ out.old.tokens ++ last_tokens (out-Field field.now)) }
    ensures before { out.new.before ≡ out.old.before }
{
    out.key("name")?;
    out.string(field.name.as_str())?;
    out.key("nullable")?;
    out.boolean(field.nullable)?;
    out.key("type")?;
    put_type(out, &field.kind)
}

// The field by itself.
#[tactic(auto, using(crate::proofs::FieldTokens::own_tokens))]
fn put_own(out: &mut Writer, field: &Field) -> Result<(), AllocError>
    ensures ok { OnOk result (out.new.tokens
        ≡ out.old.tokens ++ json_tokens (outline (own_json (out-Field field.now)))) }
    ensures before { out.new.before ≡ out.old.before }
{
    out.begin_object()?;
    put_first_members(out, field)?;
    put_last_members(out, field)?;
    out.end_object()
}

#[cycle(fields)]
fn put_field(out: &mut Writer, field: &Field) -> Result<(), AllocError>
    ensures ok { OnOk result (out.new.tokens ≡ out.old.tokens ++ tokens_of (field_json field.now)) }
    ensures before { out.new.before ≡ out.old.before }
{
    put_own(out, field)?;
    put_fields(out, field.children.as_slice())
}

// Fields with all below them, in pre-order.
#[cycle(fields)]
fn put_fields(out: &mut Writer, fields: &[Field]) -> Result<(), AllocError>
    ensures ok { OnOk result (out.new.tokens
        ≡ out.old.tokens ++ tokens_of (flat_map field_json fields.now)) }
    ensures before { out.new.before ≡ out.old.before }
{
    for field in fields {
        put_field(out, field)?;
    }
    Ok(())
}

fn put_schema(out: &mut Writer, schema: &Schema) -> Result<(), AllocError>
    ensures ok { OnOk result (out.new.tokens
        ≡ out.old.tokens ++ json_tokens (outline (spec.schema_json schema.now))) }
    ensures before { out.new.before ≡ out.old.before }
{
    out.begin_object()?;
    out.key("fields")?;
    out.begin_array()?;
    put_fields(out, schema.fields.as_slice())?;
    out.end_array()?;
    out.key("metadata")?;
    out.begin_array()?;
    put_pairs(out, schema.metadata.as_slice())?;
    out.end_object()
}

/// Returns a schema as a compact JSON object (RFC 8259). The key `fields` has all fields with their
/// descendants in pre-order, and the key `metadata` has the schema's pairs.
///
/// A field is an object with the keys `children`, `dictionary`, `metadata`, `name`, `nullable` and
/// `type`. `children` is the number of its children. `dictionary` is null, or has the id, the type
/// of the indices and whether the values are ordered. Errors: `OutOfMemory` only.
pub fn schema_json(alloc: Global, schema: &Schema) -> Result<String, TextFault>
    ensures text { IfOk result (λ text. string_bytes text ≡ schema_text schema.now) }
    ensures refused { IfErr result (λ fault. fault ≡ TextFault.OutOfMemory) }
{
    let mut writer = Writer::new(Vec::new(alloc));
    put_schema(&mut writer, schema)?;
    let bytes = writer.into_inner();
    Ok(unsafe { String::from_utf8_unchecked(bytes) })
}

/// Returns a type as compact JSON, in the form that it has in the JSON of a schema: an array of its
/// name and its parameters. Errors: `OutOfMemory` only.
pub fn type_json(alloc: Global, kind: &DataType) -> Result<String, TextFault>
    ensures text { IfOk result (λ text. string_bytes text ≡ compact_text (type_json kind.now)) }
    ensures refused { IfErr result (λ fault. fault ≡ TextFault.OutOfMemory) }
{
    let mut writer = Writer::new(Vec::new(alloc));
    put_type(&mut writer, kind)?;
    let bytes = writer.into_inner();
    Ok(unsafe { String::from_utf8_unchecked(bytes) })
}

fn put_string(out: &mut Writer, text: &str) -> Result<(), AllocError>
    ensures ok { OnOk result (out.new.tokens
        ≡ out.old.tokens ++ json_tokens (outline (string text.now))) }
    ensures before { out.new.before ≡ out.old.before }
{
    out.string(text)
}

/// Returns a text as a JSON string in quotes, in which control characters are escaped. Errors:
/// `OutOfMemory` only.
pub fn string_json(alloc: Global, text: &str) -> Result<String, TextFault>
    ensures text { IfOk result (λ json. string_bytes json ≡ compact_text (string text.now)) }
    ensures refused { IfErr result (λ fault. fault ≡ TextFault.OutOfMemory) }
{
    let mut writer = Writer::new(Vec::new(alloc));
    put_string(&mut writer, text)?;
    let bytes = writer.into_inner();
    Ok(unsafe { String::from_utf8_unchecked(bytes) })
}

/// Returns pairs of metadata as a compact JSON array. Each pair is an array of a key and a value,
/// in order. Errors: `OutOfMemory` only.
pub fn pairs_json(alloc: Global, pairs: &[(Text, Text)]) -> Result<String, TextFault>
    ensures text { IfOk result (λ text. string_bytes text ≡ pairs_text pairs.now) }
    ensures refused { IfErr result (λ fault. fault ≡ TextFault.OutOfMemory) }
{
    let mut writer = Writer::new(Vec::new(alloc));
    put_pair_array(&mut writer, pairs)?;
    let bytes = writer.into_inner();
    Ok(unsafe { String::from_utf8_unchecked(bytes) })
}
