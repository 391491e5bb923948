//! Reads a schema from its JSON text.
ghost use Rattle.std.specs.Prelude.{◌≡◌, ◌≢◌, ◌⊎◌, ◌∷◌, [], ℕ, List, Bool, Option, Some, None, Ok};
ghost use Rattle.std.specs.Prelude.{IfOk, OnOk, IfErr, IfSome, MatchResult, FitsSigned, IsSome};
ghost use Rattle.std.specs.Prelude.{IsOk, length, map, flat_map, ◌++◌, ◌+◌};
ghost use Rattle.std.specs.Int.{w64};
ghost use Rattle.serde_json.specs.Data.{Items as JsonItems, string, boolean, number, unsigned};
ghost use Rattle.serde_json.specs.Data.{array, Data, item, no_items, Members, member, object};
ghost use Rattle.serde_json.specs.View.{view, items_view, members_view};
ghost use Rattle.ipc_model.specs.Ranges.{width as spec_width};
ghost use Rattle.ipc_model.specs.WellFormed.{HasGoodType, WellFormed};
ghost use Rattle.ipc_model.specs.declared.schema.DataType.{DataType};
ghost use Rattle.ipc_model.specs.declared.schema.DataType.TheVariants as t;
ghost use Rattle.ipc_model.specs.declared.schema.DateUnit.{DateUnit};
ghost use Rattle.ipc_model.specs.declared.schema.Dictionary.{Dictionary};
ghost use Rattle.ipc_model.specs.declared.schema.Field.{Field, out-Field};
ghost use Rattle.ipc_model.specs.declared.schema.Field.TheOpen.{Field-F};
ghost use Rattle.ipc_model.specs.declared.schema.IndexType.{IndexType};
ghost use Rattle.ipc_model.specs.declared.schema.IntBits.{IntBits};
ghost use Rattle.ipc_model.specs.declared.schema.TimeUnit.{TimeUnit};
ghost use Rattle.ipc_text_json.specs.SchemaJson.{unit_name, date_unit_name, type_array, type_json};
ghost use Rattle.ipc_text_json.specs.SchemaJson.{own_json, text_or_null, pair_json, pairs_json};
ghost use Rattle.ipc_text_json.specs.SchemaJson.{dictionary_json, field_json, schema_json};
ghost use Rattle.ipc_text_json.specs.SchemaJson.{schema_text};
ghost use Rattle.ipc_text_json.specs.SchemaMembers.{field_object, schema_object};
ghost use Rattle.ipc_text_json.specs.SchemaTexts.{IsUnread, HasWideId, IsZoneless, IsReadable};
ghost use Rattle.ipc_text_json.specs.SchemaTexts.{StatesSchema, StatesNoSchema};
ghost use Rattle.ipc_model.specs.Entries.{preorder, all_at, entries as spec_entries};
ghost use Rattle.ipc_model.specs.Limits.{IsStandard};
ghost use Rattle.ipc_model.specs.declared.limits.Limits.{Limits};
ghost use Rattle.ipc_model.specs.declared.schema.Schema.{Schema};
ghost use Rattle.serde_json.specs.Read.{read as read_text};
ghost use Rattle.std.specs.List.{AllByRecursion};

use ipc_model::{
    DataType, DateUnit, Dictionary, Field, IndexType, IntBits, Items, Limits, MAX_DEPTH, Schema,
    SchemaFault, Text, TimeUnit,
};
use ipc_text_temporal::TextFault;
use serde_json::Value;
use std::alloc::Global;
use std::collections::btree_map::Iter;

fn bits_of(width: u64) -> Option<IntBits>
    ensures only { IfSome result (λ bits. spec_width bits ≡ width) }
    ensures all { (bits : IntBits) → spec_width bits ≡ width → result ≡ Some bits }
{
    match width {
        8 => Some(IntBits::B8),
        16 => Some(IntBits::B16),
        32 => Some(IntBits::B32),
        64 => Some(IntBits::B64),
        _ => None,
    }
}

fn unit_of(name: &str) -> Option<TimeUnit>
    ensures only { IfSome result (λ unit. unit_name unit ≡ name.now) }
    ensures all { (unit : TimeUnit) → unit_name unit ≡ name.now → result ≡ Some unit }
{
    match name {
        "s" => Some(TimeUnit::Second),
        "ms" => Some(TimeUnit::Millisecond),
        "us" => Some(TimeUnit::Microsecond),
        "ns" => Some(TimeUnit::Nanosecond),
        _ => None,
    }
}

fn date_unit_of(name: &str) -> Option<DateUnit>
    ensures only { IfSome result (λ unit. date_unit_name unit ≡ name.now) }
    ensures all { (unit : DateUnit) → date_unit_name unit ≡ name.now → result ≡ Some unit }
{
    match name {
        "day" => Some(DateUnit::Day),
        "ms" => Some(DateUnit::Millisecond),
        _ => None,
    }
}

// A type without members.
fn plain_type(name: &str) -> Option<DataType>
    ensures only { IfSome result (λ kind. type_json kind ≡ type_array name.now []) }
    ensures all { (kind : DataType) → type_json kind ≡ type_array name.now [] → result ≡ Some kind }
{
    match name {
        "null" => Some(DataType::Null),
        "bool" => Some(DataType::Bool),
        "binary" => Some(DataType::Binary),
        "utf8" => Some(DataType::Utf8),
        "list" => Some(DataType::List),
        "struct" => Some(DataType::Struct),
        _ => None,
    }
}

// A type with one number.
fn type_with_size(name: &str, size: u64) -> Option<DataType>
    ensures only { IfSome result (λ kind.
        type_json kind ≡ type_array name.now (number (unsigned size) ∷ [])) }
    ensures all { (kind : DataType) → HasGoodType kind
        → type_json kind ≡ type_array name.now (number (unsigned size) ∷ []) → result ≡ Some kind }
{
    match name {
        "int" => Some(DataType::Int {
            bits: bits_of(size)?,
            signed: true,
        }),
        "uint" => Some(DataType::Int {
            bits: bits_of(size)?,
            signed: false,
        }),
        "fixed_size_binary" => match u32::try_from(size) {
            Ok(size) => Some(DataType::FixedSizeBinary(size)),
            Err(_) => None,
        },
        "fixed_size_list" => match u32::try_from(size) {
            Ok(size) => Some(DataType::FixedSizeList(size)),
            Err(_) => None,
        },
        _ => None,
    }
}

// A type with a unit alone.
fn type_with_unit(name: &str, unit: &str) -> Option<DataType>
    ensures only { IfSome result (λ kind.
        type_json kind ≡ type_array name.now (string unit.now ∷ [])) }
    ensures all { (kind : DataType) → type_json kind ≡ type_array name.now (string unit.now ∷ [])
        → result ≡ Some kind }
{
    match name {
        "date" => Some(DataType::Date(date_unit_of(unit)?)),
        "time" => Some(DataType::Time(unit_of(unit)?)),
        "duration" => Some(DataType::Duration(unit_of(unit)?)),
        _ => None,
    }
}

pub(crate) fn text_in(value: &Value) -> Result<&str, TextFault>
    ensures { MatchResult result (λ text. view value.now ≡ string text.now)
        (λ fault. (fault ≡ TextFault.BadSchemaJson)
        × ((text : List ℕ) → view value.now ≢ string text)) }
{
    match value.as_str() {
        Some(text) => Ok(text),
        None => Err(TextFault::BadSchemaJson),
    }
}

pub(crate) fn bool_in(value: &Value) -> Result<bool, TextFault>
    ensures { MatchResult result (λ truth. view value.now ≡ boolean truth)
        (λ fault. (fault ≡ TextFault.BadSchemaJson)
        × ((truth : Bool) → view value.now ≢ boolean truth)) }
{
    match value.as_bool() {
        Some(truth) => Ok(truth),
        None => Err(TextFault::BadSchemaJson),
    }
}

fn items_in(value: &Value) -> Result<&[Value], TextFault>
    ensures { MatchResult result (λ items. view value.now ≡ array (items_view items.now))
        (λ fault. (fault ≡ TextFault.BadSchemaJson)
        × ((items : JsonItems) → view value.now ≢ array items)) }
{
    match value.as_array() {
        Some(items) => Ok(items.as_slice()),
        None => Err(TextFault::BadSchemaJson),
    }
}

// A text of its own.
fn read_text(alloc: Global, value: &Value) -> Result<Text, TextFault>
    ensures read { IfOk result (λ text. view value.now ≡ string text) }
    ensures all { (text : List ℕ) → view value.now ≡ string text
        → MatchResult result (λ read. read ≡ text) (λ fault. fault ≡ TextFault.OutOfMemory) }
    ensures refused { IfErr result IsUnread }
{
    Ok(Text::copied(alloc, text_in(value)?)?)
}

// A type of two members: its name, and a number or a unit.
fn type_of_two_members(name: &str, member: &Value) -> Option<DataType>
    ensures only { IfSome result (λ kind.
        type_json kind ≡ type_array name.now (view member.now ∷ [])) }
    ensures all { (kind : DataType) → HasGoodType kind
        → type_json kind ≡ type_array name.now (view member.now ∷ []) → result ≡ Some kind }
{
    match member.as_u64() {
        Some(size) => type_with_size(name, size),
        None => type_with_unit(name, member.as_str()?),
    }
}

// A timestamp's time zone: null where there is none.
fn read_zone(alloc: Global, value: &Value) -> Result<Option<Text>, TextFault>
    ensures read { IfOk result (λ zone. view value.now ≡ text_or_null zone) }
    ensures all { (zone : Option (List ℕ)) → view value.now ≡ text_or_null zone
        → MatchResult result (λ read. read ≡ zone) (λ fault. fault ≡ TextFault.OutOfMemory) }
    ensures refused { IfErr result IsUnread }
{
    if value.is_null() {
        return Ok(None);
    }
    Ok(Some(read_text(alloc, value)?))
}

// The type of a timestamp.
fn read_timestamp_type(
    alloc: Global,
    name: &str,
    unit: &Value,
    zone: &Value,
) -> Result<DataType, TextFault>
    ensures read { IfOk result (λ kind.
        type_json kind ≡ type_array name.now (view unit.now ∷ view zone.now ∷ [])) }
    ensures all { (kind : DataType)
        → type_json kind ≡ type_array name.now (view unit.now ∷ view zone.now ∷ [])
        → MatchResult result (λ read. read ≡ kind) (λ fault. fault ≡ TextFault.OutOfMemory) }
    ensures refused { IfErr result IsUnread }
{
    let Some(unit) = unit_of(text_in(unit)?) else {
        return Err(TextFault::BadSchemaJson);
    };
    if name != "timestamp" {
        return Err(TextFault::BadSchemaJson);
    }
    let timezone = read_zone(alloc, zone)?;
    Ok(DataType::Timestamp { unit, timezone })
}

// The one value of a list of one.
#[tactic(auto, using(crate::proofs::JsonItems::counted_one))]
fn one_in(items: &[Value]) -> Option<&Value>
    ensures only { IfSome result (λ a. items_view items.now ≡ item (view a.now) no_items) }
    ensures all { (a : Data) → items_view items.now ≡ item a no_items → IsSome result }
{
    match items {
        [a] => Some(a),
        _ => None,
    }
}

// The two values of a list of two.
#[tactic(auto, using(crate::proofs::JsonItems::counted_two))]
fn two_in(items: &[Value]) -> Option<(&Value, &Value)>
    ensures only { IfSome result (λ p.
        items_view items.now ≡ item (view p.0.now) (item (view p.1.now) no_items)) }
    ensures all { (a b : Data) → items_view items.now ≡ item a (item b no_items) → IsSome result }
{
    match items {
        [a, b] => Some((a, b)),
        _ => None,
    }
}

// The three values of a list of three.
#[tactic(auto, using(crate::proofs::JsonItems::counted_three))]
fn three_in(items: &[Value]) -> Option<(&Value, &Value, &Value)>
    ensures only { IfSome result (λ p. items_view items.now
        ≡ item (view p.0.now) (item (view p.1.now) (item (view p.2.now) no_items))) }
    ensures all { (a b c : Data) → items_view items.now ≡ item a (item b (item c no_items))
        → IsSome result }
{
    match items {
        [a, b, c] => Some((a, b, c)),
        _ => None,
    }
}

// The type, without a time zone, that these members are.
fn known_type(items: &[Value]) -> Option<DataType>
    ensures only { IfSome result (λ kind. type_json kind ≡ array (items_view items.now)) }
    ensures all { (kind : DataType) → HasGoodType kind → IsZoneless kind
        → type_json kind ≡ array (items_view items.now) → result ≡ Some kind }
{
    if let Some((name, member)) = two_in(items) {
        return type_of_two_members(name.as_str()?, member);
    }
    plain_type(one_in(items)?.as_str()?)
}

pub(crate) fn read_type(alloc: Global, value: &Value) -> Result<DataType, TextFault>
    ensures read { IfOk result (λ kind. view value.now ≡ type_json kind) }
    ensures all { (kind : DataType) → HasGoodType kind → view value.now ≡ type_json kind
        → MatchResult result (λ read. read ≡ kind) (λ fault. fault ≡ TextFault.OutOfMemory) }
    ensures refused { IfErr result IsUnread }
{
    let items = items_in(value)?;
    if let Some((name, unit, zone)) = three_in(items) {
        return read_timestamp_type(alloc, text_in(name)?, unit, zone);
    }
    match known_type(items) {
        Some(kind) => Ok(kind),
        None => Err(TextFault::BadSchemaJson),
    }
}

// The type of a dictionary's indices, which is one of whole numbers.
fn index_of(value: &Value) -> Option<IndexType>
    ensures only { IfSome result (λ index.
        view value.now ≡ type_json (t.Int index.bits index.signed)) }
    ensures all { (index : IndexType) → view value.now ≡ type_json (t.Int index.bits index.signed)
        → result ≡ Some index }
{
    match known_type(value.as_array()?.as_slice())? {
        DataType::Int { bits, signed } => Some(IndexType { bits, signed }),
        _ => None,
    }
}

fn dictionary_of(members: &[Value]) -> Option<Dictionary>
    ensures only { IfSome result (λ d.
        array (items_view members.now) ≡ dictionary_json (Some d)) }
    ensures all { (d : Dictionary) → FitsSigned w64 d.id
        → array (items_view members.now) ≡ dictionary_json (Some d) → result ≡ Some d }
{
    let (id, index, ordered) = three_in(members)?;
    Some(Dictionary {
        id: id.as_i64()?,
        index: index_of(index)?,
        ordered: ordered.as_bool()?,
    })
}

// A field's dictionary: null where there is none.
pub(crate) fn read_dictionary(value: &Value) -> Result<Option<Dictionary>, TextFault>
    ensures read { IfOk result (λ d. view value.now ≡ dictionary_json d) }
    ensures all { (d : Option Dictionary) → HasWideId d → view value.now ≡ dictionary_json d
        → result ≡ Ok d }
    ensures refused { IfErr result IsUnread }
{
    if value.is_null() {
        return Ok(None);
    }
    match dictionary_of(items_in(value)?) {
        Some(dictionary) => Ok(Some(dictionary)),
        None => Err(TextFault::BadSchemaJson),
    }
}

fn read_pair(alloc: Global, value: &Value) -> Result<(Text, Text), TextFault>
    ensures read { IfOk result (λ pair. view value.now ≡ pair_json pair) }
    ensures all { (pair : List ℕ × List ℕ) → view value.now ≡ pair_json pair
        → MatchResult result (λ read. read ≡ pair) (λ fault. fault ≡ TextFault.OutOfMemory) }
    ensures refused { IfErr result IsUnread }
{
    let Some((key, value)) = two_in(items_in(value)?) else {
        return Err(TextFault::BadSchemaJson);
    };
    let key = read_text(alloc, key)?;
    let value = read_text(alloc, value)?;
    Ok((key, value))
}

pub(crate) fn read_pairs(alloc: Global, value: &Value) -> Result<Vec<(Text, Text)>, TextFault>
    ensures read { IfOk result (λ pairs. view value.now ≡ pairs_json pairs.items) }
    ensures all { (pairs : List (List ℕ × List ℕ)) → view value.now ≡ pairs_json pairs
        → MatchResult result (λ read. read.items ≡ pairs)
        (λ fault. fault ≡ TextFault.OutOfMemory) }
    ensures refused { IfErr result IsUnread }
{
    let mut pairs = Vec::new(alloc);
    for pair in items_in(value)? {
        pairs.push(read_pair(alloc, pair)?)?;
    }
    Ok(pairs)
}

// The value of an object's next member, if it has this key.
fn next_member<'a>(members: &mut Iter<'a, String, Value>, key: &str) -> Result<&'a Value, TextFault>
    ensures only { IfOk result (λ v. members_view members.old
        ≡ member key.now (view v.now) (members_view members.new)) }
    ensures all { (d : Data) (rest : Members) → members_view members.old ≡ member key.now d rest
        → IsOk result }
    ensures refused { IfErr result (λ fault. fault ≡ TextFault.BadSchemaJson) }
{
    let Some((name, value)) = members.next() else {
        return Err(TextFault::BadSchemaJson);
    };
    if name.as_str() == key {
        Ok(value)
    } else {
        Err(TextFault::BadSchemaJson)
    }
}

// The members of an object, by ascending keys.
fn members_in(value: &Value) -> Result<Iter<'_, String, Value>, TextFault>
    ensures { MatchResult result (λ members. view value.now ≡ object (members_view members))
        (λ fault. (fault ≡ TextFault.BadSchemaJson)
        × ((members : Members) → view value.now ≢ object members)) }
{
    match value.as_object() {
        Some(map) => Ok(map.iter()),
        None => Err(TextFault::BadSchemaJson),
    }
}

// The values of the six members of a field.
#[derive(Drop)]
pub(crate) struct FieldMembers<'a> {
    pub(crate) children: &'a Value,
    pub(crate) dictionary: &'a Value,
    pub(crate) metadata: &'a Value,
    pub(crate) name: &'a Value,
    pub(crate) nullable: &'a Value,
    pub(crate) kind: &'a Value,
}

// The members of a field, if the value is an object of these alone.
pub(crate) fn field_members(value: &Value) -> Result<FieldMembers<'_>, TextFault>
    ensures only { IfOk result (λ m. view value.now
        ≡ field_object (view m.children.now) (view m.dictionary.now) (view m.metadata.now)
        (view m.name.now) (view m.nullable.now) (view m.kind.now)) }
    ensures none { IfErr result (λ fault. (fault ≡ TextFault.BadSchemaJson)
        × ((c d m n u k : Data) → view value.now ≢ field_object c d m n u k)) }
{
    let mut members = members_in(value)?;
    let children = next_member(&mut members, "children")?;
    let dictionary = next_member(&mut members, "dictionary")?;
    let metadata = next_member(&mut members, "metadata")?;
    let name = next_member(&mut members, "name")?;
    let nullable = next_member(&mut members, "nullable")?;
    let kind = next_member(&mut members, "type")?;
    if members.next().is_some() {
        return Err(TextFault::BadSchemaJson);
    }
    Ok(FieldMembers {
        children,
        dictionary,
        metadata,
        name,
        nullable,
        kind,
    })
}

// The number of a field's children.
pub(crate) fn count_in(value: &Value) -> Result<u64, TextFault>
    ensures { MatchResult result (λ count. view value.now ≡ number (unsigned count))
        (λ fault. (fault ≡ TextFault.BadSchemaJson)
        × ((count : ℕ) → view value.now ≢ number (unsigned count))) }
{
    match value.as_u64() {
        Some(count) => Ok(count),
        None => Err(TextFault::BadSchemaJson),
    }
}

// A field by itself, and how many children it has.
#[derive(Drop)]
struct OwnField {
    field: Field,
    children: u64,
}

fn read_own(alloc: Global, value: &Value) -> Result<OwnField, TextFault>
    ensures read { IfOk result (λ own. (fields : List Field) → length fields ≡ own.children
        → view value.now ≡ own_json (record (out-Field own.field) { children = fields })) }
    ensures all { (f : Field-F Field) → HasGoodType f.kind → HasWideId f.dictionary
        → view value.now ≡ own_json f
        → MatchResult result (λ own. (own.children ≡ length f.children)
        × (record (out-Field own.field) { children = f.children } ≡ f))
        (λ fault. fault ≡ TextFault.OutOfMemory) }
    ensures refused { IfErr result IsUnread }
{
    let members = field_members(value)?;
    let children = count_in(members.children)?;
    let dictionary = read_dictionary(members.dictionary)?;
    let metadata = read_pairs(alloc, members.metadata)?;
    let name = read_text(alloc, members.name)?;
    let nullable = bool_in(members.nullable)?;
    let kind = read_type(alloc, members.kind)?;
    let field = Field {
        name,
        nullable,
        kind,
        dictionary,
        children: Items::new(alloc),
        metadata: Items::from_vec(metadata),
    };
    Ok(OwnField { field, children })
}

// The first field with its descendants, and the entries after them.
#[cycle(tree)]
fn read_field(alloc: Global, entries: &[Value], depth: u64) -> Result<(Field, &[Value]), TextFault>
    ensures read { IfOk result (λ read.
        map view entries.now ≡ field_json read.0 ++ map view read.1.now) }
    ensures all { (f : Field) (place : ℕ) (rest : List Data) → place + depth ≡ 65
        → AllByRecursion IsReadable (preorder f place) → map view entries.now ≡ field_json f ++ rest
        → MatchResult result (λ read. (read.0 ≡ f) × (map view read.1.now ≡ rest))
        (λ fault. fault ≡ TextFault.OutOfMemory) }
    ensures refused { IfErr result IsUnread }
{
    let [entry, rest @ ..] = entries else {
        return Err(TextFault::BadSchemaJson);
    };
    if depth == 0 {
        return Err(TextFault::BadSchemaJson);
    }
    let own = read_own(alloc, entry)?;
    let (children, rest) = read_children(alloc, rest, own.children, depth - 1)?;
    Ok((own.field.with_children(children), rest))
}

// The next `count` fields with their descendants, and the entries after them.
#[cycle(tree)]
fn read_children(
    alloc: Global,
    entries: &[Value],
    count: u64,
    depth: u64,
) -> Result<(Vec<Field>, &[Value]), TextFault>
    ensures count { IfOk result (λ read. length read.0.items ≡ count) }
    ensures read { IfOk result (λ read. map view entries.now
        ≡ flat_map field_json read.0.items ++ map view read.1.now) }
    ensures all { (fs : List Field) (place : ℕ) (rest : List Data) → place + depth ≡ 65
        → length fs ≡ count → AllByRecursion IsReadable (all_at place (map preorder fs))
        → map view entries.now ≡ flat_map field_json fs ++ rest
        → MatchResult result (λ read. (read.0.items ≡ fs) × (map view read.1.now ≡ rest))
        (λ fault. fault ≡ TextFault.OutOfMemory) }
    ensures refused { IfErr result IsUnread }
{
    let mut children = Vec::new(alloc);
    let mut rest = entries;
    for _number in 0..count {
        let (field, behind) = read_field(alloc, rest, depth)?;
        children.push(field)?;
        rest = behind;
    }
    Ok((children, rest))
}

// The columns, each with all below it.
fn read_columns(alloc: Global, entries: &[Value]) -> Result<Vec<Field>, TextFault>
    ensures read { IfOk result (λ fields.
        map view entries.now ≡ flat_map field_json fields.items) }
    ensures all { (fs : List Field) → AllByRecursion IsReadable (spec_entries fs)
        → map view entries.now ≡ flat_map field_json fs
        → MatchResult result (λ read. read.items ≡ fs) (λ fault. fault ≡ TextFault.OutOfMemory) }
    ensures refused { IfErr result IsUnread }
{
    let mut columns = Vec::new(alloc);
    let mut rest = entries;
    for _number in 0..entries.len() {
        if rest.is_empty() {
            return Ok(columns);
        }
        let (field, behind) = read_field(alloc, rest, MAX_DEPTH)?;
        columns.push(field)?;
        rest = behind;
    }
    Ok(columns)
}

// The entries of "fields" and the value of "metadata", if the value is an object of these alone.
pub(crate) fn schema_members(value: &Value) -> Result<(&[Value], &Value), TextFault>
    ensures only { IfOk result
        (λ m. view value.now ≡ schema_object (items_view m.0.now) (view m.1.now)) }
    ensures none { IfErr result (λ fault. (fault ≡ TextFault.BadSchemaJson)
        × ((fields : JsonItems) (metadata : Data)
        → view value.now ≢ schema_object fields metadata)) }
{
    let mut members = members_in(value)?;
    let entries = items_in(next_member(&mut members, "fields")?)?;
    let metadata = next_member(&mut members, "metadata")?;
    if members.next().is_some() {
        return Err(TextFault::BadSchemaJson);
    }
    Ok((entries, metadata))
}

pub(crate) fn read_schema(alloc: Global, value: &Value) -> Result<Schema, TextFault>
    ensures read { IfOk result (λ s. view value.now ≡ schema_json s) }
    ensures all { (s : Schema) → AllByRecursion IsReadable (spec_entries s.fields)
        → view value.now ≡ schema_json s
        → MatchResult result (λ read. read ≡ s) (λ fault. fault ≡ TextFault.OutOfMemory) }
    ensures refused { IfErr result IsUnread }
{
    let (entries, metadata) = schema_members(value)?;
    let fields = read_columns(alloc, entries)?;
    let metadata = read_pairs(alloc, metadata)?;
    Ok(Schema {
        fields: Items::from_vec(fields),
        metadata: Items::from_vec(metadata),
    })
}

fn read_value(alloc: Global, text: &str) -> Result<Value, TextFault>
    ensures read { IfOk result (λ value. read_text text.now ≡ Some (view value)) }
    ensures none { IfErr result (λ fault. (fault ≡ TextFault.OutOfMemory)
        ⊎ ((fault ≡ TextFault.BadSchemaJson) × (read_text text.now ≡ None))) }
{
    match Value::from_str(alloc, text) {
        Ok(value) => Ok(value),
        Err(fault) if fault.is_memory() => Err(TextFault::OutOfMemory),
        Err(_) => Err(TextFault::BadSchemaJson),
    }
}

// Whether a schema is well formed under the standard limits.
fn check_standard(alloc: Global, schema: &Schema) -> Result<(), TextFault>
    ensures ok { OnOk result
        ((limits : Limits) × IsStandard limits × WellFormed limits schema.now) }
    ensures bad { IfErr result (λ fault. (fault ≡ TextFault.OutOfMemory)
        ⊎ ((fault ≡ TextFault.BadSchemaJson)
        × ((limits : Limits) × IsStandard limits × ¬ WellFormed limits schema.now))) }
{
    let Err(fault) = schema.check(alloc, &Limits::standard()) else {
        return Ok(());
    };
    if fault == SchemaFault::OutOfMemory {
        Err(TextFault::OutOfMemory)
    } else {
        Err(TextFault::BadSchemaJson)
    }
}

// The schema whose JSON text this is, as `schema_from_json`.
fn read_text_of(alloc: Global, text: &str) -> Result<Schema, TextFault>
    ensures read { IfOk result (λ s. (read_text text.now ≡ Some (schema_json s))
        × ((limits : Limits) × IsStandard limits × WellFormed limits s)) }
    ensures all { (s : Schema) (limits : Limits) → read_text text.now ≡ Some (schema_json s)
        → IsStandard limits → WellFormed limits s
        → AllByRecursion (λ e. HasWideId e.dictionary) (spec_entries s.fields)
        → MatchResult result (λ read. read ≡ s) (λ fault. fault ≡ TextFault.OutOfMemory) }
    ensures refused { IfErr result IsUnread }
{
    let value = read_value(alloc, text)?;
    let schema = read_schema(alloc, &value)?;
    check_standard(alloc, &schema)?;
    Ok(schema)
}

/// Reads a schema from its JSON text, in the form that `schema_json` writes. The keys may be in any
/// order, with whitespace between tokens. If a key is repeated, the last one counts. Other keys are
/// not allowed. If `Schema::check` accepts a schema with `Limits::standard`, the text that
/// `schema_json` returns for it is read as that schema.
///
/// Errors: X6 if the text has another form, or if `Schema::check` refuses its schema with
/// `Limits::standard`; `OutOfMemory`. It takes memory for the text's values and for the schema.
pub fn schema_from_json(alloc: Global, text: &str) -> Result<Schema, TextFault>
    ensures read { IfOk result (λ s. (read_text text.now ≡ Some (schema_json s))
        × ((limits : Limits) × IsStandard limits × WellFormed limits s)) }
    ensures all { (s : Schema) (limits : Limits) → read_text text.now ≡ Some (schema_json s)
        → IsStandard limits → WellFormed limits s
        → AllByRecursion (λ e. HasWideId e.dictionary) (spec_entries s.fields)
        → MatchResult result (λ read. read ≡ s) (λ fault. fault ≡ TextFault.OutOfMemory) }
    // The text that `schema_json` gives of such a schema reads as it.
    ensures back { (s : Schema) (limits : Limits) → text.now ≡ schema_text s
        → IsStandard limits → WellFormed limits s
        → AllByRecursion (λ e. HasWideId e.dictionary) (spec_entries s.fields)
        → MatchResult result (λ read. read ≡ s) (λ fault. fault ≡ TextFault.OutOfMemory) }
    ensures refused { IfErr result IsUnread }
{
    read_text_of(alloc, text)
}

/// Reads a schema from the bytes of its JSON text, as `schema_from_json` does from the text.
///
/// Errors: X6 if the bytes are not UTF-8, or are a text for which `schema_from_json` returns X6;
/// `OutOfMemory`.
pub fn schema_from_json_bytes(alloc: Global, bytes: &[u8]) -> Result<Schema, TextFault>
    ensures read { IfOk result (StatesSchema bytes.now) }
    ensures all { (s : Schema) → StatesSchema bytes.now s
        → AllByRecursion (λ e. HasWideId e.dictionary) (spec_entries s.fields)
        → MatchResult result (λ read. read ≡ s) (λ fault. fault ≡ TextFault.OutOfMemory) }
    ensures refused { IfErr result (λ fault. (fault ≡ TextFault.OutOfMemory)
        ⊎ ((fault ≡ TextFault.BadSchemaJson) × StatesNoSchema bytes.now)) }
{
    let Ok(text) = str::from_utf8(bytes) else {
        return Err(TextFault::BadSchemaJson);
    };
    schema_from_json(alloc, text)
}
