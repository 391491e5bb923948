ghost use Rattle.std.specs.Prelude.{◌≡◌, ◌<◌, ◌≤◌, ℕ, List, IfOk, IfErr, OnOk, Ok, pos, IsTrue};
ghost use Rattle.std.specs.Prelude.{MatchResult};
ghost use Rattle.ipc_scalar.specs.Bytes.{int16, int64};
ghost use Rattle.ipc_flat.specs.Views.{scalar};
ghost use Rattle.ipc_model.specs.Answers.{UnlessOutOfMemory, AnswersUnlessOutOfMemory};
ghost use Rattle.ipc_meta.specs.Fields.{SchemaAt};
ghost use Rattle.ipc_meta.specs.Heads.{BatchAt, PairsAt, HeaderAt, HeadOf};
ghost use Rattle.ipc_meta.specs.Reached.{HasTable, IsHeaderCode, message, batch_message, schema};
ghost use Rattle.ipc_meta.specs.Reached.{record_batch};
ghost use Rattle.ipc_meta.specs.Reading.{fields_read, field_read};
ghost use Rattle.ipc_meta.specs.Version.{v5};
ghost use Rattle.ipc_meta.specs.Causes.{Cause};
ghost use Rattle.ipc_model.specs.declared.limits.Limits.{Limits};

use crate::batches::{read_batch, read_dictionary_batch};
use crate::budget::Budget;
use crate::fields::{read_fields, read_pairs};
use crate::flat_faults::map_fault;
use crate::head::{BatchHead, Head};
use crate::version::VERSION;
use ipc_flat::{Flat, TableRef};
use ipc_model::{Fault, Field, Items, Limits, Schema, Text};
use std::alloc::Global;

// Whether a stream has headers with this code (Message.fbs, union MessageHeader).
fn is_header_code(code: u8) -> bool
    ensures yes { IsTrue result → IsHeaderCode code }
    ensures no { IsHeaderCode code → IsTrue result }
{
    matches!(code, 1 | 2 | 3)
}

// A Schema table (Schema.fbs) states that numbers begin with their lowest byte: 0 endianness.
fn check_endianness(table: &TableRef<'_>) -> Result<(), Fault>
    ensures ok { OnOk result (scalar table.now 0 2 int16 (pos 0) ≡ Ok (pos 0)) }
    ensures only { IfErr result (λ f. ¬ (scalar table.now 0 2 int16 (pos 0) ≡ Ok (pos 0))) }
    ensures refused { IfErr result
        (λ f. (limits : Limits) (b : List ℕ) → HasTable b schema table.now → Cause limits b f) }
{
    if map_fault(table.scalar_i16(0, 0))? != 0 {
        return Err(Fault::BigEndian);
    }
    Ok(())
}

// The fields of a Schema table (Schema.fbs, table Schema, 1), with at most the number of levels
// that the limits allow.
fn read_columns(
    alloc: Global,
    limits: &Limits,
    table: &TableRef<'_>,
    budget: &mut Budget,
) -> Result<Items<Field>, Fault>
    ensures { AnswersUnlessOutOfMemory (λ fs. (fs, budget.new)) result
        (fields_read (field_read limits.now.depth) table.now 1 budget.old) }
{
    read_fields(alloc, table, 1, limits.depth, budget)
}

// A Schema table (Schema.fbs): 0 endianness, 1 fields, 2 custom_metadata.
fn read_schema(alloc: Global, limits: &Limits, table: &TableRef<'_>) -> Result<Schema, Fault>
    ensures finds { IfOk result (λ s. SchemaAt limits.now table.now s) }
    ensures only { (s : Schema) → SchemaAt limits.now table.now s
        → AnswersUnlessOutOfMemory (λ y. y) result (Ok s) }
    ensures refused { IfErr result
        (λ f. (b : List ℕ) → HasTable b schema table.now
        → UnlessOutOfMemory f (Cause limits.now b f)) }
{
    check_endianness(table)?;
    let mut budget = Budget {
        fields: limits.fields,
        text: limits.text,
        pairs: limits.pairs,
    };
    let metadata = read_pairs(alloc, table, 2, &mut budget)?;
    let fields = read_columns(alloc, limits, table, &mut budget)?;
    let schema = Schema { fields, metadata };
    schema.check(alloc, limits)?;
    Ok(schema)
}

// The pairs of a record batch's message (Message.fbs, table Message): 4 custom_metadata.
fn read_batch_pairs(
    alloc: Global,
    limits: &Limits,
    root: &TableRef<'_>,
) -> Result<Items<(Text, Text)>, Fault>
    ensures finds { IfOk result (λ pairs. PairsAt limits.now root.now pairs) }
    ensures only { (pairs : List (List ℕ × List ℕ)) → PairsAt limits.now root.now pairs
        → AnswersUnlessOutOfMemory (λ y. y) result (Ok pairs) }
    ensures refused { IfErr result
        (λ f. (b : List ℕ) → HasTable b batch_message root.now
        → UnlessOutOfMemory f (Cause limits.now b f)) }
{
    let (text, pairs) = (limits.text, limits.pairs);
    let mut budget = Budget {
        fields: 0,
        text,
        pairs,
    };
    read_pairs(alloc, root, 4, &mut budget)
}

// What the message of a record batch carries: the batch, whose table is the header's, and the
// message's pairs.
fn read_record_batch(
    alloc: Global,
    limits: &Limits,
    root: &TableRef<'_>,
    table: &TableRef<'_>,
) -> Result<(BatchHead, Items<(Text, Text)>), Fault>
    ensures finds { IfOk result (λ r. BatchAt table.now r.0 × PairsAt limits.now root.now r.1) }
    ensures only { (batch : BatchHead) (pairs : List (List ℕ × List ℕ)) → BatchAt table.now batch
        → PairsAt limits.now root.now pairs
        → AnswersUnlessOutOfMemory (λ y. y) result (Ok (batch, pairs)) }
    ensures refused { IfErr result
        (λ f. (b : List ℕ) → HasTable b record_batch table.now → HasTable b batch_message root.now
        → UnlessOutOfMemory f (Cause limits.now b f)) }
{
    let batch = read_batch(alloc, table)?;
    Ok((batch, read_batch_pairs(alloc, limits, root)?))
}

// The header of a Message table (Message.fbs): 1 its code in union MessageHeader, 2 its table,
// which isn't looked at where the code is none of a stream's.
fn read_header(alloc: Global, limits: &Limits, root: &TableRef<'_>) -> Result<Head, Fault>
    ensures finds { IfOk result (λ head. HeaderAt limits.now root.now head) }
    ensures only { (head : Head) → HeaderAt limits.now root.now head
        → AnswersUnlessOutOfMemory (λ y. y) result (Ok head) }
    ensures refused { IfErr result
        (λ f. (b : List ℕ) → HasTable b message root.now
        → UnlessOutOfMemory f (Cause limits.now b f)) }
{
    let code = map_fault(root.scalar_u8(1, 0))?;
    if !is_header_code(code) {
        return Err(Fault::BadHeader);
    }
    let Some(table) = map_fault(root.table(2))? else {
        return Err(Fault::BadHeader);
    };
    match code {
        1 => Ok(Head::Schema(read_schema(alloc, limits, &table)?)),
        2 => {
            let (id, batch) = read_dictionary_batch(alloc, &table)?;
            Ok(Head::Dictionary(id, batch))
        }
        3 => {
            let (batch, pairs) = read_record_batch(alloc, limits, root, &table)?;
            Ok(Head::Batch(batch, pairs))
        }
        _ => unreachable!(),
    }
}

// The version is the one that is read here (Message.fbs, table Message, 0).
fn check_version(root: &TableRef<'_>) -> Result<(), Fault>
    ensures ok { OnOk result (scalar root.now 0 2 int16 (pos 0) ≡ Ok v5) }
    ensures only { IfErr result (λ f. ¬ (scalar root.now 0 2 int16 (pos 0) ≡ Ok v5)) }
    ensures refused { IfErr result
        (λ f. (limits : Limits) (b : List ℕ) → HasTable b message root.now → Cause limits b f) }
{
    if map_fault(root.scalar_i16(0, 0))? != VERSION {
        return Err(Fault::BadVersion);
    }
    Ok(())
}

// The length of the body (Message.fbs, table Message, 3), which is not below 0.
fn read_body_length(root: &TableRef<'_>) -> Result<u64, Fault>
    ensures finds { IfOk result (λ m. scalar root.now 3 8 int64 (pos 0) ≡ Ok (pos m)) }
    ensures only { IfErr result
        (λ f. (m : ℕ) → ¬ (scalar root.now 3 8 int64 (pos 0) ≡ Ok (pos m))) }
    ensures refused { IfErr result
        (λ f. (limits : Limits) (b : List ℕ) → HasTable b message root.now → Cause limits b f) }
{
    let length = map_fault(root.scalar_i64(3, 0))?;
    if length < 0 {
        return Err(Fault::BadBodyLength);
    }
    Ok(length.unsigned_abs())
}

// A body of this length is within the limits.
fn check_body_length(limits: &Limits, length: u64) -> Result<(), Fault>
    ensures ok { OnOk result (length ≤ limits.now.body) }
    ensures refused { IfErr result
        (λ f. (f ≡ Fault.BodyTooLong) × (limits.now.body < length)) }
{
    if length > limits.body {
        return Err(Fault::BodyTooLong);
    }
    Ok(())
}

/// Reads the metadata of one message. Returns what its header states, and the number of bytes of
/// the message's body, from 0 to `limits.body` (Message.fbs, table Message).
///
/// `metadata` is the FlatBuffer alone, without the continuation mark and the size before it.
/// Padding after it may hold anything (Arrow Columnar Format, "Encapsulated message format").
///
/// The body's length, the fields, the text and the pairs are within `limits`. The length of the
/// metadata itself is not checked. A schema that is returned is well formed. The pairs of the
/// message are read for a record batch only. Only the fields that this crate names are read; any
/// other field may hold anything.
///
/// An absent vector is empty, and an absent name, key or value is the empty text. An absent
/// timezone is `None`, and differs from an empty one. Memory for texts, fields, nodes and buffers
/// is taken from `alloc`.
///
/// # Errors
///
/// Each fault is true of the metadata. If several apply, one of them is returned.
///
/// - `BadFlat` (F5): an offset, a vtable or a range that the reader uses is ill-formed (FlatBuffers
///   binary format). The table of an unsupported header or type is not read.
/// - `BadVersion` (F6): the version is not V5.
/// - `BadHeader` (F7): the header is absent, or is of another kind than schema, dictionary batch or
///   record batch, or is a dictionary batch without data.
/// - `BadBodyLength` (F8): the length of the body is negative.
/// - `BodyTooLong` (F9): the body has more than `limits.body` bytes.
/// - `BigEndian` (F12): the schema's endianness is not Little.
/// - `UnsupportedType` (F13): a field has a type that is not supported, with the type's code in
///   union Type (Schema.fbs).
/// - `BadType` (F14): a field's type has no table; an integer has another width than 8, 16, 32 or
///   64 bits; the byte width of a fixed-size binary or the list size of a fixed-size list is
///   negative; a date, time, timestamp or duration has a unit that does not exist; or a time has
///   another width than its unit's.
/// - `BadChildren` (F15): a list has not exactly one child, or a type without children has some.
/// - `NameNotUtf8` (F16): a name, a key, a value or a timezone is not UTF-8.
/// - `TooManyFields` (F17): there are more than `limits.fields` fields, descendants included.
/// - `TooDeep` (F18): fields are nested deeper than `limits.depth`, where a column has depth 1.
/// - `TooMuchText` (F19): there are more than `limits.text` bytes of names, keys, values and
///   timezones, or more than `limits.pairs` pairs of key and value. A schema is counted as a whole;
///   so are the pairs of a record batch's message.
/// - `DictionaryConflict` (F20): two fields with one dictionary id have values of different types.
/// - `NestedDictionary` (F21): the values of a dictionary are lists or structs.
/// - `BadIndexType` (F22): a dictionary's indices have another width than 8, 16, 32 or 64 bits.
/// - `Compressed` (F23): a batch has a compression table.
/// - `DeltaDictionary` (F24): a dictionary batch adds to a dictionary.
/// - `OutOfMemory` (F37): memory from `alloc` ran out.
pub fn read_message(alloc: Global, limits: &Limits, metadata: &[u8]) -> Result<(Head, u64), Fault>
    ensures finds { IfOk result (λ r. HeadOf limits.now metadata.now r.0 r.1) }
    ensures only { (head : Head) (m : ℕ) → HeadOf limits.now metadata.now head m
        → MatchResult result (λ r. (r.0 ≡ head) × (r.1 ≡ m)) (λ f. f ≡ Fault.OutOfMemory) }
    ensures refused { IfErr result (λ f. UnlessOutOfMemory f (Cause limits.now metadata.now f)) }
{
    let root = map_fault(Flat::root(metadata))?;
    check_version(&root)?;
    let body = read_body_length(&root)?;
    check_body_length(limits, body)?;
    let head = read_header(alloc, limits, &root)?;
    Ok((head, body))
}
