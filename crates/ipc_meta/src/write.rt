//! Writes the metadata of messages.
ghost use Rattle.std.specs.Prelude.{◌≡◌, ◌⊎◌, ◌<◌, ◌≤◌, ◌+◌, ◌*◌, ◌/◌, ◌++◌, ℕ, List, length, IfOk};
ghost use Rattle.std.specs.Prelude.{IfErr, OnOk};
ghost use Rattle.ipc_build.specs.Trees.{view};
ghost use Rattle.ipc_build.specs.Encodes.{Encodes, Aligned};
ghost use Rattle.ipc_build.specs.Ascends.{Ascends, fields};
ghost use Rattle.ipc_build.specs.Room.{room, size};
ghost use Rattle.ipc_model.specs.Entries.{AllowPairs};
ghost use Rattle.ipc_model.specs.WellFormed.{WellFormed};
ghost use Rattle.ipc_meta.specs.Heads.{HeadOf};
ghost use Rattle.ipc_meta.specs.Rooms.{dictionary_room, IsTooLong, head_room, schema_room};
ghost use Rattle.ipc_meta.specs.Rooms.{IsDictionaryTooLong, dictionary_head_room};
ghost use Rattle.ipc_meta.specs.Written.{schema_message, batch_message, dictionary_message};

use crate::head::{BatchHead, Head};
use crate::trees::{batch_message, dictionary_message, schema_message};
use ipc_build::{BuildFault, FlatTree, build};
use ipc_model::{Items, Limits, Schema, Text, WriteFault};
use std::alloc::Global;

// The bytes of a message's metadata.
fn finished_metadata(alloc: Global, limits: &Limits, tree: &FlatTree) -> Result<Vec<u8>, WriteFault>
    requires { Ascends (fields 0) (view tree.now) }
    ensures lies { IfOk result (λ b. (rest : List ℕ) → Encodes (b.items ++ rest) (view tree.now)) }
    ensures aligned { IfOk result (λ b. Aligned b.items (view tree.now)) }
    ensures size { IfOk result (λ b. length b.items ≡ size (view tree.now)) }
    ensures within { IfOk result (λ b. (length b.items + 7) / 8 * 8 ≤ room (view tree.now)) }
    ensures room { IfOk result (λ b. room (view tree.now) ≤ limits.now.metadata) }
    ensures refused { IfErr result (λ f. (f ≡ WriteFault.OutOfMemory)
        ⊎ ((f ≡ WriteFault.TooLong) × (limits.now.metadata < room (view tree.now)))) }
{
    match build(alloc, tree, limits.metadata) {
        Ok(bytes) => Ok(bytes),
        Err(BuildFault::TooLarge) => Err(WriteFault::TooLong),
        Err(BuildFault::OutOfMemory) => Err(WriteFault::OutOfMemory),
    }
}

/// Returns the metadata of a schema's message, which has no body (Message.fbs, table Message;
/// Schema.fbs, table Schema). The schema must be well formed within the limits (`Schema::check`).
///
/// The bytes are a FlatBuffer in which each scalar and offset is aligned to its size. Padding may
/// follow them: padded to a multiple of 8 they are at most `limits.metadata` bytes. These fields
/// are present, and no others:
///
/// - of the message: the version (V5), the header with its code, and the body's length;
/// - of the schema: its fields, and its pairs if there are any;
/// - of each field: its name, whether it is nullable, its type with the code, its children, and a
///   dictionary and pairs if there are any;
/// - of each type: all its fields, but a timezone only if there is one.
///
/// # Errors
///
/// - `TooLong` (W6): the size bound of the metadata is above `limits.metadata` bytes. It is the sum
///   of 16 bytes; for each table 24, and 10 for each entry of its vtable; for each text 8, and its
///   bytes; for each vector of tables 12, and 4 for each table; for each vector of pairs of numbers
///   12, and 16 for each pair.
/// - `OutOfMemory` (W11): memory from `alloc` ran out.
pub fn write_schema(alloc: Global, limits: &Limits, schema: &Schema) -> Result<Vec<u8>, WriteFault>
    requires { WellFormed limits.now schema.now }
    // Exactly these fields are there, whatever follows.
    ensures lies { IfOk result
        (λ b. (rest : List ℕ) → Encodes (b.items ++ rest) (schema_message schema.now)) }
    ensures aligned { IfOk result (λ b. Aligned b.items (schema_message schema.now)) }
    ensures states { IfOk result
        (λ b. (rest : List ℕ) → HeadOf limits.now (b.items ++ rest) (Head.Schema schema.now) 0) }
    // No bytes follow the message.
    ensures size { IfOk result (λ b. length b.items ≡ size (schema_message schema.now)) }
    ensures within { IfOk result (λ b. (length b.items + 7) / 8 * 8 ≤ schema_room schema.now) }
    ensures short { IfOk result (λ b. (length b.items + 7) / 8 * 8 ≤ limits.now.metadata) }
    ensures room { IfOk result (λ b. schema_room schema.now ≤ limits.now.metadata) }
    ensures refused { IfErr result (λ f. (f ≡ WriteFault.OutOfMemory)
        ⊎ ((f ≡ WriteFault.TooLong) × (limits.now.metadata < schema_room schema.now))) }
{
    let message = schema_message(alloc, schema)?;
    finished_metadata(alloc, limits, &message)
}

// Checks that the body of a batch, which has `body` bytes, and its message's pairs are within the
// limits.
fn check_batch(limits: &Limits, pairs: &[(Text, Text)], body: u64) -> Result<(), WriteFault>
    ensures body { OnOk result (body ≤ limits.now.body) }
    ensures pairs { OnOk result (AllowPairs limits.now pairs.now) }
    ensures refused { IfErr result (λ f. (f ≡ WriteFault.TooLong)
        × ((limits.now.body < body) ⊎ ¬ AllowPairs limits.now pairs.now)) }
{
    if body > limits.body || !limits.allow_pairs(pairs) {
        return Err(WriteFault::TooLong);
    }
    Ok(())
}

/// Returns the metadata of a record batch's message with a body of `body` bytes (Message.fbs,
/// tables Message and RecordBatch). The numbers of the head and the pairs of key and value are
/// written as they are; without pairs their vector is absent. The layout and the padding are those
/// of `write_schema`.
///
/// # Errors
///
/// - `TooLong` (W6): the body has more than `limits.body` bytes; the keys and values of the pairs
///   have more than `limits.text` bytes; there are more than `limits.pairs` pairs; or the size
///   bound of the metadata is above `limits.metadata` bytes. It is 158 bytes, and 16 for each node
///   and each buffer. With pairs it is 22 bytes more, and for each pair 64 and the bytes of its key
///   and value.
/// - `OutOfMemory` (W11): memory from `alloc` ran out.
pub fn write_batch(
    alloc: Global,
    limits: &Limits,
    head: &BatchHead,
    pairs: &Items<(Text, Text)>,
    body: u64,
) -> Result<Vec<u8>, WriteFault>
    ensures lies { IfOk result (λ b. (rest : List ℕ)
        → Encodes (b.items ++ rest) (batch_message head.now pairs.now body)) }
    ensures aligned { IfOk result (λ b. Aligned b.items (batch_message head.now pairs.now body)) }
    ensures states { IfOk result (λ b. (rest : List ℕ)
        → HeadOf limits.now (b.items ++ rest) (Head.Batch head.now pairs.now) body) }
    ensures size { IfOk result
        (λ b. length b.items ≡ size (batch_message head.now pairs.now body)) }
    ensures within { IfOk result
        (λ b. (length b.items + 7) / 8 * 8 ≤ head_room head.now pairs.now body) }
    ensures short { IfOk result (λ b. (length b.items + 7) / 8 * 8 ≤ limits.now.metadata) }
    ensures room { IfOk result (λ b. ¬ IsTooLong limits.now head.now pairs.now body) }
    ensures refused { IfErr result (λ f. (f ≡ WriteFault.OutOfMemory)
        ⊎ ((f ≡ WriteFault.TooLong) × IsTooLong limits.now head.now pairs.now body)) }
{
    check_batch(limits, pairs.as_slice(), body)?;
    let message = batch_message(alloc, head, pairs, body)?;
    finished_metadata(alloc, limits, &message)
}

/// Returns the size bound, in bytes, of the metadata of a dictionary batch's message (Message.fbs,
/// table DictionaryBatch). It depends on the number of nodes and of buffers only.
#[tactic(auto, using(crate::proofs::written::WrittenOrder::dictionary_counts))]
pub fn dictionary_room(nodes: u32, buffers: u32) -> u64
    ensures { result ≡ dictionary_room nodes buffers }
{
    212 + 16 * u64::from(nodes) + 16 * u64::from(buffers)
}

/// Returns the metadata of a dictionary batch's message with a body of `body` bytes (Message.fbs,
/// tables Message and DictionaryBatch). The dictionary's id and the numbers of the head are written
/// as they are, and isDelta is written as false. The message has no pairs. The layout and the
/// padding are those of `write_schema`.
///
/// # Errors
///
/// - `TooLong` (W6): the body has more than `limits.body` bytes, or the size bound of the metadata
///   is above `limits.metadata` bytes. It is 212 bytes, and 16 for each node and each buffer.
/// - `OutOfMemory` (W11): memory from `alloc` ran out.
pub fn write_dictionary(
    alloc: Global,
    limits: &Limits,
    id: i64,
    head: &BatchHead,
    body: u64,
) -> Result<Vec<u8>, WriteFault>
    ensures lies { IfOk result (λ b. (rest : List ℕ)
        → Encodes (b.items ++ rest) (dictionary_message id head.now body)) }
    ensures aligned { IfOk result (λ b. Aligned b.items (dictionary_message id head.now body)) }
    ensures states { IfOk result (λ b. (rest : List ℕ)
        → HeadOf limits.now (b.items ++ rest) (Head.Dictionary id head.now) body) }
    ensures size { IfOk result
        (λ b. length b.items ≡ size (dictionary_message id head.now body)) }
    ensures within { IfOk result
        (λ b. (length b.items + 7) / 8 * 8 ≤ dictionary_head_room id head.now body) }
    ensures short { IfOk result (λ b. (length b.items + 7) / 8 * 8 ≤ limits.now.metadata) }
    ensures room { IfOk result (λ b. ¬ IsDictionaryTooLong limits.now id head.now body) }
    ensures refused { IfErr result (λ f. (f ≡ WriteFault.OutOfMemory)
        ⊎ ((f ≡ WriteFault.TooLong) × IsDictionaryTooLong limits.now id head.now body)) }
{
    if body > limits.body {
        return Err(WriteFault::TooLong);
    }
    let message = dictionary_message(alloc, id, head, body)?;
    finished_metadata(alloc, limits, &message)
}
