ghost use Rattle.std.specs.Prelude.{◌≡◌, ℕ, ℤ, List, IfOk, IfErr, Ok, length};
ghost use Rattle.ipc_scalar.specs.Bytes.{int64};
ghost use Rattle.ipc_model.specs.Answers.{UnlessOutOfMemory, AnswersUnlessOutOfMemory};
ghost use Rattle.ipc_meta.specs.Heads.{numbers_at, DictionaryAt};
ghost use Rattle.ipc_meta.specs.Reading.{batch_read};
ghost use Rattle.ipc_meta.specs.Reached.{HasTable, dictionary_batch};
ghost use Rattle.ipc_meta.specs.Causes.{Cause};
ghost use Rattle.ipc_model.specs.declared.limits.Limits.{Limits};

use crate::flat_faults::map_fault;
use crate::head::BatchHead;
use crate::types::read_flag;
use ipc_flat::TableRef;
use ipc_model::{Fault, Items};
use ipc_scalar::get_i64;
use std::alloc::Global;

// The two numbers of a FieldNode (Message.fbs) or of a Buffer (Schema.fbs): 64 bits each, signed.
fn number_pair(bytes: &[u8]) -> (i64, i64)
    requires { length bytes.now ≡ 16 }
    ensures { result ≡ (int64 bytes.now 0, int64 bytes.now 8) }
{
    let first = get_i64(bytes, 0).unwrap();
    let second = get_i64(bytes, 8).unwrap();
    (first, second)
}

// The numbers of all structs in a field; an absent vector has none.
#[tactic(auto, unfolding(crate::specs::Heads::numbers_at))]
fn read_numbers(alloc: Global, table: &TableRef<'_>, id: u16) -> Result<Items<(i64, i64)>, Fault>
    ensures { AnswersUnlessOutOfMemory (λ ns. ns) result (numbers_at table.now id) }
{
    let Some(structs) = map_fault(table.structs(id, 16))? else {
        return Ok(Items::new(alloc));
    };
    let mut numbers = Vec::with_capacity(alloc, structs.len())?;
    for i in 0..structs.len() {
        numbers.push(number_pair(structs.at(i)))?;
    }
    Ok(Items::from_vec(numbers))
}

/// Reads a RecordBatch table (Message.fbs): 0 length, 1 nodes, 2 buffers, 3 compression. Returns
/// `Compressed` if there is a compression table, whatever it holds.
#[tactic(auto, unfolding(crate::specs::Reading::batch_read))]
pub(crate) fn read_batch(alloc: Global, table: &TableRef<'_>) -> Result<BatchHead, Fault>
    ensures { AnswersUnlessOutOfMemory (λ b. b) result (batch_read table.now) }
{
    if map_fault(table.table(3))?.is_some() {
        return Err(Fault::Compressed);
    }
    let length = map_fault(table.scalar_i64(0, 0))?;
    let nodes = read_numbers(alloc, table, 1)?;
    let buffers = read_numbers(alloc, table, 2)?;
    Ok(BatchHead {
        length,
        nodes,
        buffers,
    })
}

/// Reads a DictionaryBatch table (Message.fbs): 0 id, 1 data, 2 isDelta. Returns `DeltaDictionary`
/// if the values add to a dictionary, and `BadHeader` if there is no data.
pub(crate) fn read_dictionary_batch(
    alloc: Global,
    table: &TableRef<'_>,
) -> Result<(i64, BatchHead), Fault>
    ensures finds { IfOk result (λ d. DictionaryAt table.now d.0 d.1) }
    ensures only { (id : ℤ) (batch : BatchHead) → DictionaryAt table.now id batch
        → AnswersUnlessOutOfMemory (λ y. y) result (Ok (id, batch)) }
    ensures refused { IfErr result
        (λ f. (limits : Limits) (b : List ℕ) → HasTable b dictionary_batch table.now
        → UnlessOutOfMemory f (Cause limits b f)) }
{
    let id = map_fault(table.scalar_i64(0, 0))?;
    if read_flag(table, 2)? {
        return Err(Fault::DeltaDictionary);
    }
    match map_fault(table.table(1))? {
        None => Err(Fault::BadHeader),
        Some(values) => Ok((id, read_batch(alloc, &values)?)),
    }
}
