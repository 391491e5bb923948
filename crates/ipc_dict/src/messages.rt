//! Checks that the metadata of dictionary messages is within the limits.
ghost use Rattle.std.specs.Prelude.{◌≡◌, ◌<◌, ◌≤◌, List, Some, true, false, IfErr, IfOk};
ghost use Rattle.ipc_model.specs.declared.schema.Field.{Field};
ghost use Rattle.ipc_dict_read.specs.ValuesColumns.{IsOneColumn, columns_for, dictionary_columns};
ghost use Rattle.ipc_dict.specs.Within.{HasLongMessage, HaveShortMessages, dictionary_room_of};

use crate::entry::TallyEntry;
use crate::schema_ids::empty_entries;
use crate::seed::Seed;
use ipc_dict_read::Dictionaries;
use ipc_meta::dictionary_room;
use ipc_model::{Limits, Schema, WriteFault, layout_of};
use std::alloc::Global;

// Whether the message of this dictionary has: it holds one node and the buffers of the column.
fn is_short(limits: &Limits, columns: &Dictionaries, entry: &TallyEntry) -> bool
    requires { (fields : List Field)
        × ((columns_for columns.now.columns entry.now.id ≡ Some fields) × IsOneColumn fields) }
    ensures short { (fields : List Field)
        → columns_for columns.now.columns entry.now.id ≡ Some fields
        → result ≡ true → dictionary_room_of fields ≤ limits.now.metadata }
    ensures long { (fields : List Field)
        → columns_for columns.now.columns entry.now.id ≡ Some fields
        → result ≡ false → limits.now.metadata < dictionary_room_of fields }
{
    let Some(fields) = columns.fields_of(entry.id) else {
        unreachable!();
    };
    let Some(column) = fields.as_slice().first() else {
        unreachable!();
    };
    let layout = layout_of(&column.kind, column.dictionary);
    dictionary_room(1, layout.own_buffers() as u32) <= limits.metadata
}

/// Returns whether the metadata of the message of each dictionary that the schema's fields name is
/// within the limits, whatever the values (Message.fbs, table DictionaryBatch).
///
/// `columns` must be those of the schema's dictionaries. Errors: W11 `OutOfMemory` if memory for
/// the ids ran out.
pub fn has_short_messages(
    alloc: Global,
    limits: &Limits,
    schema: &Schema,
    columns: &Dictionaries,
) -> Result<bool, WriteFault>
    requires { columns.now.columns ≡ dictionary_columns schema.now.fields }
    ensures short { IfOk result
        (λ short. short ≡ true → HaveShortMessages limits.now schema.now.fields) }
    ensures long { IfOk result
        (λ short. short ≡ false → HasLongMessage limits.now schema.now.fields) }
    ensures memory { IfErr result (λ fault. fault ≡ WriteFault.OutOfMemory) }
{
    let entries = empty_entries(alloc, Seed::Fixed, schema.fields.as_slice())?;
    for entry in &entries {
        if !is_short(limits, columns, entry) {
            return Ok(false);
        }
    }
    Ok(true)
}
