//! What a writer has sent of each dictionary.
ghost use Rattle.std.specs.Prelude.{◌≡◌, IfOk, IfErr};
ghost use Rattle.ipc_dict.specs.SchemaIds.{ids_of, kept_ids, tally_ids, nothing_sent};
ghost use Rattle.ipc_dict.specs.Planning.{last_sent, own_sent, times_sent_for};
ghost use Rattle.ipc_dict.specs.Sending.{AreCounted};

use crate::distinct::DistinctValues;
use crate::entry::TallyEntry;
use crate::schema_ids::empty_entries;
use crate::seed::Seed;
use crate::settle::rows_of;
use ipc_model::{Items, Row, Schema, WriteFault};
use std::alloc::{AllocError, Global};
use std::marker::Model;

/// What was sent so far of one dictionary.
#[derive(Debug, Drop)]
pub struct KeptEntry {
    /// The id of the dictionary.
    pub id: i64,
    /// The values, if the dictionary was sent.
    pub values: Option<DistinctValues>,
    /// How often the dictionary was sent, at most 2^64 - 1 times.
    pub sent: u64,
}

/// What a writer has sent so far: for each id of its schema the values of the last dictionary with
/// that id, if there was one.
///
/// Contracts describe it as the list of its entries, in the order in which their ids first appear
/// in the schema (pre-order).
#[derive(Debug, Drop)]
pub struct Kept {
    pub(crate) entries: Vec<KeptEntry>,
}

impl Model for Kept {
    ghost use Rattle.std.specs.Prelude.{List};
    ghost use Rattle.std.specs.Coded.{coded_list};
    ghost use Rattle.ipc_dict.specs.declared.kept.KeptEntry.{KeptEntry};
    ghost use Rattle.ipc_dict.specs.contracts.kept.KeptEntry as one;

    ghost Value = { List KeptEntry };

    ghost coded = { coded_list one.the_row.coded };

    ghost view = { λ kept. kept.entries.items };
}

impl Kept {
    /// Creates an entry for each id that the schema's fields name, of which nothing is sent. What
    /// is sent later is moved here, which takes no memory.
    ///
    /// Errors: `OutOfMemory` if memory for the entries ran out.
    #[tactic(auto, using(crate::proofs::ids::Ids::ids_unsent))]
    pub fn new(alloc: Global, schema: &Schema) -> Result<Kept, WriteFault>
        ensures entries { IfOk result (λ kept. kept ≡ nothing_sent (ids_of schema.now.fields)) }
        ensures ids { IfOk result (λ kept. kept_ids kept ≡ ids_of schema.now.fields) }
        ensures counted { IfOk result (λ kept. AreCounted schema.now.fields kept) }
        ensures memory { IfErr result (λ fault. fault ≡ WriteFault.OutOfMemory) }
    {
        let entries = empty_entries(alloc, Seed::Fixed, schema.fields.as_slice())?;
        let entries = nothing_sent(alloc, &entries)?;
        Ok(Kept { entries })
    }

    /// Returns how often a dictionary with this id was sent, at most 2^64 - 1: 0 if none was, or if
    /// no field names the id.
    pub fn times_sent(&self, id: i64) -> u64
        ensures { result ≡ times_sent_for self.now id }
    {
        for entry in self.entries.as_slice() {
            if entry.id == id {
                return entry.sent;
            }
        }
        0
    }

    /// Returns a copy of the values of the last dictionary with this id that was sent, each as a
    /// row of one column, or `None` if none was.
    ///
    /// Errors: `OutOfMemory` if memory for the copy ran out.
    pub fn last_sent(&self, alloc: Global, id: i64) -> Result<Option<Items<Row>>, WriteFault>
        ensures sent { IfOk result (λ sent. sent ≡ last_sent self.now id) }
        ensures memory { IfErr result (λ fault. fault ≡ WriteFault.OutOfMemory) }
    {
        for entry in self.entries.as_slice() {
            if entry.id == id {
                return Ok(own_sent(alloc, entry)?);
            }
        }
        Ok(None)
    }
}

// A copy of the values of a dictionary, each as a row of one column, if it was sent.
fn own_sent(alloc: Global, entry: &KeptEntry) -> Result<Option<Items<Row>>, AllocError>
    ensures { IfOk result (λ sent. sent ≡ own_sent entry.now) }
{
    let Some(values) = &entry.values else {
        return Ok(None);
    };
    let rows = rows_of(alloc, values.as_slice())?;
    Ok(Some(Items::from_vec(rows)))
}

// An entry without values for each of these.
fn nothing_sent(alloc: Global, entries: &[TallyEntry]) -> Result<Vec<KeptEntry>, AllocError>
    ensures { IfOk result (λ kept. kept.items ≡ nothing_sent (tally_ids entries.now)) }
{
    let mut kept = Vec::with_capacity(alloc, entries.len())?;
    for entry in entries {
        kept.push(KeptEntry {
            id: entry.id,
            values: None,
            sent: 0,
        })?;
    }
    Ok(kept)
}
