//! The dictionaries that a reader has in force.
ghost use Rattle.std.specs.Prelude.{◌≡◌, [], IfOk, IfErr, OnOk, OnErr, option_copied};
ghost use Rattle.ipc_column.specs.DictionaryBatches.{AreDictionaries, IsDictionary};
ghost use Rattle.ipc_dict_read.specs.InForce.{put, in_force, total, body_len_of};
ghost use Rattle.ipc_dict_read.specs.ValuesColumns.{dictionary_columns, columns_for};

use crate::values_columns::collect_columns;
use ipc_column::Batch;
use ipc_model::{Fault, Field, Items, Schema};
use std::alloc::Global;
use std::collections::BTreeMap;
use std::marker::Model;
use std::sync::Arc;

/// The dictionaries in force while a stream is read. For each id that was set it has the values,
/// which are a batch of one column (Arrow Columnar Format, "Dictionary Messages"). It also has the
/// column by which each dictionary of the schema is read.
///
/// Contracts describe the values in force as the list of the ids, each with its values, in the
/// order of the ids.
#[derive(Debug, Drop)]
pub struct Dictionaries {
    columns: Vec<(i64, Items<Field>)>,
    current: BTreeMap<i64, Arc<Batch>>,
    held: usize,
}

impl Model for Dictionaries {
    ghost use Rattle.std.specs.Coded.{codes};
    ghost use Rattle.ipc_model.specs.contracts.schema.Field as field;
    ghost use Rattle.ipc_column.specs.contracts.batch.Batch as batch;
    ghost use Rattle.ipc_dict_read.specs.DictionariesState.{DictionariesState};
    ghost use Rattle.ipc_dict_read.specs.InForce.{in_force, IsKept};

    ghost Value = { DictionariesState };

    ghost coded = { Prim.hlevel (codes, field.the_row.coded, batch.the_row.coded) };

    ghost view = { λ d. record { columns = d.columns.items; current = in_force d.current } };

    ghost invariant = { λ d. IsKept d.current d.held };
}

impl Dictionaries {
    /// Creates the dictionaries at the beginning of a stream of this schema: none is in force.
    /// The map of the values takes memory from `alloc`.
    ///
    /// The schema must pass `Schema::check`: then the values of a dictionary have no children, and
    /// the fields with one dictionary id have values of one type. Errors: `OutOfMemory` if memory
    /// for the columns of the dictionaries ran out.
    pub fn new(alloc: Global, schema: &Schema) -> Result<Dictionaries, Fault>
        ensures none { IfOk result (λ dictionaries. dictionaries ≡ record {
          columns = dictionary_columns schema.now.fields;
          current = [];
        }) }
        ensures memory { IfErr result (λ fault. fault ≡ Fault.OutOfMemory) }
    {
        let mut columns = Vec::new(alloc);
        collect_columns(alloc, &mut columns, schema.fields.as_slice())?;
        Ok(Dictionaries {
            columns,
            current: BTreeMap::new(alloc),
            held: 0,
        })
    }

    /// Returns the one column by which the values of the dictionary with this id are read, or
    /// `None` if no field names the dictionary. It takes no memory.
    ///
    /// The column has the name and the type of the first field in pre-order that names the
    /// dictionary. Its values may be null, and it has no dictionary, children or pairs. The field's
    /// type is that of the values (Schema.fbs, table Field, `dictionary`), and a dictionary batch
    /// has one column (Arrow Columnar Format, "Dictionary Messages").
    pub fn fields_of(&self, id: i64) -> Option<&Items<Field>>
        ensures { option_copied result ≡ columns_for self.now.columns id }
    {
        columns_at(&self.columns, id)
    }

    /// Returns the values in force, by the id of their dictionary. A batch with columns of indices
    /// is validated against them. It takes no memory.
    pub fn current(&self) -> &BTreeMap<i64, Arc<Batch>>
        ensures current { in_force result.now ≡ self.now.current }
        // Each of them is a batch of one column, which is no list, no struct and no column of
        // indices.
        ensures dictionaries { AreDictionaries result.now }
    {
        &self.current
    }

    /// Returns the sum of the lengths of the bodies in force, one for each id. A replaced batch
    /// does not count.
    pub fn held(&self) -> usize
        ensures { result ≡ total self.now.current }
    {
        self.held
    }

    /// Sets the values of the dictionary with this id. They replace its earlier values, if there
    /// were any (Arrow Columnar Format, "Dictionary Messages"). A batch that was read before keeps
    /// the values that it was read with.
    ///
    /// The values must be a batch that was validated as one column of the type of the id's fields,
    /// without dictionaries: then the column has no children and no dictionary. Errors:
    /// `OutOfMemory` if memory ran out, or if the bodies together had more than 2^64 - 1 bytes.
    /// Then nothing has changed.
    pub fn apply(&mut self, alloc: Global, id: i64, values: Batch) -> Result<(), Fault>
        requires { IsDictionary values }
        ensures after { OnOk result (self.new ≡ record self.old {
          current = put self.old.current id values;
        }) }
        ensures err { OnErr result (self.new ≡ self.old) }
        ensures memory { IfErr result (λ fault. fault ≡ Fault.OutOfMemory) }
    {
        let before = body_at(&self.current, id);
        let Some(held) = (self.held - before).checked_add(values.body_len()) else {
            return Err(Fault::OutOfMemory);
        };
        let shared = Arc::new(alloc, values)?;
        self.current.insert(id, shared)?;
        self.held = held;
        Ok(())
    }
}

// How many bytes the body in force for the id has.
fn body_at(current: &BTreeMap<i64, Arc<Batch>>, id: i64) -> usize
    ensures { result ≡ body_len_of (in_force current.now) id }
{
    match current.get(&id) {
        Some(values) => values.body_len(),
        None => 0,
    }
}

// The columns of the first entry with the id.
fn columns_at(columns: &[(i64, Items<Field>)], id: i64) -> Option<&Items<Field>>
    ensures { option_copied result ≡ columns_for columns.now id }
{
    for entry in columns {
        if entry.0 == id {
            return Some(&entry.1);
        }
    }
    None
}
