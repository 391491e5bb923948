//! What the messages of a stream do to its scope. `Scope` has a file of its own, with none of the
//! definitions that are named here, because they name it.
ghost use Rattle.std.specs.Prelude.{◌≡◌, IfOk, IfErr, Some, length};
ghost use Rattle.ipc_model.specs.WellFormed.{WellFormed};
ghost use Rattle.ipc_column.specs.DictionaryBatches.{IsDictionary};
ghost use Rattle.ipc_column.specs.Rows.{RefusesParts, Rows};
ghost use Rattle.ipc_stream_read.specs.StreamStates.{GivesValues, RefusesValues, SetsValues};
ghost use Rattle.ipc_stream_read.specs.Decoding.{dictionary_bytes};
ghost use Rattle.ipc_stream_read.specs.ReadBatches.{IsCheckedBatch};
ghost use Rattle.ipc_stream_read.specs.Scopes.{in_scope, state_of};
ghost use Rattle.ipc_stream_read.specs.Stream.{initial_state, values_in_force};

use crate::scope::Scope;
use ipc_column::Batch;
use ipc_dict_read::Dictionaries;
use ipc_meta::BatchHead;
use ipc_model::{Fault, Limits, Schema};
use std::alloc::Global;
use std::collections::BTreeMap;

impl Scope {
    /// Returns what a schema puts in force under these limits: no dictionary yet.
    ///
    /// Errors: `OutOfMemory` only.
    pub fn new(alloc: Global, limits: Limits, schema: Schema) -> Result<Scope, Fault>
        requires { WellFormed limits schema }
        ensures begins { IfOk result (λ scope. in_scope scope ≡ initial_state schema) }
        ensures limits { IfOk result (λ scope. scope.limits ≡ limits) }
        ensures memory { IfErr result (λ fault. fault ≡ Fault.OutOfMemory) }
    {
        let dictionaries = Dictionaries::new(alloc, &schema)?;
        Ok(Scope {
            limits,
            schema,
            dictionaries,
        })
    }

    /// Returns the batch that a head and a body give under the dictionaries in force.
    ///
    /// Errors: those of `Batch::check`.
    pub fn read_batch(&self, alloc: Global, head: BatchHead, body: Vec<u8>) -> Result<Batch, Fault>
        ensures rows { IfOk result (λ batch. Rows self.now.limits
            (values_in_force (in_scope self.now).dictionaries)
            self.now.schema.fields head body.items batch.rows) }
        ensures refused { IfErr result (λ fault. RefusesParts self.now.limits fault
            (values_in_force (in_scope self.now).dictionaries) self.now.schema.fields head
            body.items) }
        ensures columns { IfOk result (λ batch. batch.columns ≡ length self.now.schema.fields) }
        // The batch has the buffers that the head locates in the body, and keeps the body.
        ensures checked { IfOk result (λ batch. IsCheckedBatch
            (values_in_force (in_scope self.now).dictionaries) self.now.schema.fields head
            body.items batch) }
    {
        Batch::check(
            alloc,
            &self.limits,
            self.schema.fields.as_slice(),
            head,
            body,
            self.dictionaries.current(),
        )
    }

    // The values that a head and a body give for the dictionary with the id, by its one column.
    // Refused with `UnknownDictionary` where no field names it, else as `Batch::check` says.
    fn read_values(
        &self,
        alloc: Global,
        id: i64,
        head: BatchHead,
        body: Vec<u8>,
    ) -> Result<Batch, Fault>
        ensures values { IfOk result (λ batch. GivesValues self.now.limits (in_scope self.now) id
            head body.items batch) }
        ensures dictionary { IfOk result (λ batch. IsDictionary batch) }
        ensures refused { IfErr result (λ fault. RefusesValues self.now.limits (in_scope self.now)
            id head body.items fault) }
    {
        let Some(columns) = self.dictionaries.fields_of(id) else {
            return Err(Fault::UnknownDictionary);
        };
        let none = BTreeMap::new(alloc);
        Batch::check(alloc, &self.limits, columns.as_slice(), head, body, &none)
    }

    /// Sets the dictionary with the id to the values that a head and a body give, in place of the
    /// earlier ones.
    ///
    /// Errors: `UnknownDictionary` if no field names the dictionary; those of `Batch::check`;
    /// `OutOfMemory`. After an error nothing has changed.
    pub fn set(
        &mut self,
        alloc: Global,
        id: i64,
        head: BatchHead,
        body: Vec<u8>,
    ) -> Result<(), Fault>
        ensures sets { SetsValues self.old.limits (in_scope self.old) (in_scope self.new) id head
            body.items result }
        ensures limits { self.new.limits ≡ self.old.limits }
    {
        let values = self.read_values(alloc, id, head, body)?;
        self.dictionaries.apply(alloc, id, values)
    }

    /// Returns the sum of the lengths of the bodies that set the dictionaries.
    pub fn held(&self) -> usize
        ensures { result ≡ dictionary_bytes (state_of (Some self.now)) }
    {
        self.dictionaries.held()
    }

    /// Returns the schema alone.
    pub fn into_schema(self) -> Schema
        ensures { result ≡ self.schema }
    {
        let Scope {
            limits: _,
            schema,
            dictionaries: _,
        } = self;
        schema
    }
}
