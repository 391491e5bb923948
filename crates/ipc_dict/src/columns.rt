//! The sizes of dictionaries, as the columns in which they are sent.
ghost use Rattle.std.specs.Prelude.{◌≡◌, List, [], length, Some, IfOk, IfErr, OnOk, OnErr, ◌⊎◌};
ghost use Rattle.ipc_model.specs.declared.schema.Field.{Field};
ghost use Rattle.ipc_encode.specs.ColumnSizes.{CountsRows};
ghost use Rattle.ipc_encode.specs.Faults.{write_fault};
ghost use Rattle.ipc_encode.specs.Limits.{AreColumnsTooLong};
ghost use Rattle.ipc_dict_read.specs.ValuesColumns.{columns_for, IsOneColumn};
ghost use Rattle.ipc_dict.specs.declared.entry.TallyEntry.{TallyEntry};
ghost use Rattle.ipc_dict.specs.EntryColumns.{AllCounted, AreEntriesCounted};
ghost use Rattle.ipc_dict.specs.Noting.{truncated_tally};
ghost use Rattle.ipc_dict.specs.SchemaIds.{empty_entries};
ghost use Rattle.ipc_dict.specs.Within.{IsOverLimit};

use crate::entry::TallyEntry;
use ipc_dict_read::Dictionaries;
use ipc_encode::{ColumnSizes, PushFault};
use ipc_model::{Limits, Schema, WriteFault};
use std::alloc::Global;
use std::mem;

/// The sizes of the columns in which dictionaries are sent, parallel to the entries of a tally.
#[derive(Debug, Drop)]
pub(crate) struct EntryColumns {
    pub(crate) limits: Limits,
    pub(crate) sizes: Vec<ColumnSizes>,
    // The sizes with the next row's values while they are counted, and after that the sizes from
    // before that row. After an error they have no meaning.
    pub(crate) next: Vec<ColumnSizes>,
}

impl EntryColumns {
    /// Creates the columns of these entries, which have no values yet.
    ///
    /// Errors: W6 `TooLong` if the column without values already exceeds `limits.body`; W11
    /// `OutOfMemory` if memory for the columns ran out.
    pub(crate) fn new(
        alloc: Global,
        limits: &Limits,
        schema: &Schema,
        entries: &[TallyEntry],
    ) -> Result<EntryColumns, WriteFault>
        requires { entries.now ≡ empty_entries schema.now.fields }
        ensures counted { IfOk result (AreEntriesCounted schema.now.fields entries.now) }
        ensures limits { IfOk result (λ columns. columns.limits ≡ limits.now) }
        ensures over { IfErr result (λ fault. fault ≡ WriteFault.TooLong
            → IsOverLimit limits.now schema.now.fields entries.now fault) }
        ensures only { IfErr result
            (λ fault. (fault ≡ WriteFault.TooLong) ⊎ (fault ≡ WriteFault.OutOfMemory)) }
    {
        let Ok(dictionaries) = Dictionaries::new(alloc, schema) else {
            return Err(WriteFault::OutOfMemory);
        };
        let mut sizes = Vec::with_capacity(alloc, entries.len())?;
        let mut next = Vec::with_capacity(alloc, entries.len())?;
        for entry in entries {
            let column = fresh_column(&dictionaries, entry, limits)?;
            sizes.push(column)?;
            next.push(column)?;
        }
        Ok(EntryColumns {
            limits: *limits,
            sizes,
            next,
        })
    }

    /// Counts the values of each entry after the first `marks[i]`, which are already counted. After
    /// an error the columns are unchanged.
    ///
    /// Errors: `TooLong` or `TooMany` if an entry's values exceed the limits of a column.
    pub(crate) fn count(&mut self, entries: &[TallyEntry], marks: &[usize]) -> Result<(), PushFault>
        requires columns { length self.old.sizes.items ≡ length entries.now }
        requires room { length self.old.next.items ≡ length entries.now }
        requires marks { length marks.now ≡ length entries.now }
        ensures counted { (fields : List Field)
            → AreEntriesCounted fields (truncated_tally marks.now entries.now) self.old
            → OnOk result (AreEntriesCounted fields entries.now self.new) }
        ensures refused { (fields : List Field)
            → AreEntriesCounted fields (truncated_tally marks.now entries.now) self.old
            → IfErr result (λ fault.
            IsOverLimit self.old.limits fields entries.now (write_fault fault)) }
        ensures kept { (fields : List Field) (others : List TallyEntry)
            → AreEntriesCounted fields others self.old
            → OnErr result (AreEntriesCounted fields others self.new) }
        ensures before { OnOk result (self.new.next.items ≡ self.old.sizes.items) }
        ensures limits { self.new.limits ≡ self.old.limits }
    {
        count_next(&mut self.next, &self.sizes, entries, marks, &self.limits)?;
        mem::swap(&mut self.sizes, &mut self.next);
        Ok(())
    }

    /// Undoes the last call of `count`, which succeeded.
    pub(crate) fn take_back(&mut self)
        ensures { self.new ≡ record self.old { sizes = self.old.next; next = self.old.sizes } }
    {
        mem::swap(&mut self.sizes, &mut self.next);
    }
}

// The numbers of the entry's column without values.
fn fresh_column(
    dictionaries: &Dictionaries,
    entry: &TallyEntry,
    limits: &Limits,
) -> Result<ColumnSizes, PushFault>
    requires { (columns : List Field)
        × ((columns_for dictionaries.now.columns entry.now.id ≡ Some columns)
        × IsOneColumn columns) }
    ensures counted { (columns : List Field)
        → columns_for dictionaries.now.columns entry.now.id ≡ Some columns
        → IfOk result (CountsRows limits.now columns []) }
    ensures refused { (columns : List Field)
        → columns_for dictionaries.now.columns entry.now.id ≡ Some columns
        → IfErr result
        (λ fault. (fault ≡ PushFault.TooLong) × AreColumnsTooLong limits.now columns []) }
{
    let Some(columns) = dictionaries.fields_of(entry.id) else {
        unreachable!();
    };
    let Some(column) = columns.as_slice().first() else {
        unreachable!();
    };
    ColumnSizes::new(column, limits)
}

// The sizes of each column with the values after those that are already counted.
fn count_next(
    next: &mut [ColumnSizes],
    before: &[ColumnSizes],
    entries: &[TallyEntry],
    marks: &[usize],
    limits: &Limits,
) -> Result<(), PushFault>
    requires columns { length before.now ≡ length entries.now }
    requires room { length next.old ≡ length entries.now }
    requires marks { length marks.now ≡ length entries.now }
    ensures counted { (fields : List Field)
        → AllCounted limits.now fields (truncated_tally marks.now entries.now) before.now
        → OnOk result (AllCounted limits.now fields entries.now next.new) }
    ensures refused { (fields : List Field)
        → AllCounted limits.now fields (truncated_tally marks.now entries.now) before.now
        → IfErr result (λ fault.
        IsOverLimit limits.now fields entries.now (write_fault fault)) }
{
    for (i, entry) in entries.iter().enumerate() {
        let mark = marks[i];
        next[i] = before[i].with(entry.values.since(mark), limits)?;
    }
    Ok(())
}
