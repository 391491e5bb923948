ghost use Rattle.std.specs.Prelude.{◌≡◌, ◌≤◌, ◌<◌, ℕ, length, map, List, [], IfOk, IfErr, IfSome};
ghost use Rattle.std.specs.Prelude.{IsTrue, MatchResult, OnOk, Some, slice_get, slice_index_or};
ghost use Rattle.std.specs.List.{AllByRecursion};
ghost use Rattle.ipc_model.specs.declared.value.Value.{Value};
ghost use Rattle.ipc_model.specs.Entries.{entries};
ghost use Rattle.ipc_column.specs.Contents.{layouts};
ghost use Rattle.ipc_column.specs.Nested.{only_column, found_columns, slot_values, with_children};
ghost use Rattle.ipc_column.specs.checks.Rules.{HasUtf8Texts, visits_in, total_slots};
ghost use Rattle.ipc_column.specs.Shapes.{field_columns, field_layout};
ghost use Rattle.ipc_column.specs.Rows.{Rows, RefusesParts, IsOneList};
ghost use Rattle.ipc_column.specs.DictionaryBatches.{AreDictionaries, IsDictionary};
ghost use Rattle.ipc_column.specs.DictionaryBatches.{dictionaries_in, dictionary_values};
ghost use Rattle.ipc_column.specs.Sharing.{contents_of, HasRows};
ghost use Rattle.ipc_column.specs.Lent.{AreOfColumn};
ghost use Rattle.ipc_column.specs.Cells.{cell_value};

use crate::assign::{Cursor, assign_buffers};
use crate::cell::{Cell, cell_in};
use crate::dictionary::{DictionaryValues, is_one_leaf, share_values};
use crate::head::check_head;
use crate::owned_rows::{read_row, read_value, rows_in};
use crate::ranges::ColumnRanges;
use crate::slot_view::{SlotView, slots_in};
use crate::validate::check_columns;
use crate::view::{ColumnView, view_in};
use ipc_meta::BatchHead;
use ipc_model::{Fault, Field, Items, Limits, Row, Value};
use std::alloc::{AllocError, Global};
use std::collections::BTreeMap;
use std::marker::Model;
use std::sync::Arc;

/// The rows of a record batch, read in place from its body.
///
/// Clones of a batch share one body.
#[derive(Debug, Drop)]
pub struct Batch {
    shared: Arc<Shared>,
}

// What the clones of a batch share.
#[derive(Debug, Drop)]
struct Shared {
    count: usize,
    parts: Vec<ColumnRanges>,
    body: Arc<Vec<u8>>,
    slot_tests: u64,
}

impl Model for Batch {
    ghost use Rattle.std.specs.Prelude.{length};
    ghost use Rattle.std.specs.Coded.{codes};
    ghost use Rattle.ipc_column.specs.contracts.ranges.ColumnRanges as ranges;
    ghost use Rattle.ipc_model.specs.contracts.value.Value as value;
    ghost use Rattle.ipc_column.specs.Contents.{Contents};

    ghost Value = { Contents };

    ghost coded = { Prim.hlevel (codes, ranges.the_row.coded, value.the_row.coded) };

    ghost use Rattle.ipc_column.specs.Sharing.{contents_of, HasRows};

    ghost view = { λ batch. contents_of batch.shared.value };

    ghost invariant = { λ batch. HasRows batch.shared.value };
}

// A batch of what its clones are to share.
fn share(alloc: Global, shared: Shared) -> Result<Batch, AllocError>
    requires { HasRows shared }
    ensures { IfOk result (λ batch. batch ≡ contents_of shared) }
{
    Ok(Batch {
        shared: Arc::new(alloc, shared)?,
    })
}

impl Clone for Batch {
    ghost use Rattle.std.specs.Prelude.{◌≡◌};

    ghost is_clone = { λ batch copy. copy ≡ batch };

    /// Returns a batch that shares the rows and the body. It takes no memory. It returns an error
    /// only if the reference count is at its maximum.
    fn clone(&self) -> Result<Batch, AllocError> {
        Ok(Batch {
            shared: self.shared.clone()?,
        })
    }
}

impl Batch {
    /// Validates the metadata and the body of a record batch for the fields of its schema, and
    /// returns its rows (Message.fbs, RecordBatch; Arrow Columnar Format, "RecordBatch message").
    ///
    /// The fields must be those of a schema that passes `Schema::check`. `dictionaries` maps ids to
    /// the dictionaries in force; each is a batch of one column that has no children and no
    /// dictionary. The batch keeps the dictionaries of its fields, even if they are replaced later.
    /// It does not keep the fields.
    ///
    /// A refusal is true of the input, which then has no rows. Errors:
    ///
    /// - F26 `WrongNodeCount` or F27 `WrongBufferCount`: the number of nodes or buffers is not the
    ///   number that the fields need.
    /// - F28 `BadNode` or F29 `BufferOutOfBody`, only if these numbers are right.
    /// - F30 `BufferTooShort`, F31 `BadNullCount` or F32 `BadOffsets`, only if lengths, null counts
    ///   and ranges of the metadata are also within their bounds.
    /// - F33 `ValueNotUtf8` or F34 `BadIndex`, only if the buffers are also long enough and the
    ///   offsets are in order.
    ///
    /// `OutOfMemory` is returned if memory for the columns, or for the block that clones share, ran
    /// out. It is also returned if the number of batches that share a dictionary is at its maximum.
    pub fn check(
        alloc: Global,
        limits: &Limits,
        fields: &[Field],
        head: BatchHead,
        body: Vec<u8>,
        dictionaries: &BTreeMap<i64, Arc<Batch>>,
    ) -> Result<Batch, Fault>
        requires dictionaries { AreDictionaries dictionaries.now }
        requires few { length (entries fields.now) ≤ limits.now.fields }
        // What is answered are the rows of the parts.
        ensures rows { IfOk result (λ batch. Rows limits.now (dictionaries_in dictionaries.now)
            fields.now head body.items batch.rows) }
        // Where the parts give rows, these are answered, unless memory runs out.
        ensures only { (rows : List (List Value))
            → Rows limits.now (dictionaries_in dictionaries.now) fields.now head body.items rows
            → MatchResult result (λ batch. batch.rows ≡ rows) (λ fault. fault ≡ Fault.OutOfMemory) }
        // A refusal is true of the parts.
        ensures refused { IfErr result
            (λ fault. RefusesParts limits.now fault (dictionaries_in dictionaries.now)
            fields.now head body.items) }
        ensures columns { IfOk result (λ batch. batch.columns ≡ length fields.now) }
        // Each column has the layout of its field's type.
        ensures layouts { IfOk result (λ batch. layouts batch ≡ map field_layout fields.now) }
        // Each column has, as its descendants have, the buffers that the head locates in the body.
        ensures buffers { IfOk result (λ batch. map with_children batch.slots
            ≡ found_columns (field_columns (dictionaries_in dictionaries.now) fields.now head
            body.items)) }
        ensures body { IfOk result (λ batch. batch.body_len ≡ length body.items) }
        // The batch keeps the body as it is.
        ensures bytes { IfOk result (λ batch. batch.body ≡ body.items) }
        // Only slots of texts and indices are visited, and slots of lists and structs that have a
        // validity bitmap and such descendants. Each is visited at most once.
        ensures visits { IfOk result
            (λ batch. batch.tests ≤ visits_in (field_columns (dictionaries_in dictionaries.now)
            fields.now head body.items)) }
        ensures tests { IfOk result (λ batch. batch.tests ≤ total_slots head.nodes) }
    {
        check_head(limits, fields, &head, body.len())?;
        let start = Cursor { node: 0, buffer: 0 };
        let (mut parts, _) = assign_buffers(alloc, fields, &head, dictionaries, start)?;
        let count = head.length.unsigned_abs() as usize;
        let slot_tests = check_columns(&body, &mut parts, count)?;
        let shared = Shared {
            count,
            parts,
            body: Arc::new(alloc, body)?,
            slot_tests,
        };
        Ok(share(alloc, shared)?)
    }

    /// Returns the number of rows.
    pub fn rows(&self) -> usize
        ensures { result ≡ length self.now.rows }
    {
        self.shared.count
    }

    /// Returns the number of columns.
    pub fn columns(&self) -> usize
        ensures count { result ≡ self.now.columns }
        // Each row has a value for each of them.
        ensures rows { AllByRecursion (λ row. length row ≡ result) self.now.rows }
    {
        self.shared.parts.len()
    }

    /// Returns the number of bytes of the body.
    pub fn body_len(&self) -> usize
        ensures { result ≡ self.now.body_len }
    {
        self.shared.body.len()
    }

    /// Returns the number of slot tests that `check` counted. A clause of `check` bounds it.
    pub fn tests(&self) -> u64
        ensures { result ≡ self.now.tests }
    {
        self.shared.slot_tests
    }

    /// Lends the value in a row and a column. `row` must be below `rows`, and `column` below
    /// `columns`.
    ///
    /// The column's field defines the meaning. Signed integers, dates, times, timestamps and
    /// durations are `Int`, in the field's unit; dates and timestamps count from 1970-01-01.
    /// Unsigned integers are `UInt`. Binary and fixed-size binary are `Bytes`. Lists and structs
    /// lend their own values.
    #[inline(always)]
    pub fn cell(&self, row: usize, column: usize) -> Cell<'_>
        requires row { row < length self.now.rows }
        requires column { column < self.now.columns }
        ensures { slice_get (slice_index_or self.now.rows row []) column
            ≡ Some (cell_value result) }
    {
        let shared = self.shared.as_ref();
        cell_in(
            shared.body.as_slice(),
            &shared.parts,
            shared.count,
            row,
            column,
        )
    }

    /// Returns the value in a row and a column as an owned value. `row` must be below `rows`, and
    /// `column` below `columns`. Returns an error if memory for the value ran out.
    pub fn read_cell(&self, alloc: Global, row: usize, column: usize) -> Result<Value, AllocError>
        requires row { row < length self.now.rows }
        requires column { column < self.now.columns }
        ensures { IfOk result
            (λ value. slice_get (slice_index_or self.now.rows row []) column ≡ Some value) }
    {
        let shared = self.shared.as_ref();
        let body = shared.body.as_slice();
        read_value(alloc, body, &shared.parts, shared.count, row, column)
    }

    /// Returns a column whose buffers are found once for all its rows. `column` must be below
    /// `columns`.
    ///
    /// Its `at` lends what `Batch::cell` lends, without finding the buffers again for each row.
    pub fn column(&self, column: usize) -> ColumnView<'_>
        requires { column < self.now.columns }
        ensures { AreOfColumn self.now.rows column result }
    {
        let shared = self.shared.as_ref();
        view_in(shared.body.as_slice(), &shared.parts, shared.count, column)
    }

    /// Returns the slots of a column and of its descendants, found once for all rows. `column` must
    /// be below `columns`.
    ///
    /// Use it to read a whole column: its numbers as they are laid out, or its lists and structs
    /// without a `Cell` for each.
    pub fn slots(&self, column: usize) -> SlotView<'_>
        requires { column < self.now.columns }
        // It is the column with this number, with its buffers in the body.
        ensures column { slice_get self.now.slots column ≡ Some result }
        ensures layout { slice_get (layouts self.now) column ≡ Some result.column.layout }
        ensures values { AreOfColumn self.now.rows column (slot_values result) }
        // Each text that they lead to is UTF-8.
        ensures texts { (i : ℕ) → i < length (slot_values result)
            → HasUtf8Texts (only_column result) i }
    {
        let shared = self.shared.as_ref();
        slots_in(shared.body.as_slice(), &shared.parts, shared.count, column)
    }

    /// Returns whether this may be a dictionary of other batches: it has one column, which has no
    /// children and no dictionary (Arrow Columnar Format, "Dictionary Messages").
    pub fn is_dictionary(&self) -> bool
        ensures yes { IsTrue result → IsDictionary self.now }
        ensures no { IsDictionary self.now → IsTrue result }
    {
        let shared = self.shared.as_ref();
        is_one_leaf(&shared.parts)
    }

    /// Returns the bytes of the body for other use, or `None`. The code returns `None` if the batch
    /// still has clones, or is the dictionary of another batch; no clause says so.
    pub fn into_body(self) -> Option<Vec<u8>>
        ensures len { IfSome result (λ body. length body.items ≡ self.body_len) }
        // They are the bytes that the batch was checked with.
        ensures bytes { IfSome result (λ body. body.items ≡ self.body) }
    {
        let Batch { shared } = self;
        match Arc::into_inner(shared) {
            Some(
                Shared {
                    count: _,
                    parts: _,
                    body,
                    slot_tests: _,
                },
            ) => Arc::into_inner(body),
            None => None,
        }
    }

    // The values of a dictionary, which a column of indices is to keep.
    pub(crate) fn dictionary_values(&self) -> Result<DictionaryValues, AllocError>
        requires { IsDictionary self.now }
        ensures { IfOk result (λ values. values ≡ dictionary_values self.now) }
    {
        let shared = self.shared.as_ref();
        share_values(&shared.body, &shared.parts, shared.count)
    }

    /// Returns the rows as owned values. Errors: `OutOfMemory`, if memory for the rows ran out.
    pub fn to_rows(&self, alloc: Global) -> Result<Items<Row>, Fault>
        ensures rows { IfOk result (λ rows. rows ≡ self.now.rows) }
        ensures memory { IfErr result (λ fault. fault ≡ Fault.OutOfMemory) }
    {
        let shared = self.shared.as_ref();
        let rows = rows_in(alloc, shared.body.as_slice(), &shared.parts, shared.count)?;
        Ok(rows)
    }

    /// Replaces all that `values` has by the values of one row, and uses its memory again. `row`
    /// must be below `rows`. Errors: `OutOfMemory`, if memory for the rows ran out; then the
    /// contents of `values` are unspecified.
    pub fn read_row(&self, alloc: Global, row: usize, values: &mut Vec<Value>) -> Result<(), Fault>
        requires { row < length self.now.rows }
        ensures values { OnOk result (values.new.items ≡ slice_index_or self.now.rows row []) }
        ensures memory { IfErr result (λ fault. fault ≡ Fault.OutOfMemory) }
    {
        let shared = self.shared.as_ref();
        read_row(
            alloc,
            shared.body.as_slice(),
            &shared.parts,
            shared.count,
            row,
            values,
        )?;
        Ok(())
    }
}

/// The law: the parts of a batch denote at most one list of rows.
pub fn one_list_of_rows()
    ensures { IsOneList }
{}
