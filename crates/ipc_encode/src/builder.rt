//! Builds a record batch from rows.
ghost use Rattle.std.specs.List.{AllByRecursion};
ghost use Rattle.std.specs.Prelude.{◌≡◌, ◌≤◌, ◌<◌, ◌↔◌, ◌++◌, List, [], ◌∷◌, pos, length, IsTrue};
ghost use Rattle.std.specs.Prelude.{Err, IfOk, IfErr, OnErr, OnOk, false};
ghost use Rattle.ipc_model.specs.Entries.{entries};
ghost use Rattle.ipc_model.specs.Fits.{RowFits};
ghost use Rattle.ipc_model.specs.WellFormed.{IsFieldWellFormed};
ghost use Rattle.ipc_model.specs.declared.limits.Limits.{Limits};
ghost use Rattle.ipc_model.specs.declared.schema.Field.{Field};
ghost use Rattle.ipc_model.specs.declared.value.Value.{Value};
ghost use Rattle.ipc_column.specs.Dictionaries.{Dictionaries};
ghost use Rattle.ipc_column.specs.Rows.{Rows};
ghost use Rattle.ipc_column.specs.Shapes.{Shape, node_count, shape_of};
ghost use Rattle.ipc_encode.specs.Buffers.{AreLaidOut, row_columns};
ghost use Rattle.ipc_encode.specs.Built.{AreShares, HasFailed, HoldColumns, BeginsWithRows};
ghost use Rattle.ipc_encode.specs.Built.{HoldsAgreeing, HoldsRows, KeepsRows, RefusesRowMore};
ghost use Rattle.ipc_encode.specs.Built.{StoresRowMore, StoresRows};
ghost use Rattle.ipc_encode.specs.Faults.{write_fault};
ghost use Rattle.ipc_encode.specs.Indices.{FindsRows};
ghost use Rattle.ipc_encode.specs.Limits.{AreRowsRefused, AreColumnsTooLong, IsWithin};
ghost use Rattle.ipc_encode.specs.Numbers.{Numbering, new_indices, known_indices};
ghost use Rattle.ipc_encode.specs.Segments.{AreSegmented, bytes_of_segments};

use crate::built_columns::add_nodes;
use crate::cut::cut_nodes;
use crate::fault::PushFault;
use crate::fitting::{column_count, remaining_all, shares};
use crate::index::{IndexOf, Renumber, SameNumbers};
use crate::parts::Parts;
use crate::pool::BufferPool;
use crate::segments::{Draft, SegmentedParts};
use crate::tree::{Node, append_parts, new_nodes};
use ipc_model::{Field, Limits, Row, Value, WriteFault};
use std::alloc::Global;

/// Builds a record batch from rows, one at a time (Message.fbs, RecordBatch).
///
/// A builder has the growing buffers of each column, in a tree of the fields' shape. Its contracts
/// describe it by the rows that it holds: `new` has none, `push` adds one, and `finish` returns the
/// parts of all.
#[derive(Debug, Drop)]
pub struct Builder {
    nodes: Vec<Node>,
    rows: usize,
    limits: Limits,
    // What each column keeps to: the limits, or a share of them with which no body is too long.
    bounds: Limits,
    is_shared: bool,
    failed: bool,
}

// Whether the buffers of the columns are within a body.
fn check_len(nodes: &[Node], limits: &Limits) -> Result<(), WriteFault>
    ensures within { (known : Numbering) (fields : List Field) (rows : List (List Value))
        → HoldColumns known limits.now (shape_of fields) nodes.now (row_columns rows)
        → OnOk result (¬ AreColumnsTooLong limits.now fields rows) }
    ensures refused { (known : Numbering) (fields : List Field) (rows : List (List Value))
        → HoldColumns known limits.now (shape_of fields) nodes.now (row_columns rows)
        → IfErr result (λ fault. (fault ≡ WriteFault.TooLong)
        × AreColumnsTooLong limits.now fields rows) }
{
    match remaining_all(nodes, limits.body) {
        Some(_) => Ok(()),
        None => Err(WriteFault::TooLong),
    }
}

// Returns what each of these columns may have, and whether no body is too long with that.
fn bounds_of(nodes: &[Node], limits: &Limits) -> (Limits, bool)
    ensures few { result.0.slots ≤ limits.now.slots }
    ensures less { result.0.body ≤ limits.now.body }
    ensures shared { (known : Numbering) (kept : Limits) (shape : Shape)
        → HoldColumns known kept shape nodes.now (λ j. [])
        → IsTrue result.1 → AreShares limits.now (node_count shape) result.0 }
{
    let Some(columns) = column_count(nodes) else {
        return (*limits, false);
    };
    match shares(limits, columns) {
        Some(bounds) => (bounds, true),
        None => (*limits, false),
    }
}

impl Builder {
    /// Creates a builder without rows. The fields must be those of a schema that passes
    /// `Schema::check`.
    ///
    /// Errors: W6 `TooLong` if the buffers of zero rows already have more than `limits.body` bytes;
    /// W11 `OutOfMemory` if memory for a buffer ran out.
    pub fn new(alloc: Global, fields: &[Field], limits: &Limits) -> Result<Builder, WriteFault>
        ensures rows { (known : Numbering) → IfOk result
            (StoresRows known limits.now fields.now []) }
        ensures refused { IfErr result (AreRowsRefused limits.now fields.now []) }
    {
        Builder::with_pool(alloc, &mut BufferPool::new(alloc), fields, limits)
    }

    /// Creates a builder without rows in memory from a pool.
    ///
    /// The requirements and the errors are those of `Builder::new`.
    pub fn with_pool(
        alloc: Global,
        pool: &mut BufferPool,
        fields: &[Field],
        limits: &Limits,
    ) -> Result<Builder, WriteFault>
        ensures rows { (known : Numbering) → IfOk result
            (StoresRows known limits.now fields.now []) }
        ensures refused { IfErr result (AreRowsRefused limits.now fields.now []) }
    {
        let nodes = new_nodes(fields, pool, alloc)?;
        check_len(&nodes, limits)?;
        let (bounds, is_shared) = bounds_of(&nodes, limits);
        Ok(Builder {
            nodes,
            rows: 0,
            limits: *limits,
            bounds,
            is_shared,
            failed: false,
        })
    }

    /// Returns the number of rows that are held.
    pub fn row_count(&self) -> usize
        ensures { (known : Numbering) (limits : Limits) (fields : List Field)
            (rows : List (List Value))
            → StoresRows known limits fields rows self.now → result ≡ length rows }
    {
        self.rows
    }

    // Appends a row to the columns. Returns true only if it fits the fields. After any error but
    // `OutOfMemory` nothing of it is left.
    #[inline(always)]
    fn append<I: IndexOf>(
        &mut self,
        fields: &[Field],
        row: &[Value],
        indices: &I,
    ) -> Result<bool, PushFault>
        requires { self.old.rows < self.old.limits.slots }
        ensures appended { (limits : Limits) (fields : List Field) (rows : List (List Value))
            → HoldsRows (known_indices (I.index indices.now)) limits fields rows self.old
            → OnOk result (HoldsRows (known_indices (I.index indices.now)) limits fields
            (rows ++ row.now ∷ []) self.new) }
        ensures fits { IfOk result (λ all. IsTrue all → RowFits fields.now row.now) }
        ensures refused { (limits : Limits) (fields : List Field) (rows : List (List Value))
            → HoldsRows (known_indices (I.index indices.now)) limits fields rows self.old
            → IfErr result (λ fault. AreRowsRefused self.old.bounds fields
            (rows ++ row.now ∷ []) (write_fault fault)) }
        ensures kept { (limits : Limits) (fields : List Field) (rows : List (List Value))
            → HoldsRows (known_indices (I.index indices.now)) limits fields rows self.old
            → IfErr result (λ fault. ¬ (fault ≡ PushFault.OutOfMemory)
            → HoldsRows (known_indices (I.index indices.now)) limits fields rows self.new) }
        ensures fails { IfErr result
            (λ fault. fault ≡ PushFault.OutOfMemory → HasFailed self.new) }
        ensures count { OnErr result (self.new.rows ≡ self.old.rows) }
        ensures limits { self.new.limits ≡ self.old.limits }
        ensures bounds { self.new.bounds ≡ self.old.bounds }
        ensures shared { self.new.is_shared ≡ self.old.is_shared }
    {
        self.failed = true;
        match append_parts(row, &mut self.nodes, fields, &self.bounds, indices) {
            Ok(all) => {
                self.rows += 1;
                self.failed = false;
                Ok(all)
            }
            Err(PushFault::OutOfMemory) => Err(PushFault::OutOfMemory),
            Err(fault) => {
                self.cut_row();
                Err(fault)
            }
        }
    }

    // Drops what columns have of a row that was refused.
    #[cold]
    #[inline(never)]
    fn cut_row(&mut self)
        ensures rows { (known : Numbering) (limits : Limits) (fields : List Field)
            (rows : List (List Value))
            → BeginsWithRows known limits fields rows self.old
            → HoldsRows known limits fields rows self.new }
        ensures count { self.new.rows ≡ self.old.rows }
        ensures limits { self.new.limits ≡ self.old.limits }
        ensures bounds { self.new.bounds ≡ self.old.bounds }
        ensures shared { self.new.is_shared ≡ self.old.is_shared }
    {
        cut_nodes(&mut self.nodes, self.rows);
        self.failed = false;
    }

    // Lets the columns have all that the limits allow. From then on the lengths of the buffers
    // decide whether a row is within a body.
    fn unshare(&mut self)
        ensures { self.new ≡ record self.old { bounds = self.old.limits; is_shared = false } }
    {
        self.bounds = self.limits;
        self.is_shared = false;
    }

    /// Appends one row. For each value other than null in a field with a dictionary it looks up the
    /// index, or writes 0 if it has none. Each index must fit the field's index type.
    ///
    /// `fields` must be those of the builder. Returns true only if the row fits them, as `conforms`
    /// defines it. If it returns false the row is appended too, so test it by `conforms`, and drop
    /// it by `pop` if it does not fit.
    ///
    /// Errors, where after W6 and W8 the rows are as before the call:
    ///
    /// - W8 `TooMany`: there would be more than `limits.slots` rows, or more than `limits.slots`
    ///   items in all lists of a column.
    /// - W6 `TooLong`: a binary or UTF-8 column would have more than 2^31 - 1 bytes of data,
    ///   whatever the limits, or the body more than `limits.body` bytes.
    /// - W11 `OutOfMemory`: memory for a buffer ran out. The builder has failed.
    /// - W10 `Failed`: the call comes after W11.
    #[inline(always)]
    pub fn push<I: IndexOf>(
        &mut self,
        fields: &[Field],
        row: &[Value],
        indices: &I,
    ) -> Result<bool, PushFault>
        ensures pushed { StoresRowMore (known_indices (I.index indices.now)) row.now
            self.old self.new result }
        ensures fits { IfOk result (λ all. IsTrue all → RowFits fields.now row.now) }
        ensures refused { RefusesRowMore (known_indices (I.index indices.now)) row.now
            self.old result }
        ensures kept { KeepsRows (known_indices (I.index indices.now)) self.old self.new result }
        ensures fails { IfErr result
            (λ fault. fault ≡ PushFault.OutOfMemory → HasFailed self.new) }
        ensures failed { HasFailed self.old → result ≡ Err PushFault.Failed }
    {
        if self.failed {
            return Err(PushFault::Failed);
        }
        if self.rows >= self.limits.slots as usize {
            return Err(PushFault::TooMany);
        }
        if !self.is_shared {
            return self.push_exactly(fields, row, indices);
        }
        match self.append(fields, row, indices) {
            Ok(all) => Ok(all),
            Err(PushFault::OutOfMemory) => Err(PushFault::OutOfMemory),
            Err(_) => self.push_exactly(fields, row, indices),
        }
    }

    // Appends a row, if the lengths of all buffers are then within a body.
    #[cold]
    #[inline(never)]
    fn push_exactly<I: IndexOf>(
        &mut self,
        fields: &[Field],
        row: &[Value],
        indices: &I,
    ) -> Result<bool, PushFault>
        requires { self.old.rows < self.old.limits.slots }
        ensures pushed { StoresRowMore (known_indices (I.index indices.now)) row.now
            self.old self.new result }
        ensures fits { IfOk result (λ all. IsTrue all → RowFits fields.now row.now) }
        ensures refused { RefusesRowMore (known_indices (I.index indices.now)) row.now
            self.old result }
        ensures kept { KeepsRows (known_indices (I.index indices.now)) self.old self.new result }
        ensures fails { IfErr result
            (λ fault. fault ≡ PushFault.OutOfMemory → HasFailed self.new) }
    {
        self.unshare();
        let rows = self.rows;
        let all = self.append(fields, row, indices)?;
        match check_len(&self.nodes, &self.limits) {
            Ok(()) => Ok(all),
            Err(_) => {
                self.rows = rows;
                self.cut_row();
                Err(PushFault::TooLong)
            }
        }
    }

    /// Drops the last row. A builder that has failed stays failed. It takes no memory.
    pub fn pop(&mut self)
        ensures rows { (known : Numbering) (limits : Limits) (fields : List Field)
            (rows : List (List Value)) (row : List Value)
            → StoresRows known limits fields (rows ++ row ∷ []) self.old
            → StoresRows known limits fields rows self.new }
        ensures failed { HasFailed self.old → HasFailed self.new }
    {
        if self.failed {
            return;
        }
        self.rows = self.rows.saturating_sub(1);
        self.cut_row();
    }

    /// Returns the parts of the rows. Each index under which a value was pushed is replaced by its
    /// number in `numbers`, which must fit the field's index type.
    ///
    /// Errors: W11 `OutOfMemory` if memory for a buffer ran out; W10 `Failed` after an error of
    /// `push`.
    pub fn finish<'a, N: Renumber>(self, numbers: &N) -> Result<SegmentedParts<'a>, WriteFault>
        // The parts give the rows back under each map in which the numbers find their values.
        ensures rows { (known : Numbering) (limits : Limits) (fields : List Field)
            (rows : List (List Value)) (m : Dictionaries)
            → StoresRows known limits fields rows self
            → AllByRecursion (IsFieldWellFormed limits) (entries fields)
            → AllByRecursion (RowFits fields) rows
            → FindsRows m (new_indices (N.number numbers.now) known) fields rows
            → IfOk result (λ parts. Rows limits m fields (record {
              length = pos (length rows);
              nodes = parts.nodes;
              buffers = parts.buffers;
            }) (bytes_of_segments parts.segments.items) rows) }
        ensures segmented { (known : Numbering) (limits : Limits) (fields : List Field)
            (rows : List (List Value)) → StoresRows known limits fields rows self
            → IfOk result
            (AreSegmented (new_indices (N.number numbers.now) known) fields rows) }
        ensures body { (known : Numbering) (limits : Limits) (fields : List Field)
            (rows : List (List Value)) → StoresRows known limits fields rows self
            → IfOk result (λ parts. parts.len ≤ limits.body) }
        ensures refused { (known : Numbering) (limits : Limits) (fields : List Field)
            (rows : List (List Value)) → StoresRows known limits fields rows self
            → IfErr result (λ fault. fault ≡ WriteFault.OutOfMemory) }
        ensures failed { HasFailed self → result ≡ Err WriteFault.Failed }
    {
        let Builder {
            mut nodes,
            limits,
            failed,
            ..
        } = self;
        if failed {
            return Err(WriteFault::Failed);
        }
        let mut draft = Draft::new(*nodes.allocator());
        add_nodes(&mut draft, &mut nodes, numbers, &limits)?;
        Ok(draft.finish())
    }
}

/// The law: the rows that a builder holds do not depend on the indices, if these agree on the rows'
/// values.
pub fn holds_agreeing()
    ensures { HoldsAgreeing }
{}

/// Encodes rows as the parts of one record batch (Message.fbs, RecordBatch; Arrow Columnar Format,
/// "RecordBatch message").
///
/// For each value other than null in a field with a dictionary, the index from `indices` is
/// written, or 0 if it has none. The parts give the rows back if the fields are those of a schema
/// that passes `Schema::check`, the rows fit them, and each index fits the field's index type.
///
/// Buffers are in the order of the fields, those of a field's children directly after its own. Each
/// is padded with zeros to a multiple of 8 bytes, and its length is without the padding. There is a
/// validity bitmap only if a value is null. A null slot is zeros, false or an empty range, and
/// offsets begin at 0. A null struct has a null in each child.
///
/// Errors:
///
/// - W8 `TooManyRows`: there are more than `limits.slots` rows, or more than `limits.slots` items
///   in all lists of a column.
/// - W6 `TooLong`: a binary or UTF-8 column has more than 2^31 - 1 bytes of data, whatever the
///   limits; or the body would have more than `limits.body` bytes.
/// - W11 `OutOfMemory`: memory for a buffer ran out.
pub fn encode<I: IndexOf>(
    alloc: Global,
    limits: &Limits,
    fields: &[Field],
    rows: &[Row],
    indices: &I,
) -> Result<Parts, WriteFault>
    // The parts give these rows back under each map in which the indices find their values.
    ensures rows { (m : Dictionaries)
        → AllByRecursion (IsFieldWellFormed limits.now) (entries fields.now)
        → AllByRecursion (RowFits fields.now) rows.now
        → FindsRows m (known_indices (I.index indices.now)) fields.now rows.now
        → IfOk result (λ parts. Rows limits.now m fields.now (record {
          length = pos (length rows.now);
          nodes = parts.nodes;
          buffers = parts.buffers;
        }) parts.body.items rows.now) }
    // They are one list of nodes, buffers and bytes.
    ensures laid_out { IfOk result
        (AreLaidOut (known_indices (I.index indices.now)) fields.now rows.now) }
    // What is written is within the limits.
    ensures within { IfOk result (λ parts. IsWithin limits.now fields.now rows.now) }
    ensures body { IfOk result (λ parts. length parts.body.items ≤ limits.now.body) }
    // A refusal is true of the rows.
    ensures refused { IfErr result (AreRowsRefused limits.now fields.now rows.now) }
{
    let mut builder = Builder::new(alloc, fields, limits)?;
    for row in rows {
        builder.push(fields, row.as_slice(), indices)?;
    }
    let parts = builder.finish(&SameNumbers)?;
    Ok(parts.joined(alloc)?)
}
