//! Encodes a batch that was read, column by column, as parts whose body is a sequence of segments.
ghost use Rattle.std.specs.Prelude.{◌≡◌, ◌<◌, ◌≤◌, length, pos, slice_get, Some, IfErr, IfOk, OnOk};
ghost use Rattle.std.specs.Prelude.{[], slice_index_or};
ghost use Rattle.std.specs.List.{AllByRecursion};
ghost use Rattle.ipc_model.specs.Entries.{entries};
ghost use Rattle.ipc_model.specs.Fits.{RowFits};
ghost use Rattle.ipc_model.specs.WellFormed.{IsFieldWellFormed};
ghost use Rattle.ipc_column.specs.Dictionaries.{Dictionaries};
ghost use Rattle.ipc_column.specs.Rows.{Rows};
ghost use Rattle.ipc_column.specs.Shapes as shapes;
ghost use Rattle.ipc_column.specs.Shapes.{bare, field, child_shape, field_layout, shape_of};
ghost use Rattle.ipc_column.specs.Shapes.{Shape};
ghost use Rattle.ipc_encode.specs.Buffers.{row_columns};
ghost use Rattle.ipc_encode.specs.Cells.{cells, cell};
ghost use Rattle.ipc_encode.specs.Indices.{FindsRows};
ghost use Rattle.ipc_encode.specs.Limits.{AreRowsRefused, IsWithin};
ghost use Rattle.ipc_encode.specs.Numbers.{new_indices, known_indices};
ghost use Rattle.ipc_encode.specs.Segments.{AddsColumns, AreRefusedAfter, AreSegmented};
ghost use Rattle.ipc_encode.specs.Segments.{bytes_of_segments};
ghost use Rattle.ipc_model.specs.declared.layout.Layout.{Layout};
ghost use Rattle.ipc_encode.specs.Built.{ArePushesRefused, IsColumn, IsNode};

use crate::built_columns::add_node;
use crate::fault::PushFault;
use crate::index::{IndexOf, Renumber};
use crate::indexed_columns::add_indexed;
use crate::pool::BufferPool;
use crate::segments::{Draft, SegmentedParts};
use crate::tree::{Node, append, new_node};
use crate::whole_columns::{add_whole, has_field_layout};
use ipc_column::Batch;
use ipc_model::{Field, Limits, Value, WriteFault};
use std::alloc::Global;

// The value of a batch in a row and a column, or null if the batch has no such column.
fn cell_at(alloc: Global, batch: &Batch, row: usize, column: usize) -> Result<Value, PushFault>
    requires { row < length batch.now.rows }
    ensures value { IfOk result
        (λ value. value ≡ cell column (slice_index_or batch.now.rows row [])) }
    ensures memory { IfErr result (λ fault. fault ≡ PushFault.OutOfMemory) }
{
    if column >= batch.columns() {
        return Ok(Value::Null);
    }
    Ok(batch.read_cell(alloc, row, column)?)
}

// Takes the values of a column of a batch one by one into a node without values, or nulls if the
// batch has no such column. The errors are those of `append`.
fn take_column<I: IndexOf>(
    node: &mut Node,
    batch: &Batch,
    column: usize,
    limits: &Limits,
    indices: &I,
) -> Result<(), PushFault>
    ensures taken { (layout : Layout) (children : Shape)
        → IsNode (IsColumn (known_indices (I.index indices.now)) limits.now) layout children
        node.old []
        → OnOk result (IsNode (IsColumn (known_indices (I.index indices.now)) limits.now) layout
        children node.new (cells column batch.now.rows)) }
    ensures refused { (layout : Layout) (children : Shape)
        → IsNode (IsColumn (known_indices (I.index indices.now)) limits.now) layout children
        node.old [] → IfErr result (ArePushesRefused limits.now (field layout children bare)
        (λ j. cells column batch.now.rows)) }
{
    let alloc = *node.children.allocator();
    for row in 0..batch.rows() {
        let value = cell_at(alloc, batch, row, column)?;
        append(&value, node, None, limits, indices)?;
    }
    Ok(())
}

// Adds column `column` of a batch as that of a field: its own buffers if they are those that are
// written, with new numbers in place of indices, and else a column that is built anew from its
// values, which are null if the batch has no such column.
//
// The errors are those of `add_own`, from the column or one below it.
fn add_field<'a, I: IndexOf, N: Renumber>(
    alloc: Global,
    pool: &mut BufferPool,
    draft: &mut Draft<'a>,
    field: &Field,
    batch: &'a Batch,
    column: usize,
    limits: &Limits,
    indices: &I,
    numbers: &N,
) -> Result<(), PushFault>
    requires { draft.old.len ≤ limits.now.body }
    ensures adds { OnOk result (AddsColumns limits.now
        (new_indices (N.number numbers.now) (known_indices (I.index indices.now)))
        (shapes.field (field_layout field.now) (child_shape field.now) bare)
        (λ j. cells column batch.now.rows) draft.old draft.new) }
    ensures refused { IfErr result (AreRefusedAfter limits.now draft.old.len
        (shapes.field (field_layout field.now) (child_shape field.now) bare)
        (λ j. cells column batch.now.rows)) }
{
    if column < batch.columns() {
        let view = batch.column(column).slots();
        if has_field_layout(field, &view) {
            return add_whole(draft, field, &view, limits);
        }
    }
    let is_added = add_indexed(
        alloc, pool, draft, field, batch, column, limits, indices, numbers,
    )?;
    if is_added {
        return Ok(());
    }
    let mut node = new_node(field, pool, alloc)?;
    take_column(&mut node, batch, column, limits, indices)?;
    add_node(draft, &mut node, numbers, limits)
}

// Field `i` of a list of fields.
fn field_at(fields: &[Field], i: usize) -> &Field
    requires { i < length fields.now }
    ensures { slice_get fields.now i ≡ Some result.now }
{
    &fields[i]
}

// Adds a column of a batch for each of the fields. The errors are those of `add_field`.
fn add_fields<'a, I: IndexOf, N: Renumber>(
    alloc: Global,
    pool: &mut BufferPool,
    draft: &mut Draft<'a>,
    fields: &[Field],
    batch: &'a Batch,
    limits: &Limits,
    indices: &I,
    numbers: &N,
) -> Result<(), PushFault>
    requires { draft.old.len ≤ limits.now.body }
    ensures adds { OnOk result (AddsColumns limits.now
        (new_indices (N.number numbers.now) (known_indices (I.index indices.now)))
        (shape_of fields.now) (row_columns batch.now.rows) draft.old draft.new) }
    ensures refused { IfErr result (AreRefusedAfter limits.now draft.old.len (shape_of fields.now)
        (row_columns batch.now.rows)) }
{
    for i in 0..fields.len() {
        let field = field_at(fields, i);
        add_field(
            alloc, pool, draft, field, batch, i, limits, indices, numbers,
        )?;
    }
    Ok(())
}

/// Encodes the rows of a batch that was read as the parts of one record batch (Message.fbs,
/// RecordBatch), with the body as segments that borrow the batch's bytes where these already have
/// the written layout.
///
/// The fields must be those of a schema that passes `Schema::check`, and the rows must fit them. If
/// the batch has fewer columns than there are fields, the other fields get nulls. Columns after
/// those of the fields are ignored. For each value other than null in a field with a dictionary,
/// the index from `indices` is replaced by its number in `numbers`; it is 0 if there is none. The
/// number must fit the field's index type.
///
/// Joined, the segments are the body that `Builder::finish` gives for the batch's rows with these
/// indices and numbers. The bytes of a column are borrowed if its buffers already are those that
/// are written: unused bits are 0, null slots are zeros or empty, and offsets begin at 0. A column
/// of indices gets the numbers in memory from `pool` if it has any; each value of its dictionary is
/// looked up once. Other columns are encoded anew from their values, in such memory too. These are:
///
/// - columns of a field with a dictionary, if the batch has their values without one, if a slot
///   refers to a null in it, or if unused bits are set;
/// - lists and structs with a child that is encoded anew or has a dictionary, or whose children
///   have slots that their parent does not refer to;
/// - fixed-size lists, and columns of another layout than the field's.
///
/// Errors:
///
/// - W8 `TooManyRows`: there are more than `limits.slots` rows, or more than `limits.slots` items
///   in all lists of a column.
/// - W6 `TooLong`: a binary or UTF-8 column has more than 2^31 - 1 bytes of data, whatever the
///   limits; or the body would have more than `limits.body` bytes.
/// - W11 `OutOfMemory`: memory for a buffer ran out.
pub fn encode_columns<'a, I: IndexOf, N: Renumber>(
    alloc: Global,
    pool: &mut BufferPool,
    limits: &Limits,
    fields: &[Field],
    batch: &'a Batch,
    indices: &I,
    numbers: &N,
) -> Result<SegmentedParts<'a>, WriteFault>
    // The parts give these rows back under each map in which the indices find their values.
    ensures rows { (m : Dictionaries)
        → AllByRecursion (IsFieldWellFormed limits.now) (entries fields.now)
        → AllByRecursion (RowFits fields.now) batch.now.rows
        → FindsRows m (new_indices (N.number numbers.now)
        (known_indices (I.index indices.now))) fields.now batch.now.rows
        → IfOk result (λ parts. Rows limits.now m fields.now (record {
          length = pos (length batch.now.rows);
          nodes = parts.nodes;
          buffers = parts.buffers;
        }) (bytes_of_segments parts.segments.items) batch.now.rows) }
    // They are one list of nodes, buffers and bytes.
    ensures segmented { IfOk result (AreSegmented (new_indices (N.number numbers.now)
        (known_indices (I.index indices.now))) fields.now batch.now.rows) }
    // What is written is within the limits.
    ensures within { IfOk result (λ parts. IsWithin limits.now fields.now batch.now.rows) }
    ensures body { IfOk result (λ parts. parts.len ≤ limits.now.body) }
    // A refusal is true of the rows.
    ensures refused { IfErr result (AreRowsRefused limits.now fields.now batch.now.rows) }
{
    if batch.rows() > limits.slots as usize {
        return Err(WriteFault::TooManyRows);
    }
    let mut draft = Draft::new(alloc);
    add_fields(
        alloc, pool, &mut draft, fields, batch, limits, indices, numbers,
    )?;
    Ok(draft.finish())
}
