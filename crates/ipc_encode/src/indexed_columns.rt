//! Adds columns of indices that were read, with new numbers in place of their indices.
ghost use Rattle.std.specs.Prelude.{◌≡◌, ◌<◌, ◌≤◌, ◌+◌, ◌^◌, ◌++◌, ◌∷◌, [], ℕ, length, pos, true};
ghost use Rattle.std.specs.Prelude.{false, is_some, slice_index_or, IfErr, IfOk, IfSome, OnOk};
ghost use Rattle.ipc_model.specs.declared.value.Value.{Value};
ghost use Rattle.ipc_model.specs.declared.value.Value.TheVariants.{Null};
ghost use Rattle.ipc_column.specs.Lending.{MarksNulls};
ghost use Rattle.ipc_column.specs.Lent.{AreOfColumn};
ghost use Rattle.ipc_column.specs.Nested.{slot_values};
ghost use Rattle.ipc_column.specs.Shapes as shapes;
ghost use Rattle.ipc_column.specs.Shapes.{bare, child_shape, field_layout};
ghost use Rattle.ipc_column.specs.Values.{is_valid};
ghost use Rattle.ipc_encode.specs.Buffers.{padded_bytes};
ghost use Rattle.ipc_encode.specs.Cells.{cell, cells, is_set, number_bits, slots};
ghost use Rattle.ipc_encode.specs.EntryNumbers.{HasNumbers};
ghost use Rattle.ipc_encode.specs.Numbers.{as_number, index_of, known_indices, new_indices};
ghost use Rattle.ipc_encode.specs.Numbers.{numbers_of};
ghost use Rattle.ipc_encode.specs.Pieces.{Number, Valid};
ghost use Rattle.ipc_encode.specs.Segments.{AddsBuffers, AddsColumns, AreRefusedAfter};
ghost use Rattle.ipc_encode.specs.Segments.{IsBodyRefused, segment_bytes};

use crate::canonical::{has_written_validity, lent_validity};
use crate::column_builder::{known_index, push_bits};
use crate::fault::PushFault;
use crate::index::{IndexOf, Renumber};
use crate::pool::BufferPool;
use crate::segments::{Draft, Segment, add_buffer, add_counts};
use ipc_column::{Batch, SlotView, is_valid};
use ipc_model::{Field, IntBits, Layout, Limits, layout_of};
use std::alloc::{AllocError, Global};

// A place for the number of each value of a column's dictionary.
fn new_table(alloc: Global, view: &SlotView<'_>) -> Result<Vec<Option<u64>>, AllocError>
    ensures { (number_of : Value → ℕ) → IfOk result
        (λ table. HasNumbers number_of view.now.column.dictionary table.items) }
{
    let mut table = Vec::new(alloc);
    if let Some(entries) = view.entries() {
        table.resize(entries.len(), None)?;
    }
    Ok(table)
}

// The number of the value in a row of a column, or `None` if it is null.
#[cold]
fn cell_number<I: IndexOf, N: Renumber>(
    alloc: Global,
    batch: &Batch,
    column: usize,
    row: usize,
    id: i64,
    indices: &I,
    numbers: &N,
) -> Result<Option<u64>, AllocError>
    requires row { row < length batch.now.rows }
    requires column { column < batch.now.columns }
    ensures { IfOk result (λ found. found ≡ index_of
        (new_indices (N.number numbers.now) (known_indices (I.index indices.now)) id)
        (cell column (slice_index_or batch.now.rows row []))) }
{
    let value = batch.read_cell(alloc, row, column)?;
    Ok(match known_index(indices, id, &value) {
        Some(index) => Some(numbers.to(id, index)),
        None => None,
    })
}

// The number that stands in a slot: that of its value, or 0 if the bitmap marks it as null. Returns
// `None` if it is null and the bitmap does not. A number is looked up once, and noted.
#[inline(always)]
fn slot_number<I: IndexOf, N: Renumber>(
    alloc: Global,
    batch: &Batch,
    column: usize,
    view: &SlotView<'_>,
    slot: usize,
    table: &mut Vec<Option<u64>>,
    id: i64,
    indices: &I,
    numbers: &N,
) -> Result<Option<u64>, AllocError>
    requires column { column < batch.now.columns }
    requires slots { AreOfColumn batch.now.rows column (slot_values view.now) }
    requires slot { slot < length (slot_values view.now) }
    requires noted { HasNumbers (new_indices (N.number numbers.now)
        (known_indices (I.index indices.now)) id) view.now.column.dictionary table.old.items }
    ensures noted { OnOk result (HasNumbers (new_indices (N.number numbers.now)
        (known_indices (I.index indices.now)) id) view.now.column.dictionary table.new.items) }
    ensures marked { IfOk result (λ found. is_some found ≡ true
        → is_set Valid (slice_index_or (slot_values view.now) slot Null)
        ≡ is_valid view.now.column.validity slot) }
    ensures number { IfOk result (λ found. IfSome found (λ number. number
        ≡ number_bits (as_number (index_of (new_indices (N.number numbers.now)
        (known_indices (I.index indices.now)) id)
        (slice_index_or (slot_values view.now) slot Null))))) }
{
    let Some(entry) = view.entry_at(slot) else {
        let is_marked = !is_valid(view.buffers().validity, slot);
        return Ok(if is_marked { Some(0) } else { None });
    };
    if let Some(number) = table[entry] {
        return Ok(Some(number));
    }
    let number = cell_number(alloc, batch, column, slot, id, indices, numbers)?;
    table[entry] = number;
    Ok(number)
}

// Appends the number of each slot. Returns false if the bitmap does not mark a slot that is null.
fn push_slot_numbers<I: IndexOf, N: Renumber>(
    values: &mut Vec<u8>,
    batch: &Batch,
    column: usize,
    view: &SlotView<'_>,
    bits: IntBits,
    id: i64,
    indices: &I,
    numbers: &N,
) -> Result<bool, AllocError>
    requires column { column < batch.now.columns }
    requires slots { AreOfColumn batch.now.rows column (slot_values view.now) }
    ensures marks { IfOk result (λ all. all ≡ true
        → MarksNulls view.now.column.validity (slot_values view.now)) }
    ensures numbers { IfOk result (λ all. all ≡ true → values.new.items ≡ values.old.items
        ++ slots (Number bits) (numbers_of (new_indices (N.number numbers.now)
        (known_indices (I.index indices.now)) id) (slot_values view.now))) }
{
    let alloc = *values.allocator();
    let mut table = new_table(alloc, view)?;
    for slot in 0..view.len() {
        let number = slot_number(
            alloc, batch, column, view, slot, &mut table, id, indices, numbers,
        )?;
        let Some(number) = number else {
            return Ok(false);
        };
        push_bits(values, number, bits)?;
    }
    Ok(true)
}

// Adds the node of a column, its validity bitmap and the buffer of its values. The errors are those
// of `add_buffer`.
fn add_buffers<'a>(
    draft: &mut Draft<'a>,
    count: usize,
    null_count: usize,
    validity: Segment<'a>,
    values: Vec<u8>,
    limits: &Limits,
) -> Result<(), PushFault>
    requires few { count < 2 ^ 63 }
    requires counted { null_count ≤ count }
    ensures nodes { OnOk result (draft.new.nodes.items
        ≡ draft.old.nodes.items ++ (pos count, pos null_count) ∷ []) }
    ensures adds { OnOk result (AddsBuffers draft.old draft.new
        (segment_bytes validity.entry ∷ values.items ∷ [])) }
    ensures within { OnOk result (draft.new.len ≤ limits.now.body) }
    ensures refused { IfErr result (IsBodyRefused limits.now (draft.old.len
        + length (padded_bytes (segment_bytes validity.entry ∷ values.items ∷ [])))) }
{
    add_counts(draft, count, null_count)?;
    add_buffer(draft, validity, limits)?;
    add_buffer(draft, Segment::Owned(values), limits)
}

/// Adds column `column` of a batch as that of a field with a dictionary. Returns false, and adds
/// nothing, if the batch has no such column, if the field has children or no dictionary, or if the
/// validity bitmap of the column is not the one that is written.
///
/// Errors: `TooMany` if there are more than `limits.slots` slots; `TooLong` if the body would have
/// more than `limits.body` bytes; `OutOfMemory` if memory for a buffer ran out.
pub(crate) fn add_indexed<'a, I: IndexOf, N: Renumber>(
    alloc: Global,
    pool: &mut BufferPool,
    draft: &mut Draft<'a>,
    field: &Field,
    batch: &'a Batch,
    column: usize,
    limits: &Limits,
    indices: &I,
    numbers: &N,
) -> Result<bool, PushFault>
    ensures adds { IfOk result (λ added. added ≡ true → AddsColumns limits.now
        (new_indices (N.number numbers.now) (known_indices (I.index indices.now)))
        (shapes.field (field_layout field.now) (child_shape field.now) bare)
        (λ j. cells column batch.now.rows) draft.old draft.new) }
    ensures none { IfOk result (λ added. added ≡ false → draft.new ≡ draft.old) }
    ensures refused { IfErr result (AreRefusedAfter limits.now draft.old.len
        (shapes.field (field_layout field.now) (child_shape field.now) bare)
        (λ j. cells column batch.now.rows)) }
{
    if column >= batch.columns() {
        return Ok(false);
    }
    let Layout::Indices { bits, id, .. } = layout_of(&field.kind, field.dictionary) else {
        return Ok(false);
    };
    if !field.children.is_empty() {
        return Ok(false);
    }
    let view = batch.slots(column);
    let count = view.len();
    if count > limits.slots as usize {
        return Err(PushFault::TooMany);
    }
    if !has_written_validity(&view) {
        return Ok(false);
    }
    let null_count = view.null_count() as usize;
    let validity = lent_validity(view.buffers().validity, count, null_count);
    let mut values = pool.take(alloc);
    if !push_slot_numbers(
        &mut values,
        batch,
        column,
        &view,
        bits,
        id,
        indices,
        numbers,
    )? {
        return Ok(false);
    }
    add_buffers(draft, count, null_count, validity, values, limits)?;
    Ok(true)
}
