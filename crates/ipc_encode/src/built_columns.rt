//! Adds columns that were built from values.
ghost use Rattle.std.specs.Prelude.{◌≡◌, ℕ, ◌+◌, ◌≤◌, ◌++◌, List, length, map, IfErr, OnOk};
ghost use Rattle.ipc_model.specs.declared.layout.Layout.{Layout};
ghost use Rattle.ipc_model.specs.declared.limits.Limits.{Limits};
ghost use Rattle.ipc_model.specs.declared.value.Value.{Value};
ghost use Rattle.ipc_column.specs.Shapes.{Shape, bare, field};
ghost use Rattle.ipc_encode.specs.Buffers.{data_buffers, padded_bytes, written_values};
ghost use Rattle.ipc_encode.specs.Built.{HoldColumns, HoldsValues, IsColumn, IsNode, data_layout};
ghost use Rattle.ipc_encode.specs.Cells.{slots};
ghost use Rattle.ipc_encode.specs.Numbers.{Numbering, as_number, new_index, new_indices};
ghost use Rattle.ipc_encode.specs.Pieces.{Number};
ghost use Rattle.ipc_encode.specs.Segments.{AddsBuffers, AddsColumns, AreRefusedAfter};
ghost use Rattle.ipc_encode.specs.Segments.{IsBodyRefused, segment_bytes};

use crate::column::{ColumnBuilder, ColumnData};
use crate::column_builder::push_number;
use crate::fault::PushFault;
use crate::index::Renumber;
use crate::segments::{Draft, Segment, add_buffer, add_counts};
use crate::tree::Node;
use ipc_model::{IntBits, Limits, Value};
use std::alloc::AllocError;
use std::mem;

// The number of an index in its slot, null where there is none.
fn as_number<N: Renumber>(index: Option<u64>, id: i64, numbers: &N) -> Value
    ensures { result ≡ as_number (new_index (N.number numbers.now id) index) }
{
    match index {
        Some(index) => Value::UInt(numbers.to(id, index)),
        None => Value::Null,
    }
}

// Appends the numbers of indices, a null slot's zero.
fn push_indices<N: Renumber>(
    bytes: &mut Vec<u8>,
    indices: &[Option<u64>],
    bits: IntBits,
    id: i64,
    numbers: &N,
) -> Result<(), AllocError>
    ensures { OnOk result (bytes.new.items ≡ bytes.old.items
        ++ slots (Number bits)
        (map as_number (map (new_index (N.number numbers.now id)) indices.now))) }
{
    for index in indices {
        push_number(bytes, &as_number(*index, id, numbers), bits)?;
    }
    Ok(())
}

// Takes the bytes out of a buffer.
fn take_bytes<'a>(buffer: &mut Vec<u8>) -> Segment<'a>
    ensures { segment_bytes result ≡ buffer.old.items }
{
    let alloc = *buffer.allocator();
    Segment::Owned(mem::replace(buffer, Vec::new(alloc)))
}

// Adds the buffers of a column that follow its validity bitmap. The errors are those of
// `add_buffer`.
fn add_data<N: Renumber>(
    draft: &mut Draft<'_>,
    contents: &mut ColumnData,
    numbers: &N,
    limits: &Limits,
) -> Result<(), PushFault>
    requires { draft.old.len ≤ limits.now.body }
    ensures nodes { OnOk result (draft.new.nodes.items ≡ draft.old.nodes.items) }
    ensures adds { (known : Numbering) (values : List Value) → HoldsValues known values contents.old
        → OnOk result (AddsBuffers draft.old draft.new
        (data_buffers (data_layout contents.old)
        (written_values (new_indices (N.number numbers.now) known)
        (data_layout contents.old) values))) }
    ensures within { OnOk result (draft.new.len ≤ limits.now.body) }
    ensures refused { (known : Numbering) (values : List Value)
        → HoldsValues known values contents.old
        → IfErr result (IsBodyRefused limits.now (draft.old.len + length (padded_bytes
        (data_buffers (data_layout contents.old)
        (written_values (new_indices (N.number numbers.now) known)
        (data_layout contents.old) values))))) }
{
    match contents {
        ColumnData::Null | ColumnData::FixedLists(_) | ColumnData::Structs => Ok(()),
        ColumnData::Bits(values)
        | ColumnData::Numbers { values, .. }
        | ColumnData::FixedBytes { values, .. } => add_buffer(draft, take_bytes(values), limits),
        ColumnData::VariableBytes {
            offsets,
            values,
            ..
        } => {
            add_buffer(draft, take_bytes(offsets), limits)?;
            add_buffer(draft, take_bytes(values), limits)
        }
        ColumnData::Lists { offsets, .. } => add_buffer(draft, take_bytes(offsets), limits),
        ColumnData::Indices(held) => {
            held.values.clear();
            push_indices(&mut held.values, &held.indices, held.bits, held.id, numbers)?;
            add_buffer(draft, take_bytes(&mut held.values), limits)
        }
    }
}

// Adds the node and the buffers of a column without its descendants. The errors are those of
// `add_buffer`.
fn add_column<N: Renumber>(
    draft: &mut Draft<'_>,
    column: &mut ColumnBuilder,
    numbers: &N,
    limits: &Limits,
) -> Result<(), PushFault>
    requires { draft.old.len ≤ limits.now.body }
    ensures adds { (known : Numbering) (kept : Limits) (layout : Layout) (values : List Value)
        → kept.slots ≤ limits.now.slots → IsColumn known kept layout values column.old
        → OnOk result (AddsColumns limits.now
        (new_indices (N.number numbers.now) known) (field layout bare bare)
        (λ j. values) draft.old draft.new) }
    ensures within { OnOk result (draft.new.len ≤ limits.now.body) }
    ensures refused { (known : Numbering) (kept : Limits) (layout : Layout)
        (values : List Value) → IsColumn known kept layout values column.old
        → IfErr result (AreRefusedAfter limits.now draft.old.len (field layout bare bare)
        (λ j. values)) }
{
    add_counts(draft, column.slots, column.nulls)?;
    if !column.data.has_validity() {
        return Ok(());
    }
    add_buffer(draft, take_bytes(&mut column.validity), limits)?;
    add_data(draft, &mut column.data, numbers, limits)?;
    Ok(())
}

/// Adds the node and the buffers of a column, and then those of its descendants. The buffers move
/// to the draft, so what the column holds after it has no meaning.
///
/// Errors: `TooLong` if the body would have more than `limits.body` bytes; `OutOfMemory` if memory
/// for a buffer ran out.
#[cycle(add)]
pub(crate) fn add_node<N: Renumber>(
    draft: &mut Draft<'_>,
    node: &mut Node,
    numbers: &N,
    limits: &Limits,
) -> Result<(), PushFault>
    requires { draft.old.len ≤ limits.now.body }
    ensures adds { (known : Numbering) (kept : Limits) (layout : Layout)
        (children : Shape) (values : List Value)
        → kept.slots ≤ limits.now.slots
        → IsNode (IsColumn known kept) layout children node.old values
        → OnOk result (AddsColumns limits.now
        (new_indices (N.number numbers.now) known) (field layout children bare)
        (λ j. values) draft.old draft.new) }
    ensures within { OnOk result (draft.new.len ≤ limits.now.body) }
    ensures refused { (known : Numbering) (kept : Limits) (layout : Layout)
        (children : Shape) (values : List Value)
        → kept.slots ≤ limits.now.slots
        → IsNode (IsColumn known kept) layout children node.old values
        → IfErr result (AreRefusedAfter limits.now draft.old.len (field layout children bare)
        (λ j. values)) }
{
    add_column(draft, &mut node.column, numbers, limits)?;
    add_nodes(draft, &mut node.children, numbers, limits)
}

/// Adds the nodes and the buffers of columns, each column before its descendants. The errors are
/// those of `add_node`.
#[cycle(add)]
pub(crate) fn add_nodes<N: Renumber>(
    draft: &mut Draft<'_>,
    nodes: &mut [Node],
    numbers: &N,
    limits: &Limits,
) -> Result<(), PushFault>
    requires { draft.old.len ≤ limits.now.body }
    ensures adds { (known : Numbering) (kept : Limits) (shape : Shape) (given : ℕ → List Value)
        → kept.slots ≤ limits.now.slots
        → HoldColumns known kept shape nodes.old given
        → OnOk result (AddsColumns limits.now
        (new_indices (N.number numbers.now) known) shape given draft.old draft.new) }
    ensures within { OnOk result (draft.new.len ≤ limits.now.body) }
    ensures refused { (known : Numbering) (kept : Limits) (shape : Shape)
        (given : ℕ → List Value)
        → kept.slots ≤ limits.now.slots
        → HoldColumns known kept shape nodes.old given
        → IfErr result (AreRefusedAfter limits.now draft.old.len shape given) }
{
    for i in 0..nodes.len() {
        add_node(draft, &mut nodes[i], numbers, limits)?;
    }
    Ok(())
}
