ghost use Rattle.std.specs.Prelude.{◌≡◌, ◌≤◌, ◌<◌, ◌+◌, ◌^◌, ℕ, List, length, IfOk};
ghost use Rattle.ipc_model.specs.Layouts.{own_buffers};
ghost use Rattle.ipc_column.specs.Shapes.{assigned_columns, shape_of, field_layout, child_shape};
ghost use Rattle.ipc_column.specs.Shapes.{node_count, buffer_count, column_at, buffer_at};
ghost use Rattle.ipc_column.specs.Shapes.{validity_at, dictionary_of, offsets_at, values_at};
ghost use Rattle.ipc_column.specs.DictionaryBatches.{AreDictionaries, dictionaries_in};
ghost use Rattle.ipc_column.specs.Dictionaries.{values_for};
ghost use Rattle.ipc_column.specs.Views.{part_columns, column_of, children_of};
ghost use Rattle.ipc_column.specs.Spans.{span_bytes};

use crate::batch::Batch;
use crate::dictionary::DictionaryValues;
use crate::ranges::{BufferRange, ColumnRanges};
use ipc_meta::BatchHead;
use ipc_model::{Field, Layout, layout_of};
use std::alloc::{AllocError, Global};
use std::collections::BTreeMap;
use std::sync::Arc;

/// A position in the nodes and buffers of a record batch (Message.fbs, table RecordBatch).
#[derive(Clone, Copy, Debug, PartialEq, Eq, Drop)]
pub struct Cursor {
    /// The number of nodes before it.
    pub node: usize,
    /// The number of buffers before it.
    pub buffer: usize,
}

// What a field needs, children included, beside what others need before it.
#[cycle(count)]
fn count_field(field: &Field, before: Cursor) -> Cursor
    requires nodes { before.node + (1 + node_count (child_shape field.now)) < 2 ^ 60 }
    requires buffers { before.buffer
        + (own_buffers (field_layout field.now) + buffer_count (child_shape field.now))
        < 2 ^ 60 }
    ensures nodes { result.node ≡ before.node + 1 + node_count (child_shape field.now) }
    ensures buffers { result.buffer ≡ before.buffer + own_buffers (field_layout field.now)
        + buffer_count (child_shape field.now) }
{
    let below = Cursor {
        node: before.node + 1,
        buffer: before.buffer + layout_of(&field.kind, field.dictionary).own_buffers(),
    };
    count(field.children.as_slice(), below)
}

/// Returns the position after the nodes and buffers of these fields and their children, if those of
/// the first field begin at `before` (Arrow Columnar Format, "RecordBatch message"). A field with a
/// dictionary has the buffers of its indices. It takes no memory.
#[cycle(count)]
pub fn count(fields: &[Field], before: Cursor) -> Cursor
    requires nodes { before.node + node_count (shape_of fields.now) < 2 ^ 60 }
    requires buffers { before.buffer + buffer_count (shape_of fields.now) < 2 ^ 60 }
    ensures nodes { result.node ≡ before.node + node_count (shape_of fields.now) }
    ensures buffers { result.buffer ≡ before.buffer + buffer_count (shape_of fields.now) }
{
    let mut place = before;
    for field in fields {
        place = count_field(field, place);
    }
    place
}

// The range of a buffer in the body, as the head states it.
fn buffer_range(head: &BatchHead, buffer: usize) -> BufferRange
    requires { buffer < length head.now.buffers }
    ensures { (body : List ℕ) → span_bytes body result ≡ buffer_at head.now body buffer }
{
    let (start, len) = head.buffers.as_slice()[buffer];
    BufferRange {
        start: start.unsigned_abs() as usize,
        len: len.unsigned_abs() as usize,
    }
}

// The ranges of a field's own buffers, which begin with this one: its validity bitmap, its offsets
// and its values. A buffer that its layout does not have has no bytes.
#[tactic(auto, using(crate::proofs::Fields::empty_bytes))]
fn own_ranges(
    layout: Layout,
    head: &BatchHead,
    first: usize,
) -> (BufferRange, BufferRange, BufferRange)
    requires buffers { first + own_buffers layout ≤ length head.now.buffers }
    requires few { length head.now.buffers < 2 ^ 60 }
    ensures validity { (body : List ℕ) → span_bytes body result.0
        ≡ validity_at layout head.now body first }
    ensures offsets { (body : List ℕ) → span_bytes body result.1
        ≡ offsets_at layout head.now body first }
    ensures values { (body : List ℕ) → span_bytes body result.2
        ≡ values_at layout head.now body first }
{
    let none = BufferRange { start: 0, len: 0 };
    if let Layout::Null = layout {
        return (none, none, none);
    }
    let validity = buffer_range(head, first);
    match layout {
        Layout::VariableBytes { .. } => {
            let offsets = buffer_range(head, first + 1);
            (validity, offsets, buffer_range(head, first + 2))
        }
        Layout::Lists => (validity, buffer_range(head, first + 1), none),
        Layout::Null | Layout::FixedLists(_) | Layout::Structs => (validity, none, none),
        Layout::Bits | Layout::Numbers { .. } | Layout::FixedBytes(_) | Layout::Indices { .. } => (
            validity,
            none,
            buffer_range(head, first + 1),
        ),
    }
}

// The values that the slots of a column of this layout are indices of.
fn dictionary_of(
    layout: Layout,
    dictionaries: &BTreeMap<i64, Arc<Batch>>,
) -> Result<DictionaryValues, AllocError>
    requires { AreDictionaries dictionaries.now }
    ensures { IfOk result (λ values. values
        ≡ dictionary_of (dictionaries_in dictionaries.now) layout) }
{
    match layout {
        Layout::Indices { id, .. } => values_for(id, dictionaries),
        _ => Ok(DictionaryValues::none()),
    }
}

// The values in force for the dictionary with this id.
fn values_for(
    id: i64,
    dictionaries: &BTreeMap<i64, Arc<Batch>>,
) -> Result<DictionaryValues, AllocError>
    requires { AreDictionaries dictionaries.now }
    ensures { IfOk result (λ values. values ≡ values_for (dictionaries_in dictionaries.now) id) }
{
    match dictionaries.get(&id) {
        Some(batch) => batch.dictionary_values(),
        None => Ok(DictionaryValues::none()),
    }
}

// The part of a field with this node and this first buffer, and the place after it.
#[cycle(cut)]
fn assign_field(
    alloc: Global,
    field: &Field,
    head: &BatchHead,
    dictionaries: &BTreeMap<i64, Arc<Batch>>,
    at: Cursor,
) -> Result<(ColumnRanges, Cursor), AllocError>
    requires dictionaries { AreDictionaries dictionaries.now }
    requires nodes { at.node + (1 + node_count (child_shape field.now)) ≤ length head.now.nodes }
    requires buffers { at.buffer + (own_buffers (field_layout field.now)
        + buffer_count (child_shape field.now)) ≤ length head.now.buffers }
    requires few_nodes { length head.now.nodes < 2 ^ 60 }
    requires few_buffers { length head.now.buffers < 2 ^ 60 }
    ensures column { IfOk result (λ r. (body : List ℕ)
        → column_of body r.0 ≡ column_at (dictionaries_in dictionaries.now) (field_layout field.now)
        head.now body at.node at.buffer) }
    ensures children { IfOk result (λ r. (body : List ℕ)
        → children_of body r.0 ≡ assigned_columns (dictionaries_in dictionaries.now)
        (child_shape field.now)
        head.now body (at.node + 1)
        (at.buffer + own_buffers (field_layout field.now))) }
    ensures node { IfOk result (λ r. r.1.node ≡ at.node + 1
        + node_count (child_shape field.now)) }
    ensures buffer { IfOk result (λ r. r.1.buffer
        ≡ at.buffer + own_buffers (field_layout field.now)
        + buffer_count (child_shape field.now)) }
{
    let layout = layout_of(&field.kind, field.dictionary);
    let (slots, nulls) = head.nodes.as_slice()[at.node];
    let below = Cursor {
        node: at.node + 1,
        buffer: at.buffer + layout.own_buffers(),
    };
    let fields = field.children.as_slice();
    let (children, next) = assign_buffers(alloc, fields, head, dictionaries, below)?;
    let (validity, offsets, values) = own_ranges(layout, head, at.buffer);
    let part = ColumnRanges {
        layout,
        slots: slots.unsigned_abs() as usize,
        nulls: nulls.unsigned_abs() as usize,
        validity,
        offsets,
        values,
        children,
        dictionary: dictionary_of(layout, dictionaries)?,
        known_valid: false,
    };
    Ok((part, next))
}

/// Returns the parts of fields whose nodes and buffers begin at `at`, and the position after them.
#[cycle(cut)]
pub(crate) fn assign_buffers(
    alloc: Global,
    fields: &[Field],
    head: &BatchHead,
    dictionaries: &BTreeMap<i64, Arc<Batch>>,
    at: Cursor,
) -> Result<(Vec<ColumnRanges>, Cursor), AllocError>
    requires dictionaries { AreDictionaries dictionaries.now }
    requires nodes { at.node + node_count (shape_of fields.now) ≤ length head.now.nodes }
    requires buffers { at.buffer + buffer_count (shape_of fields.now) ≤ length head.now.buffers }
    requires few_nodes { length head.now.nodes < 2 ^ 60 }
    requires few_buffers { length head.now.buffers < 2 ^ 60 }
    ensures parts { IfOk result (λ r. (body : List ℕ)
        → part_columns body r.0.items ≡ assigned_columns (dictionaries_in dictionaries.now)
        (shape_of fields.now)
        head.now body at.node at.buffer) }
    ensures number { IfOk result (λ r. length r.0.items ≡ length fields.now) }
    ensures node { IfOk result (λ r. r.1.node ≡ at.node + node_count (shape_of fields.now)) }
    ensures buffer { IfOk result (λ r. r.1.buffer ≡ at.buffer
        + buffer_count (shape_of fields.now)) }
{
    let mut parts = Vec::with_capacity(alloc, fields.len())?;
    let mut place = at;
    for field in fields {
        let (part, next) = assign_field(alloc, field, head, dictionaries, place)?;
        parts.push(part)?;
        place = next;
    }
    Ok((parts, place))
}
