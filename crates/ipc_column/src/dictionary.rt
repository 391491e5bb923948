//! The values of dictionaries, shared with columns of indices.
ghost use Rattle.std.specs.Prelude.{◌≡◌, ◌<◌, ◌≤◌, ◌+◌, ◌*◌, ℕ, List, length, map, true, [], IfOk};
ghost use Rattle.std.specs.Prelude.{IsTrue, Some, slice_get, IfSome, IfNone};
ghost use Rattle.ipc_model.specs.Layouts.{number_bytes};
ghost use Rattle.ipc_model.specs.declared.value.Value.{Value};
ghost use Rattle.ipc_column.specs.Slots.{IsLeafSlot, value_in_slot};
ghost use Rattle.ipc_column.specs.checks.Checks.{PassTests};
ghost use Rattle.ipc_column.specs.Columns.{none};
ghost use Rattle.ipc_column.specs.Dictionaries.{has_no_children};
ghost use Rattle.ipc_column.specs.Leaves.{IsLeafColumn, leaf_column, values_or_none};
ghost use Rattle.ipc_column.specs.Lending.{AreAlone};
ghost use Rattle.ipc_column.specs.Lent.{values_in};
ghost use Rattle.ipc_column.specs.Nested.{slot_values};
ghost use Rattle.ipc_column.specs.Values.{first_of, number_in, row, rows_of, value_at, value_of};
ghost use Rattle.ipc_column.specs.Views.{part_columns};

use crate::bitmaps::is_valid;
use crate::fixed::index_in;
use crate::ranges::{BufferRange, ColumnRanges, bytes_at};
use crate::slot_view::{Slot, SlotView, leaf_slot, leaf_slots};
use ipc_model::{IntBits, Layout};
use std::alloc::AllocError;
use std::marker::Model;
use std::sync::Arc;

/// The values of a dictionary, shared with its batch. There are none if a column has no dictionary
/// or none in force. Contracts describe it as a list.
#[derive(Debug, Drop)]
pub struct DictionaryValues {
    leaf: Option<Leaf>,
}

// A column without children or dictionary, over a body that batches share.
#[derive(Debug, Drop)]
struct Leaf {
    layout: Layout,
    slots: usize,
    validity: BufferRange,
    offsets: BufferRange,
    values: BufferRange,
    body: Arc<Vec<u8>>,
}

impl Model for DictionaryValues {
    ghost use Rattle.std.specs.Coded.{codes};
    ghost use Rattle.ipc_model.specs.contracts.value.Value as value;
    ghost use Rattle.ipc_column.specs.Leaves.{HoldLeaf, leaf_values};
    ghost use Rattle.ipc_column.specs.Values.{Cells};

    ghost Value = { Cells };

    ghost coded = { Prim.hlevel (codes, value.the_row.coded) };

    ghost view = { λ dictionary. leaf_values dictionary.leaf };

    ghost invariant = { λ dictionary. HoldLeaf dictionary.leaf };
}

impl DictionaryValues {
    /// Returns a dictionary without values.
    pub(crate) fn none() -> DictionaryValues
        ensures { result ≡ [] }
    {
        DictionaryValues { leaf: None }
    }

    /// Returns the number of values.
    #[inline(always)]
    pub(crate) fn len(&self) -> usize
        ensures { result ≡ length self.now }
    {
        match &self.leaf {
            Some(leaf) => leaf.slots,
            None => 0,
        }
    }

    /// Returns the slots of the values, if there is a column of them.
    pub(crate) fn slots(&self) -> Option<SlotView<'_>>
        ensures values { IfSome result (λ slots. slot_values slots ≡ self.now) }
        ensures alone { IfSome result (λ slots. slots.column.dictionary ≡ []) }
        ensures none { IfNone result (self.now ≡ []) }
    {
        match &self.leaf {
            Some(leaf) => Some(leaf_view(leaf)),
            None => None,
        }
    }

    /// Returns what the slot of value `i` holds.
    pub(crate) fn at(&self, i: usize) -> Slot<'_>
        requires { i < length self.now }
        ensures value { (below : ℕ → List Value) (k : ℕ)
            → slice_get self.now i ≡ Some (value_in_slot below k result) }
        ensures leaf { IsLeafSlot result }
    {
        match &self.leaf {
            Some(leaf) => slot_in(leaf, i),
            None => unreachable!(),
        }
    }
}

// The slots of a column without children or dictionary.
fn leaf_view(leaf: &Leaf) -> SlotView<'_>
    requires { IsLeafColumn leaf.now }
    ensures values { slot_values result ≡ values_in (leaf_column leaf.now) none }
    ensures alone { result.column.dictionary ≡ [] }
{
    let body = leaf.body.as_slice();
    leaf_slots(
        leaf.layout,
        leaf.slots,
        bytes_at(body, leaf.validity),
        bytes_at(body, leaf.offsets),
        bytes_at(body, leaf.values),
    )
}

// What a slot of a column holds.
fn slot_in(leaf: &Leaf, slot: usize) -> Slot<'_>
    requires holds { IsLeafColumn leaf.now }
    requires slot { slot < leaf.now.slots }
    ensures value { (below : ℕ → List Value) (k : ℕ)
        → value_in_slot below k result ≡ value_of (row none) (leaf_column leaf.now) slot }
    ensures leaf { IsLeafSlot result }
{
    let body = leaf.body.as_slice();
    if !is_valid(bytes_at(body, leaf.validity), slot) {
        return Slot::Null;
    }
    leaf_slot(
        leaf.layout,
        bytes_at(body, leaf.offsets),
        bytes_at(body, leaf.values),
        leaf.slots,
        slot,
    )
}

/// Returns how many values a dictionary has, or 0 if there is none.
#[inline(always)]
pub(crate) fn value_count(dictionary: Option<&DictionaryValues>) -> usize
    ensures { result ≡ length (values_or_none dictionary.entry) }
{
    match dictionary {
        Some(values) => values.len(),
        None => 0,
    }
}

/// Returns what the value with the index in a slot holds, or null if there is none.
#[inline(always)]
pub(crate) fn indexed_slot<'a>(
    bits: IntBits,
    signed: bool,
    indices: &[u8],
    slot: usize,
    dictionary: Option<&'a DictionaryValues>,
) -> Slot<'a>
    requires { number_bytes bits * (slot + 1) ≤ length indices.now }
    ensures value { (below : ℕ → List Value) (k : ℕ) → value_in_slot below k result
        ≡ value_at (values_or_none dictionary.entry) (number_in bits signed indices.now slot) }
    ensures leaf { IsLeafSlot result }
{
    let Some(dictionary) = dictionary else {
        return Slot::Null;
    };
    match index_in(bits, signed, indices, slot, dictionary.len()) {
        Some(index) => dictionary.at(index),
        None => Slot::Null,
    }
}

// Whether values of this layout are stored in one column.
fn has_no_children(layout: Layout) -> bool
    ensures { result ≡ has_no_children layout }
{
    match layout {
        Layout::Null
        | Layout::Bits
        | Layout::Numbers { .. }
        | Layout::FixedBytes(_)
        | Layout::VariableBytes { .. } => true,
        Layout::Lists | Layout::FixedLists(_) | Layout::Structs | Layout::Indices { .. } => false,
    }
}

/// Returns whether there is one part, whose values are stored in its column alone.
pub(crate) fn is_one_leaf(parts: &[ColumnRanges]) -> bool
    ensures yes { IsTrue result → (body : List ℕ) → AreAlone (part_columns body parts.now) }
    ensures no { (body : List ℕ) → AreAlone (part_columns body parts.now) → IsTrue result }
{
    if parts.len() != 1 {
        return false;
    }
    has_no_children(parts[0].layout)
}

/// Returns the values of the one column of parts with `rows` rows. The body is not copied. Returns
/// an error only if the reference count is at its maximum.
pub(crate) fn share_values(
    body: &Arc<Vec<u8>>,
    parts: &[ColumnRanges],
    rows: usize,
) -> Result<DictionaryValues, AllocError>
    requires holds { PassTests rows (part_columns body.now.value.items parts.now) }
    requires alone { AreAlone (part_columns body.now.value.items parts.now) }
    ensures { IfOk result (λ values. values
        ≡ map first_of (rows_of (part_columns body.now.value.items parts.now) rows)) }
{
    let part = &parts[0];
    let leaf = Leaf {
        layout: part.layout,
        slots: part.slots,
        validity: part.validity,
        offsets: part.offsets,
        values: part.values,
        body: body.clone()?,
    };
    Ok(DictionaryValues { leaf: Some(leaf) })
}
