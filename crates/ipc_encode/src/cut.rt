//! Columns that are cut back to their first slots.
ghost use Rattle.std.specs.Prelude.{◌≡◌, ◌≤◌, ◌*◌, ◌+◌, ◌++◌, ℕ, List, length, take};
ghost use Rattle.ipc_scalar.specs.Bytes.{num};
ghost use Rattle.ipc_model.specs.MaxLimits.{max_slots};
ghost use Rattle.ipc_model.specs.declared.layout.Layout.{Layout};
ghost use Rattle.ipc_model.specs.declared.limits.Limits.{Limits};
ghost use Rattle.ipc_model.specs.declared.value.Value.{Value};
ghost use Rattle.ipc_column.specs.Shapes.{Shape};
ghost use Rattle.ipc_encode.specs.Buffers.{child_values, column_nulls};
ghost use Rattle.ipc_encode.specs.Built.{AreNodes, BeginsWith, HoldColumns, HoldsValues, IsColumn};
ghost use Rattle.ipc_encode.specs.Built.{IsNode, data_layout};
ghost use Rattle.ipc_encode.specs.Columns.{validity_in};
ghost use Rattle.ipc_encode.specs.Numbers.{Numbering};

use crate::bitmaps::{clear_between, cut_bits};
use crate::column::{ColumnBuilder, ColumnData};
use crate::tree::Node;
use ipc_scalar::get_u32;

// Drops the offsets after those of the first `slots` slots. Returns the last that is left.
fn cut_offsets(offsets: &mut Vec<u8>, slots: usize) -> u32
    requires { slots ≤ max_slots }
    ensures offsets { offsets.new.items ≡ take (4 * (slots + 1)) offsets.old.items }
    ensures last { 4 * (slots + 1) ≤ length offsets.old.items
        → result ≡ num offsets.new.items (4 * slots) 4 }
{
    offsets.truncate(4 * (slots + 1));
    get_u32(offsets, 4 * slots).unwrap_or(0)
}

// Drops the bits of slots after the first `slots` from a validity bitmap. `null_count` of these
// slots are null; no bitmap is left if none is.
fn cut_validity(validity: &mut Vec<u8>, slots: usize, null_count: usize)
    ensures { (layout : Layout) (values more : List Value) → length values ≡ slots
        → column_nulls layout values ≡ null_count
        → validity.old.items ≡ validity_in layout (values ++ more)
        → validity.new.items ≡ validity_in layout values }
{
    if null_count == 0 {
        validity.clear();
        return;
    }
    cut_bits(validity, slots);
}

impl ColumnData {
    // Drops what belongs to slots after the first `slots`. Returns how many slots each child of
    // the column then has.
    fn cut(&mut self, slots: usize) -> usize
        requires { slots ≤ max_slots }
        ensures layout { data_layout self.new ≡ data_layout self.old }
        ensures holds { (known : Numbering) (values more : List Value) → length values ≡ slots
            → HoldsValues known (values ++ more) self.old → HoldsValues known values self.new }
        ensures below { (known : Numbering) (values more : List Value) (j : ℕ)
            → length values ≡ slots → HoldsValues known (values ++ more) self.old
            → result ≡ length (child_values (data_layout self.old) values j) }
    {
        match self {
            ColumnData::Null => 0,
            ColumnData::Bits(bits) => {
                cut_bits(bits, slots);
                0
            }
            ColumnData::Numbers { bits, values, .. } => {
                values.truncate(bits.bytes() * slots);
                0
            }
            ColumnData::FixedBytes { width, values } => {
                values.truncate(*width as usize * slots);
                0
            }
            ColumnData::VariableBytes {
                offsets,
                values,
                ..
            } => {
                let end = cut_offsets(offsets, slots);
                values.truncate(end as usize);
                0
            }
            ColumnData::Lists { offsets, items } => {
                *items = cut_offsets(offsets, slots);
                *items as usize
            }
            ColumnData::FixedLists(size) => *size as usize * slots,
            ColumnData::Structs => slots,
            ColumnData::Indices(held) => {
                held.indices.truncate(slots);
                0
            }
        }
    }
}

impl ColumnBuilder {
    // Returns how many of the first `slots` slots are null. It reads the bits of the others.
    fn nulls_before(&self, slots: usize) -> usize
        ensures count { (known : Numbering) (limits : Limits) (layout : Layout)
            (values more : List Value) → length values ≡ slots
            → IsColumn known limits layout (values ++ more) self.now
            → result ≡ column_nulls layout values }
        ensures few { result ≤ slots }
    {
        if !self.data.has_validity() {
            return slots;
        }
        let marked = self.slots.min(self.validity.len().saturating_mul(8));
        let dropped = clear_between(&self.validity, slots, marked);
        self.nulls.saturating_sub(dropped).min(slots)
    }

    /// Drops the slots after the first `slots`. Returns how many slots each child of the column
    /// then has.
    pub(crate) fn cut(&mut self, slots: usize) -> usize
        ensures column { (known : Numbering) (limits : Limits) (layout : Layout)
            (values : List Value) → length values ≡ slots
            → BeginsWith known limits layout values self.old
            → IsColumn known limits layout values self.new }
        ensures below { (known : Numbering) (limits : Limits) (layout : Layout)
            (values : List Value) (j : ℕ) → length values ≡ slots
            → BeginsWith known limits layout values self.old
            → result ≡ length (child_values layout values j) }
    {
        let slots = slots.min(self.slots);
        let null_count = self.nulls_before(slots);
        self.nulls = null_count;
        self.slots = slots;
        cut_validity(&mut self.validity, slots, null_count);
        self.data.cut(slots)
    }
}

// Cuts a column back to its first `slots` slots, and those below it to what these slots have.
#[cycle(cut)]
fn cut_node(node: &mut Node, slots: usize)
    ensures { (known : Numbering) (limits : Limits) (layout : Layout) (children : Shape)
        (values : List Value) → length values ≡ slots
        → IsNode (BeginsWith known limits) layout children node.old values
        → IsNode (IsColumn known limits) layout children node.new values }
{
    let below = node.column.cut(slots);
    cut_nodes(&mut node.children, below);
}

/// Cuts columns back to their first `slots` slots, and those below them to what these slots have.
#[cycle(cut)]
pub(crate) fn cut_nodes(nodes: &mut [Node], slots: usize)
    ensures { (known : Numbering) (limits : Limits) (shape : Shape) (given : ℕ → List Value)
        → ((j : ℕ) → length (given j) ≡ slots)
        → AreNodes (BeginsWith known limits) shape nodes.old given
        → HoldColumns known limits shape nodes.new given }
{
    for i in 0..nodes.len() {
        cut_node(&mut nodes[i], slots);
    }
}
