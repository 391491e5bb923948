//! The columns of a batch and all columns below them, each found in the body once for all rows.
ghost use Rattle.std.specs.Prelude.{◌≡◌, ◌<◌, ◌≤◌, true, length, slice_get, Some, IfOk, IfSome};
ghost use Rattle.ipc_column.specs.Nested.{child_columns, slot_values};
ghost use Rattle.ipc_column.specs.Slots.{HasChildSlots, nested_in, value_in_slot, text_prefix};
ghost use Rattle.ipc_column.specs.Values.{row};
ghost use Rattle.job_print.specs.Entries.{AreTexts, IsEntryOf};
ghost use Rattle.job_print.specs.SlotReaders.{IsReaderOf};

use ipc_column::{ColumnView, Slot, SlotView};
use ipc_model::{IntBits, Layout};
use std::alloc::{AllocError, Global};
use std::marker::Model;

/// The layout of a column's slots, found once for all rows, so that one jump leads to the code that
/// is compiled for it.
#[derive(Clone, Copy, Debug, Drop)]
pub enum SlotReader {
    /// Signed numbers of 64 bits.
    Int64,
    /// Signed numbers of 32 bits.
    Int32,
    /// Truth values.
    Bool,
    /// Texts.
    Utf8,
    /// Fixed-size binary of this width in bytes.
    Bytes(u32),
    /// Any other layout.
    Others,
}

/// Returns the reader of slots of a layout.
pub fn slot_reader_of(layout: Layout) -> SlotReader
    ensures { IsReaderOf result layout }
{
    match layout {
        Layout::Numbers {
            bits: IntBits::B64,
            signed: true,
        } => SlotReader::Int64,
        Layout::Numbers {
            bits: IntBits::B32,
            signed: true,
        } => SlotReader::Int32,
        Layout::Bits => SlotReader::Bool,
        Layout::VariableBytes { utf8: true } => SlotReader::Utf8,
        Layout::FixedBytes(width) => SlotReader::Bytes(width),
        _ => SlotReader::Others,
    }
}

/// What a slot of a column shows, as its index gives it.
#[derive(Clone, Copy, Debug, Drop)]
pub enum Entry<'a> {
    /// A text of the dictionary: bytes that begin with it, and how many of them it has.
    Text(&'a [u8], usize),
    /// The slot is null, or the value of its dictionary is.
    Null,
    /// The column has no dictionary of texts.
    Others,
}

/// Returns the slots of the values of a column's dictionary, if they are texts.
pub(crate) fn texts_of<'a>(slots: &SlotView<'a>) -> Option<SlotView<'a>>
    ensures { IfSome result (λ entries. AreTexts slots.now entries) }
{
    let Layout::Indices { .. } = slots.layout() else {
        return None;
    };
    let entries = slots.entries()?;
    let Layout::VariableBytes { utf8: true } = entries.layout() else {
        return None;
    };
    Some(entries)
}

/// Returns what a slot shows by its index, if these are the texts of the column's dictionary.
/// `slot` must be below `len`.
#[inline(always)]
pub(crate) fn entry_of<'a>(slots: &SlotView<'a>, texts: &SlotView<'a>, slot: usize) -> Entry<'a>
    requires texts { AreTexts slots.now texts.now }
    requires slot { slot < length (slot_values slots.now) }
    ensures { IsEntryOf slots.now slot result }
{
    let Some(place) = slots.entry_at(slot) else {
        return Entry::Null;
    };
    match texts.text_at(place) {
        Some((bytes, len)) => Entry::Text(bytes, len),
        None => Entry::Null,
    }
}

/// A column and all columns below it, lent by their batch: contracts see its buffers and those of
/// its children, as they do of a `SlotView`.
#[derive(Drop)]
pub struct ColumnTree<'a> {
    slots: SlotView<'a>,
    kind: SlotReader,
    // The values of the dictionary, where they are texts.
    texts: Option<SlotView<'a>>,
    children: Vec<ColumnTree<'a>>,
}

impl<'a> Model for ColumnTree<'a> {
    ghost use Rattle.std.specs.Prelude.{◌≡◌};
    ghost use Rattle.std.specs.Coded.{codes};
    ghost use Rattle.ipc_model.specs.contracts.value.Value as value;
    ghost use Rattle.ipc_column.specs.contracts.ranges.ColumnRanges as ranges;
    ghost use Rattle.ipc_column.specs.Nested.{Nested};
    ghost use Rattle.ipc_column.specs.Slots.{nested_in};
    ghost use Rattle.job_print.specs.Trees.{count_below};

    ghost Value = { Nested };

    ghost coded = { Prim.hlevel (codes, ranges.the_row.coded, value.the_row.coded) };

    ghost view = { λ t. t.slots };

    ghost use Rattle.std.specs.Prelude.{IfSome};
    ghost use Rattle.job_print.specs.Entries.{AreTexts};
    ghost use Rattle.job_print.specs.SlotReaders.{IsReaderOf};

    ghost invariant = { λ t. (t.children.items ≡ nested_in t.slots)
        × (IsReaderOf t.kind t.slots.column.layout
        × IfSome t.texts (λ texts. AreTexts t.slots texts)) };

    ghost size = { count_below };

    ghost use Rattle.job_print.specs.TreeFalls.{fewer_below};

    ghost size_decreases = { λ t found. fewer_below t.slots t.children.items found.0 };
}

impl<'a> ColumnTree<'a> {
    /// Returns the number of slots.
    #[inline(always)]
    pub fn len(&self) -> usize
        ensures { result ≡ length (slot_values self.now) }
    {
        self.slots.len()
    }

    /// Returns what a slot holds. `slot` must be below `len`.
    #[inline(always)]
    pub fn at(&self, slot: usize) -> Slot<'a>
        requires { slot < length (slot_values self.now) }
        ensures value { slice_get (slot_values self.now) slot
            ≡ Some (value_in_slot (row (child_columns self.now)) slot result) }
        // The children have the slots that are returned.
        ensures inside { HasChildSlots (child_columns self.now) slot result }
    {
        self.slots.at(slot)
    }

    /// Returns the layout of the slots.
    #[inline(always)]
    pub fn kind(&self) -> SlotReader
        ensures { IsReaderOf result self.now.column.layout }
    {
        self.kind
    }

    /// Returns what a slot holds, as `at` does. `layout` must be the column's, and `slot` below
    /// `len`.
    #[inline(always)]
    pub fn at_layout(&self, layout: Layout, slot: usize) -> Slot<'a>
        requires layout { self.now.column.layout ≡ layout }
        requires slot { slot < length (slot_values self.now) }
        ensures value { slice_get (slot_values self.now) slot
            ≡ Some (value_in_slot (row (child_columns self.now)) slot result) }
        // The children have the slots that are returned.
        ensures inside { HasChildSlots (child_columns self.now) slot result }
    {
        self.slots.at_layout(layout, slot)
    }

    /// Returns the bytes of the column's data from the text in a slot on, and how many of them the
    /// text has, or `None` if the slot is null. `slot` must be below `len`, and the column one of
    /// texts.
    #[inline(always)]
    pub fn text_at(&self, slot: usize) -> Option<(&'a [u8], usize)>
        requires layout { self.now.column.layout ≡ Layout.VariableBytes true }
        requires slot { slot < length (slot_values self.now) }
        ensures value { slice_get (slot_values self.now) slot ≡ Some (text_prefix result) }
        ensures inside { IfSome result (λ text. text.1 ≤ length text.0.now) }
    {
        self.slots.text_at(slot)
    }

    /// Returns what a slot shows by its index, if the column has a dictionary of texts. `slot` must
    /// be below `len`.
    #[inline(always)]
    pub fn entry_at(&self, slot: usize) -> Entry<'a>
        requires { slot < length (slot_values self.now) }
        ensures { IsEntryOf self.now slot result }
    {
        match &self.texts {
            Some(texts) => entry_of(&self.slots, texts, slot),
            None => Entry::Others,
        }
    }

    /// Returns the number of children.
    #[inline(always)]
    pub fn children(&self) -> usize
        ensures { result ≡ length self.now.children }
    {
        self.children.as_slice().len()
    }

    /// Returns child `i`, which must be below `children`.
    #[inline(always)]
    #[tactic(auto, using(crate::proofs::Trees::child_at))]
    pub fn child(&self, i: usize) -> &ColumnTree<'a>
        requires { i < length self.now.children }
        ensures { slice_get (nested_in self.now) i ≡ Some result.now }
    {
        &self.children[i]
    }
}

/// Finds all columns below these slots. Returns an error only if memory ran out.
pub fn tree_of<'a>(alloc: Global, slots: SlotView<'a>) -> Result<ColumnTree<'a>, AllocError>
    ensures { IfOk result (λ tree. tree ≡ slots.entry) }
{
    let mut children = Vec::with_capacity(alloc, slots.children())?;
    for number in 0..slots.children() {
        children.push(tree_of(alloc, slots.child(number))?)?;
    }
    let kind = slot_reader_of(slots.layout());
    let texts = texts_of(&slots);
    Ok(ColumnTree {
        slots,
        kind,
        texts,
        children,
    })
}

/// A column of a batch, lent, with all columns below it: contracts see it as the list of its
/// values, as they do of a `ColumnView`.
#[derive(Drop)]
pub struct ColumnReader<'a> {
    tree: ColumnTree<'a>,
}

impl<'a> Model for ColumnReader<'a> {
    ghost use Rattle.std.specs.Coded.{codes};
    ghost use Rattle.ipc_model.specs.contracts.value.Value as value;
    ghost use Rattle.ipc_column.specs.Nested.{slot_values};
    ghost use Rattle.ipc_column.specs.Values.{Cells};

    ghost Value = { Cells };

    ghost coded = { Prim.hlevel (codes, value.the_row.coded) };

    ghost view = { λ c. slot_values c.tree };
}

impl<'a> ColumnReader<'a> {
    /// Finds all columns below this one. Returns an error only if memory ran out.
    pub fn new(alloc: Global, values: ColumnView<'a>) -> Result<ColumnReader<'a>, AllocError>
        ensures { IfOk result (λ column. column ≡ values.entry) }
    {
        let tree = tree_of(alloc, values.slots())?;
        Ok(ColumnReader { tree })
    }

    /// Returns the slots of the column and of those below it.
    #[inline(always)]
    pub fn tree(&self) -> &ColumnTree<'a>
        ensures { slot_values result.now ≡ self.now }
    {
        &self.tree
    }
}
