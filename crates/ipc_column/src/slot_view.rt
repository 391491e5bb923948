//! The slots of a column and of its descendants, whose buffers are found in the body once.
ghost use Rattle.std.specs.Prelude.{◌≡◌, ◌<◌, ℕ, List, length, slice_get, Some, true, IfSome};
ghost use Rattle.std.specs.Prelude.{is_some, slice_index, take, ◌≤◌, ◌+◌, ◌*◌, ℤ, Bool, [], IfNone};
ghost use Rattle.std.specs.Prelude.{map};
ghost use Rattle.std.specs.List.{AllByRecursion};
ghost use Rattle.ipc_scalar.specs.Bytes.{clear};
ghost use Rattle.ipc_model.specs.declared.schema.IntBits.{IntBits};
ghost use Rattle.ipc_model.specs.declared.layout.Layout.TheVariants.{Indices};
ghost use Rattle.ipc_model.specs.declared.value.Value.{Value};
ghost use Rattle.ipc_model.specs.declared.value.Value.TheVariants.{Null};
ghost use Rattle.ipc_model.specs.declared.fault.Fault.{Fault};
ghost use Rattle.ipc_column.specs.Cells.{cell_value};
ghost use Rattle.ipc_column.specs.Columns.{Columns, every, none};
ghost use Rattle.ipc_column.specs.Dictionaries.{has_no_children};
ghost use Rattle.ipc_column.specs.checks.Checks.{PassTests, children_have_slots, has_bitmap};
ghost use Rattle.ipc_column.specs.checks.Checks.{holds_offsets, holds_values, in_order};
ghost use Rattle.ipc_column.specs.checks.Checks.{are_ascending, good, good_below, passes};
ghost use Rattle.ipc_column.specs.Lending.{AreBuffers, AreNumbers, HoldsEntry, MarksNulls};
ghost use Rattle.ipc_column.specs.Lending.{are_numbers};
ghost use Rattle.ipc_column.specs.Leaves.{values_or_none};
ghost use Rattle.ipc_column.specs.Lent.{AreFound, AreOfColumn, column_of_buffers, values_in};
ghost use Rattle.ipc_column.specs.Slots.{HasChildSlots, is_null, nested, nested_in, value_in_slot};
ghost use Rattle.ipc_column.specs.Slots.{IsLeafSlot, RefersToValues, text_prefix};
ghost use Rattle.ipc_column.specs.Nested.{Nested, only_column, child_columns, slot_values};
ghost use Rattle.ipc_column.specs.checks.Plain.{IsShownBy};
ghost use Rattle.ipc_column.specs.checks.Rules.{HasUtf8Texts};
ghost use Rattle.ipc_column.specs.Values.{between, own_value, row, rows_of};
ghost use Rattle.ipc_column.specs.Views.{part_columns, column_of, children_of};

use crate::bitmaps::is_valid;
use crate::buffers::{Buffers, Numbers};
use crate::cell::{Cell, cell_of};
use crate::dictionary::{DictionaryValues, indexed_slot, value_count};
use crate::fixed::{bytes_of, index_in, signed_at, unsigned_at};
use crate::offsets::{bytes_between, fixed_place, place_at};
use crate::ranges::{ColumnRanges, bytes_at};
use ipc_model::Layout;
use ipc_scalar::{bit, count_clear};
use std::marker::Model;

/// The content of a slot of a column without the values of its children, lent by its batch.
#[derive(Clone, Copy, Debug, Drop)]
pub enum Slot<'a> {
    /// The slot is null.
    Null,
    /// A boolean.
    Bool(bool),
    /// A signed number.
    Int(i64),
    /// An unsigned number.
    UInt(u64),
    /// Bytes of the body.
    Bytes(&'a [u8]),
    /// The bytes of a text. They are UTF-8 if a row shows the slot.
    Text(&'a [u8]),
    /// A list: its values are in the child's slots from `from` up to `to`.
    List {
        /// The slot of its first value.
        from: usize,
        /// The slot after that of its last value.
        to: usize,
    },
    /// A struct: its values are in the slot with this slot's number of each child.
    Struct,
}

/// The slots of a column, lent, with its buffers in the body and the columns of its children. It
/// takes no memory.
///
/// Contracts describe its buffers and those of its children. They include slots that no row shows.
#[derive(Debug, Drop)]
pub struct SlotView<'a> {
    layout: Layout,
    slots: usize,
    validity: &'a [u8],
    offsets: &'a [u8],
    values: &'a [u8],
    dictionary: Option<&'a DictionaryValues>,
    body: &'a [u8],
    children: &'a [ColumnRanges],
}

impl<'a> Model for SlotView<'a> {
    ghost use Rattle.std.specs.Coded.{codes};
    ghost use Rattle.ipc_column.specs.contracts.ranges.ColumnRanges as ranges;
    ghost use Rattle.ipc_model.specs.contracts.value.Value as value;
    ghost use Rattle.ipc_column.specs.Leaves.{values_or_none};
    ghost use Rattle.ipc_column.specs.Lent.{AreFound, column_of_buffers};
    ghost use Rattle.ipc_column.specs.Nested.{Nested};
    ghost use Rattle.ipc_column.specs.Views.{part_columns};

    ghost Value = { Nested };

    ghost coded = { Prim.hlevel (codes, ranges.the_row.coded, value.the_row.coded) };

    ghost view = { λ s. record {
      column = column_of_buffers s.layout s.slots s.validity.now s.offsets.now s.values.now
          (values_or_none s.dictionary);
      body = s.body.now;
      children = s.children.now;
    } };

    ghost invariant = { λ s. AreFound
        (column_of_buffers s.layout s.slots s.validity.now s.offsets.now s.values.now
        (values_or_none s.dictionary))
        (part_columns s.body.now s.children.now) };
}

impl<'a> SlotView<'a> {
    /// Returns the number of slots.
    #[inline(always)]
    pub fn len(&self) -> usize
        ensures { result ≡ length (slot_values self.now) }
    {
        self.slots
    }

    /// Returns the content of a slot. `slot` must be below `len`.
    ///
    /// For a list or a struct it states the children's slots that have the values. For an index it
    /// lends the value of the dictionary, and it is null if there is none.
    #[inline(always)]
    pub fn at(&self, slot: usize) -> Slot<'a>
        requires { slot < length (slot_values self.now) }
        ensures value { slice_get (slot_values self.now) slot
            ≡ Some (value_in_slot (row (child_columns self.now)) slot result) }
        // The children have the slots that the result states.
        ensures inside { HasChildSlots (child_columns self.now) slot result }
        // Where the texts of the slot are UTF-8, as where a row shows it, the result has values.
        ensures shown { HasUtf8Texts (only_column self.now) slot
            → RefersToValues (child_columns self.now) slot result }
    {
        self.at_layout(self.layout, slot)
    }

    /// Lends the value in a slot, whose texts are UTF-8.
    #[inline(always)]
    pub(crate) fn cell(&self, slot: usize) -> Cell<'a>
        requires slot { slot < length (slot_values self.now) }
        requires texts { HasUtf8Texts (only_column self.now) slot }
        ensures { slice_get (slot_values self.now) slot ≡ Some (cell_value result) }
    {
        cell_of(self.at(slot), self.body, self.children, slot)
    }

    /// Returns the content of a slot, as `at` does, for a known layout. If the call names a
    /// constant layout, the code that reads the slot is compiled for that layout only. `layout`
    /// must be the column's layout, and `slot` must be below `len`.
    #[inline(always)]
    pub fn at_layout(&self, layout: Layout, slot: usize) -> Slot<'a>
        requires layout { self.now.column.layout ≡ layout }
        requires slot { slot < length (slot_values self.now) }
        ensures value { slice_get (slot_values self.now) slot
            ≡ Some (value_in_slot (row (child_columns self.now)) slot result) }
        // The children have the slots that the result states.
        ensures inside { HasChildSlots (child_columns self.now) slot result }
        // Where the texts of the slot are UTF-8, as where a row shows it, the result has values.
        ensures shown { HasUtf8Texts (only_column self.now) slot
            → RefersToValues (child_columns self.now) slot result }
    {
        if !is_valid(self.validity, slot) {
            return Slot::Null;
        }
        own_slot(
            layout,
            self.dictionary,
            self.offsets,
            self.values,
            self.slots,
            slot,
            self.children,
        )
    }

    /// Returns bytes that begin with the text in a slot, and the number of bytes of the text.
    /// Returns `None` if the slot is null. No clause states what follows the text: it is the rest
    /// of the column's data, so a short text can be copied by one load of more bytes than it has.
    /// `slot` must be below `len`, and the column must be one of texts.
    #[inline(always)]
    pub fn text_at(&self, slot: usize) -> Option<(&'a [u8], usize)>
        requires layout { self.now.column.layout ≡ Layout.VariableBytes true }
        requires slot { slot < length (slot_values self.now) }
        ensures value { slice_get (slot_values self.now) slot ≡ Some (text_prefix result) }
        ensures inside { IfSome result (λ text. text.1 ≤ length text.0.now) }
    {
        if is_valid(self.validity, slot) {
            Some(text_in(self.offsets, self.values, self.slots, slot))
        } else {
            None
        }
    }

    /// Returns whether a slot is null. `slot` must be below `len`.
    pub fn is_null(&self, slot: usize) -> bool
        requires { slot < length (slot_values self.now) }
        ensures { (value : Value) → slice_get (slot_values self.now) slot ≡ Some value
            → result ≡ is_null value }
    {
        match self.layout {
            Layout::Null => true,
            Layout::Indices { .. } => matches!(self.at(slot), Slot::Null),
            _ => !is_valid(self.validity, slot),
        }
    }

    /// Returns the numbers of the column as they are laid out in the body, with the validity
    /// bitmap. Returns `None` if the column stores anything else; indices into a dictionary of
    /// numbers are no numbers.
    #[inline(always)]
    pub fn numbers(&self) -> Option<Numbers<'a>>
        // It lends exactly the columns of numbers.
        ensures lent { is_some result ≡ are_numbers self.now.column.layout }
        ensures numbers { IfSome result (λ numbers. AreNumbers self.now numbers) }
    {
        match self.layout {
            Layout::Numbers { bits, signed } => Some(Numbers {
                bits,
                signed,
                validity: self.validity,
                values: self.values,
            }),
            _ => None,
        }
    }

    /// Returns the buffers of the column as they are laid out in the body. They have the bytes that
    /// the slots need: a bit for each slot if there is a bitmap, the values, and offsets in order.
    #[inline(always)]
    pub fn buffers(&self) -> Buffers<'a>
        ensures { AreBuffers self.now result }
    {
        Buffers {
            layout: self.layout,
            validity: self.validity,
            offsets: self.offsets,
            values: self.values,
        }
    }

    /// Returns the validity bitmap, which marks exactly the null slots. It has no bytes if the
    /// column has no bitmap. Returns `None` for the null layout and for indices, where slots may be
    /// null without a mark.
    pub fn null_bitmap(&self) -> Option<&'a [u8]>
        ensures marks { IfSome result (λ marks. MarksNulls marks.now (slot_values self.now)) }
        ensures bits { IfSome result (λ marks.
            has_bitmap (length (slot_values self.now)) (length marks.now) ≡ true) }
    {
        match self.layout {
            Layout::Null | Layout::Indices { .. } => None,
            _ => Some(self.validity),
        }
    }

    /// Returns the layout of the slots, which defines what they hold.
    pub fn layout(&self) -> Layout
        ensures layout { result ≡ self.now.column.layout }
        ensures values { AllByRecursion (IsShownBy result) (slot_values self.now) }
    {
        layout_over(self.layout, self.values)
    }

    /// Returns the number of slots that the validity bitmap marks as null, or 0 without a bitmap. A
    /// slot of the null layout is null without a bitmap, and so may an index be.
    pub fn null_count(&self) -> u64
        ensures with_bitmap { 0 < length self.now.column.validity
            → result ≡ clear self.now.column.validity (length (slot_values self.now)) }
        ensures without_bitmap { length self.now.column.validity ≡ 0 → result ≡ 0 }
    {
        if self.validity.is_empty() {
            return 0;
        }
        count_clear(self.validity, self.slots)
    }

    /// Returns the index that a slot holds, that of the dictionary's value which it shows. `slot`
    /// must be below `len`. Returns `None` if the slot is null, if its index is not that of a
    /// value, or if the column has no dictionary.
    #[inline(always)]
    pub fn entry_at(&self, slot: usize) -> Option<usize>
        requires { slot < length (slot_values self.now) }
        ensures entry { IfSome result (λ i. HoldsEntry self.now slot i) }
        ensures none { IfNone result ((i : ℕ) → ¬ HoldsEntry self.now slot i) }
        ensures within { IfSome result (λ i. i < length self.now.column.dictionary) }
        ensures shows { IfSome result (λ i. slice_get self.now.column.dictionary i
            ≡ slice_get (slot_values self.now) slot) }
        // In a column of indices null is shown where there is none.
        ensures null { (bits : IntBits) (signed : Bool) (id : ℤ)
            → self.now.column.layout ≡ Indices bits signed id
            → IfNone result (slice_get (slot_values self.now) slot ≡ Some Null) }
    {
        let valid = is_valid(self.validity, slot);
        if !valid {
            return None;
        }
        let count = value_count(self.dictionary);
        match self.layout {
            Layout::Indices { bits, signed, .. } => {
                index_in(bits, signed, self.values, slot, count)
            }
            _ => None,
        }
    }

    /// Returns the slots of the values of the column's dictionary. They have no dictionary of their
    /// own. `None` comes only if the column has no values of a dictionary.
    pub fn entries(&self) -> Option<SlotView<'a>>
        ensures values { IfSome result
            (λ entries. slot_values entries ≡ self.now.column.dictionary) }
        ensures alone { IfSome result (λ entries. entries.column.dictionary ≡ []) }
        ensures none { IfNone result (self.now.column.dictionary ≡ []) }
    {
        self.dictionary?.slots()
    }

    /// Returns the number of children: one for a list or a fixed-size list, one for each member of
    /// a struct, and 0 otherwise.
    pub fn children(&self) -> usize
        ensures { result ≡ length self.now.children }
    {
        self.children.len()
    }

    /// Returns the slots of child `i`, which must be below `children`.
    pub fn child(&self, i: usize) -> SlotView<'a>
        requires { i < length self.now.children }
        ensures { slice_get (nested_in self.now) i ≡ Some result }
    {
        slots_of(self.body, &self.children[i])
    }
}

// The layout of slots over these bytes, each of which is below 256.
#[inline(always)]
fn layout_over(layout: Layout, bytes: &[u8]) -> Layout
    ensures layout { result ≡ layout }
    ensures bytes { (i : ℕ) → slice_index bytes.now i < 256 }
{
    let _bytes = bytes;
    layout
}

// The data from the beginning of the text in a slot, one of `slots`, and the number of bytes of the
// text.
#[inline(always)]
fn text_in<'a>(offsets: &[u8], values: &'a [u8], slots: usize, slot: usize) -> (&'a [u8], usize)
    requires slot { slot < slots }
    requires bytes { 4 * (slots + 1) ≤ length offsets.now }
    requires order { are_ascending offsets.now slots (length values.now) ≡ true }
    ensures inside { result.1 ≤ length result.0.now }
    ensures text { take result.1 result.0.now ≡ between offsets.now values.now slot }
{
    let start = place_at(offsets, slot);
    let end = place_at(offsets, slot + 1);
    (&values[start..], end - start)
}

/// Returns what a valid slot of a column without children or dictionary holds, one of its first
/// `slots`.
#[tactic(auto, using(crate::proofs::lending::Widths::slot_inside))]
#[inline(always)]
pub(crate) fn leaf_slot<'a>(
    layout: Layout,
    offsets: &[u8],
    values: &'a [u8],
    slots: usize,
    slot: usize,
) -> Slot<'a>
    requires slot { slot < slots }
    requires values { holds_values layout slots (length values.now) ≡ true }
    requires offsets { holds_offsets layout slots (length offsets.now) ≡ true }
    requires rise { in_order layout slots offsets.now (length values.now) none ≡ true }
    ensures value { has_no_children layout ≡ true → (below : ℕ → List Value) (i : ℕ)
        → value_in_slot below i result
        ≡ own_value layout [] (row none) offsets.now values.now slot }
    ensures leaf { good_below Fault.ValueNotUtf8 layout [] (good Fault.ValueNotUtf8 none)
        offsets.now values.now slot ≡ true → IsLeafSlot result }
    ensures inside { (children : Columns) (i : ℕ) → HasChildSlots children i result }
{
    match layout {
        Layout::Bits => Slot::Bool(bit(values, slot)),
        Layout::Numbers { bits, signed: true } => Slot::Int(signed_at(bits, values, slot)),
        Layout::Numbers {
            bits,
            signed: false,
        } => Slot::UInt(unsigned_at(bits, values, slot)),
        Layout::FixedBytes(width) => Slot::Bytes(bytes_of(width, values, slot)),
        Layout::VariableBytes { utf8: true } => {
            Slot::Text(bytes_between(offsets, values, slots, slot))
        }
        Layout::VariableBytes { utf8: false } => {
            Slot::Bytes(bytes_between(offsets, values, slots, slot))
        }
        Layout::Null
        | Layout::Lists
        | Layout::FixedLists(_)
        | Layout::Structs
        | Layout::Indices { .. } => Slot::Null,
    }
}

// What a valid slot holds, one of the first `slots`.
#[tactic(auto, using(crate::proofs::lending::Widths::slot_inside))]
#[inline(always)]
fn own_slot<'a>(
    layout: Layout,
    dictionary: Option<&'a DictionaryValues>,
    offsets: &[u8],
    values: &'a [u8],
    slots: usize,
    slot: usize,
    children: &[ColumnRanges],
) -> Slot<'a>
    requires slot { slot < slots }
    requires values { holds_values layout slots (length values.now) ≡ true }
    requires offsets { holds_offsets layout slots (length offsets.now) ≡ true }
    requires rise { (body : List ℕ) → in_order layout slots offsets.now (length values.now)
        (part_columns body children.now) ≡ true }
    requires long { (body : List ℕ) → children_have_slots layout slots
        (part_columns body children.now) ≡ true }
    ensures value { (body : List ℕ) → value_in_slot (row (part_columns body children.now)) slot
        result
        ≡ own_value layout (values_or_none dictionary.entry) (row (part_columns body children.now))
        offsets.now values.now slot }
    ensures inside { (body : List ℕ) → HasChildSlots (part_columns body children.now) slot result }
    ensures shown { (body : List ℕ)
        → ((why : Fault) → every (passes why) (part_columns body children.now) ≡ true)
        → good_below Fault.ValueNotUtf8 layout (values_or_none dictionary.entry)
        (good Fault.ValueNotUtf8 (part_columns body children.now)) offsets.now values.now slot
        ≡ true → RefersToValues (part_columns body children.now) slot result }
{
    match layout {
        Layout::Lists => Slot::List {
            from: place_at(offsets, slot),
            to: place_at(offsets, slot + 1),
        },
        Layout::FixedLists(size) => {
            let from = fixed_place(size, children, slot);
            let to = from + size as usize;
            Slot::List { from, to }
        }
        Layout::Structs => Slot::Struct,
        Layout::Indices { bits, signed, .. } => {
            indexed_slot(bits, signed, values, slot, dictionary)
        }
        _ => leaf_slot(layout, offsets, values, slots, slot),
    }
}

/// Returns the slots of a column with these buffers, without children or dictionary.
pub(crate) fn leaf_slots<'a>(
    layout: Layout,
    slots: usize,
    validity: &'a [u8],
    offsets: &'a [u8],
    values: &'a [u8],
) -> SlotView<'a>
    requires { AreFound (column_of_buffers layout slots validity.now offsets.now values.now [])
        none }
    ensures values { slot_values result ≡ values_in
        (column_of_buffers layout slots validity.now offsets.now values.now []) none }
    ensures alone { result.column.dictionary ≡ [] }
{
    SlotView {
        layout,
        slots,
        validity,
        offsets,
        values,
        dictionary: None,
        body: &[],
        children: &[],
    }
}

/// Returns the slots of a part's column.
pub(crate) fn slots_of<'a>(body: &'a [u8], part: &'a ColumnRanges) -> SlotView<'a>
    requires { AreFound (column_of body.now part.now) (children_of body.now part.now) }
    ensures { result ≡ nested body.now part.now }
{
    SlotView {
        layout: part.layout,
        slots: part.slots,
        validity: bytes_at(body, part.validity),
        offsets: bytes_at(body, part.offsets),
        values: bytes_at(body, part.values),
        dictionary: Some(&part.dictionary),
        body,
        children: &part.children,
    }
}

/// Returns the slots of a column of parts with `rows` rows.
pub(crate) fn slots_in<'a>(
    body: &'a [u8],
    parts: &'a [ColumnRanges],
    rows: usize,
    column: usize,
) -> SlotView<'a>
    requires holds { PassTests rows (part_columns body.now parts.now) }
    requires column { column < length parts.now }
    ensures column { slice_get (map (nested body.now) parts.now) column ≡ Some result }
    ensures layout { slice_get (map (λ n. n.column.layout) (map (nested body.now) parts.now)) column
        ≡ Some result.column.layout }
    ensures values { AreOfColumn (rows_of (part_columns body.now parts.now) rows) column
        (slot_values result) }
    ensures texts { (i : ℕ) → i < length (slot_values result)
        → HasUtf8Texts (only_column result) i }
{
    slots_of(body, &parts[column])
}
