ghost use Rattle.std.specs.Prelude.{◌≡◌, ◌<◌, ◌+◌, ◌-◌, length, Some, slice_get};
ghost use Rattle.std.specs.Iterator.{YieldsFirstBy};
ghost use Rattle.ipc_column.specs.Cells.{cell_value};
ghost use Rattle.ipc_column.specs.checks.Checks.{PassTests};
ghost use Rattle.ipc_column.specs.Lent.{HaveValues, HasValue};
ghost use Rattle.ipc_column.specs.Slots.{RefersToValues, value_in_slot};
ghost use Rattle.ipc_column.specs.Values.{value_of, row, values_from, first_at};
ghost use Rattle.ipc_column.specs.Views.{part_columns, column_of, children_of};

use crate::cell_iter::{ListIter, StructIter, list_iter, struct_iter};
use crate::ranges::ColumnRanges;
use crate::slot_view::{Slot, slots_of};
use crate::texts::text_of;
use std::marker::Model;

/// The value in a slot of a column, lent by its batch.
#[derive(Debug, Drop)]
pub enum Cell<'a> {
    /// The slot is null.
    Null,
    /// A boolean.
    Bool(bool),
    /// A signed number.
    Int(i64),
    /// An unsigned number.
    UInt(u64),
    /// Bytes of the body.
    Bytes(&'a [u8]),
    /// Bytes of the body that are UTF-8.
    Text(&'a str),
    /// The values of a list.
    List(ListCell<'a>),
    /// The values of a struct, one for each child.
    Struct(StructCell<'a>),
}

/// The values of a list, lent by its batch. Contracts describe it as a list. It takes no memory.
#[derive(Debug, Drop)]
pub struct ListCell<'a> {
    body: &'a [u8],
    parts: &'a [ColumnRanges],
    from: usize,
    to: usize,
}

impl<'a> Model for ListCell<'a> {
    ghost use Rattle.std.specs.Prelude.{◌-◌};
    ghost use Rattle.std.specs.Coded.{codes};
    ghost use Rattle.ipc_model.specs.contracts.value.Value as value;
    ghost use Rattle.ipc_column.specs.Values.{Cells};

    ghost Value = { Cells };

    ghost coded = { Prim.hlevel (codes, value.the_row.coded) };

    ghost use Rattle.ipc_column.specs.Lent.{HaveValues};
    ghost use Rattle.ipc_column.specs.Values.{values_from, first_at};
    ghost use Rattle.ipc_column.specs.Views.{part_columns};

    ghost view = { λ s. values_from (first_at (part_columns s.body.now s.parts.now)) s.from
        (s.to - s.from) };

    ghost invariant = { λ s. HaveValues (part_columns s.body.now s.parts.now) s.from s.to };
}

impl<'a> ListCell<'a> {
    /// Returns the number of values.
    pub fn len(&self) -> usize
        ensures { result ≡ length self.now }
    {
        self.to - self.from
    }

    /// Lends value `i`, which must be below `len`.
    pub fn at(&self, i: usize) -> Cell<'a>
        requires { i < length self.now }
        ensures { slice_get self.now i ≡ Some (cell_value result) }
    {
        item_at(self.body, self.parts, self.from, self.to, i)
    }

    /// Returns an iterator over the values, in order, each lent by the batch.
    pub fn iter(&self) -> ListIter<'a>
        ensures { result ≡ self.now }
    {
        list_iter(list_of(self.body, self.parts, self.from, self.to))
    }

    /// Takes off the first value, and lends it. Returns `None` if there is none.
    pub(crate) fn pop_first(&mut self) -> Option<Cell<'a>>
        ensures { YieldsFirstBy cell_value (λ s. s) self.old result self.new }
    {
        if self.from == self.to {
            return None;
        }
        let cell = item_at(self.body, self.parts, self.from, self.to, 0);
        self.from += 1;
        Some(cell)
    }
}

/// The values of a struct, one for each child of its field, lent by its batch. Contracts describe
/// it as a list. It takes no memory.
#[derive(Debug, Drop)]
pub struct StructCell<'a> {
    body: &'a [u8],
    parts: &'a [ColumnRanges],
    slot: usize,
}

impl<'a> Model for StructCell<'a> {
    ghost use Rattle.std.specs.Prelude.{◌+◌};
    ghost use Rattle.std.specs.Coded.{codes};
    ghost use Rattle.ipc_model.specs.contracts.value.Value as value;
    ghost use Rattle.ipc_column.specs.Values.{Cells};

    ghost Value = { Cells };

    ghost coded = { Prim.hlevel (codes, value.the_row.coded) };

    ghost use Rattle.ipc_column.specs.Lent.{HaveValues};
    ghost use Rattle.ipc_column.specs.Values.{row};
    ghost use Rattle.ipc_column.specs.Views.{part_columns};

    ghost view = { λ s. row (part_columns s.body.now s.parts.now) s.slot };

    ghost invariant = { λ s. HaveValues (part_columns s.body.now s.parts.now) s.slot (s.slot + 1) };
}

impl<'a> StructCell<'a> {
    /// Returns the number of values, one for each child.
    pub fn len(&self) -> usize
        ensures { result ≡ length self.now }
    {
        self.parts.len()
    }

    /// Lends the value of child `i`, which must be below `len`.
    pub fn at(&self, i: usize) -> Cell<'a>
        requires { i < length self.now }
        ensures { slice_get self.now i ≡ Some (cell_value result) }
    {
        member_at(self.body, self.parts, self.slot, i)
    }

    /// Returns an iterator over the values, one for each child in order, each lent by the batch.
    pub fn iter(&self) -> StructIter<'a>
        ensures { result ≡ self.now }
    {
        struct_iter(struct_of(self.body, self.parts, self.slot))
    }

    /// Takes off the first value, and lends it. Returns `None` if there is none.
    pub(crate) fn pop_first(&mut self) -> Option<Cell<'a>>
        ensures { YieldsFirstBy cell_value (λ s. s) self.old result self.new }
    {
        let (part, others) = self.parts.split_first()?;
        let cell = cell_at(self.body, part, self.slot);
        self.parts = others;
        Some(cell)
    }
}

// The values of a range of slots of the first of the parts.
fn list_of<'a>(body: &'a [u8], parts: &'a [ColumnRanges], from: usize, to: usize) -> ListCell<'a>
    requires { HaveValues (part_columns body.now parts.now) from to }
    ensures { result ≡ values_from (first_at (part_columns body.now parts.now)) from (to - from) }
{
    ListCell {
        body,
        parts,
        from,
        to,
    }
}

// The values of a slot of each part.
fn struct_of<'a>(body: &'a [u8], parts: &'a [ColumnRanges], slot: usize) -> StructCell<'a>
    requires { HaveValues (part_columns body.now parts.now) slot (slot + 1) }
    ensures { result ≡ row (part_columns body.now parts.now) slot }
{
    StructCell { body, parts, slot }
}

/// Returns what slot `i` of a column with these children shows, by what it holds.
#[inline(always)]
pub(crate) fn cell_of<'a>(
    held: Slot<'a>,
    body: &'a [u8],
    children: &'a [ColumnRanges],
    i: usize,
) -> Cell<'a>
    requires { RefersToValues (part_columns body.now children.now) i held }
    ensures { cell_value result
        ≡ value_in_slot (row (part_columns body.now children.now)) i held.entry }
{
    match held {
        Slot::Null => Cell::Null,
        Slot::Bool(truth) => Cell::Bool(truth),
        Slot::Int(number) => Cell::Int(number),
        Slot::UInt(number) => Cell::UInt(number),
        Slot::Bytes(bytes) => Cell::Bytes(bytes),
        Slot::Text(bytes) => Cell::Text(text_of(bytes)),
        Slot::List { from, to } => Cell::List(list_of(body, children, from, to)),
        Slot::Struct => Cell::Struct(struct_of(body, children, i)),
    }
}

/// Returns what a slot of a part holds.
#[inline(always)]
pub(crate) fn held_at<'a>(body: &'a [u8], part: &'a ColumnRanges, slot: usize) -> Slot<'a>
    requires { HasValue (column_of body.now part.now) (children_of body.now part.now) slot }
    ensures value { value_in_slot (row (children_of body.now part.now)) slot result
        ≡ value_of (row (children_of body.now part.now)) (column_of body.now part.now) slot }
    ensures shown { RefersToValues (children_of body.now part.now) slot result }
{
    slots_of(body, part).at(slot)
}

/// Returns the value in a slot of a part.
#[inline(always)]
pub(crate) fn cell_at<'a>(body: &'a [u8], part: &'a ColumnRanges, slot: usize) -> Cell<'a>
    requires { HasValue (column_of body.now part.now) (children_of body.now part.now) slot }
    ensures value { cell_value result ≡ value_of (row (children_of body.now part.now))
        (column_of body.now part.now) slot }
{
    cell_of(held_at(body, part, slot), body, &part.children, slot)
}

/// Returns value `i` of a range of slots of the first part.
pub(crate) fn item_at<'a>(
    body: &'a [u8],
    parts: &'a [ColumnRanges],
    from: usize,
    to: usize,
    i: usize,
) -> Cell<'a>
    requires range { HaveValues (part_columns body.now parts.now) from to }
    requires inside { i < to - from }
    ensures { slice_get (values_from (first_at (part_columns body.now parts.now)) from (to - from))
        i ≡ Some (cell_value result) }
{
    if parts.is_empty() {
        Cell::Null
    } else {
        cell_at(body, &parts[0], from + i)
    }
}

// The value in a slot of part `i`.
#[inline(always)]
fn member_at<'a>(body: &'a [u8], parts: &'a [ColumnRanges], slot: usize, i: usize) -> Cell<'a>
    requires values { HaveValues (part_columns body.now parts.now) slot (slot + 1) }
    requires inside { i < length parts.now }
    ensures { slice_get (row (part_columns body.now parts.now) slot) i ≡ Some (cell_value result) }
{
    cell_at(body, &parts[i], slot)
}

/// Returns the value in a row and a column of parts with `rows` rows.
#[inline(always)]
pub(crate) fn cell_in<'a>(
    body: &'a [u8],
    parts: &'a [ColumnRanges],
    rows: usize,
    at: usize,
    column: usize,
) -> Cell<'a>
    requires holds { PassTests rows (part_columns body.now parts.now) }
    requires row { at < rows }
    requires column { column < length parts.now }
    ensures { slice_get (row (part_columns body.now parts.now) at) column
        ≡ Some (cell_value result) }
{
    member_at(body, parts, at, column)
}
