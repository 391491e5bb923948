//! A column, found in its body once for all its rows.
ghost use Rattle.std.specs.Prelude.{◌≡◌, ◌<◌, ℕ, length, slice_get, Some};
ghost use Rattle.ipc_column.specs.Cells.{cell_value};
ghost use Rattle.ipc_column.specs.checks.Checks.{PassTests};
ghost use Rattle.ipc_column.specs.checks.Rules.{HasUtf8Texts};
ghost use Rattle.ipc_column.specs.Lent.{AreOfColumn};
ghost use Rattle.ipc_column.specs.Nested.{only_column, slot_values};
ghost use Rattle.ipc_column.specs.Values.{rows_of};
ghost use Rattle.ipc_column.specs.Views.{part_columns};

use crate::cell::Cell;
use crate::ranges::ColumnRanges;
use crate::slot_view::{SlotView, slots_in};
use std::marker::Model;

/// A column of a batch, lent: the slots that rows show. Contracts describe it as the list of its
/// values. It takes no memory.
#[derive(Debug, Drop)]
pub struct ColumnView<'a> {
    slots: SlotView<'a>,
}

impl<'a> Model for ColumnView<'a> {
    ghost use Rattle.std.specs.Coded.{codes};
    ghost use Rattle.ipc_model.specs.contracts.value.Value as value;
    ghost use Rattle.std.specs.Prelude.{ℕ, ◌<◌, length};
    ghost use Rattle.ipc_column.specs.checks.Rules.{HasUtf8Texts};
    ghost use Rattle.ipc_column.specs.Nested.{only_column, slot_values};
    ghost use Rattle.ipc_column.specs.Values.{Cells};

    ghost Value = { Cells };

    ghost coded = { Prim.hlevel (codes, value.the_row.coded) };

    ghost view = { λ s. slot_values s.slots };

    ghost invariant = { λ s. (i : ℕ) → i < length (slot_values s.slots)
        → HasUtf8Texts (only_column s.slots) i };
}

impl<'a> ColumnView<'a> {
    /// Returns the number of values, one for each row of the batch.
    #[inline(always)]
    pub fn len(&self) -> usize
        ensures { result ≡ length self.now }
    {
        self.slots.len()
    }

    /// Lends the value in a slot. `slot` must be below `len`.
    ///
    /// It equals what `Batch::cell` lends for the slot's row and this column.
    #[inline(always)]
    pub fn at(&self, slot: usize) -> Cell<'a>
        requires { slot < length self.now }
        ensures { slice_get self.now slot ≡ Some (cell_value result) }
    {
        self.slots.cell(slot)
    }

    /// Returns slots with the values of the column. Use it to read a whole column of lists or
    /// structs without a `Cell` for each. No clause states that they have the column's buffers and
    /// children; that of `Batch::slots` does.
    #[inline(always)]
    pub fn slots(self) -> SlotView<'a>
        ensures values { slot_values result ≡ self.entry }
        // Each text that they lead to is UTF-8.
        ensures texts { (i : ℕ) → i < length self.entry → HasUtf8Texts (only_column result) i }
    {
        let ColumnView { slots } = self;
        slots
    }
}

/// Returns a column of parts with `rows` rows.
pub(crate) fn view_in<'a>(
    body: &'a [u8],
    parts: &'a [ColumnRanges],
    rows: usize,
    column: usize,
) -> ColumnView<'a>
    requires holds { PassTests rows (part_columns body.now parts.now) }
    requires column { column < length parts.now }
    ensures { AreOfColumn (rows_of (part_columns body.now parts.now) rows) column result }
{
    ColumnView {
        slots: slots_in(body, parts, rows, column),
    }
}
