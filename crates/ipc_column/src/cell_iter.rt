//! Iterators over the values of lists and structs that a batch lends.
ghost use Rattle.std.specs.Prelude.{◌≡◌};
ghost use Rattle.std.specs.Iterator.{YieldsFirstBy, item_count};
ghost use Rattle.ipc_column.specs.Cells.{cell_value};

use crate::cell::{Cell, ListCell, StructCell};
use std::marker::Model;

/// Iterates over the values of a list, lent by its batch. Contracts describe it as the list of the
/// remaining values. It takes no memory.
#[derive(Debug, Drop)]
pub struct ListIter<'a> {
    rest: ListCell<'a>,
}

impl<'a> Model for ListIter<'a> {
    ghost use Rattle.std.specs.Coded.{codes};
    ghost use Rattle.ipc_model.specs.contracts.value.Value as value;
    ghost use Rattle.ipc_column.specs.Values.{Cells};

    ghost Value = { Cells };

    ghost coded = { Prim.hlevel (codes, value.the_row.coded) };

    ghost view = { λ s. s.rest };
}

impl<'a> Iterator for ListIter<'a> {
    type Item = Cell<'a>;

    ghost next_gives = { YieldsFirstBy cell_value (λ s. s) };

    ghost remaining = { item_count (λ s. s) };

    fn next(&mut self) -> Option<Cell<'a>> {
        self.rest.pop_first()
    }
}

/// Iterates over the values of a struct, lent by its batch. Contracts describe it as the list of
/// the remaining values. It takes no memory.
#[derive(Debug, Drop)]
pub struct StructIter<'a> {
    rest: StructCell<'a>,
}

impl<'a> Model for StructIter<'a> {
    ghost use Rattle.std.specs.Coded.{codes};
    ghost use Rattle.ipc_model.specs.contracts.value.Value as value;
    ghost use Rattle.ipc_column.specs.Values.{Cells};

    ghost Value = { Cells };

    ghost coded = { Prim.hlevel (codes, value.the_row.coded) };

    ghost view = { λ s. s.rest };
}

impl<'a> Iterator for StructIter<'a> {
    type Item = Cell<'a>;

    ghost next_gives = { YieldsFirstBy cell_value (λ s. s) };

    ghost remaining = { item_count (λ s. s) };

    fn next(&mut self) -> Option<Cell<'a>> {
        self.rest.pop_first()
    }
}

/// Returns the values of a list one by one.
pub(crate) fn list_iter(list: ListCell<'_>) -> ListIter<'_>
    ensures { result ≡ list.entry }
{
    ListIter { rest: list }
}

/// Returns the values of a struct one by one.
pub(crate) fn struct_iter(values: StructCell<'_>) -> StructIter<'_>
    ensures { result ≡ values.entry }
{
    StructIter { rest: values }
}
