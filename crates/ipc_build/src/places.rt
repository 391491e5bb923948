//! The positions where tables, strings and vectors begin and end.
ghost use Rattle.std.specs.Prelude.{◌≡◌, ◌≤◌, ◌<◌, ◌^◌};
ghost use Rattle.ipc_build.specs.Trees.{view, fields_view};
ghost use Rattle.ipc_build.specs.Layout.{prefix_place, entry_count, table_place};

use crate::tree::{FlatTree, Slot};

// The first place from `p` on at which 4 bytes end at a multiple of 8.
pub(crate) fn prefix_place(p: usize) -> usize
    requires { p < 2 ^ 33 }
    ensures { result ≡ prefix_place p }
{
    (p + 3) / 8 * 8 + 4
}

// How many entries the vtable of these fields has: one more than the last field's number.
#[tactic(auto, unfolding(crate::specs::Layout::entry_count))]
pub(crate) fn entry_count(slots: &[(u16, Slot)]) -> usize
    ensures value { result ≡ entry_count 0 (fields_view slots.now) }
    ensures small { result ≤ 2 ^ 16 }
{
    let mut count = 0;
    for (number, _) in slots {
        count = usize::from(*number) + 1;
    }
    count
}

// The position of the table whose vtable is at `p`.
pub(crate) fn table_place(tree: &FlatTree, p: usize) -> usize
    requires { p < 2 ^ 32 }
    ensures { result ≡ table_place (view tree.now) p }
{
    prefix_place(p + 4 + 2 * entry_count(tree.slots.as_slice()))
}
