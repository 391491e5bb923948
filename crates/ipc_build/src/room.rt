//! Computes the size bound of a tree before any byte is written.
ghost use Rattle.std.specs.Prelude.{◌≤◌, ◌<◌, ◌+◌, ◌*◌, ◌^◌, length, ⊤};
ghost use Rattle.ipc_build.specs.Trees.{node, view, fields_view, tables_view};
ghost use Rattle.ipc_build.specs.Layout.{entry_count};
ghost use Rattle.ipc_build.specs.Ascends.{IsInRange, InRange, PairsFit};
ghost use Rattle.ipc_build.specs.Room.{CountsBytes, room, target_room, targets_room};

use crate::places::entry_count;
use crate::tree::{FlatTree, Slot};

// Returns a size with what is added to it: `fixed` bytes, and `width` bytes for each of `count`.
// `None` if that is above `greatest`.
fn add(size: usize, fixed: usize, width: usize, count: usize, greatest: usize) -> Option<usize>
    requires limit { greatest < 2 ^ 31 }
    requires size { size ≤ greatest }
    requires fixed { fixed ≤ 2 ^ 10 }
    requires width { width ≤ 2 ^ 10 }
    requires some { 1 ≤ width }
    ensures { CountsBytes greatest (size + (fixed + width * count)) ⊤ result }
{
    if count > greatest {
        return None;
    }
    let sum = size + (fixed + width * count);
    if sum > greatest {
        return None;
    }
    Some(sum)
}

// Returns a size with that of a vector of pairs, or `None` above `greatest`. The loop reads the
// numbers, since a number that was read is known to be in the range of its type.
fn pairs_room(pairs: &[(i64, i64)], size: usize, greatest: usize) -> Option<usize>
    requires limit { greatest < 2 ^ 31 }
    requires size { size ≤ greatest }
    ensures { CountsBytes greatest (size + (12 + 16 * length pairs.now)) (PairsFit pairs.now)
        result }
{
    for &(_first, _second) in pairs {}
    add(size, 12, 16, pairs.len(), greatest)
}

// Returns a size with that of a text, or `None` above `greatest`.
fn text_room(text: &str, size: usize, greatest: usize) -> Option<usize>
    requires limit { greatest < 2 ^ 31 }
    requires size { size ≤ greatest }
    ensures { CountsBytes greatest (size + (8 + length text.now)) ⊤ result }
{
    add(size, 8, 1, text.len(), greatest)
}

// Returns a size with that of what a field points to, or `None` above `greatest`. A scalar takes
// nothing beside its place in the table; its arm reads it, and so its range is known.
#[cycle(targets_room)]
fn target_room(slot: &Slot, size: usize, greatest: usize) -> Option<usize>
    requires limit { greatest < 2 ^ 31 }
    requires size { size ≤ greatest }
    ensures { CountsBytes greatest (size + target_room (node slot.now).0 (node slot.now).1
        (targets_room (node slot.now).1))
        (IsInRange (node slot.now).0 × InRange (node slot.now).1) result }
{
    match *slot {
        Slot::U8(_number) => Some(size),
        Slot::Bool(_) => Some(size),
        Slot::I16(_number) => Some(size),
        Slot::I32(_number) => Some(size),
        Slot::I64(_number) => Some(size),
        Slot::Text(ref text) => text_room(text.as_str(), size, greatest),
        Slot::Table(ref tree) => table_room(tree, size, greatest),
        Slot::Tables(ref trees) => vector_room(trees.as_slice(), size, greatest),
        Slot::Pairs(ref pairs) => pairs_room(pairs.as_slice(), size, greatest),
    }
}

// Returns a size with that of a table and all below it, or `None` above `greatest`.
#[cycle(targets_room)]
fn table_room(tree: &FlatTree, size: usize, greatest: usize) -> Option<usize>
    requires limit { greatest < 2 ^ 31 }
    requires size { size ≤ greatest }
    ensures { CountsBytes greatest (size + (24 + 10 * entry_count 0 (view tree.now)
        + targets_room (view tree.now))) (InRange (view tree.now)) result }
{
    let slots = tree.slots.as_slice();
    let size = add(size, 24, 10, entry_count(slots), greatest)?;
    targets_room(slots, size, greatest)
}

// Returns a size with that of all that the fields of a table point to, or `None` above `greatest`.
#[cycle(targets_room)]
fn targets_room(slots: &[(u16, Slot)], size: usize, greatest: usize) -> Option<usize>
    requires limit { greatest < 2 ^ 31 }
    requires size { size ≤ greatest }
    ensures { CountsBytes greatest (size + targets_room (fields_view slots.now))
        (InRange (fields_view slots.now)) result }
{
    let mut sum = size;
    for (_, slot) in slots {
        sum = target_room(slot, sum, greatest)?;
    }
    Some(sum)
}

// Returns a size with that of a vector of tables, or `None` above `greatest`.
#[cycle(targets_room)]
fn vector_room(trees: &[FlatTree], size: usize, greatest: usize) -> Option<usize>
    requires limit { greatest < 2 ^ 31 }
    requires size { size ≤ greatest }
    ensures { CountsBytes greatest
        (size + (12 + 4 * length trees.now + targets_room (tables_view trees.now)))
        (InRange (tables_view trees.now)) result }
{
    let size = add(size, 12, 4, trees.len(), greatest)?;
    elements_room(trees, size, greatest)
}

// Returns a size with that of the tables of a vector, or `None` above `greatest`.
#[cycle(targets_room)]
fn elements_room(trees: &[FlatTree], size: usize, greatest: usize) -> Option<usize>
    requires limit { greatest < 2 ^ 31 }
    requires size { size ≤ greatest }
    ensures { CountsBytes greatest (size + targets_room (tables_view trees.now))
        (InRange (tables_view trees.now)) result }
{
    let mut sum = size;
    for tree in trees {
        sum = table_room(tree, sum, greatest)?;
    }
    Some(sum)
}

// The room of a tree, where that is at most `greatest`.
pub(crate) fn room(tree: &FlatTree, greatest: usize) -> Option<usize>
    requires { greatest < 2 ^ 31 }
    ensures { CountsBytes greatest (room (view tree.now)) (InRange (view tree.now)) result }
{
    if greatest < 16 {
        return None;
    }
    table_room(tree, 16, greatest)
}
