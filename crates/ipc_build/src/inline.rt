//! Writes the inline parts of a table: scalars and offsets.
ghost use Rattle.std.specs.Prelude.{◌≡◌, ◌≤◌, ◌<◌, ◌^◌};
ghost use Rattle.ipc_build.specs.Trees.{node};
ghost use Rattle.ipc_build.specs.Layout.{inline_value};

use crate::places::{prefix_place, table_place};
use crate::tree::Slot;

// The number at `h` for a field: its scalar, or the offset of what begins at `p`.
pub(crate) fn inline_value(slot: &Slot, h: usize, p: usize) -> u64
    requires before { h ≤ p }
    requires small { p < 2 ^ 32 }
    ensures { result ≡ inline_value (node slot.now).0 (node slot.now).1 h p }
{
    match slot {
        Slot::U8(x) => u64::from(*x),
        Slot::Bool(x) => u64::from(*x),
        Slot::I16(x) => u64::from(x.cast_unsigned()),
        Slot::I32(x) => u64::from(x.cast_unsigned()),
        Slot::I64(x) => x.cast_unsigned(),
        Slot::Text(_) | Slot::Tables(_) => (p - h) as u64,
        Slot::Table(tree) => (table_place(tree, p) - h) as u64,
        Slot::Pairs(_) => (prefix_place(p) - h) as u64,
    }
}
