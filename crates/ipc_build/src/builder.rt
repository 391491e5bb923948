//! Writes a whole tree.
ghost use Rattle.std.specs.Prelude.{◌≡◌, ◌≤◌, ◌<◌, ◌+◌, ◌*◌, ◌/◌, ◌^◌, ◌↔◌, ◌++◌, ℕ, List, length};
ghost use Rattle.std.specs.Prelude.{IfOk, IsErrOf};
ghost use Rattle.ipc_build.specs.declared.fault.BuildFault.TheVariants.{TooLarge};
ghost use Rattle.ipc_build.specs.Trees.{view};
ghost use Rattle.ipc_build.specs.Layout.{as_vector, targets_end, buffer};
ghost use Rattle.ipc_build.specs.Encodes.{Encodes, Aligned};
ghost use Rattle.ipc_build.specs.Ascends.{fields, Ascends, Writable};
ghost use Rattle.ipc_build.specs.Room.{room, size};

use crate::fault::BuildFault;
use crate::places::table_place;
use crate::room::room;
use crate::scalars::push_u32;
use crate::tables::write_table;
use crate::tree::FlatTree;
use std::alloc::{AllocError, Global};

// The root offset, the root table and all below it.
fn write_buffer(out: &mut Vec<u8>, tree: &FlatTree) -> Result<(), AllocError>
    requires writable { Writable (fields 0) (view tree.now) }
    requires empty { length out.old.items ≡ 0 }
    requires small { targets_end (as_vector (view tree.now)) 4 < 2 ^ 31 }
    ensures { IfOk result (λ _. out.new.items ≡ out.old.items ++ buffer (view tree.now)) }
{
    push_u32(out, table_place(tree, 4) as u32)?;
    write_table(out, tree, 4)?;
    Ok(())
}

/// Returns the bytes of a buffer whose root table is `tree`, in the FlatBuffers binary format.
///
/// The bytes denote the tree, also if other bytes follow them, for example padding. Every scalar,
/// offset, count and vtable entry is at a multiple of its width from their first byte. They begin
/// with the root offset, and have neither a file identifier nor their own size.
///
/// Padded to a multiple of 8 they are at most as long as the tree's size bound, the sum of:
///
/// - 16 bytes;
/// - for each table 24 bytes, and 10 for each entry of its vtable;
/// - for each text 8 bytes, and its own bytes;
/// - for each vector of tables 12 bytes, and 4 for each table;
/// - for each vector of pairs 12 bytes, and 16 for each pair.
///
/// In each table the slots' numbers must ascend and be below 16. Each slot is
/// visited a few times, so the time is proportional to the slots and the bytes.
///
/// `greatest` is the maximum size bound of the tree. It must be below 2^31, because the format's
/// offsets are signed numbers of 32 bits.
///
/// Errors: `TooLarge` exactly if the size bound is above `greatest`; `OutOfMemory` only if memory
/// for the bytes ran out.
pub fn build(alloc: Global, tree: &FlatTree, greatest: u64) -> Result<Vec<u8>, BuildFault>
    requires ascends { Ascends (fields 0) (view tree.now) }
    requires limit { greatest < 2 ^ 31 }
    ensures lies { IfOk result
        (λ bytes. (rest : List ℕ) → Encodes (bytes.items ++ rest) (view tree.now)) }
    ensures aligned { IfOk result (λ bytes. Aligned bytes.items (view tree.now)) }
    ensures size { IfOk result (λ bytes. length bytes.items ≡ size (view tree.now)) }
    ensures room { IfOk result (λ bytes. (length bytes.items + 7) / 8 * 8 ≤ room (view tree.now)) }
    ensures too_large { IsErrOf result TooLarge ↔ (greatest < room (view tree.now)) }
{
    if room(tree, greatest as usize).is_none() {
        return Err(BuildFault::TooLarge);
    }
    let mut out = Vec::new(alloc);
    match write_buffer(&mut out, tree) {
        Ok(()) => Ok(out),
        Err(_) => Err(BuildFault::OutOfMemory),
    }
}
