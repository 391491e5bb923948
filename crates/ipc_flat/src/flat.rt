ghost use Rattle.std.specs.Prelude.{◌≡◌};
ghost use Rattle.ipc_flat.specs.Views.{table_from};

use crate::fault::FlatFault;
use crate::table::TableRef;

/// Bytes in the FlatBuffers binary format.
///
/// Only what is read is validated: each accessor returns what the bytes denote there, or a
/// `FlatFault` exactly if they are ill-formed. A field that is not read may hold anything.
/// Positions need no alignment, and the zero byte after a string is not read. A field is bounded by
/// the bytes, not by its table's stated inline size.
pub struct Flat {}

impl Flat {
    /// Returns the root table of `bytes`, to which the offset in their first four bytes points
    /// ("Format Components").
    ///
    /// Errors: `OffsetZero` if that offset is 0; `OutOfBounds` if the offset, its target or the
    /// table's first four bytes end after the bytes; `BadVtable` if there is no vtable where the
    /// table states it.
    pub fn root(bytes: &[u8]) -> Result<TableRef<'_>, FlatFault>
        ensures { result ≡ table_from bytes.now 0 }
    {
        TableRef::from(bytes, 0)
    }
}
