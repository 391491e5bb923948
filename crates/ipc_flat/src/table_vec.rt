ghost use Rattle.std.specs.Prelude.{◌≡◌, ◌+◌, ◌*◌, ◌<◌};
ghost use Rattle.ipc_flat.specs.Views.{elements_from, table_from};

use crate::fault::FlatFault;
use crate::offset::elements_at;
use crate::table::TableRef;
use std::marker::Model;

/// A vector of tables in borrowed bytes: offsets of four bytes, one after another ("Strings and
/// Vectors"). Contracts describe it as `Elements`: the bytes, the position of the first offset, and
/// the number of offsets.
#[derive(Drop)]
pub struct TableVec<'a> {
    bytes: &'a [u8],
    at: usize,
    len: usize,
}

impl<'a> Model for TableVec<'a> {
    ghost use Rattle.std.specs.Prelude.{◌≤◌, ◌+◌, ◌*◌, length};
    ghost use Rattle.ipc_flat.specs.Views.{Elements};

    ghost Value = { Elements };

    ghost view = { λ v. record { bytes = v.bytes.now; at = v.at; len = v.len } };

    ghost invariant = { λ v. v.at + v.len * 4 ≤ length v.bytes.now };
}

impl<'a> TableVec<'a> {
    // The vector to which the offset at a place points.
    #[tactic(auto, unfolding(crate::specs::Views::elements_from))]
    pub(crate) fn from(bytes: &'a [u8], at: usize) -> Result<TableVec<'a>, FlatFault>
        ensures { result ≡ elements_from 4 bytes.now at }
    {
        let (at, len) = elements_at(bytes, at, 4)?;
        Ok(TableVec { bytes, at, len })
    }

    /// Returns the number of tables.
    pub fn len(&self) -> usize
        ensures { result ≡ self.now.len }
    {
        self.len
    }

    /// Returns table `i`, to which offset `i` points. `i` must be below `len()`.
    ///
    /// Errors: `OffsetZero` if the offset is 0; `OutOfBounds` if its target or the table's first
    /// four bytes end after the bytes; `BadVtable` if there is no vtable where the table states it.
    pub fn at(&self, i: usize) -> Result<TableRef<'a>, FlatFault>
        requires { i < self.now.len }
        ensures { result ≡ table_from self.now.bytes (self.now.at + i * 4) }
    {
        TableRef::from(self.bytes, self.at + i * 4)
    }
}
