ghost use Rattle.std.specs.Prelude.{◌≡◌, ◌+◌, ◌*◌, ◌<◌, slice_range, length};
ghost use Rattle.ipc_flat.specs.Views.{structs_from};

use crate::fault::FlatFault;
use crate::offset::elements_at;
use std::marker::Model;

/// A vector of structs in borrowed bytes: each of one width, one after another ("Structs", "Strings
/// and Vectors"). Contracts describe it as `Structs`: the bytes, the position of the first struct,
/// the number of structs, and their width in bytes.
#[derive(Drop)]
pub struct StructVec<'a> {
    bytes: &'a [u8],
    at: usize,
    len: usize,
    width: usize,
}

impl<'a> Model for StructVec<'a> {
    ghost use Rattle.std.specs.Prelude.{◌≤◌, ◌+◌, ◌*◌, length};
    ghost use Rattle.ipc_flat.specs.Views.{Structs};

    ghost Value = { Structs };

    ghost view = { λ v. record { bytes = v.bytes.now; at = v.at; len = v.len; width = v.width } };

    ghost invariant = { λ v. v.at + v.len * v.width ≤ length v.bytes.now };
}

impl<'a> StructVec<'a> {
    // The vector to which the offset at a place points.
    #[tactic(auto, unfolding(crate::specs::Views::structs_from))]
    pub(crate) fn from(bytes: &'a [u8], at: usize, width: usize) -> Result<StructVec<'a>, FlatFault>
        ensures { result ≡ structs_from width bytes.now at }
    {
        let (at, len) = elements_at(bytes, at, width)?;
        Ok(StructVec {
            bytes,
            at,
            len,
            width,
        })
    }

    /// Returns the number of structs.
    pub fn len(&self) -> usize
        ensures { result ≡ self.now.len }
    {
        self.len
    }

    /// Returns the bytes of struct `i`, which are `width` bytes. `i` must be below `len()`.
    pub fn at(&self, i: usize) -> &'a [u8]
        requires { i < self.now.len }
        ensures bytes { result.now ≡ slice_range self.now.bytes (self.now.at + i * self.now.width)
            (self.now.at + (i + 1) * self.now.width) }
        ensures len { length result.now ≡ self.now.width }
    {
        let start = self.at + i * self.width;
        &self.bytes[start..start + self.width]
    }
}
