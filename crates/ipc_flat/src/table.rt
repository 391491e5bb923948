ghost use Rattle.std.specs.Prelude.{◌≡◌, ◌≤◌, ◌<◌, ◌+◌, ◌^◌, length, IfOk, IfSome, option_map};
ghost use Rattle.ipc_scalar.specs.Bytes.{byte, int16, int32, int64};
ghost use Rattle.ipc_flat.specs.Flat.{back_of, field_place, text_of};
ghost use Rattle.ipc_flat.specs.Views.{IsAnswer, table_at, table_from, scalar, field};
ghost use Rattle.ipc_flat.specs.Views.{elements_from, structs_from};

use crate::fault::FlatFault;
use crate::offset::{target, text_at};
use crate::struct_vec::StructVec;
use crate::table_vec::TableVec;
use ipc_scalar::{get_i32, get_i64, get_u16};
use std::marker::Model;

/// A table in borrowed bytes, whose vtable was found ("Tables"). Contracts describe it as a
/// `TableView`: the bytes and its position in them.
///
/// A field's `id` is its number, from 0. A field is absent if the vtable ends before its
/// entry, or the entry is 0. If it is present and its inline bytes end after the bytes, every
/// accessor returns `OutOfBounds`. The inline bytes are those of a number, or the four bytes of an
/// offset.
#[derive(Drop)]
pub struct TableRef<'a> {
    bytes: &'a [u8],
    at: usize,
    vtable: usize,
    size: usize,
}

impl<'a> Model for TableRef<'a> {
    ghost use Rattle.ipc_flat.specs.Views.{TableView, IsTableAt};

    ghost Value = { TableView };

    ghost view = { λ t. record { bytes = t.bytes.now; at = t.at } };

    ghost invariant = { λ t. IsTableAt t.bytes.now t.at t.vtable t.size };
}

// The place that is a signed distance before `at`, or `None` where that is before the first byte.
fn back_from(at: usize, distance: i32) -> Option<usize>
    requires { at < 2 ^ 63 }
    ensures { result ≡ back_of at distance }
{
    let far = distance.unsigned_abs() as usize;
    if distance < 0 {
        Some(at + far)
    } else {
        at.checked_sub(far)
    }
}

impl<'a> TableRef<'a> {
    // The table at a place.
    #[tactic(auto, unfolding(crate::specs::Flat::vtable_of, crate::specs::Views::table_at))]
    fn at(bytes: &'a [u8], at: usize) -> Result<TableRef<'a>, FlatFault>
        ensures { result ≡ table_at bytes.now at }
    {
        let distance = get_i32(bytes, at).ok_or(FlatFault::OutOfBounds)?;
        let vtable = back_from(at, distance).ok_or(FlatFault::BadVtable)?;
        let size = usize::from(get_u16(bytes, vtable).ok_or(FlatFault::BadVtable)?);
        if size < 4 || size % 2 != 0 || size > bytes.len() - vtable {
            return Err(FlatFault::BadVtable);
        }
        Ok(TableRef {
            bytes,
            at,
            vtable,
            size,
        })
    }

    // The place of a field of `width` bytes, or `None` where the field is absent.
    #[tactic(auto, unfolding(crate::specs::Flat::field_place))]
    fn place(&self, id: u16, width: usize) -> Result<Option<usize>, FlatFault>
        requires { width ≤ 8 }
        ensures place { result ≡ field_place self.now.bytes self.now.at id width }
        ensures inside { IfOk result (λ o. IfSome o (λ p. p + width ≤ length self.now.bytes)) }
    {
        let entry = 4 + 2 * usize::from(id);
        if entry + 2 > self.size {
            return Ok(None);
        }
        let distance = get_u16(self.bytes, self.vtable + entry).unwrap();
        if distance == 0 {
            return Ok(None);
        }
        let at = self.at + usize::from(distance);
        if at + width > self.bytes.len() {
            return Err(FlatFault::OutOfBounds);
        }
        Ok(Some(at))
    }

    /// Returns the unsigned 8-bit number in a field, or `default` if the field is absent. A boolean
    /// is such a number too: only 0 is false.
    #[tactic(auto, unfolding(crate::specs::Views::scalar), using(crate::proofs::Scalars::byte_is))]
    pub fn scalar_u8(&self, id: u16, default: u8) -> Result<u8, FlatFault>
        ensures { result ≡ scalar self.now id 1 byte default }
    {
        match self.place(id, 1)? {
            None => Ok(default),
            Some(at) => Ok(self.bytes[at]),
        }
    }

    /// Returns the signed 16-bit number in a field, or `default` if the field is absent.
    #[tactic(auto, unfolding(crate::specs::Views::scalar))]
    pub fn scalar_i16(&self, id: u16, default: i16) -> Result<i16, FlatFault>
        ensures { result ≡ scalar self.now id 2 int16 default }
    {
        match self.place(id, 2)? {
            None => Ok(default),
            Some(at) => Ok(get_u16(self.bytes, at).unwrap().cast_signed()),
        }
    }

    /// Returns the signed 32-bit number in a field, or `default` if the field is absent.
    #[tactic(auto, unfolding(crate::specs::Views::scalar))]
    pub fn scalar_i32(&self, id: u16, default: i32) -> Result<i32, FlatFault>
        ensures { result ≡ scalar self.now id 4 int32 default }
    {
        match self.place(id, 4)? {
            None => Ok(default),
            Some(at) => Ok(get_i32(self.bytes, at).unwrap()),
        }
    }

    /// Returns the signed 64-bit number in a field, or `default` if the field is absent.
    #[tactic(auto, unfolding(crate::specs::Views::scalar))]
    pub fn scalar_i64(&self, id: u16, default: i64) -> Result<i64, FlatFault>
        ensures { result ≡ scalar self.now id 8 int64 default }
    {
        match self.place(id, 8)? {
            None => Ok(default),
            Some(at) => Ok(get_i64(self.bytes, at).unwrap()),
        }
    }

    /// Returns the table to which a field's offset points, or `None` if the field is absent.
    ///
    /// Errors: `OffsetZero` if the offset is 0; `OutOfBounds` if its target or the table's first
    /// four bytes end after the bytes; `BadVtable` if there is no vtable where the table states it.
    #[tactic(auto, unfolding(crate::specs::Views::field))]
    pub fn table(&self, id: u16) -> Result<Option<TableRef<'a>>, FlatFault>
        ensures { result ≡ field self.now id table_from }
    {
        match self.place(id, 4)? {
            None => Ok(None),
            Some(at) => Ok(Some(TableRef::from(self.bytes, at)?)),
        }
    }

    /// Returns the text to which a field's offset points, or `None` if the field is absent
    /// ("Strings and Vectors"). Its bytes are borrowed.
    ///
    /// Errors: `OffsetZero` if the offset is 0; `OutOfBounds` if its target, the text's length or
    /// its bytes end after the bytes; `NotUtf8` if the text is not UTF-8.
    #[tactic(auto, unfolding(crate::specs::Views::field))]
    pub fn text(&self, id: u16) -> Result<Option<&'a str>, FlatFault>
        ensures { IsAnswer (option_map (λ s. s.now)) result (field self.now id text_of) }
    {
        match self.place(id, 4)? {
            None => Ok(None),
            Some(at) => Ok(Some(text_at(self.bytes, at)?)),
        }
    }

    /// Returns the vector of tables to which a field's offset points, or `None` if the field is
    /// absent ("Strings and Vectors"). Its elements are offsets, each of which is validated when it
    /// is read.
    ///
    /// Errors: `OffsetZero` if the offset is 0; `OutOfBounds` if its target, the count or the
    /// elements, four bytes each, end after the bytes.
    #[tactic(auto, unfolding(crate::specs::Views::field))]
    pub fn tables(&self, id: u16) -> Result<Option<TableVec<'a>>, FlatFault>
        ensures { result ≡ field self.now id (elements_from 4) }
    {
        match self.place(id, 4)? {
            None => Ok(None),
            Some(at) => Ok(Some(TableVec::from(self.bytes, at)?)),
        }
    }

    /// Returns the vector of structs, of `width` bytes each, to which a field's offset points, or
    /// `None` if the field is absent ("Structs", "Strings and Vectors"). Structs are stored inline,
    /// one after another.
    ///
    /// Errors: `OffsetZero` if the offset is 0; `OutOfBounds` if its target, the count or the
    /// structs end after the bytes.
    #[tactic(auto, unfolding(crate::specs::Views::field))]
    pub fn structs(&self, id: u16, width: usize) -> Result<Option<StructVec<'a>>, FlatFault>
        ensures { result ≡ field self.now id (structs_from width) }
    {
        match self.place(id, 4)? {
            None => Ok(None),
            Some(at) => Ok(Some(StructVec::from(self.bytes, at, width)?)),
        }
    }

    // The table to which the offset at a place points.
    #[tactic(auto, unfolding(crate::specs::Flat::table_position, crate::specs::Views::table_from, crate::specs::Views::table_at))]
    pub(crate) fn from(bytes: &'a [u8], at: usize) -> Result<TableRef<'a>, FlatFault>
        ensures { result ≡ table_from bytes.now at }
    {
        TableRef::at(bytes, target(bytes, at)?)
    }
}
