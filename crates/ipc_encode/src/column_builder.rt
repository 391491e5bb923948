//! The buffers of one column, and the values that are added to it.
ghost use Rattle.std.specs.Int.{bytes_low_first};
ghost use Rattle.std.specs.Prelude.{◌≡◌, ◌≤◌, ◌<◌, ◌^◌, ◌++◌, List, [], ◌∷◌, length, IfOk, IfErr};
ghost use Rattle.std.specs.Prelude.{OnOk, ◌&&◌, Bool, true, false};
ghost use Rattle.ipc_model.specs.Layouts.{number_bytes};
ghost use Rattle.ipc_model.specs.Layouts as layouts;
ghost use Rattle.ipc_model.specs.MaxLimits.{max_slots};
ghost use Rattle.ipc_model.specs.declared.layout.Layout.{Layout};
ghost use Rattle.ipc_model.specs.declared.layout.Layout.TheVariants.{Lists, VariableBytes};
ghost use Rattle.ipc_model.specs.declared.limits.Limits.{Limits};
ghost use Rattle.ipc_model.specs.declared.value.Value.{Value};
ghost use Rattle.ipc_encode.specs.Buffers.{column_nulls};
ghost use Rattle.ipc_encode.specs.Built.{AreBytesWithin, AreContents, AreListEnds, HoldsValues};
ghost use Rattle.ipc_encode.specs.Built.{IsColumn, IsPushRefused, data_layout};
ghost use Rattle.ipc_encode.specs.Cells.{is_set, slot_bytes};
ghost use Rattle.ipc_encode.specs.Columns.{validity_in, data_in};
ghost use Rattle.ipc_encode.specs.Numbers.{Numbering, index_of, known_indices};
ghost use Rattle.ipc_encode.specs.Pieces.{Number, Fixed, Valid};

use crate::bitmaps::{push_bit, set_bits};
use crate::column::{ColumnBuilder, ColumnData, IndexData};
use crate::counting::{check_amount, content, has_valid_slot, is_true, items, number_bits};
use crate::fault::PushFault;
use crate::index::IndexOf;
use crate::pool::BufferPool;
use ipc_model::{IntBits, Layout, Limits, Value};
use std::alloc::{AllocError, Global};

/// The maximum number of bytes or items that offsets of 32 bits reach.
pub(crate) const MAX_DATA: usize = ipc_model::MAX_DATA as usize;

// Appends whether one more slot is valid, after `slots` slots with `null_count` nulls, if the
// column has a validity bitmap.
#[inline(always)]
fn push_validity(
    validity: &mut Vec<u8>,
    has_validity: bool,
    slots: usize,
    null_count: usize,
    is_valid: bool,
) -> Result<(), AllocError>
    ensures { (layout : Layout) (values : List Value) (value : Value)
        → has_validity ≡ layouts.has_validity layout → length values ≡ slots
        → column_nulls layout values ≡ null_count
        → is_valid ≡ (has_validity && is_set Valid value)
        → validity.old.items ≡ validity_in layout values
        → OnOk result (validity.new.items ≡ validity_in layout (values ++ value ∷ [])) }
{
    if !has_validity {
        return Ok(());
    }
    if null_count == 0 {
        if is_valid {
            return Ok(());
        }
        set_bits(validity, slots)?;
    }
    push_bit(validity, slots, is_valid)
}

// Appends a number of 64 bits. It is not `inline(always)`, and neither is `push_u32`: so the
// length is known where the list's own code is inlined, which becomes one store.
#[inline]
fn push_u64(values: &mut Vec<u8>, number: u64) -> Result<(), AllocError>
    ensures { OnOk result (values.new.items ≡ values.old.items ++ bytes_low_first 0 8 number) }
{
    values.extend_from_slice(&number.to_le_bytes())
}

// Appends the low 32 bits of a number.
#[inline]
fn push_u32(values: &mut Vec<u8>, number: u64) -> Result<(), AllocError>
    ensures { OnOk result (values.new.items ≡ values.old.items ++ bytes_low_first 0 4 number) }
{
    values.extend_from_slice(&number.to_le_bytes()[..4])
}

/// Appends the low bits of a number, of this width.
#[inline(always)]
pub(crate) fn push_bits(values: &mut Vec<u8>, number: u64, bits: IntBits) -> Result<(), AllocError>
    ensures { OnOk result (values.new.items
        ≡ values.old.items ++ bytes_low_first 0 (number_bytes bits) number) }
{
    match bits {
        IntBits::B8 => values.extend_from_slice(&number.to_le_bytes()[..1]),
        IntBits::B16 => values.extend_from_slice(&number.to_le_bytes()[..2]),
        IntBits::B32 => push_u32(values, number),
        IntBits::B64 => push_u64(values, number),
    }
}

/// Appends the low bytes of a value's number.
#[inline(always)]
pub(crate) fn push_number(
    values: &mut Vec<u8>,
    value: &Value,
    bits: IntBits,
) -> Result<(), AllocError>
    ensures { OnOk result (values.new.items
        ≡ values.old.items ++ slot_bytes (Number bits) value.now) }
{
    push_bits(values, number_bits(value), bits)
}

/// Appends the offset at which a slot ends.
#[inline(always)]
pub(crate) fn push_offset(offsets: &mut Vec<u8>, end: usize) -> Result<(), AllocError>
    ensures { OnOk result (offsets.new.items ≡ offsets.old.items ++ bytes_low_first 0 4 end) }
{
    push_u32(offsets, end as u64)
}

// Appends the bytes of a binary value of this width, or `width` zeros.
fn push_fixed(values: &mut Vec<u8>, value: &Value, width: u32) -> Result<(), AllocError>
    ensures { OnOk result (values.new.items
        ≡ values.old.items ++ slot_bytes (Fixed width) value.now) }
{
    match value {
        Value::Bytes(bytes) if bytes.as_slice().len() == width as usize => {
            values.extend_from_slice(bytes.as_slice())
        }
        _ => values.resize(values.len() + width as usize, 0),
    }
}

// Appends the bytes of a binary value or a text, and the offset at which they end.
#[inline(always)]
fn push_content(
    offsets: &mut Vec<u8>,
    values: &mut Vec<u8>,
    value: &Value,
    utf8: bool,
    limits: &Limits,
) -> Result<(), PushFault>
    ensures pushed { (vs : List Value) → AreContents vs offsets.old.items values.old.items
        → OnOk result
        (AreContents (vs ++ value.now ∷ []) offsets.new.items values.new.items) }
    ensures bytes { (vs : List Value) → AreContents vs offsets.old.items values.old.items
        → OnOk result (data_in (VariableBytes utf8) (vs ++ value.now ∷ []) ≤ limits.now.body) }
    ensures refused { (vs : List Value) → AreContents vs offsets.old.items values.old.items
        → IfErr result (IsPushRefused limits.now (VariableBytes utf8) (vs ++ value.now ∷ [])) }
    ensures kept { (vs : List Value) → AreContents vs offsets.old.items values.old.items
        → IfErr result (λ fault. ¬ (fault ≡ PushFault.OutOfMemory)
        → AreContents vs offsets.new.items values.new.items) }
{
    let bytes = content(value);
    let end = values.len() + bytes.len();
    check_amount(Layout::VariableBytes { utf8 }, end, limits)?;
    values.extend_from_slice(bytes)?;
    Ok(push_offset(offsets, end)?)
}

// Appends the offset at which the items of a list end, and adds their number to `count`.
#[inline(always)]
fn push_items(
    offsets: &mut Vec<u8>,
    count: &mut u32,
    value: &Value,
    limits: &Limits,
) -> Result<(), PushFault>
    ensures pushed { (vs : List Value) → AreListEnds vs offsets.old.items count.old
        → OnOk result (AreListEnds (vs ++ value.now ∷ []) offsets.new.items count.new) }
    ensures refused { (vs : List Value) → AreListEnds vs offsets.old.items count.old
        → IfErr result (IsPushRefused limits.now Lists (vs ++ value.now ∷ [])) }
    ensures kept { (vs : List Value) → AreListEnds vs offsets.old.items count.old
        → IfErr result (λ fault. ¬ (fault ≡ PushFault.OutOfMemory)
        → AreListEnds vs offsets.new.items count.new) }
{
    let end = *count as usize + items(value).len();
    check_amount(Layout::Lists, end, limits)?;
    push_offset(offsets, end)?;
    *count = end as u32;
    Ok(())
}

/// Returns the index of a value that is not null. A value that is not known has index 0.
pub(crate) fn known_index<I: IndexOf>(indices: &I, id: i64, value: &Value) -> Option<u64>
    ensures { result ≡ index_of (known_indices (I.index indices.now) id) value.now }
{
    match value {
        Value::Null => None,
        _ => Some(indices.index_of(id, value).unwrap_or(0)),
    }
}

// The offsets of no slots: one zero.
fn first_offset(mut offsets: Vec<u8>) -> Result<Vec<u8>, AllocError>
    ensures { offsets.items ≡ [] → IfOk result (λ all. all.items ≡ bytes_low_first 0 4 0) }
{
    push_offset(&mut offsets, 0)?;
    Ok(offsets)
}

impl ColumnData {
    // Creates the data of a column of this layout without values, in memory from the pool.
    fn new(alloc: Global, pool: &mut BufferPool, layout: Layout) -> Result<ColumnData, AllocError>
        ensures layout { IfOk result (λ column. data_layout column ≡ layout) }
        ensures holds { (known : Numbering) → IfOk result (HoldsValues known []) }
    {
        Ok(match layout {
            Layout::Null => ColumnData::Null,
            Layout::Bits => ColumnData::Bits(pool.take(alloc)),
            Layout::Numbers { bits, signed } => ColumnData::Numbers {
                bits,
                signed,
                values: pool.take(alloc),
            },
            Layout::FixedBytes(width) => ColumnData::FixedBytes {
                width,
                values: pool.take(alloc),
            },
            Layout::VariableBytes { utf8 } => ColumnData::VariableBytes {
                utf8,
                offsets: first_offset(pool.take(alloc))?,
                values: pool.take(alloc),
            },
            Layout::Lists => ColumnData::Lists {
                offsets: first_offset(pool.take(alloc))?,
                items: 0,
            },
            Layout::FixedLists(size) => ColumnData::FixedLists(size),
            Layout::Structs => ColumnData::Structs,
            Layout::Indices { bits, signed, id } => ColumnData::Indices(IndexData {
                bits,
                signed,
                id,
                indices: Vec::new(alloc),
                values: pool.take(alloc),
            }),
        })
    }

    /// Returns the layout of the column.
    #[inline(always)]
    pub(crate) fn layout(&self) -> Layout
        ensures { result ≡ data_layout self.now }
    {
        match self {
            ColumnData::Null => Layout::Null,
            ColumnData::Bits(_) => Layout::Bits,
            ColumnData::Numbers { bits, signed, .. } => Layout::Numbers {
                bits: *bits,
                signed: *signed,
            },
            ColumnData::FixedBytes { width, .. } => Layout::FixedBytes(*width),
            ColumnData::VariableBytes { utf8, .. } => Layout::VariableBytes { utf8: *utf8 },
            ColumnData::Lists { .. } => Layout::Lists,
            ColumnData::FixedLists(size) => Layout::FixedLists(*size),
            ColumnData::Structs => Layout::Structs,
            ColumnData::Indices(held) => Layout::Indices {
                bits: held.bits,
                signed: held.signed,
                id: held.id,
            },
        }
    }

    /// Returns whether the column has a validity bitmap.
    #[inline(always)]
    pub(crate) fn has_validity(&self) -> bool
        ensures { result ≡ layouts.has_validity (data_layout self.now) }
    {
        !matches!(self, ColumnData::Null)
    }

    /// Returns the number of bytes, or of items of lists, in a column of `slots` slots.
    pub(crate) fn amount(&self, slots: usize) -> usize
        requires { slots ≤ max_slots }
        ensures is { (known : Numbering) (vs : List Value) → HoldsValues known vs self.now
            → length vs ≡ slots → result ≡ data_in (data_layout self.now) vs }
        ensures small { result < 2 ^ 63 }
    {
        match self {
            ColumnData::Null => 0,
            ColumnData::Bits(_) => 0,
            ColumnData::FixedLists(_) => 0,
            ColumnData::Structs => 0,
            ColumnData::Numbers { values, .. } => values.len(),
            ColumnData::FixedBytes { values, .. } => values.len(),
            ColumnData::VariableBytes { values, .. } => values.len(),
            ColumnData::Lists { items, .. } => *items as usize,
            ColumnData::Indices(held) => held.bits.bytes() * slots,
        }
    }

    // Appends a value after `slots` others. The slots bound the size of bits, numbers and indices,
    // so only the amount of other data is checked.
    #[inline(always)]
    fn push<I: IndexOf>(
        &mut self,
        slots: usize,
        value: &Value,
        limits: &Limits,
        indices: &I,
    ) -> Result<(), PushFault>
        ensures pushed { (vs : List Value)
            → HoldsValues (known_indices (I.index indices.now)) vs self.old → length vs ≡ slots
            → OnOk result (HoldsValues (known_indices (I.index indices.now))
            (vs ++ value.now ∷ []) self.new) }
        ensures layout { data_layout self.new ≡ data_layout self.old }
        ensures bytes { (vs : List Value)
            → HoldsValues (known_indices (I.index indices.now)) vs self.old
            → OnOk result (AreBytesWithin limits.now (data_layout self.old)
            (data_in (data_layout self.old) (vs ++ value.now ∷ []))) }
        ensures refused { (vs : List Value)
            → HoldsValues (known_indices (I.index indices.now)) vs self.old → length vs ≡ slots
            → IfErr result
            (IsPushRefused limits.now (data_layout self.old) (vs ++ value.now ∷ [])) }
        ensures kept { (vs : List Value)
            → HoldsValues (known_indices (I.index indices.now)) vs self.old
            → IfErr result (λ fault. ¬ (fault ≡ PushFault.OutOfMemory)
            → HoldsValues (known_indices (I.index indices.now)) vs self.new) }
    {
        match self {
            ColumnData::Null | ColumnData::FixedLists(_) | ColumnData::Structs => Ok(()),
            ColumnData::Bits(bits) => Ok(push_bit(bits, slots, is_true(value))?),
            ColumnData::Numbers { bits, values, .. } => Ok(push_number(values, value, *bits)?),
            ColumnData::FixedBytes { width, values } => {
                let amount = values.len() + *width as usize;
                check_amount(Layout::FixedBytes(*width), amount, limits)?;
                Ok(push_fixed(values, value, *width)?)
            }
            ColumnData::VariableBytes {
                utf8,
                offsets,
                values,
            } => push_content(offsets, values, value, *utf8, limits),
            ColumnData::Lists { offsets, items } => push_items(offsets, items, value, limits),
            ColumnData::Indices(held) => {
                match held.indices.push(known_index(indices, held.id, value)) {
                    Ok(()) => Ok(()),
                    Err(_) => Err(PushFault::OutOfMemory),
                }
            }
        }
    }
}

impl ColumnBuilder {
    /// Creates a column of this layout without values, in memory from the pool.
    pub(crate) fn new(
        alloc: Global,
        pool: &mut BufferPool,
        layout: Layout,
    ) -> Result<ColumnBuilder, AllocError>
        ensures { (known : Numbering) (limits : Limits)
            → IfOk result (IsColumn known limits layout []) }
    {
        Ok(ColumnBuilder {
            slots: 0,
            nulls: 0,
            validity: pool.take(alloc),
            data: ColumnData::new(alloc, pool, layout)?,
        })
    }

    /// Appends one value, with its index in a column of indices.
    ///
    /// Errors: those of `ColumnCounts::with`, after which the column is unchanged, and
    /// `OutOfMemory` if memory for a buffer ran out, after which it is unusable.
    #[inline(always)]
    pub(crate) fn push<I: IndexOf>(
        &mut self,
        value: &Value,
        limits: &Limits,
        indices: &I,
    ) -> Result<(), PushFault>
        ensures pushed { (layout : Layout) (values : List Value)
            → IsColumn (known_indices (I.index indices.now)) limits.now layout values self.old
            → OnOk result (IsColumn (known_indices (I.index indices.now)) limits.now layout
            (values ++ value.now ∷ []) self.new) }
        ensures refused { (layout : Layout) (values : List Value)
            → IsColumn (known_indices (I.index indices.now)) limits.now layout values self.old
            → IfErr result (IsPushRefused limits.now layout (values ++ value.now ∷ [])) }
        ensures kept { (layout : Layout) (values : List Value)
            → IsColumn (known_indices (I.index indices.now)) limits.now layout values self.old
            → IfErr result (λ fault. ¬ (fault ≡ PushFault.OutOfMemory)
            → IsColumn (known_indices (I.index indices.now)) limits.now layout values self.new) }
    {
        let ColumnBuilder { slots, nulls, .. } = *self;
        if !has_valid_slot(self.data.has_validity(), value) {
            return self.push_null(value, limits, indices);
        }
        if slots >= limits.slots as usize {
            return Err(PushFault::TooMany);
        }
        self.data.push(slots, value, limits, indices)?;
        push_validity(&mut self.validity, true, slots, nulls, true)?;
        self.slots = slots + 1;
        Ok(())
    }

    // Appends a null slot: that of null or, in a column of nulls, of any value. The errors are
    // those of `push`.
    #[inline(never)]
    fn push_null<I: IndexOf>(
        &mut self,
        value: &Value,
        limits: &Limits,
        indices: &I,
    ) -> Result<(), PushFault>
        requires { (layouts.has_validity (data_layout self.old.data) && is_set Valid value.now)
            ≡ false }
        ensures pushed { (layout : Layout) (values : List Value)
            → IsColumn (known_indices (I.index indices.now)) limits.now layout values self.old
            → OnOk result (IsColumn (known_indices (I.index indices.now)) limits.now layout
            (values ++ value.now ∷ []) self.new) }
        ensures refused { (layout : Layout) (values : List Value)
            → IsColumn (known_indices (I.index indices.now)) limits.now layout values self.old
            → IfErr result (IsPushRefused limits.now layout (values ++ value.now ∷ [])) }
        ensures kept { (layout : Layout) (values : List Value)
            → IsColumn (known_indices (I.index indices.now)) limits.now layout values self.old
            → IfErr result (λ fault. ¬ (fault ≡ PushFault.OutOfMemory)
            → IsColumn (known_indices (I.index indices.now)) limits.now layout values self.new) }
    {
        let ColumnBuilder { slots, nulls, .. } = *self;
        if slots >= limits.slots as usize {
            return Err(PushFault::TooMany);
        }
        self.data.push(slots, value, limits, indices)?;
        let has_validity = self.data.has_validity();
        push_validity(&mut self.validity, has_validity, slots, nulls, false)?;
        self.slots = slots + 1;
        self.nulls = nulls + 1;
        Ok(())
    }
}
