//! What a value is for the buffers of a column, and the sizes of columns with more values.
ghost use Rattle.std.specs.Prelude.{◌≤◌, ◌≡◌, ◌<◌, ◌^◌, ◌++◌, List, [], ◌∷◌, length, IfOk, IfErr};
ghost use Rattle.std.specs.Prelude.{OnOk, ◌+◌, ◌*◌, ◌&&◌, if◌then◌else◌};
ghost use Rattle.ipc_model.specs.MaxLimits.{max_body, max_slots};
ghost use Rattle.ipc_model.specs.declared.layout.Layout.{Layout};
ghost use Rattle.ipc_model.specs.declared.limits.Limits.{Limits};
ghost use Rattle.ipc_model.specs.declared.value.Value.{Value};
ghost use Rattle.ipc_encode.specs.Buffers.{column_buffers, padded_bytes};
ghost use Rattle.ipc_encode.specs.Built.{AreBytesWithin, AreCountsOf, IsColumn, IsPushRefused};
ghost use Rattle.ipc_encode.specs.Cells.{nulls, is_set, number_bits, content, items, HasUtf8};
ghost use Rattle.ipc_encode.specs.Columns.{data_in, value_len, ExceedsOffsets, offsets_length};
ghost use Rattle.ipc_encode.specs.Columns.{validity_length, values_length};
ghost use Rattle.ipc_encode.specs.Numbers.{Numbering};
ghost use Rattle.ipc_encode.specs.Pieces.{Valid, True};

use crate::column::{ColumnBuilder, ColumnCounts};
use crate::column_builder::MAX_DATA;
use crate::fault::PushFault;
use ipc_model::{Layout, Limits, Value};
use ipc_scalar::pad8;

// Returns whether a value is not null.
#[inline(always)]
fn is_valid(value: &Value) -> bool
    ensures { result ≡ is_set Valid value.now }
{
    !matches!(value, Value::Null)
}

/// Returns whether the slot of a value is valid. Each slot of a column of nulls, which has no
/// validity bitmap, is null.
#[inline(always)]
pub(crate) fn has_valid_slot(has_validity: bool, value: &Value) -> bool
    ensures { result ≡ (has_validity && is_set Valid value.now) }
{
    has_validity && is_valid(value)
}

/// Returns the number of null slots that a value adds to a column: 0 or 1.
#[inline(always)]
pub(crate) fn null_slots(has_validity: bool, value: &Value) -> usize
    ensures count { result ≡ (if has_validity && is_set Valid value.now then 0 else 1) }
    ensures few { result ≤ 1 }
{
    usize::from(!has_valid_slot(has_validity, value))
}

/// Returns whether a value is true.
pub(crate) fn is_true(value: &Value) -> bool
    ensures { result ≡ is_set True value.now }
{
    matches!(value, Value::Bool(true))
}

/// Returns the bits of a number, in two's complement if it is signed.
#[inline(always)]
pub(crate) fn number_bits(value: &Value) -> u64
    ensures { result ≡ number_bits value.now }
{
    match value {
        Value::Int(number) => number.cast_unsigned(),
        Value::UInt(number) => *number,
        _ => 0,
    }
}

/// Returns the bytes of a binary value or a text.
#[inline(always)]
pub(crate) fn content(value: &Value) -> &[u8]
    ensures bytes { result.now ≡ content value.now }
    ensures text { HasUtf8 value.now }
{
    match value {
        Value::Bytes(bytes) => bytes.as_slice(),
        Value::Text(text) => text.as_str().as_bytes(),
        _ => &[],
    }
}

/// Returns the items of a list. Any other value has none.
#[inline(always)]
pub(crate) fn items(value: &Value) -> &[Value]
    ensures { result.now ≡ items value.now }
{
    match value {
        Value::List(items) => items.as_slice(),
        _ => &[],
    }
}

/// Returns the amount that a value adds to the data of a column.
#[inline(always)]
pub(crate) fn value_len(layout: Layout, value: &Value) -> usize
    ensures is { result ≡ value_len layout value.now }
    ensures few { result < 2 ^ 63 }
{
    match layout {
        Layout::Null | Layout::Bits | Layout::FixedLists(_) | Layout::Structs => 0,
        Layout::Numbers { bits, .. } | Layout::Indices { bits, .. } => bits.bytes(),
        Layout::FixedBytes(width) => width as usize,
        Layout::VariableBytes { .. } => content(value).len(),
        Layout::Lists => items(value).len(),
    }
}

/// Checks that a column may have this amount of data, in bytes or in items of lists.
///
/// Errors: `TooMany` if there are more items of lists than offsets reach; `TooLong` if there are
/// more bytes than offsets reach or a body may have.
#[inline(always)]
pub(crate) fn check_amount(layout: Layout, amount: usize, limits: &Limits) -> Result<(), PushFault>
    ensures within { OnOk result (¬ ExceedsOffsets layout amount) }
    ensures refused { (values : List Value) → data_in layout values ≡ amount
        → IfErr result (IsPushRefused limits.now layout values) }
    ensures few { OnOk result (amount ≤ max_body) }
    ensures bytes { OnOk result (AreBytesWithin limits.now layout amount) }
    ensures memory { IfErr result (λ fault. ¬ (fault ≡ PushFault.OutOfMemory)) }
{
    match layout {
        Layout::Lists if amount <= MAX_DATA => Ok(()),
        Layout::Lists => Err(PushFault::TooMany),
        Layout::VariableBytes { .. } if amount > MAX_DATA => Err(PushFault::TooLong),
        _ if amount as u64 > limits.body => Err(PushFault::TooLong),
        _ => Ok(()),
    }
}

impl ColumnCounts {
    /// Returns the sizes of a column without values.
    pub(crate) fn none() -> ColumnCounts
        ensures { (limits : Limits) (layout : Layout) → AreCountsOf limits layout [] result }
    {
        ColumnCounts {
            slots: 0,
            nulls: 0,
            amount: 0,
        }
    }

    /// Returns the sizes with one more value.
    ///
    /// Errors: `TooMany` if there would be more slots than the limits allow, or more items of lists
    /// than offsets reach; `TooLong` if there would be more bytes than offsets reach or a body may
    /// have.
    #[inline(always)]
    pub(crate) fn with(
        self,
        layout: Layout,
        value: &Value,
        limits: &Limits,
    ) -> Result<ColumnCounts, PushFault>
        ensures counted { (values : List Value) → AreCountsOf limits.now layout values self
            → IfOk result (AreCountsOf limits.now layout (values ++ value.now ∷ [])) }
        ensures refused { (values : List Value) → AreCountsOf limits.now layout values self
            → IfErr result (IsPushRefused limits.now layout (values ++ value.now ∷ [])) }
        ensures memory { IfErr result (λ fault. ¬ (fault ≡ PushFault.OutOfMemory)) }
    {
        if self.slots >= limits.slots as usize {
            return Err(PushFault::TooMany);
        }
        let amount = self.amount + value_len(layout, value);
        check_amount(layout, amount, limits)?;
        Ok(ColumnCounts {
            slots: self.slots + 1,
            nulls: self.nulls + null_slots(layout.has_validity(), value),
            amount,
        })
    }
}

impl ColumnBuilder {
    /// Returns the sizes of the values that the column has.
    pub(crate) fn counts(&self) -> ColumnCounts
        ensures { (known : Numbering) (limits : Limits) (layout : Layout) (values : List Value)
            → IsColumn known limits layout values self.now
            → AreCountsOf limits layout values result }
    {
        ColumnCounts {
            slots: self.slots,
            nulls: self.nulls,
            amount: self.data.amount(self.slots),
        }
    }
}

// The bytes of a validity bitmap of `slots` slots, of which `nulls` are null.
#[inline(always)]
fn validity_len(layout: Layout, slots: usize, nulls: usize) -> usize
    requires { slots ≤ max_slots }
    ensures is { result ≡ validity_length layout slots nulls }
    ensures few { result ≤ max_slots }
{
    match layout {
        Layout::Null => 0,
        _ if nulls == 0 => 0,
        _ => slots.div_ceil(8),
    }
}

// The bytes of the offsets of `slots` slots.
#[inline(always)]
fn offsets_len(layout: Layout, slots: usize) -> usize
    requires { slots ≤ max_slots }
    ensures is { result ≡ offsets_length layout slots }
    ensures few { result ≤ 4 * (max_slots + 1) }
{
    match layout {
        Layout::VariableBytes { .. } | Layout::Lists => 4 * (slots + 1),
        _ => 0,
    }
}

// The bytes of the values of `slots` slots with this amount of data.
#[inline(always)]
fn values_len(layout: Layout, slots: usize, amount: usize) -> usize
    requires few { slots ≤ max_slots }
    requires small { amount < 2 ^ 63 }
    ensures is { result ≡ values_length layout slots amount }
    ensures small { result < 2 ^ 63 }
{
    match layout {
        Layout::Null | Layout::Lists | Layout::FixedLists(_) | Layout::Structs => 0,
        Layout::Bits => slots.div_ceil(8),
        Layout::Numbers { .. }
        | Layout::FixedBytes(_)
        | Layout::VariableBytes { .. }
        | Layout::Indices { .. } => amount,
    }
}

impl ColumnCounts {
    /// Returns the bytes that the padded buffers of a column with these sizes take in a body.
    #[inline(always)]
    pub(crate) fn len(self, layout: Layout) -> u64
        ensures { (limits : Limits) (values : List Value) → AreCountsOf limits layout values self
            → result ≡ length (padded_bytes (column_buffers layout values)) }
    {
        pad8(validity_len(layout, self.slots, self.nulls) as u64)
            + pad8(offsets_len(layout, self.slots) as u64)
            + pad8(values_len(layout, self.slots, self.amount) as u64)
    }
}
