ghost use Rattle.std.specs.Prelude.{◌≡◌, true};
ghost use Rattle.ipc_model.specs.Answers.{AnswersUnlessOutOfMemory};
ghost use Rattle.ipc_meta.specs.Tables.{bits_of, unit_of, int_at, fixed_at, date_at, timestamp_at};
ghost use Rattle.ipc_meta.specs.Tables.{fixed_list_at, time_at, duration_at, type_of, is_type_code};
ghost use Rattle.ipc_meta.specs.Tables.{type_at, code_at, flag_at, index_at, dictionary_in};
ghost use Rattle.ipc_meta.specs.Tables.{dictionary_at, map_ok};
ghost use Rattle.ipc_meta.specs.Reading.{type_read};

use crate::budget::Budget;
use crate::flat_faults::map_fault;
use ipc_flat::TableRef;
use ipc_model::{DataType, DateUnit, Dictionary, Fault, IndexType, IntBits, Text, TimeUnit};
use std::alloc::Global;

// The width of an integer (Schema.fbs, table Int, bitWidth).
fn bits_of(width: i32) -> Option<IntBits>
    ensures { result ≡ bits_of width }
{
    match width {
        8 => Some(IntBits::B8),
        16 => Some(IntBits::B16),
        32 => Some(IntBits::B32),
        64 => Some(IntBits::B64),
        _ => None,
    }
}

// What a time, a timestamp or a duration counts (Schema.fbs, enum TimeUnit).
fn unit_of(unit: i16) -> Option<TimeUnit>
    ensures { result ≡ unit_of unit }
{
    match unit {
        0 => Some(TimeUnit::Second),
        1 => Some(TimeUnit::Millisecond),
        2 => Some(TimeUnit::Microsecond),
        3 => Some(TimeUnit::Nanosecond),
        _ => None,
    }
}

/// Reads the boolean in a field: an absent byte and 0 are false, any other byte is true.
#[tactic(auto, unfolding(crate::specs::Tables::flag_at))]
pub(crate) fn read_flag(table: &TableRef<'_>, id: u16) -> Result<bool, Fault>
    ensures { result ≡ flag_at table.now id }
{
    let flag = map_fault(table.scalar_u8(id, 0))?;
    Ok(flag > 0)
}

// An Int table (Schema.fbs): 0 bitWidth, 1 is_signed. A width that no integer has is the fault that
// is handed in.
fn read_int(table: &TableRef<'_>, fault: Fault) -> Result<IndexType, Fault>
    ensures { result ≡ int_at fault table.now }
{
    let width = map_fault(table.scalar_i32(0, 0))?;
    let Some(bits) = bits_of(width) else {
        return Err(fault);
    };
    let signed = read_flag(table, 1)?;
    Ok(IndexType { bits, signed })
}

// The type of fixed widths (Schema.fbs, table FixedSizeBinary, byteWidth).
fn fixed_of(width: i32) -> Result<DataType, Fault>
    ensures { result ≡ fixed_at width }
{
    if width < 0 {
        return Err(Fault::BadType);
    }
    Ok(DataType::FixedSizeBinary(width.unsigned_abs()))
}

// The type of lists of a fixed size (Schema.fbs, table FixedSizeList, listSize).
fn fixed_list_of(size: i32) -> Result<DataType, Fault>
    ensures { result ≡ fixed_list_at size }
{
    if size < 0 {
        return Err(Fault::BadType);
    }
    Ok(DataType::FixedSizeList(size.unsigned_abs()))
}

// The type of dates (Schema.fbs, table Date, unit).
fn date_of(unit: i16) -> Result<DataType, Fault>
    ensures { result ≡ date_at unit }
{
    match unit {
        0 => Ok(DataType::Date(DateUnit::Day)),
        1 => Ok(DataType::Date(DateUnit::Millisecond)),
        _ => Err(Fault::BadType),
    }
}

// A Date table (Schema.fbs): 0 unit. Its code in union Type is 8.
#[tactic(auto, unfolding(crate::specs::Tables::type_of))]
fn read_date(table: &TableRef<'_>) -> Result<DataType, Fault>
    ensures { result ≡ type_of 8 table.now }
{
    date_of(map_fault(table.scalar_i16(0, 1))?)
}

// A Time table (Schema.fbs): 0 unit, 1 bitWidth. A width that isn't the unit's is `BadType`.
fn read_time(table: &TableRef<'_>) -> Result<DataType, Fault>
    ensures { result ≡ time_at table.now }
{
    let unit = map_fault(table.scalar_i16(0, 1))?;
    let Some(unit) = unit_of(unit) else {
        return Err(Fault::BadType);
    };
    let width = map_fault(table.scalar_i32(1, 32))?;
    if width != i32::from(unit.time_bits().width()) {
        return Err(Fault::BadType);
    }
    Ok(DataType::Time(unit))
}

// A Duration table (Schema.fbs): 0 unit.
fn read_duration(table: &TableRef<'_>) -> Result<DataType, Fault>
    ensures { result ≡ duration_at table.now }
{
    let code = map_fault(table.scalar_i16(0, 1))?;
    match unit_of(code) {
        None => Err(Fault::BadType),
        Some(unit) => Ok(DataType::Duration(unit)),
    }
}

// A Timestamp table (Schema.fbs): 0 unit, 1 timezone. An absent timezone and an empty one differ.
fn read_timestamp(alloc: Global, table: &TableRef<'_>) -> Result<DataType, Fault>
    ensures { AnswersUnlessOutOfMemory (λ κ. κ) result (timestamp_at table.now) }
{
    let unit = map_fault(table.scalar_i16(0, 0))?;
    let Some(unit) = unit_of(unit) else {
        return Err(Fault::BadType);
    };
    let timezone = match map_fault(table.text(1))? {
        None => None,
        Some(zone) => Some(Text::copied(alloc, zone)?),
    };
    Ok(DataType::Timestamp { unit, timezone })
}

// The type with this code, which is a type's, and this table (Schema.fbs, union Type).
#[tactic(auto, unfolding(crate::specs::Tables::type_of, crate::specs::Tables::is_type_code))]
fn type_of(alloc: Global, code: u8, table: &TableRef<'_>) -> Result<DataType, Fault>
    requires { is_type_code code ≡ true }
    ensures { AnswersUnlessOutOfMemory (λ κ. κ) result (type_of code table.now) }
{
    match code {
        1 => Ok(DataType::Null),
        2 => {
            let IndexType { bits, signed } = read_int(table, Fault::BadType)?;
            Ok(DataType::Int { bits, signed })
        }
        4 => Ok(DataType::Binary),
        5 => Ok(DataType::Utf8),
        6 => Ok(DataType::Bool),
        8 => read_date(table),
        9 => read_time(table),
        10 => read_timestamp(alloc, table),
        12 => Ok(DataType::List),
        13 => Ok(DataType::Struct),
        15 => fixed_of(map_fault(table.scalar_i32(0, 0))?),
        16 => fixed_list_of(map_fault(table.scalar_i32(0, 0))?),
        18 => read_duration(table),
        _ => unreachable!(),
    }
}

// The code of a field's type (Schema.fbs, table Field, 2).
#[tactic(auto, unfolding(crate::specs::Tables::code_at))]
fn read_code(field: &TableRef<'_>) -> Result<u8, Fault>
    ensures { result ≡ code_at field.now }
{
    map_fault(field.scalar_u8(2, 0))
}

// Whether `type_of` reads types with this code (Schema.fbs, union Type).
#[tactic(auto, unfolding(crate::specs::Tables::is_type_code))]
fn is_type_code(code: u8) -> bool
    ensures { result ≡ is_type_code code }
{
    matches!(
        code,
        1 | 2 | 4 | 5 | 6 | 8 | 9 | 10 | 12 | 13 | 15 | 16 | 18
    )
}

// The type of a field (Schema.fbs, table Field, 2 and 3). A code that no type here has is
// `UnsupportedType`, and the table isn't looked at then; a type without a table is `BadType`.
#[tactic(auto, unfolding(crate::specs::Tables::type_at))]
fn read_type(alloc: Global, field: &TableRef<'_>) -> Result<DataType, Fault>
    ensures { AnswersUnlessOutOfMemory (λ κ. κ) result (type_at field.now) }
{
    let code = read_code(field)?;
    if !is_type_code(code) {
        return Err(Fault::UnsupportedType(code));
    }
    match map_fault(field.table(3))? {
        None => Err(Fault::BadType),
        Some(table) => type_of(alloc, code, &table),
    }
}

/// Reads the type of a field, and counts the bytes of its timezone.
#[tactic(auto, unfolding(crate::specs::Reading::type_read))]
pub(crate) fn read_counted_type(
    alloc: Global,
    field: &TableRef<'_>,
    budget: &mut Budget,
) -> Result<DataType, Fault>
    ensures { AnswersUnlessOutOfMemory (λ κ. (κ, budget.new)) result
        (type_read field.now budget.old) }
{
    let kind = read_type(alloc, field)?;
    budget.take_text(kind.text_len())?;
    Ok(kind)
}

// The index type of a DictionaryEncoding table (Schema.fbs): 1 indexType. Where it is absent,
// indices are signed and have 32 bits.
fn read_index(encoding: &TableRef<'_>) -> Result<IndexType, Fault>
    ensures { result ≡ index_at encoding.now }
{
    match map_fault(encoding.table(1))? {
        None => Ok(IndexType {
            bits: IntBits::B32,
            signed: true,
        }),
        Some(table) => read_int(&table, Fault::BadIndexType),
    }
}

// A DictionaryEncoding table (Schema.fbs): 0 id, 1 indexType, 2 isOrdered.
fn read_encoding(table: &TableRef<'_>) -> Result<Dictionary, Fault>
    ensures { map_ok Some result ≡ dictionary_in (Some table.now) }
{
    let id = map_fault(table.scalar_i64(0, 0))?;
    let index = read_index(table)?;
    let ordered = read_flag(table, 2)?;
    Ok(Dictionary { id, index, ordered })
}

/// Reads the dictionary of a field, if it has one (Schema.fbs, table Field, 4).
#[tactic(auto, unfolding(crate::specs::Tables::dictionary_at))]
pub(crate) fn read_dictionary(field: &TableRef<'_>) -> Result<Option<Dictionary>, Fault>
    ensures { result ≡ dictionary_at field.now }
{
    match map_fault(field.table(4))? {
        None => Ok(None),
        Some(table) => Ok(Some(read_encoding(&table)?)),
    }
}
