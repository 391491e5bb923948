//! The tables of types and dictionaries that the writer makes.
ghost use Rattle.std.specs.Prelude.{◌≡◌, IfOk};
ghost use Rattle.ipc_build.specs.Trees.{Tree, fields_view};
ghost use Rattle.ipc_model.specs.declared.schema.DataType.TheVariants as t;
ghost use Rattle.ipc_meta.specs.Types.{date_code, time_code};
ghost use Rattle.ipc_meta.specs.Written.{fields_then, int_tree, type_tree, dictionary_tree};
ghost use Rattle.ipc_meta.specs.Written.{time_tree, with_dictionary};

use crate::slots::{Slots, table_of, text_slot};
use ipc_build::Slot;
use ipc_model::{DataType, DateUnit, Dictionary, IntBits, Text, TimeUnit};
use std::alloc::{AllocError, Global};

fn date_number(unit: DateUnit) -> i16
    ensures { result ≡ date_code unit }
{
    match unit {
        DateUnit::Day => 0,
        DateUnit::Millisecond => 1,
    }
}

fn time_number(unit: TimeUnit) -> i16
    ensures { result ≡ time_code unit }
{
    match unit {
        TimeUnit::Second => 0,
        TimeUnit::Millisecond => 1,
        TimeUnit::Microsecond => 2,
        TimeUnit::Nanosecond => 3,
    }
}

// Schema.fbs, table Int.
fn int_slots(alloc: Global, bits: IntBits, signed: bool) -> Result<Slots, AllocError>
    ensures { IfOk result (λ slots. fields_view slots.items ≡ int_tree bits signed) }
{
    Ok(vec![in alloc;
        (0, Slot::I32(i32::from(bits.width()))),
        (1, Slot::Bool(signed)),
    ]?)
}

// Schema.fbs, table Time.
fn time_slots(alloc: Global, unit: TimeUnit) -> Result<Slots, AllocError>
    ensures { IfOk result (λ slots. fields_view slots.items ≡ time_tree unit) }
{
    Ok(vec![in alloc;
        (0, Slot::I16(time_number(unit))),
        (1, Slot::I32(i32::from(unit.time_bits().width()))),
    ]?)
}

// Schema.fbs, table Timestamp.
fn timestamp_slots(
    alloc: Global,
    unit: TimeUnit,
    timezone: &Option<Text>,
) -> Result<Slots, AllocError>
    ensures { IfOk result (λ slots. fields_view slots.items
        ≡ type_tree (t.Timestamp unit timezone.now)) }
{
    let unit = Slot::I16(time_number(unit));
    match timezone {
        Some(zone) => Ok(vec![in alloc; (0, unit), (1, text_slot(zone)?)]?),
        None => Ok(vec![in alloc; (0, unit)]?),
    }
}

/// Returns the fields of a type's table (Schema.fbs, union Type).
pub(crate) fn type_slots(alloc: Global, kind: &DataType) -> Result<Slots, AllocError>
    ensures { IfOk result (λ slots. fields_view slots.items ≡ type_tree kind.now) }
{
    match kind {
        DataType::Int { bits, signed } => int_slots(alloc, *bits, *signed),
        DataType::FixedSizeBinary(size) | DataType::FixedSizeList(size) => {
            Ok(vec![in alloc; (0, Slot::I32(size.cast_signed()))]?)
        }
        DataType::Date(unit) => Ok(vec![in alloc; (0, Slot::I16(date_number(*unit)))]?),
        DataType::Timestamp { unit, timezone } => timestamp_slots(alloc, *unit, timezone),
        DataType::Time(unit) => time_slots(alloc, *unit),
        DataType::Duration(unit) => Ok(vec![in alloc; (0, Slot::I16(time_number(*unit)))]?),
        DataType::Null
        | DataType::Bool
        | DataType::Binary
        | DataType::Utf8
        | DataType::List
        | DataType::Struct => Ok(Vec::new(alloc)),
    }
}

// Schema.fbs, table DictionaryEncoding.
fn dictionary_slots(alloc: Global, dictionary: Dictionary) -> Result<Slots, AllocError>
    ensures { IfOk result (λ slots. fields_view slots.items ≡ dictionary_tree dictionary) }
{
    let index = int_slots(alloc, dictionary.index.bits, dictionary.index.signed)?;
    Ok(vec![in alloc;
        (0, Slot::I64(dictionary.id)),
        (1, Slot::Table(table_of(index))),
        (2, Slot::Bool(dictionary.ordered)),
    ]?)
}

/// Adds a field's dictionary, if it has one.
pub(crate) fn push_dictionary(
    alloc: Global,
    slots: &mut Slots,
    dictionary: Option<Dictionary>,
) -> Result<(), AllocError>
    ensures { IfOk result (λ _. (rest : Tree)
        → fields_then slots.new.items rest
        ≡ fields_then slots.old.items (with_dictionary dictionary rest)) }
{
    if let Some(dictionary) = dictionary {
        let encoding = table_of(dictionary_slots(alloc, dictionary)?);
        slots.push((4, Slot::Table(encoding)))?;
    }
    Ok(())
}
