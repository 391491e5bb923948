//! Types as format strings of the Arrow C data interface.
ghost use Rattle.std.specs.Prelude.{◌≡◌, IfOk, string_bytes};
ghost use Rattle.ipc_stream_session.specs.Formats.{int_format, slots_format, type_format};
ghost use Rattle.ipc_stream_session.specs.Formats.{unit_letter, zone_text};

use ipc_model::{DataType, DateUnit, Dictionary, IntBits, Text, TimeUnit};
use std::alloc::{AllocError, Global};

// The letter of a type of whole numbers: a capital if they are unsigned.
fn int_format(bits: IntBits, signed: bool) -> &'static str
    ensures { result.now ≡ int_format bits signed }
{
    match (bits, signed) {
        (IntBits::B8, true) => "c",
        (IntBits::B8, false) => "C",
        (IntBits::B16, true) => "s",
        (IntBits::B16, false) => "S",
        (IntBits::B32, true) => "i",
        (IntBits::B32, false) => "I",
        (IntBits::B64, true) => "l",
        (IntBits::B64, false) => "L",
    }
}

// The letter of a unit of time.
fn unit_letter(unit: TimeUnit) -> &'static str
    ensures { result.now ≡ unit_letter unit }
{
    match unit {
        TimeUnit::Second => "s",
        TimeUnit::Millisecond => "m",
        TimeUnit::Microsecond => "u",
        TimeUnit::Nanosecond => "n",
    }
}

// The text of a time zone, or an empty text.
fn zone_text(zone: &Option<Text>) -> &str
    ensures { result.now ≡ zone_text zone.now }
{
    match zone {
        None => "",
        Some(zone) => zone.as_str(),
    }
}

// The format string of a type. Returns an error if memory ran out.
pub(crate) fn type_format(alloc: Global, kind: &DataType) -> Result<String, AllocError>
    ensures { IfOk result (λ text. string_bytes text ≡ type_format kind.now) }
{
    match kind {
        DataType::Null => String::from_str(alloc, "n"),
        DataType::Bool => String::from_str(alloc, "b"),
        DataType::Int { bits, signed } => String::from_str(alloc, int_format(*bits, *signed)),
        DataType::Binary => String::from_str(alloc, "z"),
        DataType::Utf8 => String::from_str(alloc, "u"),
        DataType::FixedSizeBinary(size) => format!(in alloc; "w:{size}"),
        DataType::Date(DateUnit::Day) => String::from_str(alloc, "tdD"),
        DataType::Date(DateUnit::Millisecond) => String::from_str(alloc, "tdm"),
        DataType::Timestamp { unit, timezone } => {
            let (letter, zone) = (unit_letter(*unit), zone_text(timezone));
            format!(in alloc; "ts{letter}:{zone}")
        }
        DataType::Time(unit) => {
            let letter = unit_letter(*unit);
            format!(in alloc; "tt{letter}")
        }
        DataType::Duration(unit) => {
            let letter = unit_letter(*unit);
            format!(in alloc; "tD{letter}")
        }
        DataType::List => String::from_str(alloc, "+l"),
        DataType::FixedSizeList(size) => format!(in alloc; "+w:{size}"),
        DataType::Struct => String::from_str(alloc, "+s"),
    }
}

// The format string of what a field's slots hold: of the indices if it has a dictionary. Returns an
// error if memory ran out.
pub(crate) fn slots_format(
    alloc: Global,
    kind: &DataType,
    dictionary: Option<Dictionary>,
) -> Result<String, AllocError>
    ensures { IfOk result (λ text. string_bytes text ≡ slots_format kind.now dictionary) }
{
    match dictionary {
        None => type_format(alloc, kind),
        Some(dictionary) => {
            let index = dictionary.index;
            String::from_str(alloc, int_format(index.bits, index.signed))
        }
    }
}
