//! Types and values in a line.
use ipc_model::{DataType, DateUnit, Dictionary, IntBits, Items, Text, TimeUnit, Value};
use std::fmt;

/// A text between quotes, escaped as by `str::escape_default`: a character outside printable ASCII
/// is written as `\u{e9}`.
pub fn write_text<W: fmt::Write>(f: &mut fmt::Formatter<W>, text: &str) -> fmt::Result {
    let escaped = text.escape_default();
    write!(f, "\"{escaped}\"")
}

/// Pairs of key and value, with a blank before each.
pub fn write_pairs<W: fmt::Write>(
    f: &mut fmt::Formatter<W>,
    pairs: &[(Text, Text)],
) -> fmt::Result {
    for (key, value) in pairs {
        f.write_str(" ")?;
        write_text(f, key.as_str())?;
        f.write_str("=")?;
        write_text(f, value.as_str())?;
    }
    Ok(())
}

fn write_int<W: fmt::Write>(f: &mut fmt::Formatter<W>, bits: IntBits, signed: bool) -> fmt::Result {
    f.write_str(if signed { "int" } else { "uint" })?;
    f.write_str(match bits {
        IntBits::B8 => "8",
        IntBits::B16 => "16",
        IntBits::B32 => "32",
        IntBits::B64 => "64",
    })
}

fn unit_text(unit: TimeUnit) -> &'static str {
    match unit {
        TimeUnit::Second => "s",
        TimeUnit::Millisecond => "ms",
        TimeUnit::Microsecond => "us",
        TimeUnit::Nanosecond => "ns",
    }
}

fn write_timestamp<W: fmt::Write>(
    f: &mut fmt::Formatter<W>,
    unit: TimeUnit,
    timezone: &Option<Text>,
) -> fmt::Result {
    f.write_str("timestamp(")?;
    f.write_str(unit_text(unit))?;
    if let Some(zone) = timezone {
        f.write_str(" ")?;
        write_text(f, zone.as_str())?;
    }
    f.write_str(")")
}

/// A type, as in `int32`, `fixed_size_binary(5)`, `date(day)`, `time(ms)`, `duration(s)` or
/// `timestamp(us "UTC")`.
pub fn write_type<W: fmt::Write>(f: &mut fmt::Formatter<W>, kind: &DataType) -> fmt::Result {
    match kind {
        DataType::Null => f.write_str("null"),
        DataType::Bool => f.write_str("bool"),
        DataType::Int { bits, signed } => write_int(f, *bits, *signed),
        DataType::Binary => f.write_str("binary"),
        DataType::Utf8 => f.write_str("utf8"),
        DataType::FixedSizeBinary(width) => write!(f, "fixed_size_binary({width})"),
        DataType::Date(DateUnit::Day) => f.write_str("date(day)"),
        DataType::Date(DateUnit::Millisecond) => f.write_str("date(ms)"),
        DataType::Time(unit) => write!(f, "time({})", unit_text(*unit)),
        DataType::Timestamp { unit, timezone } => write_timestamp(f, *unit, timezone),
        DataType::Duration(unit) => write!(f, "duration({})", unit_text(*unit)),
        DataType::List => f.write_str("list"),
        DataType::FixedSizeList(size) => write!(f, "fixed_size_list({size})"),
        DataType::Struct => f.write_str("struct"),
    }
}

/// A dictionary, as in ` dictionary(7 int8 ordered)`, with a blank before it.
pub fn write_dictionary<W: fmt::Write>(
    f: &mut fmt::Formatter<W>,
    dictionary: Dictionary,
) -> fmt::Result {
    let id = dictionary.id;
    write!(f, " dictionary({id} ")?;
    write_int(f, dictionary.index.bits, dictionary.index.signed)?;
    f.write_str(if dictionary.ordered { " ordered)" } else { ")" })
}

fn write_bytes<W: fmt::Write>(f: &mut fmt::Formatter<W>, bytes: &[u8]) -> fmt::Result {
    f.write_str("x\"")?;
    for byte in bytes {
        write!(f, "{byte:02x}")?;
    }
    f.write_str("\"")
}

/// A value: `null`, `true`, `-5`, `"text"`, `x"00ff"`, a list `[1 2]` or a struct `{1 "a"}`.
#[cycle(write_value)]
pub fn write_value<W: fmt::Write>(value: &Value, f: &mut fmt::Formatter<W>) -> fmt::Result {
    match value {
        Value::Null => f.write_str("null"),
        Value::Bool(truth) => write!(f, "{truth}"),
        Value::Int(number) => write!(f, "{number}"),
        Value::UInt(number) => write!(f, "{number}"),
        Value::Bytes(bytes) => write_bytes(f, bytes.as_slice()),
        Value::Text(text) => write_text(f, text.as_str()),
        Value::List(values) => write_values(values, ("[", "]"), f),
        Value::Struct(values) => write_values(values, ("{", "}"), f),
    }
}

// The values between two brackets, separated by blanks.
#[cycle(write_value)]
fn write_values<W: fmt::Write>(
    values: &Items<Value>,
    (first, last): (&str, &str),
    f: &mut fmt::Formatter<W>,
) -> fmt::Result {
    f.write_str(first)?;
    let mut is_first = true;
    for value in values.as_slice() {
        if !is_first {
            f.write_str(" ")?;
        }
        is_first = false;
        write_value(value, f)?;
    }
    f.write_str(last)
}
