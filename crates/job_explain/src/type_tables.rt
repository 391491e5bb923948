//! Words for what the table of a type states.
ghost use Rattle.std.specs.Prelude.{◌≡◌, ◌++◌, OnOk, pos};
ghost use Rattle.ipc_scalar.specs.Bytes.{int16, int32};
ghost use Rattle.ipc_flat.specs.Views.{field, scalar, table_from};
ghost use Rattle.job_explain.specs.TypeTables as spec;

use ipc_flat::{FlatFault, TableRef};
use ipc_text_temporal::push_signed;
use std::alloc::AllocError;

// The number of two bytes in the first field.
fn unit_at(table: &TableRef<'_>, default: i16) -> Result<i64, FlatFault>
    ensures { result ≡ scalar table.now 0 2 int16 default }
{
    Ok(i64::from(table.scalar_i16(0, default)?))
}

// The number of four bytes in a field.
fn size_at(table: &TableRef<'_>, slot: u16, default: i32) -> Result<i64, FlatFault>
    ensures { result ≡ scalar table.now slot 4 int32 default }
{
    Ok(i64::from(table.scalar_i32(slot, default)?))
}

// Appends the words for a number with this name.
fn push_named(
    out: &mut Vec<u8>,
    name: &[u8],
    number: Result<i64, FlatFault>,
) -> Result<(), AllocError>
    ensures ok { OnOk result (out.new.items ≡ out.old.items ++ spec.number_words name.now number) }
{
    let Ok(number) = number else {
        return Ok(());
    };
    out.extend_from_slice(b", ")?;
    out.extend_from_slice(name)?;
    out.extend_from_slice(b" ")?;
    push_signed(out, number)?;
    Ok(())
}

// Appends the words for the unit and the width of a time.
fn push_time(out: &mut Vec<u8>, table: &TableRef<'_>) -> Result<(), AllocError>
    ensures ok { OnOk result (out.new.items ≡ out.old.items ++ spec.table_words 9 table.now) }
{
    push_named(out, b"unit", unit_at(table, 1))?;
    push_named(out, b"bitWidth", size_at(table, 1, 32))
}

// Appends the words for the width, the size or the unit in the table of the type with this code.
fn push_table(out: &mut Vec<u8>, code: u8, table: &TableRef<'_>) -> Result<(), AllocError>
    ensures ok { OnOk result (out.new.items ≡ out.old.items ++ spec.table_words code table.now) }
{
    match code {
        2 => push_named(out, b"bitWidth", size_at(table, 0, 0)),
        8 => push_named(out, b"unit", unit_at(table, 1)),
        9 => push_time(out, table),
        10 => push_named(out, b"unit", unit_at(table, 0)),
        15 => push_named(out, b"byteWidth", size_at(table, 0, 0)),
        16 => push_named(out, b"listSize", size_at(table, 0, 0)),
        18 => push_named(out, b"unit", unit_at(table, 1)),
        _ => Ok(()),
    }
}

/// Appends the words for the table of the type with this code, in a Field table.
pub(crate) fn push_type_table(
    out: &mut Vec<u8>,
    code: u8,
    table: &TableRef<'_>,
) -> Result<(), AllocError>
    ensures ok { OnOk result (out.new.items
        ≡ out.old.items ++ spec.found_words code (field table.now 3 table_from)) }
{
    match table.table(3) {
        Ok(Some(table)) => push_table(out, code, &table),
        Ok(None) => out.extend_from_slice(b", without a table"),
        Err(_) => Ok(()),
    }
}
