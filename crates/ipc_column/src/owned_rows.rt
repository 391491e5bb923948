ghost use Rattle.std.specs.Prelude.{◌≡◌, ◌<◌, ◌+◌, ◌-◌, length, IfOk, OnOk, Some, slice_get};
ghost use Rattle.ipc_column.specs.checks.Checks.{PassTests};
ghost use Rattle.ipc_column.specs.Lent.{HaveValues, HasValue};
ghost use Rattle.ipc_column.specs.Values.{row, rows_of, value_of, values_from, first_at};
ghost use Rattle.ipc_column.specs.Views.{part_columns, column_of, children_of};

use crate::cell::held_at;
use crate::ranges::ColumnRanges;
use crate::slot_view::Slot;
use crate::texts::text_of;
use ipc_model::{Items, Row, Text, Value};
use std::alloc::{AllocError, Global};

// The value of a slot of a part.
#[cycle(read)]
fn read_slot(
    alloc: Global,
    body: &[u8],
    part: &ColumnRanges,
    slot: usize,
) -> Result<Value, AllocError>
    requires { HasValue (column_of body.now part.now) (children_of body.now part.now) slot }
    ensures { IfOk result (λ value. value
        ≡ value_of (row (children_of body.now part.now)) (column_of body.now part.now) slot) }
{
    match held_at(body, part, slot) {
        Slot::Null => Ok(Value::Null),
        Slot::Bool(truth) => Ok(Value::Bool(truth)),
        Slot::Int(number) => Ok(Value::Int(number)),
        Slot::UInt(number) => Ok(Value::UInt(number)),
        Slot::Bytes(bytes) => Ok(Value::Bytes(Items::copied(alloc, bytes)?)),
        Slot::Text(bytes) => Ok(Value::Text(Text::copied(alloc, text_of(bytes))?)),
        Slot::List { from, to } => {
            let values = read_items(alloc, body, &part.children, from, to)?;
            Ok(Value::List(values))
        }
        Slot::Struct => Ok(Value::Struct(read_values(alloc, body, &part.children, slot)?)),
    }
}

// The value of a slot of the first of the parts.
#[cycle(read)]
fn read_first(
    alloc: Global,
    body: &[u8],
    parts: &[ColumnRanges],
    from: usize,
    to: usize,
    at: usize,
) -> Result<Value, AllocError>
    requires range { HaveValues (part_columns body.now parts.now) from to }
    requires inside { at < to - from }
    ensures { IfOk result (λ value. value ≡ first_at (part_columns body.now parts.now)
        (from + at)) }
{
    if parts.is_empty() {
        Ok(Value::Null)
    } else {
        read_slot(alloc, body, &parts[0], from + at)
    }
}

// The values of a range of slots of the first of the parts.
#[cycle(read)]
fn read_items(
    alloc: Global,
    body: &[u8],
    parts: &[ColumnRanges],
    from: usize,
    to: usize,
) -> Result<Items<Value>, AllocError>
    requires { HaveValues (part_columns body.now parts.now) from to }
    ensures { IfOk result (λ values. values
        ≡ values_from (first_at (part_columns body.now parts.now)) from (to - from)) }
{
    let mut values = Vec::with_capacity(alloc, to - from)?;
    for at in 0..to - from {
        values.push(read_first(alloc, body, parts, from, to, at)?)?;
    }
    Ok(Items::from_vec(values))
}

// The values of a slot of each part.
#[cycle(read)]
fn read_values(
    alloc: Global,
    body: &[u8],
    parts: &[ColumnRanges],
    slot: usize,
) -> Result<Items<Value>, AllocError>
    requires { HaveValues (part_columns body.now parts.now) slot (slot + 1) }
    ensures { IfOk result (λ values. values ≡ row (part_columns body.now parts.now) slot) }
{
    let mut values = Vec::with_capacity(alloc, parts.len())?;
    for part in parts {
        values.push(read_slot(alloc, body, part, slot)?)?;
    }
    Ok(Items::from_vec(values))
}

/// Replaces all that `values` has by the values of one row.
pub(crate) fn read_row(
    alloc: Global,
    body: &[u8],
    parts: &[ColumnRanges],
    rows: usize,
    at: usize,
    values: &mut Vec<Value>,
) -> Result<(), AllocError>
    requires holds { PassTests rows (part_columns body.now parts.now) }
    requires row { at < rows }
    ensures { OnOk result (values.new.items ≡ row (part_columns body.now parts.now) at) }
{
    values.clear();
    for part in parts {
        values.push(read_slot(alloc, body, part, at)?)?;
    }
    Ok(())
}

// The values of one row.
fn row_at(
    alloc: Global,
    body: &[u8],
    parts: &[ColumnRanges],
    rows: usize,
    at: usize,
) -> Result<Row, AllocError>
    requires holds { PassTests rows (part_columns body.now parts.now) }
    requires row { at < rows }
    ensures { IfOk result (λ values. values ≡ row (part_columns body.now parts.now) at) }
{
    let mut values = Vec::with_capacity(alloc, parts.len())?;
    read_row(alloc, body, parts, rows, at, &mut values)?;
    Ok(Items::from_vec(values))
}

/// Returns the value in a row of part `i`, of parts with `rows` rows.
pub(crate) fn read_value(
    alloc: Global,
    body: &[u8],
    parts: &[ColumnRanges],
    rows: usize,
    at: usize,
    i: usize,
) -> Result<Value, AllocError>
    requires holds { PassTests rows (part_columns body.now parts.now) }
    requires row { at < rows }
    requires inside { i < length parts.now }
    ensures { IfOk result
        (λ value. slice_get (row (part_columns body.now parts.now) at) i ≡ Some value) }
{
    read_slot(alloc, body, &parts[i], at)
}

/// Returns the rows of parts with `rows` rows.
#[tactic(auto, using(crate::proofs::Cells::rows_more))]
pub(crate) fn rows_in(
    alloc: Global,
    body: &[u8],
    parts: &[ColumnRanges],
    rows: usize,
) -> Result<Items<Row>, AllocError>
    requires { PassTests rows (part_columns body.now parts.now) }
    ensures { IfOk result (λ all. all ≡ rows_of (part_columns body.now parts.now) rows) }
{
    let mut all = Vec::with_capacity(alloc, rows)?;
    for at in 0..rows {
        all.push(row_at(alloc, body, parts, rows, at)?)?;
    }
    Ok(Items::from_vec(all))
}
