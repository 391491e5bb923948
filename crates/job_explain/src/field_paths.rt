//! The field of a refused schema that has the fault.
ghost use Rattle.std.specs.Prelude.{◌≡◌, ◌+◌, ◌*◌, ◌<◌, ◌++◌, ◌↔◌, ℕ, List, None, Some, Ok, IsTrue};
ghost use Rattle.std.specs.Prelude.{IfOk, IfSome, MatchOption, OnOk};
ghost use Rattle.std.specs.Fmt.{decimal};
ghost use Rattle.ipc_flat.specs.Views.{TableView, table_from};
ghost use Rattle.ipc_model.specs.Answers.{AnswersUnlessOutOfMemory};
ghost use Rattle.ipc_model.specs.Numbering.{fault_number};
ghost use Rattle.ipc_meta.specs.Tables.{text_at, code_at};
ghost use Rattle.job_explain.specs.FieldPaths as spec;
ghost use Rattle.job_explain.specs.FieldPaths.{field_alone, FirstWith, IsSchemaTable, NamesBelow};
ghost use Rattle.job_explain.specs.FieldPaths.{NoneWith, RefusedAs};
ghost use Rattle.job_explain.specs.FieldPaths.{NamesField, cause_words, end_words, name_words};
ghost use Rattle.job_explain.specs.FieldPaths.{type_words};

use crate::column_lines::push_string;
use crate::type_tables::push_type_table;
use ipc_flat::{Flat, TableRef, TableVec};
use ipc_meta::read_only_field;
use ipc_model::{Fault, Limits, Schema};
use ipc_text_temporal::push_number;
use std::alloc::{AllocError, Global};

// Whether a fault has the number of another one.
fn is_same(answer: Option<Fault>, fault: &Fault) -> Result<bool, AllocError>
    ensures same { IfOk result (λ b. IsTrue b
        ↔ MatchOption answer ⊥ (λ f. fault_number f ≡ fault_number fault.now)) }
    ensures memory { OnOk result (answer ≡ Some Fault.OutOfMemory → ⊥) }
{
    match answer {
        None => Ok(false),
        Some(Fault::OutOfMemory) => Err(AllocError),
        Some(answer) => Ok(answer.number() == fault.number()),
    }
}

// Reads a Field table as the only field of a schema, and checks this schema.
fn check_alone(alloc: Global, limits: &Limits, table: &TableRef<'_>) -> Result<(), Fault>
    ensures { AnswersUnlessOutOfMemory (λ fine. fine) result (field_alone limits.now table.now) }
{
    let field = read_only_field(alloc, limits, table)?;
    let mut fields = Vec::new(alloc);
    fields.push(field)?;
    Schema::new(fields).check(alloc, limits)?;
    Ok(())
}

// Whether a schema with this Field table alone is refused for this fault.
fn has_alone(
    alloc: Global,
    limits: &Limits,
    fault: &Fault,
    table: &TableRef<'_>,
) -> Result<bool, AllocError>
    ensures answer { IfOk result (λ b. IsTrue b ↔ RefusedAs fault.now
        (field_alone limits.now table.now)) }
{
    is_same(check_alone(alloc, limits, table).err(), fault)
}

// The table in a place of a vector, if it is one that alone is refused for this fault.
fn alone_at<'a>(
    alloc: Global,
    limits: &Limits,
    fault: &Fault,
    tables: &TableVec<'a>,
    i: usize,
) -> Result<Option<TableRef<'a>>, AllocError>
    requires { i < tables.now.len }
    ensures some { IfOk result (λ o. IfSome o (λ u.
        (table_from tables.now.bytes (tables.now.at + i * 4) ≡ Ok u)
        × RefusedAs fault.now (field_alone limits.now u))) }
    ensures none { IfOk result (λ o. o ≡ None → (v : TableView)
        → table_from tables.now.bytes (tables.now.at + i * 4) ≡ Ok v
        → RefusedAs fault.now (field_alone limits.now v) → ⊥) }
{
    let Ok(table) = tables.at(i) else {
        return Ok(None);
    };
    if has_alone(alloc, limits, fault, &table)? {
        Ok(Some(table))
    } else {
        Ok(None)
    }
}

// The first table of a vector that alone is refused for this fault, with its place.
fn first_with<'a>(
    alloc: Global,
    limits: &Limits,
    fault: &Fault,
    table: &TableRef<'a>,
    slot: u16,
) -> Result<Option<(usize, TableRef<'a>)>, AllocError>
    ensures answer { IfOk result (λ o. MatchOption o (NoneWith limits.now fault.now table.now slot)
        (λ f. FirstWith limits.now fault.now table.now slot f.0 f.1)) }
{
    let tables = match table.tables(slot) {
        Ok(Some(tables)) => tables,
        Ok(None) => return Ok(None),
        Err(_) => return Ok(None),
    };
    for i in 0..tables.len() {
        if let Some(field) = alone_at(alloc, limits, fault, &tables, i)? {
            return Ok(Some((i, field)));
        }
    }
    Ok(None)
}

// The name of the type with this code (Schema.fbs, union Type).
fn type_name(code: u8) -> &'static [u8]
    ensures { result.now ≡ spec.type_name code }
{
    match code {
        1 => b"Null",
        2 => b"Int",
        3 => b"FloatingPoint",
        4 => b"Binary",
        5 => b"Utf8",
        6 => b"Bool",
        7 => b"Decimal",
        8 => b"Date",
        9 => b"Time",
        10 => b"Timestamp",
        11 => b"Interval",
        12 => b"List",
        13 => b"Struct_",
        14 => b"Union",
        15 => b"FixedSizeBinary",
        16 => b"FixedSizeList",
        17 => b"Map",
        18 => b"Duration",
        19 => b"LargeBinary",
        20 => b"LargeUtf8",
        21 => b"LargeList",
        22 => b"RunEndEncoded",
        23 => b"BinaryView",
        24 => b"Utf8View",
        25 => b"ListView",
        26 => b"LargeListView",
        _ => b"unknown",
    }
}

// Appends the words for the name of a field.
#[tactic(auto, unfolding(ipc_meta::specs::Tables::text_at))]
fn push_name(alloc: Global, out: &mut Vec<u8>, table: &TableRef<'_>) -> Result<(), AllocError>
    ensures ok { OnOk result (out.new.items ≡ out.old.items ++ name_words (text_at table.now 0)) }
{
    let Ok(name) = table.text(0) else {
        return Ok(());
    };
    out.extend_from_slice(b" ")?;
    push_string(alloc, out, name.unwrap_or(""))
}

// Appends the words for the type of a field.
#[tactic(auto, unfolding(ipc_meta::specs::Tables::code_at))]
fn push_type(out: &mut Vec<u8>, table: &TableRef<'_>) -> Result<(), AllocError>
    ensures ok { OnOk result (out.new.items ≡ out.old.items ++ type_words (code_at table.now)) }
{
    let Ok(code) = table.scalar_u8(2, 0) else {
        return Ok(());
    };
    out.extend_from_slice(b": type ")?;
    out.extend_from_slice(type_name(code))?;
    out.extend_from_slice(b" (code ")?;
    push_number(out, u64::from(code))?;
    out.extend_from_slice(b")")?;
    Ok(())
}

// Appends the words for the width, size or unit that no type has, if the fault is F14.
#[tactic(auto, unfolding(ipc_meta::specs::Tables::code_at))]
fn push_cause(out: &mut Vec<u8>, fault: &Fault, table: &TableRef<'_>) -> Result<(), AllocError>
    ensures ok { OnOk result (out.new.items ≡ out.old.items ++ cause_words fault.now table.now) }
{
    if fault.number() != 14 {
        return Ok(());
    }
    let Ok(code) = table.scalar_u8(2, 0) else {
        return Ok(());
    };
    push_type_table(out, code, table)
}

// Appends the type of the field that has the fault, and ends the line.
fn push_end(out: &mut Vec<u8>, fault: &Fault, table: &TableRef<'_>) -> Result<(), AllocError>
    ensures ok { OnOk result (out.new.items ≡ out.old.items ++ end_words fault.now table.now) }
{
    push_type(out, table)?;
    push_cause(out, fault, table)?;
    out.extend_from_slice(b"\n")?;
    Ok(())
}

// Appends the place and the name of a field.
fn push_field(
    alloc: Global,
    out: &mut Vec<u8>,
    word: &[u8],
    i: usize,
    table: &TableRef<'_>,
) -> Result<(), AllocError>
    ensures ok { OnOk result (out.new.items
        ≡ out.old.items ++ (word.now ++ decimal i ++ name_words (text_at table.now 0))) }
{
    out.extend_from_slice(word)?;
    push_number(out, i as u64)?;
    push_name(alloc, out, table)
}

// Appends the rest of the path to the field that has the fault, from the Field table of which the
// words were appended, and then the field's type.
fn push_below(
    alloc: Global,
    limits: &Limits,
    fault: &Fault,
    depth: u64,
    table: &TableRef<'_>,
    out: &mut Vec<u8>,
) -> Result<(), AllocError>
    ensures ok { OnOk result ((below : List ℕ)
        × NamesBelow limits.now fault.now depth table.now below
        × (out.new.items ≡ out.old.items ++ below)) }
{
    if depth > 0 {
        if let Some((i, child)) = first_with(alloc, limits, fault, table, 5)? {
            push_field(alloc, out, b", child ", i, &child)?;
            return push_below(alloc, limits, fault, depth - 1, &child, out);
        }
    }
    push_end(out, fault, table)
}

// The Schema table of the metadata of a message, if it has one.
fn schema_table(metadata: &[u8]) -> Option<TableRef<'_>>
    ensures { MatchOption result ((t : TableView) → IsSchemaTable metadata.now t → ⊥)
        (λ u. IsSchemaTable metadata.now u
        × ((t : TableView) → IsSchemaTable metadata.now t → t ≡ u)) }
{
    let root = Flat::root(metadata).ok()?;
    if root.scalar_u8(1, 0) != Ok(1) {
        return None;
    }
    root.table(2).ok()?
}

/// Returns the line for the field of a schema's metadata that has the fault. It is empty if no
/// column alone has it.
pub(crate) fn field_line(
    alloc: Global,
    limits: &Limits,
    fault: &Fault,
    metadata: &[u8],
) -> Result<Vec<u8>, AllocError>
    ensures line { IfOk result
        (λ line. NamesField limits.now metadata.now fault.now line.items) }
{
    let mut line = Vec::new(alloc);
    let Some(table) = schema_table(metadata) else {
        return Ok(line);
    };
    let Some((i, column)) = first_with(alloc, limits, fault, &table, 1)? else {
        return Ok(line);
    };
    push_field(alloc, &mut line, b"column ", i, &column)?;
    push_below(alloc, limits, fault, limits.depth, &column, &mut line)?;
    Ok(line)
}
