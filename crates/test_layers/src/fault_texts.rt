//! What is printed of faults that no program prints.

use crate::lists::{leaf, over};
use ipc_build::BuildFault;
use ipc_flat::FlatFault;
use ipc_model::{
    DataType, Fault, Items, Limits, RowCause, RowFault, Schema, SchemaFault, Value, conforms,
};
use std::alloc::{AllocError, Global};
use std::fmt::Display;

fn prints<T: Display>(alloc: Global, thing: &T, words: &str) -> bool {
    let text = format!(in alloc; "{thing}");
    matches!(&text, Ok(text) if text.as_str() == words)
}

// The fault of a row that doesn't fit a schema.
#[tactic(auto, using(ipc_model::proofs::Depths::short_paths))]
fn fault_of(alloc: Global, schema: &Schema, row: &[Value]) -> Result<Option<RowFault>, Fault> {
    schema.check(alloc, &Limits::standard())?;
    Ok(conforms(schema, row).err())
}

// A column of structs of a text.
fn structs(alloc: Global) -> Result<Schema, AllocError> {
    let field = over(alloc, DataType::Struct, leaf(alloc, DataType::Utf8)?)?;
    let mut fields = Vec::new(alloc);
    fields.push(field)?;
    Ok(Schema::new(fields))
}

// A row of a struct of a number.
fn struct_of_a_number(alloc: Global) -> Result<Vec<Value>, AllocError> {
    let number = vec![in alloc; Value::Int(1)]?;
    Ok(vec![in alloc; Value::Struct(Items::from_vec(number))]?)
}

// The fault of a number in the place of a struct's text.
fn fault_below(alloc: Global) -> Result<Option<RowFault>, Fault> {
    let schema = structs(alloc)?;
    let row = struct_of_a_number(alloc)?;
    fault_of(alloc, &schema, row.as_slice())
}

fn is_printed_below(alloc: Global) -> bool {
    match fault_below(alloc) {
        Ok(Some(fault)) => {
            prints(alloc, &fault, "W3 WrongKind path 0.0") && prints(alloc, &fault.path, "0.0")
        }
        _ => false,
    }
}

// What is printed of faults of rows, schemas and trees.
fn prints_others(alloc: Global) -> bool {
    prints(alloc, &RowCause::NullNotAllowed, "W5 NullNotAllowed")
        && prints(alloc, &SchemaFault::TooDeep(65), "TooDeep at field 65")
        && prints(alloc, &FlatFault::BadVtable, "bad vtable")
        && prints(
            alloc,
            &BuildFault::TooLarge,
            "the size bound of the tree is too large",
        )
}

#[test]
fn faults_without_a_program(rt: HostRuntime) {
    assert!(rt; is_printed_below(rt.alloc()) && prints_others(rt.alloc()));
}
