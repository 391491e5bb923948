//! The dictionaries that a reader has in force.

use crate::indices::{A_AND_B, ONLY_C, in_force, indexed, set};
use ipc_column::{Batch, Cell};
use ipc_dict_read::Dictionaries;
use ipc_model::Fault;
use std::alloc::{AllocError, Global};
use std::test::Fail;

fn letter_of<'a>(cell: Cell<'a>) -> &'a str {
    match cell {
        Cell::Text(text) => text,
        _ => "?",
    }
}

// Appends the letters of a batch's one column, and a blank.
fn tell_letters(told: &mut Vec<u8>, batch: &Batch) -> Result<(), AllocError> {
    if 0 < batch.columns() {
        for row in 0..batch.rows() {
            told.extend_from_slice(letter_of(batch.cell(row, 0)).as_bytes())?;
        }
    }
    Ok(told.push(b' ')?)
}

// Sets the values a and b, and replaces them by c. Then appends the letters of a batch that was
// read before, and of one that is read afterwards.
fn tell_replaced(
    alloc: Global,
    told: &mut Vec<u8>,
    dictionaries: &mut Dictionaries,
) -> Result<(), Fault> {
    set(alloc, dictionaries, &A_AND_B)?;
    let before = indexed(alloc, (2, 0), &[1, 0], dictionaries)?;
    set(alloc, dictionaries, &ONLY_C)?;
    tell_letters(told, &before)?;
    let after = indexed(alloc, (1, 0), &[0], dictionaries)?;
    Ok(tell_letters(told, &after)?)
}

fn tell(alloc: Global, told: &mut Vec<u8>) -> Result<(), Fault> {
    let mut dictionaries = in_force(alloc)?;
    tell_replaced(alloc, told, &mut dictionaries)
}

// A batch that was read before its values are replaced keeps them.
#[test]
fn grows_dictionaries_in_force(rt: HostRuntime) -> Result<(), Fail> {
    let mut told = Vec::new(rt.alloc());
    tell(rt.alloc(), &mut told)?;
    assert!(rt; told.as_slice() == b"ba c ".as_slice());
    Ok(())
}
