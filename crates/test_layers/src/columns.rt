//! How many slots are tested of columns of texts, and of columns that are too long for rows of
//! their own.
use crate::lists::{MOST, Parts, batch, leaf};
use ipc_column::Batch;
use ipc_model::{DataType, Fault};
use std::alloc::Global;

// A batch of one column without children.
fn column(alloc: Global, kind: DataType, parts: Parts<'_>, body: &[u8]) -> Result<Batch, Fault> {
    batch(alloc, leaf(alloc, kind)?, parts, body)
}

// Whether a batch has the greatest number of rows, and no slot is tested.
fn is_longest(batch: &Batch) -> bool {
    batch.rows() == 2_147_483_647 && batch.tests() == 0
}

// The greatest number of nulls.
fn are_nulls(alloc: Global) -> Result<bool, Fault> {
    Ok(is_longest(&column(alloc, DataType::Null, (&[(MOST, 5)], &[]), &[])?))
}

// The greatest number of rows without bytes.
fn are_of_no_bytes(alloc: Global) -> Result<bool, Fault> {
    let parts: Parts<'_> = (&[(MOST, 0)], &[(0, 0), (0, 0)]);
    Ok(is_longest(&column(alloc, DataType::FixedSizeBinary(0), parts, &[])?))
}

// Two texts that share the bytes of one character.
fn are_parts_of_a_character(alloc: Global) -> bool {
    let body = [0, 0, 0, 0, 1, 0, 0, 0, 2, 0, 0, 0, 0xc3, 0xa9];
    let parts: Parts<'_> = (&[(2, 0)], &[(0, 0), (0, 12), (12, 2)]);
    matches!(
        column(alloc, DataType::Utf8, parts, &body),
        Err(Fault::ValueNotUtf8)
    )
}

// A null slot over ff between texts: all three slots are visited.
fn are_around_a_null(alloc: Global) -> Result<bool, Fault> {
    let body = [
        0b101, 0, 0, 0, 0, 0, 0, 0, 1, 0, 0, 0, 2, 0, 0, 0, 3, 0, 0, 0, 0x61, 0xff, 0x62,
    ];
    let parts: Parts<'_> = (&[(3, 1)], &[(0, 1), (4, 16), (20, 3)]);
    Ok(column(alloc, DataType::Utf8, parts, &body)?.tests() == 3)
}

#[test]
fn slots_of_flat_columns(rt: HostRuntime) {
    let alloc = rt.alloc();
    assert!(rt; are_parts_of_a_character(alloc) && are_around_a_null(alloc) == Ok(true));
    assert!(rt; are_nulls(alloc) == Ok(true) && are_of_no_bytes(alloc) == Ok(true));
}
