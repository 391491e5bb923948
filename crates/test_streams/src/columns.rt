//! Batches that were read and are written to a stream of another schema by `write_columns`.

use crate::scripts::{Step, batch_of, ended, started, stream_of};
use crate::tables::{Column, NUMBERS, Rows};
use ipc_model::{BatchRows, Items, Schema, WriteFault};
use ipc_stream::Batch;
use std::alloc::Global;
use std::test::Fail;

// The result of sending a batch to a stream of this schema, by its columns or by its rows, and the
// stream's bytes.
fn sent(
    alloc: Global,
    schema: &Schema,
    batch: &Batch,
    by_columns: bool,
) -> Result<(Result<(), WriteFault>, Vec<u8>), Fail> {
    let mut writer = started(alloc, schema)?;
    let pairs = Items::new(alloc);
    let result = if by_columns {
        writer.write_columns(batch, pairs)
    } else {
        let rows = batch.to_rows(alloc)?;
        writer.write_batch(&BatchRows { pairs, rows })
    };
    Ok((result, ended(writer)?))
}

// Whether the columns of a batch of numbers are sent to a stream of another column exactly as its
// rows are, or refused as these are, and which of the two.
fn is_copied(alloc: Global, rows: Rows<'_>, to: Column, is_taken: bool) -> Result<bool, Fail> {
    let batch = batch_of(
        alloc,
        stream_of(alloc, Column::Numbers, &[Step::Write(rows)])?,
    )?;
    let schema = to.schema(alloc)?;
    let (columns, copy) = sent(alloc, &schema, &batch, true)?;
    let (by_rows, wanted) = sent(alloc, &schema, &batch, false)?;
    Ok(columns.is_ok() == is_taken && columns == by_rows && copy.as_slice() == wanted.as_slice())
}

// Numbers of another width are refused as their rows are, and days are numbers of whole days.
const CASES: [(Rows<'static>, Column, bool); 3] = [
    (NUMBERS, Column::Bytes, false),
    (&[Some(86_400_000)], Column::Days, true),
    (&[Some(86_400_000), Some(1)], Column::Days, false),
];

#[test]
fn columns_of_batches(rt: HostRuntime) -> Result<(), Fail> {
    for (number, (rows, to, is_taken)) in CASES.iter().enumerate() {
        assert!(rt;
            is_copied(rt.alloc(), *rows, *to, *is_taken)?,
            "case {number}"
        );
    }
    Ok(())
}
