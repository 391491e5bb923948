//! Rows that were read, written again with the indices of a plan.
ghost use Rattle.std.specs.Prelude.{◌≡◌};
ghost use Rattle.ipc_dict.specs.SchemaIds.{ids_of, kept_ids};

use crate::indices::{A_AND_B, ONLY_C, in_force, indexed, schema, set};
use ipc_dict::{Kept, Plan};
use ipc_encode::encode;
use ipc_model::{Limits, Row, Schema, WriteFault};
use std::alloc::Global;
use std::test::Fail;

// Whether these rows send this number of dictionaries, and the column of their indices has this
// body. What is sent is recorded.
fn are_written(
    alloc: Global,
    schema: &Schema,
    kept: &mut Kept,
    rows: &[Row],
    sends: usize,
    body: &[u8],
) -> Result<bool, WriteFault>
    requires { kept_ids kept.old ≡ ids_of schema.now.fields }
    ensures { kept_ids kept.new ≡ ids_of schema.now.fields }
{
    let limits = Limits::standard();
    let plan = Plan::for_rows(alloc, &limits, schema, kept, rows)?;
    let parts = encode(alloc, &limits, schema.fields.as_slice(), rows, &plan)?;
    let are_sent = plan.sends().len() == sends;
    plan.commit(kept);
    Ok(are_sent && parts.body.as_slice() == body)
}

// The rows of batches that were accepted under two dictionaries are planned and encoded. The last
// rows lack no value of the dictionary before them, so none is sent.
#[test]
fn plans_rows_that_were_read(rt: HostRuntime) -> Result<(), Fail> {
    let alloc = rt.alloc();
    let mut values = in_force(alloc)?;
    set(alloc, &mut values, &A_AND_B)?;
    let b_and_a = indexed(alloc, (2, 0), &[1, 0], &values)?.to_rows(alloc)?;
    set(alloc, &mut values, &ONLY_C)?;
    let null_and_c = indexed(alloc, (2, 1), &[0b10, 9, 0], &values)?.to_rows(alloc)?;
    let schema = schema(alloc)?;
    let mut kept = Kept::new(alloc, &schema)?;
    let of_two = [0, 1, 0, 0, 0, 0, 0, 0].as_slice();
    let of_null = [0b10, 0, 0, 0, 0, 0, 0, 0, 0, 0, 0, 0, 0, 0, 0, 0].as_slice();
    assert!(rt; are_written(alloc, &schema, &mut kept, &b_and_a, 1, of_two)?);
    assert!(rt; are_written(alloc, &schema, &mut kept, &null_and_c, 1, of_null)?);
    assert!(rt; are_written(alloc, &schema, &mut kept, &null_and_c, 0, of_null)?);
    Ok(())
}
