//! The column of a refused record batch that alone has the fault.
ghost use Rattle.std.specs.Prelude.{◌≡◌, ◌≤◌, Some, length, true, false, slice_get, IfOk, IfSome};
ghost use Rattle.std.specs.Prelude.{MatchOption};
ghost use Rattle.ipc_model.specs.Entries.{entries};
ghost use Rattle.ipc_column.specs.DictionaryBatches.{AreDictionaries, dictionaries_in};
ghost use Rattle.job_explain.specs.ColumnsAlone.{FirstAlone, IsRefusedAs, NoneAlone, PassesAlone};
ghost use Rattle.job_explain.specs.ColumnsAlone.{column_head, sublist};

use ipc_column::{Batch, Cursor, count};
use ipc_meta::BatchHead;
use ipc_model::{Fault, Field, Items, Limits};
use std::alloc::{AllocError, Global};
use std::collections::BTreeMap;
use std::sync::Arc;

/// A column of a record batch, with its part of the batch's metadata (Message.fbs, table
/// RecordBatch).
#[derive(Drop)]
pub(crate) struct ColumnPart<'a> {
    /// The number of the column, from 0.
    pub(crate) number: usize,
    /// Its field.
    pub(crate) field: &'a Field,
    /// The nodes of the field and of its descendants.
    pub(crate) nodes: &'a [(i64, i64)],
    /// Their buffers.
    pub(crate) buffers: &'a [(i64, i64)],
}

// The elements from place `start` on, to before place `end`.
fn part_of(list: &[(i64, i64)], start: usize, end: usize) -> &[(i64, i64)]
    requires ordered { start ≤ end }
    requires inside { end ≤ length list.now }
    ensures { result.now ≡ sublist list.now start end }
{
    &list[start..end]
}

// A copy of a body. A copy that was made before is used again.
fn copy_body(alloc: Global, body: &[u8], spare: Option<Vec<u8>>) -> Result<Vec<u8>, AllocError>
    requires { IfSome spare (λ copy. copy.items ≡ body.now) }
    ensures copy { IfOk result (λ copy. copy.items ≡ body.now) }
{
    match spare {
        Some(copy) => Ok(copy),
        None => Ok(Vec::from_slice(alloc, body)?),
    }
}

// The metadata of a batch of one column.
fn one_head(
    alloc: Global,
    length: i64,
    nodes: &[(i64, i64)],
    buffers: &[(i64, i64)],
) -> Result<BatchHead, AllocError>
    ensures head { IfOk result (λ head. head ≡ record {
      length = length;
      nodes = nodes.now;
      buffers = buffers.now;
    }) }
{
    Ok(BatchHead {
        length,
        nodes: Items::copied(alloc, nodes)?,
        buffers: Items::copied(alloc, buffers)?,
    })
}

// Whether a batch is refused for this fault; and the body, if it was not refused.
fn is_refused(
    alloc: Global,
    limits: &Limits,
    fault: &Fault,
    fields: &[Field],
    head: BatchHead,
    body: Vec<u8>,
    dictionaries: &BTreeMap<i64, Arc<Batch>>,
) -> Result<(bool, Option<Vec<u8>>), AllocError>
    requires dictionaries { AreDictionaries dictionaries.now }
    requires few { length (entries fields.now) ≤ limits.now.fields }
    ensures same { IfOk result (λ r. r.0 ≡ true → IsRefusedAs limits.now fault.now
        (dictionaries_in dictionaries.now) fields.now head body.items) }
    ensures other { IfOk result (λ r. r.0 ≡ false → PassesAlone limits.now fault.now
        (dictionaries_in dictionaries.now) fields.now head body.items) }
    ensures body { IfOk result (λ r. IfSome r.1 (λ b. b.items ≡ body.items)) }
{
    match Batch::check(alloc, limits, fields, head, body, dictionaries) {
        Ok(batch) => Ok((false, batch.into_body())),
        Err(Fault::OutOfMemory) => Err(AllocError),
        Err(other) if other.number() == fault.number() => Ok((true, None)),
        Err(_) => Ok((false, None)),
    }
}

/// Returns the first column that alone is refused for a fault: as the only column of a batch of the
/// same length, with its own nodes and buffers and the whole body. `None` if there is no such
/// column, or if the batch has other numbers of nodes or buffers than its fields.
///
/// The body is copied.
pub(crate) fn first_alone<'a>(
    alloc: Global,
    limits: &Limits,
    fault: &Fault,
    fields: &'a [Field],
    head: &'a BatchHead,
    body: &[u8],
    dictionaries: &BTreeMap<i64, Arc<Batch>>,
) -> Result<Option<ColumnPart<'a>>, AllocError>
    requires dictionaries { AreDictionaries dictionaries.now }
    requires few { length (entries fields.now) ≤ limits.now.fields }
    ensures finds { IfOk result (λ o. MatchOption o
        (NoneAlone limits.now fault.now (dictionaries_in dictionaries.now) fields.now head.now
        body.now)
        (λ part. FirstAlone limits.now fault.now (dictionaries_in dictionaries.now) fields.now
        head.now body.now part.number
        × (slice_get fields.now part.number ≡ Some part.field.now)
        × (column_head fields.now head.now part.number ≡ record {
          length = head.now.length;
          nodes = part.nodes.now;
          buffers = part.buffers.now;
        }))) }
{
    let all = count(fields, Cursor { node: 0, buffer: 0 });
    if head.nodes.len() != all.node || head.buffers.len() != all.buffer {
        return Ok(None);
    }
    let mut place = Cursor { node: 0, buffer: 0 };
    let mut spare = None;
    for number in 0..fields.len() {
        let column = &fields[number..number + 1];
        let after = count(column, place);
        let nodes = part_of(head.nodes.as_slice(), place.node, after.node);
        let buffers = part_of(head.buffers.as_slice(), place.buffer, after.buffer);
        let part = one_head(alloc, head.length, nodes, buffers)?;
        let copy = copy_body(alloc, body, spare)?;
        let (refused, back) = is_refused(alloc, limits, fault, column, part, copy, dictionaries)?;
        if refused {
            return Ok(Some(ColumnPart {
                number,
                field: &fields[number],
                nodes,
                buffers,
            }));
        }
        spare = back;
        place = after;
    }
    Ok(None)
}
