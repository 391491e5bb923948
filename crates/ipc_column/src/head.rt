ghost use Rattle.std.specs.Prelude.{◌≡◌, ◌≤◌, IfErr};
ghost use Rattle.ipc_column.specs.checks.Checks.{Judges, AreCountsRight, all, is_slot_count};
ghost use Rattle.ipc_column.specs.checks.Checks.{is_node, is_within_body, head_passes};
ghost use Rattle.ipc_column.specs.Shapes.{shape_of, node_count};

use crate::assign::{Cursor, count};
use ipc_meta::BatchHead;
use ipc_model::{Fault, Field, Limits};

fn is_slot_count(limits: &Limits, count: i64) -> bool
    ensures { result ≡ is_slot_count limits.now count }
{
    0 <= count && count <= limits.slots as i64
}

fn is_node(limits: &Limits, node: (i64, i64)) -> bool
    ensures { result ≡ is_node limits.now node }
{
    is_slot_count(limits, node.0) && 0 <= node.1 && node.1 <= node.0
}

fn is_within_body(size: usize, range: (i64, i64)) -> bool
    ensures { result ≡ is_within_body size range }
{
    0 <= range.0
        && 0 <= range.1
        && (range.1 == 0
            || range.0.unsigned_abs() as usize + range.1.unsigned_abs() as usize <= size)
}

fn are_nodes(limits: &Limits, nodes: &[(i64, i64)]) -> bool
    ensures { result ≡ all (is_node limits.now) nodes.now }
{
    let mut good = true;
    for node in nodes {
        good = good && is_node(limits, *node);
    }
    good
}

fn are_within_body(size: usize, buffers: &[(i64, i64)]) -> bool
    ensures { result ≡ all (is_within_body size) buffers.now }
{
    let mut good = true;
    for buffer in buffers {
        good = good && is_within_body(size, *buffer);
    }
    good
}

/// Checks that the head has the nodes and buffers that the fields need. Lengths must be within
/// their bounds, and ranges within a body of `size` bytes.
#[tactic(auto, using(crate::proofs::Fields::buffers_most))]
pub(crate) fn check_head(
    limits: &Limits,
    fields: &[Field],
    head: &BatchHead,
    size: usize,
) -> Result<(), Fault>
    requires { node_count (shape_of fields.now) ≤ limits.now.fields }
    ensures judged { Judges result (λ why. head_passes limits.now why (shape_of fields.now)
        head.now size) }
    ensures counted { IfErr result (λ why. AreCountsRight limits.now why (shape_of fields.now)
        head.now
        size) }
{
    let wanted = count(fields, Cursor { node: 0, buffer: 0 });
    if head.nodes.len() != wanted.node {
        return Err(Fault::WrongNodeCount);
    }
    if head.buffers.len() != wanted.buffer {
        return Err(Fault::WrongBufferCount);
    }
    if !is_slot_count(limits, head.length) || !are_nodes(limits, head.nodes.as_slice()) {
        return Err(Fault::BadNode);
    }
    if !are_within_body(size, head.buffers.as_slice()) {
        return Err(Fault::BufferOutOfBody);
    }
    Ok(())
}
