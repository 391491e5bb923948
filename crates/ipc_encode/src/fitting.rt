//! The bytes that the buffers of columns take.
ghost use Rattle.std.specs.Prelude.{◌≡◌, ◌≤◌, ◌<◌, ℕ, List, ◌+◌, length, None, IfSome};
ghost use Rattle.ipc_model.specs.declared.layout.Layout.{Layout};
ghost use Rattle.ipc_model.specs.declared.limits.Limits.{Limits};
ghost use Rattle.ipc_model.specs.declared.value.Value.{Value};
ghost use Rattle.ipc_column.specs.Shapes.{Shape, bare, field, node_count};
ghost use Rattle.ipc_encode.specs.Buffers.{buffers_of, padded_bytes};
ghost use Rattle.ipc_encode.specs.Built.{AreNodes, AreShares, IsColumn, IsNode};
ghost use Rattle.ipc_encode.specs.Numbers.{Numbering};

use crate::tree::Node;
use ipc_model::Limits;

// Returns the remaining bytes after the padded buffers of a column and of its descendants. Returns
// `None` if `bytes` is too small.
#[cycle(left)]
fn remaining(node: &Node, bytes: u64) -> Option<u64>
    ensures left { (known : Numbering) (limits : Limits) (layout : Layout)
        (children : Shape) (values : List Value)
        → IsNode (IsColumn known limits) layout children node.now values
        → IfSome result (λ left.
        length (padded_bytes (buffers_of (field layout children bare) (λ j. values))) + left
        ≡ bytes) }
    ensures none { (known : Numbering) (limits : Limits) (layout : Layout)
        (children : Shape) (values : List Value)
        → IsNode (IsColumn known limits) layout children node.now values → result ≡ None
        → bytes < length (padded_bytes (buffers_of (field layout children bare) (λ j. values))) }
    ensures fewer { IfSome result (λ left. left ≤ bytes) }
{
    let len = node.column.counts().len(node.column.data.layout());
    if len > bytes {
        return None;
    }
    remaining_all(&node.children, bytes - len)
}

/// Returns the remaining bytes after the padded buffers of columns and of their descendants.
/// Returns `None` if `bytes` is too small.
#[cycle(left)]
pub(crate) fn remaining_all(nodes: &[Node], bytes: u64) -> Option<u64>
    ensures left { (known : Numbering) (limits : Limits) (shape : Shape)
        (given : ℕ → List Value)
        → AreNodes (IsColumn known limits) shape nodes.now given
        → IfSome result (λ left. length (padded_bytes (buffers_of shape given)) + left ≡ bytes) }
    ensures none { (known : Numbering) (limits : Limits) (shape : Shape)
        (given : ℕ → List Value)
        → AreNodes (IsColumn known limits) shape nodes.now given → result ≡ None
        → bytes < length (padded_bytes (buffers_of shape given)) }
    ensures fewer { IfSome result (λ left. left ≤ bytes) }
{
    let mut left = bytes;
    for node in nodes {
        left = remaining(node, left)?;
    }
    Some(left)
}

// Returns the number of columns, those of children included. Returns `None` if it is above
// `u64::MAX`.
#[cycle(count)]
pub(crate) fn column_count(nodes: &[Node]) -> Option<u64>
    ensures { (known : Numbering) (limits : Limits) (shape : Shape) (given : ℕ → List Value)
        → AreNodes (IsColumn known limits) shape nodes.now given
        → IfSome result (λ count. count ≡ node_count shape) }
{
    let mut count = 0u64;
    for node in nodes {
        count = count
            .checked_add(column_count(&node.children)?)?
            .checked_add(1)?;
    }
    Some(count)
}

/// Returns bounds for each of `columns` columns, with which their buffers are within a body.
/// Returns `None` if a body is too small for this number of columns.
pub(crate) fn shares(limits: &Limits, columns: u64) -> Option<Limits>
    ensures few { IfSome result (λ bounds. bounds.slots ≤ limits.now.slots) }
    ensures less { IfSome result (λ bounds. bounds.body ≤ limits.now.body) }
    ensures short { IfSome result (λ bounds. AreShares limits.now columns bounds) }
{
    let share = (limits.body / columns.max(1)).checked_sub(32)?;
    let mut bounds = *limits;
    bounds.slots = limits.slots.min(share / 18);
    bounds.body = share / 2;
    Some(bounds)
}
