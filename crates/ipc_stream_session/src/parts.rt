//! The head of a batch, from numbers of a program in another language.
ghost use Rattle.std.specs.Prelude.{◌≡◌, ◌<◌, ◌+◌, ◌*◌, ◌∷◌, ℤ, IfOk, List, [], MatchOption, drop};
ghost use Rattle.std.specs.Prelude.{length, take};
ghost use Rattle.ipc_meta.specs.declared.head.BatchHead.{BatchHead};
ghost use Rattle.ipc_stream.specs.Canonical.{flat};
ghost use Rattle.ipc_stream_session.specs.Parts.{IsHead};

use ipc_meta::BatchHead;
use ipc_model::Items;
use std::alloc::{AllocError, Global};

// The two numbers of the pair with this number.
fn pair_at(numbers: &[i64], at: usize) -> (i64, i64)
    requires { (2 * at + 1) < length numbers.now }
    ensures { take 2 (drop (2 * at) numbers.now) ≡ result.0 ∷ result.1 ∷ [] }
{
    (numbers[2 * at], numbers[2 * at + 1])
}

// The pairs that these numbers are, two by two, or `None` if there is an odd number of them.
fn pairs_of(alloc: Global, numbers: &[i64]) -> Result<Option<Items<(i64, i64)>>, AllocError>
    ensures { IfOk result (λ found. MatchOption found
        ((pairs : List (ℤ × ℤ)) → flat pairs ≡ numbers.now → ⊥)
        (λ pairs. flat pairs ≡ numbers.now)) }
{
    let mut pairs = Vec::with_capacity(alloc, numbers.len() / 2)?;
    for at in 0..numbers.len() / 2 {
        pairs.push(pair_at(numbers, at))?;
    }
    if numbers.len() % 2 == 1 {
        return Ok(None);
    }
    Ok(Some(Items::from_vec(pairs)))
}

/// Returns the head of a batch of `rows` rows with these nodes and buffers, two numbers for each of
/// them, or `None` if there is an odd number of them. Returns an error if memory ran out.
pub(crate) fn head_of(
    alloc: Global,
    rows: i64,
    nodes: &[i64],
    buffers: &[i64],
) -> Result<Option<BatchHead>, AllocError>
    ensures { IfOk result (λ found. MatchOption found
        ((head : BatchHead) → IsHead rows nodes.now buffers.now head → ⊥)
        (IsHead rows nodes.now buffers.now)) }
{
    let (Some(nodes), Some(buffers)) = (pairs_of(alloc, nodes)?, pairs_of(alloc, buffers)?) else {
        return Ok(None);
    };
    Ok(Some(BatchHead {
        length: rows,
        nodes,
        buffers,
    }))
}
