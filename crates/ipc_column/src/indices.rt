//! Checks that the indices of a column are those of values in its dictionary.
ghost use Rattle.std.specs.Prelude.{◌≡◌, ◌≤◌, ◌<◌, ◌+◌, ◌-◌, ◌*◌, ◌^◌, [], length, true, IsTrue};
ghost use Rattle.std.specs.Prelude.{is_some};
ghost use Rattle.ipc_model.specs.Layouts.{number_bytes};
ghost use Rattle.ipc_column.specs.checks.Checks.{all_slots, has_bitmap, index_good};
ghost use Rattle.ipc_column.specs.Values.{number_in, place_below};

use crate::fixed::index_in;
use crate::visit::visit;
use ipc_model::IntBits;
use ipc_scalar::indices_below;

// Whether the index in a slot is that of one of `count` values.
#[inline(always)]
fn is_index(bits: IntBits, signed: bool, indices: &[u8], slot: usize, count: usize) -> bool
    requires { number_bytes bits * (slot + 1) ≤ length indices.now }
    ensures { result ≡ is_some (place_below count (number_in bits signed indices.now slot)) }
{
    index_in(bits, signed, indices, slot, count).is_some()
}

/// Returns whether all `slots` slots, null slots included, hold indices of one of `count` values.
/// The indices are scanned once.
pub(crate) fn are_indices(
    bits: IntBits,
    signed: bool,
    indices: &[u8],
    count: usize,
    slots: usize,
) -> bool
    requires { number_bytes bits * slots ≤ length indices.now }
    ensures { IsTrue result
        → all_slots (index_good [] bits signed count indices.now) 0 slots ≡ true }
{
    indices_below(indices, bits.width(), signed, slots, count as u64)
}

// Whether a slot is null or holds an index of one of `count` values. The slot is visited.
fn is_null_or_index(
    bits: IntBits,
    signed: bool,
    validity: &[u8],
    indices: &[u8],
    count: usize,
    slot: usize,
    tests: &mut u64,
) -> bool
    requires bitmap { has_bitmap (slot + 1) (length validity.now) ≡ true }
    requires inside { number_bytes bits * (slot + 1) ≤ length indices.now }
    requires fits { tests.old + 1 < 2 ^ 64 }
    ensures good { result ≡ index_good validity.now bits signed count indices.now slot }
    ensures counted { tests.new ≡ tests.old + 1 }
{
    !visit(validity, slot, tests) || is_index(bits, signed, indices, slot, count)
}

/// Returns whether each slot from `from` up to `to` is null or holds an index of one of `count`
/// values.
pub(crate) fn are_null_or_indices(
    bits: IntBits,
    signed: bool,
    validity: &[u8],
    indices: &[u8],
    count: usize,
    from: usize,
    to: usize,
    tests: &mut u64,
) -> bool
    requires range { from ≤ to }
    requires bitmap { has_bitmap to (length validity.now) ≡ true }
    requires inside { number_bytes bits * to ≤ length indices.now }
    requires fits { tests.old + (to - from) < 2 ^ 64 }
    ensures good { result
        ≡ all_slots (index_good validity.now bits signed count indices.now) from (to - from) }
    ensures counted { tests.new ≤ tests.old + (to - from) }
{
    for slot in from..to {
        if !is_null_or_index(bits, signed, validity, indices, count, slot, tests) {
            return false;
        }
    }
    true
}
