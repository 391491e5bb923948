//! One scan of each node that may find all its texts or indices valid, so that none of its slots is
//! visited.
ghost use Rattle.std.specs.Prelude.{◌≡◌, ℕ, List, map, true, false, IsTrue};
ghost use Rattle.ipc_model.specs.Layouts.{needs_slot_checks};
ghost use Rattle.ipc_model.specs.declared.fault.Fault.{Fault};
ghost use Rattle.ipc_column.specs.declared.ranges.ColumnRanges.TheViews.{out-ColumnRanges};
ghost use Rattle.ipc_column.specs.checks.Checks.{passes};
ghost use Rattle.ipc_column.specs.Columns.{every};
ghost use Rattle.ipc_column.specs.checks.Marks.{AreMarked, IsMarked, all_valid, each_valid, mark};
ghost use Rattle.ipc_column.specs.Views.{part_columns, column_of, children_of, one};

use crate::indices::are_indices;
use crate::ranges::{ColumnRanges, bytes_at};
use crate::texts::are_texts;
use ipc_model::Layout;

// Whether all slots of a part, null slots included, hold valid texts or indices. The texts or
// indices are scanned once, whatever the slots above them show.
fn are_slots_valid(body: &[u8], part: &ColumnRanges) -> bool
    requires { (why : Fault) → every (passes why) (one body.now part.now) ≡ true }
    ensures { IsTrue result
        → all_valid (column_of body.now part.now).layout (column_of body.now part.now) ≡ true }
{
    if part.slots == 0 {
        return true;
    }
    let values = bytes_at(body, part.values);
    if part.layout.is_texts() {
        return are_texts(bytes_at(body, part.offsets), values, part.slots);
    }
    if let Layout::Indices { bits, signed, .. } = part.layout {
        return are_indices(bits, signed, values, part.dictionary.len(), part.slots);
    }
    true
}

// Whether each of the parts stores that what is in it and below it is valid.
fn are_valid_throughout(parts: &[ColumnRanges]) -> bool
    ensures { (body : List ℕ) → result ≡ each_valid (map (mark body) parts.now) }
{
    let mut known = true;
    for part in parts {
        known = known && part.known_valid;
    }
    known
}

// Whether what is in a part and below it is known to be valid, once the parts below it store this.
fn is_valid_throughout(body: &[u8], part: &ColumnRanges) -> bool
    requires { (why : Fault) → every (passes why) (one body.now part.now) ≡ true }
    ensures own { IsTrue result → needs_slot_checks (column_of body.now part.now).layout ≡ true
        → all_valid (column_of body.now part.now).layout (column_of body.now part.now) ≡ true }
    ensures below { needs_slot_checks (column_of body.now part.now).layout ≡ false
        → result ≡ each_valid (map (mark body.now) (out-ColumnRanges part.now).children.items) }
{
    if part.layout.needs_slot_checks() {
        are_slots_valid(body, part)
    } else {
        are_valid_throughout(&part.children)
    }
}

// Stores in a part, and in each part below it, whether what is there is known to be valid.
#[cycle(mark)]
fn store_facts(body: &[u8], part: &mut ColumnRanges)
    requires { (why : Fault) → every (passes why) (one body.now part.old) ≡ true }
    ensures column { column_of body.now part.new ≡ column_of body.now part.old }
    ensures children { children_of body.now part.new ≡ children_of body.now part.old }
    ensures marked { IsMarked body.now part.new }
{
    store_all_facts(body, &mut part.children);
    part.known_valid = is_valid_throughout(body, part);
}

/// Stores in each part, and in those below it, whether its texts and indices are known to be valid.
/// Each node is scanned once. Nothing else of the parts changes.
#[cycle(mark)]
pub(crate) fn store_all_facts(body: &[u8], parts: &mut [ColumnRanges])
    requires { (why : Fault) → every (passes why) (part_columns body.now parts.old) ≡ true }
    ensures columns { part_columns body.now parts.new ≡ part_columns body.now parts.old }
    ensures marked { AreMarked body.now parts.new }
{
    for i in 0..parts.len() {
        store_facts(body, &mut parts[i]);
    }
}
