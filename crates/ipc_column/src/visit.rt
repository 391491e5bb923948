ghost use Rattle.std.specs.Prelude.{◌≡◌, ◌≤◌, ◌<◌, ◌+◌, ◌^◌, length, true, false};
ghost use Rattle.ipc_column.specs.checks.Checks.{IsIndexed, Judges, good, good_slot, has_bitmap};
ghost use Rattle.ipc_column.specs.checks.Checks.{range_good};
ghost use Rattle.ipc_column.specs.Lent.{AreSlots};
ghost use Rattle.ipc_column.specs.checks.Marks.{AreMarked, IsMarked};
ghost use Rattle.ipc_column.specs.checks.Rules.{has_slot_visits};
ghost use Rattle.ipc_model.specs.Layouts.{needs_slot_checks, is_texts};
ghost use Rattle.ipc_column.specs.Values.{is_valid};
ghost use Rattle.ipc_column.specs.Views.{part_columns, column_of, children_of, one};
ghost use Rattle.ipc_column.specs.checks.Weights.{visits, visits_below};

use crate::bitmaps::is_valid;
use crate::indices::are_null_or_indices;
use crate::offsets::{fixed_place, place_at};
use crate::ranges::{ColumnRanges, bytes_at};
use crate::texts::are_null_or_texts;
use ipc_model::{Fault, IntBits, Layout};

/// Returns whether a slot is not null. Each slot that is visited by itself is visited here, and the
/// visit is counted.
pub(crate) fn visit(validity: &[u8], slot: usize, tests: &mut u64) -> bool
    requires bitmap { has_bitmap (slot + 1) (length validity.now) ≡ true }
    requires fits { tests.old + 1 < 2 ^ 64 }
    ensures valid { result ≡ is_valid validity.now slot }
    ensures counted { tests.new ≡ tests.old + 1 }
{
    *tests += 1;
    is_valid(validity, slot)
}

// Whether the descendants of a part's slots from `from` up to `to` are valid. For a list these are
// the slots between its offsets; for a fixed-size list its number of slots for each; for a struct
// the slots of equal number of each child.
#[cycle(visit)]
fn check_children(
    body: &[u8],
    part: &ColumnRanges,
    from: usize,
    to: usize,
    tests: &mut u64,
) -> Result<(), Fault>
    requires some { from < to }
    requires slots { AreSlots (one body.now part.now) from to }
    requires room { tests.old + visits_below (column_of body.now part.now).layout
        (visits (children_of body.now part.now)) (column_of body.now part.now).offsets from to
        < 2 ^ 64 }
    requires marks { IsMarked body.now part.now }
    ensures judged { Judges result (λ why. range_good (column_of body.now part.now).layout
        (good why (children_of body.now part.now)) (column_of body.now part.now).offsets from to) }
    ensures cost { tests.new ≤ tests.old + visits_below (column_of body.now part.now).layout
        (visits (children_of body.now part.now)) (column_of body.now part.now).offsets from to }
{
    match part.layout {
        Layout::Lists => {
            let offsets = bytes_at(body, part.offsets);
            let first = place_at(offsets, from);
            let end = place_at(offsets, to);
            check_all_values(body, &part.children, first, end, tests)
        }
        Layout::FixedLists(size) => {
            let first = fixed_place(size, &part.children, from);
            let last = fixed_place(size, &part.children, to - 1) + size as usize;
            check_all_values(body, &part.children, first, last, tests)
        }
        Layout::Structs => check_all_values(body, &part.children, from, to, tests),
        _ => Ok(()),
    }
}

// Whether a slot is null or its descendants are valid. Some descendant of the part has texts or
// indices. The slot is visited.
#[cycle(visit)]
fn check_slot(body: &[u8], part: &ColumnRanges, slot: usize, tests: &mut u64) -> Result<(), Fault>
    requires slots { AreSlots (one body.now part.now) slot (slot + 1) }
    requires below { needs_slot_checks (column_of body.now part.now).layout ≡ false }
    requires visited { has_slot_visits (column_of body.now part.now) (children_of body.now part.now)
        ≡ true }
    requires room { tests.old + visits (one body.now part.now) slot (slot + 1) < 2 ^ 64 }
    requires small { slot + 1 < 2 ^ 64 }
    requires marks { IsMarked body.now part.now }
    ensures judged { Judges result (λ why. good_slot why (good why (children_of body.now part.now))
        (column_of body.now part.now) slot) }
    ensures cost { tests.new ≤ tests.old + visits (one body.now part.now) slot (slot + 1) }
{
    if !visit(bytes_at(body, part.validity), slot, tests) {
        return Ok(());
    }
    check_children(body, part, slot, slot + 1, tests)
}

// Whether the slots from `from` up to `to` are each null or their descendants are valid.
#[cycle(visit)]
fn check_slots(
    body: &[u8],
    part: &ColumnRanges,
    from: usize,
    to: usize,
    tests: &mut u64,
) -> Result<(), Fault>
    requires slots { AreSlots (one body.now part.now) from to }
    requires below { needs_slot_checks (column_of body.now part.now).layout ≡ false }
    requires visited { has_slot_visits (column_of body.now part.now) (children_of body.now part.now)
        ≡ true }
    requires room { tests.old + visits (one body.now part.now) from to < 2 ^ 64 }
    requires marks { IsMarked body.now part.now }
    ensures judged { Judges result (λ why. good why (one body.now part.now) from to) }
    ensures cost { tests.new ≤ tests.old + visits (one body.now part.now) from to }
{
    for slot in from..to {
        check_slot(body, part, slot, tests)?;
    }
    Ok(())
}

// Whether the slots of a part of texts from one up to another are each null or hold UTF-8.
fn check_utf8(
    body: &[u8],
    part: &ColumnRanges,
    from: usize,
    to: usize,
    tests: &mut u64,
) -> Result<(), Fault>
    requires some { from < to }
    requires texts { is_texts (column_of body.now part.now).layout ≡ true }
    requires slots { AreSlots (one body.now part.now) from to }
    requires room { tests.old + visits (one body.now part.now) from to < 2 ^ 64 }
    ensures judged { Judges result (λ why. good why (one body.now part.now) from to) }
    ensures cost { tests.new ≤ tests.old + visits (one body.now part.now) from to }
{
    let validity = bytes_at(body, part.validity);
    let offsets = bytes_at(body, part.offsets);
    let values = bytes_at(body, part.values);
    if are_null_or_texts(validity, offsets, values, part.slots, from, to, tests) {
        Ok(())
    } else {
        Err(Fault::ValueNotUtf8)
    }
}

// Whether the slots of a part of indices from one up to another are each null or hold one of a
// value in its dictionary.
fn check_indices(
    body: &[u8],
    part: &ColumnRanges,
    bits: IntBits,
    signed: bool,
    from: usize,
    to: usize,
    tests: &mut u64,
) -> Result<(), Fault>
    requires some { from < to }
    requires indices { IsIndexed (column_of body.now part.now).layout bits signed }
    requires slots { AreSlots (one body.now part.now) from to }
    requires room { tests.old + visits (one body.now part.now) from to < 2 ^ 64 }
    ensures judged { Judges result (λ why. good why (one body.now part.now) from to) }
    ensures cost { tests.new ≤ tests.old + visits (one body.now part.now) from to }
{
    let validity = bytes_at(body, part.validity);
    let indices = bytes_at(body, part.values);
    let count = part.dictionary.len();
    if are_null_or_indices(bits, signed, validity, indices, count, from, to, tests) {
        Ok(())
    } else {
        Err(Fault::BadIndex)
    }
}

// Whether the slots of a part from `from` up to `to` are valid: each is null, or its texts are
// UTF-8 and its indices are those of values, with its descendants. Nothing is visited that is known
// to be valid. Without a bitmap all descendants are checked together.
#[cycle(visit)]
fn check_values(
    body: &[u8],
    part: &ColumnRanges,
    from: usize,
    to: usize,
    tests: &mut u64,
) -> Result<(), Fault>
    requires slots { AreSlots (one body.now part.now) from to }
    requires room { tests.old + visits (one body.now part.now) from to < 2 ^ 64 }
    requires marks { IsMarked body.now part.now }
    ensures judged { Judges result (λ why. good why (one body.now part.now) from to) }
    ensures cost { tests.new ≤ tests.old + visits (one body.now part.now) from to }
{
    if from == to {
        return Ok(());
    }
    if part.known_valid {
        return Ok(());
    }
    if part.layout.is_texts() {
        return check_utf8(body, part, from, to, tests);
    }
    if let Layout::Indices { bits, signed, .. } = part.layout {
        return check_indices(body, part, bits, signed, from, to, tests);
    }
    if bytes_at(body, part.validity).is_empty() {
        return check_children(body, part, from, to, tests);
    }
    check_slots(body, part, from, to, tests)
}

/// Checks the slots of each part from `from` up to `to`: every visible text is UTF-8, and every
/// visible index is that of a value. Each slot that is visited is counted.
#[cycle(visit)]
pub(crate) fn check_all_values(
    body: &[u8],
    parts: &[ColumnRanges],
    from: usize,
    to: usize,
    tests: &mut u64,
) -> Result<(), Fault>
    requires slots { AreSlots (part_columns body.now parts.now) from to }
    requires room { tests.old + visits (part_columns body.now parts.now) from to < 2 ^ 64 }
    requires marks { AreMarked body.now parts.now }
    ensures judged { Judges result (λ why. good why (part_columns body.now parts.now) from to) }
    ensures cost { tests.new ≤ tests.old + visits (part_columns body.now parts.now) from to }
{
    for part in parts {
        check_values(body, part, from, to, tests)?;
    }
    Ok(())
}
