ghost use Rattle.std.specs.Prelude.{◌≡◌, ◌≤◌, ◌<◌, ◌+◌, ◌*◌, ◌^◌, ◌&&◌, ℕ, List, nat_le, length};
ghost use Rattle.std.specs.Prelude.{true, IfOk, IfErr};
ghost use Rattle.ipc_column.specs.checks.Checks.{Judges, has_bitmap, holds_values, holds_offsets};
ghost use Rattle.ipc_column.specs.checks.Checks.{in_order, is_shown, nulls_in, passes, top_passes};
ghost use Rattle.ipc_column.specs.checks.Checks.{all_pass, have_slots, children_have_slots};
ghost use Rattle.ipc_column.specs.checks.Checks.{are_ascending};
ghost use Rattle.ipc_column.specs.Columns.{every, every_top};
ghost use Rattle.ipc_column.specs.checks.Rules.{visits_in};
ghost use Rattle.ipc_column.specs.Values.{offset_position};
ghost use Rattle.ipc_column.specs.Views.{part_columns, column_of, children_of};

use crate::offsets::{are_in_order, place_at};
use crate::ranges::{ColumnRanges, bytes_at};
use crate::slot_facts::store_all_facts;
use crate::visit::check_all_values;
use ipc_model::{Fault, Layout};
use ipc_scalar::count_clear;

fn has_bitmap(slots: usize, bytes: usize) -> bool
    ensures { result ≡ has_bitmap slots bytes }
{
    bytes == 0 || slots.div_ceil(8) <= bytes
}

// Whether `bytes` bytes hold `slots` slots of `width` bytes, or the slots of a child hold such
// lists.
#[tactic(auto, using(crate::proofs::lending::Widths::holds_by_quotient))]
fn holds_width(width: usize, slots: usize, bytes: usize) -> bool
    ensures { result ≡ nat_le (width * slots) bytes }
{
    width == 0 || slots <= bytes / width
}

fn holds_values(layout: Layout, slots: usize, bytes: usize) -> bool
    ensures { result ≡ holds_values layout slots bytes }
{
    match layout {
        Layout::Null
        | Layout::VariableBytes { .. }
        | Layout::Lists
        | Layout::FixedLists(_)
        | Layout::Structs => true,
        Layout::Bits => slots.div_ceil(8) <= bytes,
        Layout::Numbers { bits, .. } | Layout::Indices { bits, .. } => {
            holds_width(bits.bytes(), slots, bytes)
        }
        Layout::FixedBytes(width) => holds_width(width as usize, slots, bytes),
    }
}

fn holds_offsets(layout: Layout, slots: usize, bytes: usize) -> bool
    ensures { result ≡ holds_offsets layout slots bytes }
{
    match layout {
        Layout::VariableBytes { .. } | Layout::Lists => slots == 0 || slots < bytes / 4,
        _ => true,
    }
}

// Whether each of the parts has at least `slots` slots.
fn have_slots(parts: &[ColumnRanges], slots: usize) -> bool
    ensures { (body : List ℕ) → result ≡ have_slots slots (part_columns body parts.now) }
{
    let mut long = true;
    for part in parts {
        long = long && slots <= part.slots;
    }
    long
}

// Whether each of the parts has at least the slots of `lists` lists of `size` values.
fn have_lists(parts: &[ColumnRanges], size: usize, lists: usize) -> bool
    ensures { (body : List ℕ) → result ≡ have_slots (size * lists) (part_columns body parts.now) }
{
    let mut long = true;
    for part in parts {
        long = long && holds_width(size, lists, part.slots);
    }
    long
}

// Whether the offsets of `slots` lists are in order, within the slots of the child.
fn are_lists(offsets: &[u8], slots: usize, children: &[ColumnRanges]) -> bool
    requires { 4 * (slots + 1) ≤ length offsets.now }
    ensures { (body : List ℕ)
        → result ≡ (are_ascending offsets.now slots (offset_position offsets.now slots)
        && have_slots (offset_position offsets.now slots) (part_columns body children.now)) }
{
    let end = place_at(offsets, slots);
    are_in_order(offsets, slots, end) && have_slots(children, end)
}

// Whether the offsets of `slots` slots are in order, within the bytes of values or the slots of the
// child.
fn in_order(
    layout: Layout,
    slots: usize,
    offsets: &[u8],
    size: usize,
    children: &[ColumnRanges],
) -> bool
    requires { holds_offsets layout slots (length offsets.now) ≡ true }
    ensures { (body : List ℕ)
        → result ≡ in_order layout slots offsets.now size (part_columns body children.now) }
{
    match layout {
        Layout::VariableBytes { .. } => slots == 0 || are_in_order(offsets, slots, size),
        Layout::Lists => slots == 0 || are_lists(offsets, slots, children),
        _ => true,
    }
}

// Whether the children have enough slots: `slots` for structs, and those of `slots` lists for
// fixed-size lists.
fn children_have_slots(layout: Layout, slots: usize, children: &[ColumnRanges]) -> bool
    ensures { (body : List ℕ) → result ≡ children_have_slots layout slots
        (part_columns body children.now) }
{
    match layout {
        Layout::Structs => have_slots(children, slots),
        Layout::FixedLists(size) => have_lists(children, size as usize, slots),
        _ => true,
    }
}

// How many of the first slots are null.
fn nulls_in(validity: &[u8], slots: usize) -> usize
    requires { has_bitmap slots (length validity.now) ≡ true }
    ensures { result ≡ nulls_in validity.now slots }
{
    if validity.is_empty() {
        0
    } else {
        count_clear(validity, slots) as usize
    }
}

// Whether a part's buffers have the bytes that its slots need, its null count is right, its offsets
// are in order and its children are long enough.
fn check_buffers(body: &[u8], part: &ColumnRanges) -> Result<(), Fault>
    ensures { Judges result
        (λ why. passes why (column_of body.now part.now) (children_of body.now part.now)) }
{
    let validity = bytes_at(body, part.validity);
    let offsets = bytes_at(body, part.offsets);
    let values = bytes_at(body, part.values);
    if !has_bitmap(part.slots, validity.len())
        || !holds_values(part.layout, part.slots, values.len())
        || !holds_offsets(part.layout, part.slots, offsets.len())
    {
        return Err(Fault::BufferTooShort);
    }
    if part.layout.has_validity() && part.nulls != nulls_in(validity, part.slots) {
        return Err(Fault::BadNullCount);
    }
    if !in_order(
        part.layout,
        part.slots,
        offsets,
        values.len(),
        &part.children,
    ) {
        return Err(Fault::BadOffsets);
    }
    if !children_have_slots(part.layout, part.slots, &part.children) {
        return Err(Fault::BadNode);
    }
    Ok(())
}

// Checks each part with its children.
#[cycle(check_each_column)]
fn check_each_column(body: &[u8], parts: &[ColumnRanges]) -> Result<(), Fault>
    ensures { Judges result (λ why. every (passes why) (part_columns body.now parts.now)) }
{
    for part in parts {
        check_column(body, part)?;
    }
    Ok(())
}

#[cycle(check_each_column)]
fn check_column(body: &[u8], part: &ColumnRanges) -> Result<(), Fault>
    ensures { Judges result
        (λ why. passes why (column_of body.now part.now) (children_of body.now part.now)
        && every (passes why) (children_of body.now part.now)) }
{
    check_buffers(body, part)?;
    check_each_column(body, &part.children)
}

// Whether each part has a slot for each row.
fn check_lengths(body: &[u8], parts: &[ColumnRanges], rows: usize) -> Result<(), Fault>
    ensures { Judges result (λ why. every_top (top_passes why rows)
        (part_columns body.now parts.now)) }
{
    let mut same = true;
    for part in parts {
        same = same && part.slots == rows;
    }
    if same { Ok(()) } else { Err(Fault::BadNode) }
}

/// Checks that the parts, which are the columns of a batch, have `rows` rows. Returns the number of
/// slots that were visited. The parts keep their columns, and store what is known to be valid.
pub(crate) fn check_columns(
    body: &[u8],
    parts: &mut [ColumnRanges],
    rows: usize,
) -> Result<u64, Fault>
    requires few { visits_in (part_columns body.now parts.old) < 2 ^ 64 }
    ensures judged { Judges result (λ why. all_pass why rows (part_columns body.now parts.old)) }
    // What rows show comes last.
    ensures shown_last { IfErr result (λ why. is_shown why ≡ true → (other : Fault)
        → every (passes other) (part_columns body.now parts.old) ≡ true) }
    ensures visited { IfOk result (λ tests. tests ≤ visits_in (part_columns body.now parts.old)) }
    ensures columns { part_columns body.now parts.new ≡ part_columns body.now parts.old }
{
    check_each_column(body, parts)?;
    check_lengths(body, parts, rows)?;
    store_all_facts(body, parts);
    let mut tests = 0;
    check_all_values(body, parts, 0, rows, &mut tests)?;
    Ok(tests)
}
