//! Writes tables, strings and vectors.
ghost use Rattle.std.specs.Prelude.{◌≡◌, ◌<◌, ◌+◌, ◌-◌, ◌*◌, ◌^◌, ◌++◌, length, take, IfOk};
ghost use Rattle.std.specs.Int.{w64, cast_unsigned};
ghost use Rattle.ipc_build.specs.Trees.{node, view, fields_view, tables_view};
ghost use Rattle.ipc_build.specs.Layout.{little, padding, targets_end, target_end, target_bytes};
ghost use Rattle.ipc_build.specs.Layout.{targets, inline_end, inline_bytes, vtable_entries};
ghost use Rattle.ipc_build.specs.Layout.{head_bytes, own_bytes, struct_bytes, prefix_place};
ghost use Rattle.ipc_build.specs.Layout.{string_end};
ghost use Rattle.ipc_build.specs.Ascends.{fields, elements, Below, Writable};

use crate::inline::inline_value;
use crate::places::{entry_count, prefix_place, table_place};
use crate::scalars::{push_padding, push_u16, push_u32, push_u64};
use crate::tree::{FlatTree, Slot};
use ipc_scalar::{put_u32, put_u64};
use std::alloc::AllocError;

// The entries of a table's vtable: the offset of each field from the table on, and 0 for a number
// that no field has.
fn write_entries(out: &mut Vec<u8>, slots: &[(u16, Slot)]) -> Result<(), AllocError>
    requires { Writable (fields 0) (fields_view slots.now) }
    ensures { IfOk result (λ _. out.new.items
        ≡ out.old.items ++ vtable_entries 0 4 (fields_view slots.now)) }
{
    let mut first = 0;
    let mut distance = 4;
    for (number, _) in slots {
        let number = usize::from(*number);
        push_padding(out, 2 * (number - first))?;
        push_u16(out, distance)?;
        first = number + 1;
        distance += 8;
    }
    Ok(())
}

// A table's vtable, from `p` on, and the distance to it with which the table begins. Zeros between
// the two put the fields, which come next, at multiples of 8.
fn write_head(out: &mut Vec<u8>, slots: &[(u16, Slot)], p: usize) -> Result<(), AllocError>
    requires writable { Writable (fields 0) (fields_view slots.now) }
    requires small { inline_end (fields_view slots.now) p < 2 ^ 32 }
    ensures { IfOk result (λ _. out.new.items
        ≡ out.old.items ++ head_bytes (fields_view slots.now) p) }
{
    let size = 4 + 2 * entry_count(slots);
    let table = prefix_place(p + size);
    push_u16(out, size as u16)?;
    push_u16(out, (4 + 8 * slots.len()) as u16)?;
    write_entries(out, slots)?;
    push_padding(out, table - (p + size))?;
    push_u32(out, (table - p) as u32)?;
    Ok(())
}

// A string: its length, its bytes, a zero byte, and zeros up to a multiple of 4.
fn write_string(out: &mut Vec<u8>, text: &str, p: usize) -> Result<(), AllocError>
    requires { string_end text.now p < 2 ^ 32 }
    ensures { IfOk result (λ _. out.new.items
        ≡ out.old.items ++ (little 4 (length text.now)
        ++ (text.now ++ (padding 1
        ++ padding (string_end text.now p - (p + 5 + length text.now)))))) }
{
    let end = (p + text.len() + 8) / 4 * 4;
    push_u32(out, text.len() as u32)?;
    out.extend_from_slice(text.as_bytes())?;
    out.push(0)?;
    push_padding(out, end - (p + 5 + text.len()))?;
    Ok(())
}

// A vector of pairs: zeros up to where its structs come to a multiple of 8, the count and the
// structs.
fn write_pairs(out: &mut Vec<u8>, pairs: &[(i64, i64)], p: usize) -> Result<(), AllocError>
    requires { prefix_place p + 4 + 16 * length pairs.now < 2 ^ 32 }
    ensures { IfOk result (λ _. out.new.items
        ≡ out.old.items ++ (padding (prefix_place p - p)
        ++ (little 4 (length pairs.now) ++ struct_bytes pairs.now))) }
{
    push_padding(out, prefix_place(p) - p)?;
    push_u32(out, pairs.len() as u32)?;
    push_pairs(out, pairs)?;
    Ok(())
}

fn push_pair(out: &mut Vec<u8>, pair: &(i64, i64)) -> Result<(), AllocError>
    ensures { IfOk result (λ _. out.new.items
        ≡ (out.old.items ++ little 8 (cast_unsigned w64 pair.now.0))
        ++ little 8 (cast_unsigned w64 pair.now.1)) }
{
    push_u64(out, pair.0.cast_unsigned())?;
    push_u64(out, pair.1.cast_unsigned())?;
    Ok(())
}

// The structs of a vector, one after another.
fn push_pairs(out: &mut Vec<u8>, pairs: &[(i64, i64)]) -> Result<(), AllocError>
    ensures { IfOk result (λ _. out.new.items ≡ out.old.items ++ struct_bytes pairs.now) }
{
    for pair in pairs {
        push_pair(out, pair)?;
    }
    Ok(())
}

// The fields of a table, whose places begin at `at` and end where the bytes end so far, and all
// that they point to. Each field is put in its place once it is known where what it points to
// begins.
#[cycle(write)]
fn write_fields(out: &mut Vec<u8>, slots: &[(u16, Slot)], at: usize) -> Result<(), AllocError>
    requires writable { Writable (fields 0) (fields_view slots.now) }
    requires places { length out.old.items ≡ at + 8 * length slots.now }
    requires small { targets_end (fields_view slots.now) (length out.old.items) < 2 ^ 32 }
    ensures { IfOk result (λ _. out.new.items
        ≡ take at out.old.items ++ (inline_bytes 8 (fields_view slots.now) at (length out.old.items)
        ++ targets (fields_view slots.now) (length out.old.items))) }
{
    let mut here = at;
    for (_, slot) in slots {
        let next = out.len();
        put_u64(out.as_mut_slice(), here, inline_value(slot, here, next));
        write_target(out, slot, next)?;
        here += 8;
    }
    Ok(())
}

// What one field points to, from `p` on: nothing for a scalar.
#[cycle(write)]
fn write_target(out: &mut Vec<u8>, slot: &Slot, p: usize) -> Result<(), AllocError>
    requires writable { Below (node slot.now).0 (λ s. Writable s (node slot.now).1) }
    requires place { p ≡ length out.old.items }
    requires small { target_end (node slot.now).0 (node slot.now).1
        (targets_end (node slot.now).1) p < 2 ^ 32 }
    ensures { IfOk result (λ _. out.new.items
        ≡ out.old.items ++ target_bytes (node slot.now).0 (node slot.now).1
        (targets (node slot.now).1) p) }
{
    match slot {
        Slot::U8(_) | Slot::Bool(_) | Slot::I16(_) | Slot::I32(_) | Slot::I64(_) => Ok(()),
        Slot::Text(text) => write_string(out, text.as_str(), p),
        Slot::Table(tree) => write_table(out, tree, p),
        Slot::Tables(trees) => write_vector(out, trees.as_slice(), p),
        Slot::Pairs(pairs) => write_pairs(out, pairs.as_slice(), p),
    }
}

// A table whose vtable is at `p`, and all below it.
#[cycle(write)]
pub(crate) fn write_table(out: &mut Vec<u8>, tree: &FlatTree, p: usize) -> Result<(), AllocError>
    requires writable { Writable (fields 0) (view tree.now) }
    requires place { p ≡ length out.old.items }
    requires small { targets_end (view tree.now) (inline_end (view tree.now) p) < 2 ^ 32 }
    ensures { IfOk result (λ _. out.new.items
        ≡ out.old.items ++ (own_bytes (view tree.now) p
        ++ targets (view tree.now) (inline_end (view tree.now) p))) }
{
    let slots = tree.slots.as_slice();
    write_head(out, slots, p)?;
    let at = out.len();
    push_padding(out, 8 * slots.len())?;
    write_fields(out, slots, at)?;
    Ok(())
}

// The offsets of a vector of tables, whose places begin at `at` and end where the bytes end so far,
// and the tables. Each offset is put in its place once it is known where its table begins.
#[cycle(write)]
fn write_elements(out: &mut Vec<u8>, trees: &[FlatTree], at: usize) -> Result<(), AllocError>
    requires writable { Writable elements (tables_view trees.now) }
    requires places { length out.old.items ≡ at + 4 * length trees.now }
    requires small { targets_end (tables_view trees.now) (length out.old.items) < 2 ^ 32 }
    ensures { IfOk result (λ _. out.new.items
        ≡ take at out.old.items ++ (inline_bytes 4 (tables_view trees.now) at (length out.old.items)
        ++ targets (tables_view trees.now) (length out.old.items))) }
{
    let mut here = at;
    for tree in trees {
        let next = out.len();
        let offset = (table_place(tree, next) - here) as u32;
        put_u32(out.as_mut_slice(), here, offset);
        write_table(out, tree, next)?;
        here += 4;
    }
    Ok(())
}

// A vector of tables: the count, the offsets and the tables.
#[cycle(write)]
fn write_vector(out: &mut Vec<u8>, trees: &[FlatTree], p: usize) -> Result<(), AllocError>
    requires writable { Writable elements (tables_view trees.now) }
    requires place { p ≡ length out.old.items }
    requires small { targets_end (tables_view trees.now) (p + 4 + 4 * length trees.now) < 2 ^ 32 }
    ensures { IfOk result (λ _. out.new.items
        ≡ out.old.items ++ (little 4 (length trees.now)
        ++ (inline_bytes 4 (tables_view trees.now) (p + 4) (p + 4 + 4 * length trees.now)
        ++ targets (tables_view trees.now) (p + 4 + 4 * length trees.now)))) }
{
    push_u32(out, trees.len() as u32)?;
    push_padding(out, 4 * trees.len())?;
    write_elements(out, trees, p + 4)?;
    Ok(())
}
