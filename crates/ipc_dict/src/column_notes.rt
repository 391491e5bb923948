//! Counts the dictionary values of a batch that was read, column by column; each value of its
//! dictionaries is looked up once.
ghost use Rattle.std.specs.Prelude.{◌≡◌, ◌<◌, ◌⊎◌, List, [], length, Some, slice_get};
ghost use Rattle.std.specs.Prelude.{slice_index_or, IfErr, IfOk, IsTrue, OnOk};
ghost use Rattle.ipc_model.specs.declared.value.Value.{Value};
ghost use Rattle.ipc_column.specs.Lent.{AreOfColumn};
ghost use Rattle.ipc_column.specs.Nested.{slot_values};
ghost use Rattle.ipc_encode.specs.Cells.{cells};
ghost use Rattle.ipc_dict.specs.ColumnNotes.{HaveDistinctDictionaries, AreNoted, AreOthers};
ghost use Rattle.ipc_dict.specs.ColumnNotes.{HasOtherDictionaries};
ghost use Rattle.ipc_dict.specs.Noting.{note_all, AllFit, AllGrow, IsIndexOverflow};
ghost use Rattle.ipc_dict.specs.Pairs.{pairs, items_pairs, rows_pairs};

use crate::entry::TallyEntry;
use crate::recent_values::RecentValues;
use crate::walk::{has_no_dictionary, note_each, note_value};
use ipc_column::{Batch, SlotView};
use ipc_encode::PushFault;
use ipc_model::{Field, Value};
use std::alloc::{AllocError, Global};

// Whether it is known that two fields name no dictionary in common.
fn have_other_dictionaries(one: &Field, other: &Field) -> bool
    ensures { IsTrue result
        → (v w : Value) → AreOthers (pairs one.now v) (pairs other.now w) }
{
    if has_no_dictionary(one) || has_no_dictionary(other) {
        return true;
    }
    match (one.dictionary, other.dictionary) {
        (Some(one), Some(other)) => one.id != other.id,
        _ => false,
    }
}

// Whether it is known that a field names no dictionary of the others.
fn has_other_dictionaries(field: &Field, others: &[Field]) -> bool
    ensures { IsTrue result → HasOtherDictionaries field.now others.now }
{
    if has_no_dictionary(field) {
        return true;
    }
    for other in others {
        if !have_other_dictionaries(field, other) {
            return false;
        }
    }
    true
}

// Whether it is known that no two of the fields name one dictionary.
fn have_distinct_dictionaries(fields: &[Field]) -> bool
    ensures { IsTrue result → HaveDistinctDictionaries fields.now }
{
    for i in 0..fields.len() {
        if !has_other_dictionaries(&fields[i], &fields[i + 1..]) {
            return false;
        }
    }
    true
}

// A mark for each value of a column's dictionary, none of which was noted.
fn no_marks(alloc: Global, slots: &SlotView<'_>) -> Result<Vec<bool>, AllocError>
    ensures { (entries : List TallyEntry) (field : Field) → IfOk result
        (λ noted. AreNoted entries field slots.now.column.dictionary noted.items) }
{
    let mut noted = Vec::new(alloc);
    if let Some(entries) = slots.entries() {
        noted.resize(entries.len(), false)?;
    }
    Ok(noted)
}

// Notes the value in a row of a column.
#[tactic(auto, using(crate::proofs::Notes::all_grow_same))]
fn note_cell(
    alloc: Global,
    entries: &mut [TallyEntry],
    recent: &mut RecentValues,
    field: &Field,
    batch: &Batch,
    column: usize,
    row: usize,
) -> Result<(), PushFault>
    requires row { row < length batch.now.rows }
    requires column { column < batch.now.columns }
    ensures noted { (value : Value)
        → slice_get (slice_index_or batch.now.rows row []) column ≡ Some value
        → OnOk result (entries.new ≡ note_all entries.old (pairs field.now value)) }
    ensures fits { OnOk result (AllFit entries.old → AllFit entries.new) }
    ensures full { (value : Value)
        → slice_get (slice_index_or batch.now.rows row []) column ≡ Some value
        → IfErr result (λ fault. fault ≡ PushFault.DictionaryFull
        → IsIndexOverflow (note_all entries.old (pairs field.now value))) }
    ensures memory { IfErr result
        (λ fault. (fault ≡ PushFault.DictionaryFull) ⊎ (fault ≡ PushFault.OutOfMemory)) }
    ensures grows { AllGrow entries.old entries.new }
{
    let value = batch.read_cell(alloc, row, column)?;
    note_value(entries, recent, field, &value)
}

// Notes a value that is this value of the column's dictionary, and marks it. A marked value is not
// looked up again.
#[tactic(auto, using(crate::proofs::Notes::all_grow_same))]
fn note_entry(
    alloc: Global,
    entries: &mut [TallyEntry],
    recent: &mut RecentValues,
    field: &Field,
    batch: &Batch,
    column: usize,
    row: usize,
    entry: usize,
    noted: &mut Vec<bool>,
) -> Result<(), PushFault>
    requires row { row < length batch.now.rows }
    requires column { column < batch.now.columns }
    ensures noted { (dictionary : List Value) (value : Value)
        → AreNoted entries.old field.now dictionary noted.old.items
        → slice_get dictionary entry ≡ Some value
        → slice_get (slice_index_or batch.now.rows row []) column ≡ Some value
        → OnOk result (entries.new ≡ note_all entries.old (pairs field.now value)) }
    ensures kept { (dictionary : List Value) (value : Value)
        → AreNoted entries.old field.now dictionary noted.old.items
        → slice_get dictionary entry ≡ Some value
        → slice_get (slice_index_or batch.now.rows row []) column ≡ Some value
        → OnOk result (AreNoted entries.new field.now dictionary noted.new.items) }
    ensures fits { OnOk result (AllFit entries.old → AllFit entries.new) }
    ensures full { (dictionary : List Value) (value : Value)
        → slice_get dictionary entry ≡ Some value
        → slice_get (slice_index_or batch.now.rows row []) column ≡ Some value
        → IfErr result (λ fault. fault ≡ PushFault.DictionaryFull
        → IsIndexOverflow (note_all entries.old (pairs field.now value))) }
    ensures memory { IfErr result
        (λ fault. (fault ≡ PushFault.DictionaryFull) ⊎ (fault ≡ PushFault.OutOfMemory)) }
    ensures grows { AllGrow entries.old entries.new }
{
    if entry >= noted.len() {
        return note_cell(alloc, entries, recent, field, batch, column, row);
    }
    if noted[entry] {
        return Ok(());
    }
    note_cell(alloc, entries, recent, field, batch, column, row)?;
    noted[entry] = true;
    Ok(())
}

// Notes what a slot of a column shows.
#[inline(always)]
fn note_slot(
    alloc: Global,
    entries: &mut [TallyEntry],
    recent: &mut RecentValues,
    field: &Field,
    batch: &Batch,
    column: usize,
    slots: &SlotView<'_>,
    slot: usize,
    noted: &mut Vec<bool>,
) -> Result<(), PushFault>
    requires column { column < batch.now.columns }
    requires slots { AreOfColumn batch.now.rows column (slot_values slots.now) }
    requires slot { slot < length (slot_values slots.now) }
    ensures noted { (value : Value)
        → AreNoted entries.old field.now slots.now.column.dictionary noted.old.items
        → slice_get (slot_values slots.now) slot ≡ Some value
        → OnOk result (entries.new ≡ note_all entries.old (pairs field.now value)) }
    ensures kept { AreNoted entries.old field.now slots.now.column.dictionary noted.old.items
        → OnOk result
        (AreNoted entries.new field.now slots.now.column.dictionary noted.new.items) }
    ensures fits { OnOk result (AllFit entries.old → AllFit entries.new) }
    ensures full { (value : Value) → slice_get (slot_values slots.now) slot ≡ Some value
        → IfErr result (λ fault. fault ≡ PushFault.DictionaryFull
        → IsIndexOverflow (note_all entries.old (pairs field.now value))) }
    ensures memory { IfErr result
        (λ fault. (fault ≡ PushFault.DictionaryFull) ⊎ (fault ≡ PushFault.OutOfMemory)) }
    ensures grows { AllGrow entries.old entries.new }
{
    match slots.entry_at(slot) {
        Some(entry) => note_entry(
            alloc, entries, recent, field, batch, column, slot, entry, noted,
        ),
        None => note_cell(alloc, entries, recent, field, batch, column, slot),
    }
}

// Notes what all slots of a column show.
#[tactic(auto, using(crate::proofs::Notes::all_grow_same, crate::proofs::Notes::all_grow_trans))]
fn note_column(
    alloc: Global,
    entries: &mut [TallyEntry],
    recent: &mut RecentValues,
    field: &Field,
    batch: &Batch,
    column: usize,
) -> Result<(), PushFault>
    requires { column < batch.now.columns }
    ensures noted { OnOk result (entries.new
        ≡ note_all entries.old (items_pairs (pairs field.now) (cells column batch.now.rows))) }
    ensures fits { OnOk result (AllFit entries.old → AllFit entries.new) }
    ensures full { IfErr result (λ fault. fault ≡ PushFault.DictionaryFull
        → IsIndexOverflow (note_all entries.old
        (items_pairs (pairs field.now) (cells column batch.now.rows)))) }
    ensures memory { IfErr result
        (λ fault. (fault ≡ PushFault.DictionaryFull) ⊎ (fault ≡ PushFault.OutOfMemory)) }
    ensures grows { AllGrow entries.old entries.new }
{
    let slots = batch.slots(column);
    let mut noted = no_marks(alloc, &slots)?;
    for slot in 0..slots.len() {
        note_slot(
            alloc, entries, recent, field, batch, column, &slots, slot, &mut noted,
        )?;
    }
    Ok(())
}

// Notes the values of a column. It returns at once if the field clearly names no dictionary.
#[tactic(auto, using(crate::proofs::Notes::all_grow_same))]
fn note_field(
    alloc: Global,
    entries: &mut [TallyEntry],
    recent: &mut RecentValues,
    field: &Field,
    batch: &Batch,
    column: usize,
) -> Result<(), PushFault>
    requires { column < batch.now.columns }
    ensures noted { OnOk result (entries.new
        ≡ note_all entries.old (items_pairs (pairs field.now) (cells column batch.now.rows))) }
    ensures fits { OnOk result (AllFit entries.old → AllFit entries.new) }
    ensures full { IfErr result (λ fault. fault ≡ PushFault.DictionaryFull
        → IsIndexOverflow (note_all entries.old
        (items_pairs (pairs field.now) (cells column batch.now.rows)))) }
    ensures memory { IfErr result
        (λ fault. (fault ≡ PushFault.DictionaryFull) ⊎ (fault ≡ PushFault.OutOfMemory)) }
    ensures grows { AllGrow entries.old entries.new }
{
    if has_no_dictionary(field) {
        return Ok(());
    }
    note_column(alloc, entries, recent, field, batch, column)
}

// Notes the values of dictionaries in all rows of a batch that has a column for each field.
#[tactic(auto, using(crate::proofs::Notes::all_grow_same, crate::proofs::Notes::all_grow_trans))]
fn note_columns(
    alloc: Global,
    entries: &mut [TallyEntry],
    recent: &mut RecentValues,
    fields: &[Field],
    batch: &Batch,
) -> Result<(), PushFault>
    requires apart { HaveDistinctDictionaries fields.now }
    requires columns { batch.now.columns ≡ length fields.now }
    ensures noted { OnOk result
        (entries.new ≡ note_all entries.old (rows_pairs fields.now batch.now.rows)) }
    ensures fits { OnOk result (AllFit entries.old → AllFit entries.new) }
    ensures full { IfErr result (λ fault. fault ≡ PushFault.DictionaryFull
        → IsIndexOverflow (note_all entries.old (rows_pairs fields.now batch.now.rows))) }
    ensures memory { IfErr result
        (λ fault. (fault ≡ PushFault.DictionaryFull) ⊎ (fault ≡ PushFault.OutOfMemory)) }
    ensures grows { AllGrow entries.old entries.new }
{
    let width = batch.columns();
    for column in 0..width {
        note_field(alloc, entries, recent, &fields[column], batch, column)?;
    }
    Ok(())
}

// Notes the values of dictionaries in all rows of a batch, row by row.
#[tactic(auto, using(crate::proofs::Notes::all_grow_same, crate::proofs::Notes::all_grow_trans))]
fn note_rows(
    alloc: Global,
    entries: &mut [TallyEntry],
    recent: &mut RecentValues,
    fields: &[Field],
    batch: &Batch,
) -> Result<(), PushFault>
    ensures noted { OnOk result
        (entries.new ≡ note_all entries.old (rows_pairs fields.now batch.now.rows)) }
    ensures fits { OnOk result (AllFit entries.old → AllFit entries.new) }
    ensures full { IfErr result (λ fault. fault ≡ PushFault.DictionaryFull
        → IsIndexOverflow (note_all entries.old (rows_pairs fields.now batch.now.rows))) }
    ensures memory { IfErr result
        (λ fault. (fault ≡ PushFault.DictionaryFull) ⊎ (fault ≡ PushFault.OutOfMemory)) }
    ensures grows { AllGrow entries.old entries.new }
{
    let mut row = Vec::new(alloc);
    for number in 0..batch.rows() {
        let Ok(()) = batch.read_row(alloc, number, &mut row) else {
            return Err(PushFault::OutOfMemory);
        };
        note_each(entries, recent, fields, row.as_slice())?;
    }
    Ok(())
}

/// Notes the values of dictionaries in all rows of a batch. If each dictionary belongs to one
/// column, it goes column by column, and looks up each value of the batch's dictionaries once.
#[tactic(auto, using(crate::proofs::Notes::all_grow_same, crate::proofs::Notes::all_grow_trans))]
pub(crate) fn note_batch(
    alloc: Global,
    entries: &mut [TallyEntry],
    recent: &mut RecentValues,
    fields: &[Field],
    batch: &Batch,
) -> Result<(), PushFault>
    ensures noted { OnOk result
        (entries.new ≡ note_all entries.old (rows_pairs fields.now batch.now.rows)) }
    ensures fits { OnOk result (AllFit entries.old → AllFit entries.new) }
    ensures full { IfErr result (λ fault. fault ≡ PushFault.DictionaryFull
        → IsIndexOverflow (note_all entries.old (rows_pairs fields.now batch.now.rows))) }
    ensures memory { IfErr result
        (λ fault. (fault ≡ PushFault.DictionaryFull) ⊎ (fault ≡ PushFault.OutOfMemory)) }
    ensures grows { AllGrow entries.old entries.new }
{
    if batch.columns() == fields.len() && have_distinct_dictionaries(fields) {
        return note_columns(alloc, entries, recent, fields, batch);
    }
    note_rows(alloc, entries, recent, fields, batch)
}
