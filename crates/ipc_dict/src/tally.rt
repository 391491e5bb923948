//! The distinct values of a batch, counted row by row.
ghost use Rattle.std.specs.Prelude.{◌↔◌, [], IsTrue, ◌≡◌, true, false, length, IfOk, IfErr, OnOk};
ghost use Rattle.std.specs.Prelude.{OnErr, ◌⊎◌, ◌≢◌, Err};
ghost use Rattle.ipc_dict.specs.Noting.{note_all, AllFit, IsIndexOverflow, HoldsDistinct};
ghost use Rattle.ipc_dict.specs.Noting.{tally_lengths, truncated_tally, AllGrow, KeepsPlaces};
ghost use Rattle.ipc_dict.specs.Noting.{PlacesAll};
ghost use Rattle.ipc_dict.specs.NotesPairs.{NotesPairs};
ghost use Rattle.ipc_dict.specs.Pairs.{row_pairs, rows_pairs};
ghost use Rattle.ipc_dict.specs.SchemaIds.{ids_of, empty_entries, kept_ids, tally_bounds};
ghost use Rattle.ipc_dict.specs.SchemaIds.{tally_ids};
ghost use Rattle.ipc_dict.specs.Sending.{AreAddressed};
ghost use Rattle.ipc_dict.specs.Planning.{AllSettled, FindsAll, FindsNoted, KnowsAll};
ghost use Rattle.ipc_dict.specs.EntryColumns.{AreEntriesCounted};
ghost use Rattle.ipc_encode.specs.Faults.{write_fault};
ghost use Rattle.ipc_dict.specs.TallyParts.{CanBeCut};
ghost use Rattle.ipc_dict.specs.Within.{AllWithin, IsOfLimits, IsOverLimit};

use crate::column_notes::note_batch;
use crate::columns::EntryColumns;
use crate::entry::{TallyEntry, place_in};
use crate::kept::Kept;
use crate::plan::Plan;
use crate::recent_values::RecentValues;
use crate::schema_ids::empty_entries;
use crate::seed::Seed;
use crate::settle::settle;
use crate::walk::note_each;
use ipc_column::Batch;
use ipc_encode::{IndexOf, PushFault};
use ipc_model::{Field, Items, Limits, Schema, Value, WriteFault};
use std::alloc::{AllocError, Global};
use std::marker::Model;

/// The distinct values of each dictionary in the rows of a batch so far, in order of first
/// appearance: row by row, and within a row in field order, depth first. Nulls have no entry in a
/// dictionary (Arrow Columnar Format, "Dictionary-encoded Layout").
///
/// If a field names a dictionary, 32 KiB keep the positions of recent values. These are found again
/// without their hashes.
#[derive(Debug, Drop)]
pub struct Tally {
    fields: Items<Field>,
    entries: Vec<TallyEntry>,
    // How many values each dictionary had before the last row or batch was counted.
    marks: Vec<usize>,
    // The positions of values that were noted recently.
    recent: RecentValues,
    // Each dictionary's values as the one column of its message.
    columns: EntryColumns,
    failed: bool,
}

impl Model for Tally {
    ghost use Rattle.std.specs.Coded.{codes};
    ghost use Rattle.ipc_model.specs.contracts.limits.Limits as limits;
    ghost use Rattle.ipc_model.specs.contracts.schema.Field as field;
    ghost use Rattle.ipc_dict.specs.contracts.entry.TallyEntry as entry;
    ghost use Rattle.ipc_dict.specs.TallyState.{TallyState};
    ghost use Rattle.ipc_dict.specs.TallyParts.{AreOneTally};
    ghost use Rattle.ipc_dict.specs.Noting.{truncated_tally};

    ghost Value = { TallyState };

    ghost coded = { Prim.hlevel
        (codes, limits.the_row.coded, field.the_row.coded, entry.the_row.coded) };

    ghost view = { λ t. record {
      failed = t.failed;
      limits = t.columns.limits;
      fields = t.fields;
      entries = t.entries.items;
      before = truncated_tally t.marks.items t.entries.items;
    } };

    ghost invariant = { λ t. AreOneTally t.fields t.entries.items t.marks.items t.columns };
}

impl Tally {
    /// Creates a tally without rows, with an entry for each id that the schema's fields name. The
    /// narrowest index type of its fields bounds the number of values of an id. So do the limits of
    /// the one column of its message (Arrow Columnar Format, "Dictionary Messages").
    ///
    /// The fields are copied. The code hashes values with `seed`; no clause says so.
    ///
    /// Errors: W6 `TooLong` if the column without values already has more than `limits.body` bytes,
    /// because a binary or UTF-8 column has one offset; W11 `OutOfMemory` if memory for the fields,
    /// the entries or their columns ran out.
    pub fn new(
        alloc: Global,
        limits: &Limits,
        schema: &Schema,
        seed: Seed,
    ) -> Result<Tally, WriteFault>
        ensures fresh { IfOk result (λ tally. tally ≡ record {
          failed = false;
          limits = limits.now;
          fields = schema.now.fields;
          entries = empty_entries schema.now.fields;
          before = empty_entries schema.now.fields;
        }) }
        ensures within { IfOk result
            (λ tally. AllWithin limits.now schema.now.fields tally.entries) }
        // At W6 the column of no values of a dictionary is too long.
        ensures over { IfErr result (λ fault. fault ≡ WriteFault.TooLong
            → IsOverLimit limits.now schema.now.fields (empty_entries schema.now.fields) fault) }
        ensures only { IfErr result
            (λ fault. (fault ≡ WriteFault.TooLong) ⊎ (fault ≡ WriteFault.OutOfMemory)) }
    {
        let fields = schema.fields.clone()?;
        let entries = empty_entries(alloc, seed, schema.fields.as_slice())?;
        let marks = lengths_of(alloc, &entries)?;
        let recent = RecentValues::new(alloc, entries.len())?;
        let columns = EntryColumns::new(alloc, limits, schema, &entries)?;
        Ok(Tally {
            fields,
            entries,
            marks,
            recent,
            columns,
            failed: false,
        })
    }

    /// Counts the values of one row, which must fit the schema. A known value takes no memory.
    ///
    /// Errors, where after W6, W7 and W8 the tally is as before the call:
    ///
    /// - W7 `DictionaryFull`: exactly if a dictionary would have more distinct values than an index
    ///   type of its fields counts.
    /// - W8 `TooMany`: a dictionary would have more than `limits.slots` values.
    /// - W6 `TooLong`: as the one column of their message, the values would have more data than
    ///   offsets reach, or more than `limits.body` bytes (Arrow Columnar Format, "Array lengths").
    /// - W11 `OutOfMemory`: memory for a value ran out.
    /// - W10 `Failed`: the call comes after W11.
    #[inline(always)]
    pub fn note(&mut self, row: &[Value]) -> Result<(), PushFault>
        ensures { NotesPairs self.old (row_pairs self.old.fields row.now) self.new result }
    {
        if self.failed {
            return Err(PushFault::Failed);
        }
        if self.is_empty() {
            return Ok(());
        }
        let fields = self.fields.as_slice();
        let (entries, recent) = (&mut self.entries, &mut self.recent);
        let (marks, columns) = (&mut self.marks, &mut self.columns);
        if let Err(fault) = note_row(entries, recent, marks, columns, fields, row) {
            self.failed = matches!(fault, PushFault::OutOfMemory);
            return Err(fault);
        }
        Ok(())
    }
}

impl Tally {
    /// Counts the values of all rows of a batch that was read, as `Tally::note` of each row does.
    /// Each value of the batch's dictionaries is looked up once, if each dictionary of the schema
    /// belongs to one column and none to a child of a list or a struct.
    ///
    /// Errors, where after W6, W7 and W8 the tally is as before the call:
    ///
    /// - W7 `DictionaryFull`: exactly if a dictionary would have more distinct values than an index
    ///   type of its fields counts.
    /// - W8 `TooMany`: a dictionary would have more than `limits.slots` values.
    /// - W6 `TooLong`: as the one column of their message, the values would have more data than
    ///   offsets reach, or more than `limits.body` bytes (Arrow Columnar Format, "Array lengths").
    /// - W11 `OutOfMemory`: memory for a value or a mark ran out.
    /// - W10 `Failed`: the call comes after W11.
    pub fn note_columns(&mut self, batch: &Batch) -> Result<(), PushFault>
        ensures { NotesPairs self.old (rows_pairs self.old.fields batch.now.rows) self.new result }
    {
        if self.failed {
            return Err(PushFault::Failed);
        }
        if self.is_empty() {
            return Ok(());
        }
        let alloc = *self.entries.allocator();
        let fields = self.fields.as_slice();
        let (entries, recent) = (&mut self.entries, &mut self.recent);
        let (marks, columns) = (&mut self.marks, &mut self.columns);
        if let Err(fault) = add_batch(alloc, entries, recent, marks, columns, fields, batch) {
            self.failed = matches!(fault, PushFault::OutOfMemory);
            return Err(fault);
        }
        Ok(())
    }
}

impl Tally {
    /// Drops the values that came with the last row or batch that was counted, so that the tally is
    /// as before that call. If that call was refused, or its values were dropped already, the tally
    /// is unchanged. So is one that has failed, and it stays failed. It takes no memory.
    pub fn cut(&mut self)
        ensures { self.new ≡ record self.old { entries = self.old.before } }
    {
        if have_new_values(&self.entries, &self.marks) {
            restore(&mut self.entries, &self.marks);
            self.columns.take_back();
        }
    }
}

impl Tally {
    /// Plans what a batch with these rows does with each dictionary.
    ///
    /// `kept` must be that of a writer of this schema. A dictionary is sent exactly if it was not
    /// sent yet, or lacks a value of the batch. It then has exactly the batch's distinct values, in
    /// order of first appearance.
    ///
    /// Errors: W11 `OutOfMemory` if memory for the lists of the plan ran out; W10 `Failed` if the
    /// tally has failed, or if `kept` has another number of dictionaries than a writer of the
    /// schema has.
    pub fn settle(self, alloc: Global, kept: &Kept) -> Result<Plan, WriteFault>
        ensures entries { IfOk result (λ plan. plan.entries ≡ self.entries) }
        // Its dictionaries are those of the tally's fields.
        ensures ids { IfOk result (λ plan. tally_ids plan.entries ≡ ids_of self.fields) }
        // Each index type of the fields can address the values of its dictionary.
        ensures addressed { IfOk result (λ plan. AreAddressed self.fields plan.entries) }
        // Each dictionary is within the limits, as the one column of its message.
        ensures within { IfOk result (λ plan. AllWithin self.limits self.fields plan.entries) }
        // Each is sent where it has not been or lacks a value, and nowhere else.
        ensures settled { IfOk result (λ plan. AllSettled kept.now self.entries plan.numbers) }
        // Each index finds its value in what was sent once the batch was.
        ensures finds { kept_ids kept.now ≡ tally_ids self.entries
            → IfOk result (λ plan. FindsAll kept.now self.entries plan.numbers) }
        // So does each place that the tally gave, under the plan's number for it.
        ensures finds_noted { kept_ids kept.now ≡ tally_ids self.entries
            → IfOk result (λ plan. FindsNoted kept.now self.entries plan.numbers) }
        // Each value of the batch has an index.
        ensures knows { IfOk result (λ plan. KnowsAll self.entries plan.numbers) }
        // A tally that has failed gives no plan.
        ensures refused { self.failed ≡ true → result ≡ Err WriteFault.Failed }
        ensures failed { kept_ids kept.now ≡ tally_ids self.entries
            → IfErr result (λ fault. (fault ≡ WriteFault.OutOfMemory)
            ⊎ ((fault ≡ WriteFault.Failed) × (self.failed ≡ true))) }
        ensures only { IfErr result (λ fault. (fault ≡ WriteFault.OutOfMemory)
            ⊎ (fault ≡ WriteFault.Failed)) }
    {
        let Tally {
            entries,
            failed,
            ..
        } = self;
        if failed || kept.entries.len() != entries.len() {
            return Err(WriteFault::Failed);
        }
        Ok(settle(alloc, &kept.entries, entries)?)
    }

    /// Returns whether the schema's fields name no dictionary.
    pub fn is_empty(&self) -> bool
        ensures { IsTrue result ↔ (self.now.entries ≡ []) }
    {
        self.entries.is_empty()
    }
}

impl IndexOf for Tally {
    ghost use Rattle.ipc_dict.specs.Noting.{place_of_value};

    ghost index = { λ tally id value. place_of_value tally.entries id value };

    // The position of the value among those of its dictionary so far. It does not change later,
    // unless the value is cut.
    fn index_of(&self, id: i64, value: &Value) -> Option<u64> {
        place_in(&self.entries, &self.recent, id, value)
    }
}

// How many values each dictionary has.
fn lengths_of(alloc: Global, entries: &[TallyEntry]) -> Result<Vec<usize>, AllocError>
    ensures { IfOk result (λ lengths. lengths.items ≡ tally_lengths entries.now) }
{
    let mut lengths = Vec::with_capacity(alloc, entries.len())?;
    for entry in entries {
        lengths.push(entry.values.len())?;
    }
    Ok(lengths)
}

// One more row, or none of its values where it is refused.
#[tactic(auto, using(crate::proofs::Rows::ids_note_all, crate::proofs::Rows::bounds_note_all))]
fn note_row(
    entries: &mut [TallyEntry],
    recent: &mut RecentValues,
    marks: &mut [usize],
    columns: &mut EntryColumns,
    fields: &[Field],
    row: &[Value],
) -> Result<(), PushFault>
    requires marks { length marks.old ≡ length entries.old }
    requires columns { AreEntriesCounted fields.now entries.old columns.old }
    ensures noted { OnOk result
        (entries.new ≡ note_all entries.old (row_pairs fields.now row.now)) }
    ensures ids { tally_ids entries.new ≡ tally_ids entries.old }
    ensures bounds { tally_bounds entries.new ≡ tally_bounds entries.old }
    ensures fits { AllFit entries.old → AllFit entries.new }
    ensures err { OnErr result (entries.new ≡ entries.old) }
    ensures full { IfErr result
        (λ fault. write_fault fault ≡ WriteFault.DictionaryFull
        → IsIndexOverflow (note_all entries.old (row_pairs fields.now row.now))) }
    ensures counted { AreEntriesCounted fields.now entries.new columns.new }
    ensures marked { marks.new ≡ tally_lengths entries.old }
    ensures before { truncated_tally marks.new entries.new ≡ entries.old }
    ensures can_be_cut { CanBeCut fields.now entries.new marks.new columns.new }
    ensures limits { columns.new.limits ≡ columns.old.limits }
    ensures over { IfErr result (λ fault. IsOfLimits (write_fault fault)
        → IsOverLimit columns.old.limits fields.now
        (note_all entries.old (row_pairs fields.now row.now)) (write_fault fault)) }
    ensures memory { IfErr result
        (λ fault. ((write_fault fault ≡ WriteFault.DictionaryFull) ⊎ IsOfLimits (write_fault fault))
        ⊎ (write_fault fault ≡ WriteFault.OutOfMemory)) }
{
    mark(entries, marks);
    if let Err(fault) = note_and_count(entries, recent, marks, columns, fields, row) {
        restore(entries, marks);
        return Err(fault);
    }
    Ok(())
}

// Notes the values of a row, and counts those that came since the marks.
fn note_and_count(
    entries: &mut [TallyEntry],
    recent: &mut RecentValues,
    marks: &[usize],
    columns: &mut EntryColumns,
    fields: &[Field],
    row: &[Value],
) -> Result<(), PushFault>
    requires marks { marks.now ≡ tally_lengths entries.old }
    requires columns { AreEntriesCounted fields.now entries.old columns.old }
    ensures noted { OnOk result
        (entries.new ≡ note_all entries.old (row_pairs fields.now row.now)) }
    ensures fits { OnOk result (AllFit entries.old → AllFit entries.new) }
    ensures full { IfErr result
        (λ fault. write_fault fault ≡ WriteFault.DictionaryFull
        → IsIndexOverflow (note_all entries.old (row_pairs fields.now row.now))) }
    ensures counted { OnOk result (AreEntriesCounted fields.now entries.new columns.new) }
    ensures can_be_cut { OnOk result (CanBeCut fields.now entries.new marks.now columns.new) }
    ensures kept { OnErr result (AreEntriesCounted fields.now entries.old columns.new) }
    ensures limits { columns.new.limits ≡ columns.old.limits }
    ensures over { IfErr result (λ fault. IsOfLimits (write_fault fault)
        → IsOverLimit columns.old.limits fields.now
        (note_all entries.old (row_pairs fields.now row.now)) (write_fault fault)) }
    ensures memory { IfErr result
        (λ fault. ((write_fault fault ≡ WriteFault.DictionaryFull) ⊎ IsOfLimits (write_fault fault))
        ⊎ (write_fault fault ≡ WriteFault.OutOfMemory)) }
    ensures grows { AllGrow entries.old entries.new }
{
    note_each(entries, recent, fields, row)?;
    if have_new_values(entries, marks) {
        columns.count(entries, marks)?;
    }
    Ok(())
}

// All rows of a batch, or none of their values where they are refused.
#[tactic(auto, using(crate::proofs::Rows::ids_note_all, crate::proofs::Rows::bounds_note_all))]
fn add_batch(
    alloc: Global,
    entries: &mut [TallyEntry],
    recent: &mut RecentValues,
    marks: &mut [usize],
    columns: &mut EntryColumns,
    fields: &[Field],
    batch: &Batch,
) -> Result<(), PushFault>
    requires marks { length marks.old ≡ length entries.old }
    requires columns { AreEntriesCounted fields.now entries.old columns.old }
    ensures noted { OnOk result
        (entries.new ≡ note_all entries.old (rows_pairs fields.now batch.now.rows)) }
    ensures ids { tally_ids entries.new ≡ tally_ids entries.old }
    ensures bounds { tally_bounds entries.new ≡ tally_bounds entries.old }
    ensures fits { AllFit entries.old → AllFit entries.new }
    ensures err { OnErr result (entries.new ≡ entries.old) }
    ensures full { IfErr result
        (λ fault. write_fault fault ≡ WriteFault.DictionaryFull
        → IsIndexOverflow (note_all entries.old (rows_pairs fields.now batch.now.rows))) }
    ensures counted { AreEntriesCounted fields.now entries.new columns.new }
    ensures marked { marks.new ≡ tally_lengths entries.old }
    ensures before { truncated_tally marks.new entries.new ≡ entries.old }
    ensures can_be_cut { CanBeCut fields.now entries.new marks.new columns.new }
    ensures limits { columns.new.limits ≡ columns.old.limits }
    ensures over { IfErr result (λ fault. IsOfLimits (write_fault fault)
        → IsOverLimit columns.old.limits fields.now
        (note_all entries.old (rows_pairs fields.now batch.now.rows)) (write_fault fault)) }
    ensures memory { IfErr result
        (λ fault. ((write_fault fault ≡ WriteFault.DictionaryFull) ⊎ IsOfLimits (write_fault fault))
        ⊎ (write_fault fault ≡ WriteFault.OutOfMemory)) }
{
    mark(entries, marks);
    if let Err(fault) = count_batch(alloc, entries, recent, marks, columns, fields, batch) {
        restore(entries, marks);
        return Err(fault);
    }
    Ok(())
}

// Notes the values of a batch, and counts those that came since the marks.
fn count_batch(
    alloc: Global,
    entries: &mut [TallyEntry],
    recent: &mut RecentValues,
    marks: &[usize],
    columns: &mut EntryColumns,
    fields: &[Field],
    batch: &Batch,
) -> Result<(), PushFault>
    requires marks { marks.now ≡ tally_lengths entries.old }
    requires columns { AreEntriesCounted fields.now entries.old columns.old }
    ensures noted { OnOk result
        (entries.new ≡ note_all entries.old (rows_pairs fields.now batch.now.rows)) }
    ensures fits { OnOk result (AllFit entries.old → AllFit entries.new) }
    ensures full { IfErr result
        (λ fault. write_fault fault ≡ WriteFault.DictionaryFull
        → IsIndexOverflow (note_all entries.old (rows_pairs fields.now batch.now.rows))) }
    ensures counted { OnOk result (AreEntriesCounted fields.now entries.new columns.new) }
    ensures can_be_cut { OnOk result (CanBeCut fields.now entries.new marks.now columns.new) }
    ensures kept { OnErr result (AreEntriesCounted fields.now entries.old columns.new) }
    ensures limits { columns.new.limits ≡ columns.old.limits }
    ensures over { IfErr result (λ fault. IsOfLimits (write_fault fault)
        → IsOverLimit columns.old.limits fields.now
        (note_all entries.old (rows_pairs fields.now batch.now.rows)) (write_fault fault)) }
    ensures memory { IfErr result
        (λ fault. ((write_fault fault ≡ WriteFault.DictionaryFull) ⊎ IsOfLimits (write_fault fault))
        ⊎ (write_fault fault ≡ WriteFault.OutOfMemory)) }
    ensures grows { AllGrow entries.old entries.new }
{
    note_batch(alloc, entries, recent, fields, batch)?;
    if have_new_values(entries, marks) {
        columns.count(entries, marks)?;
    }
    Ok(())
}

// Whether a dictionary has another number of values than it had.
fn have_new_values(entries: &[TallyEntry], marks: &[usize]) -> bool
    requires { length marks.now ≡ length entries.now }
    ensures none { result ≡ false → tally_lengths entries.now ≡ marks.now }
    ensures some { result ≡ true → tally_lengths entries.now ≢ marks.now }
{
    for (i, entry) in entries.iter().enumerate() {
        if entry.values.len() != marks[i] {
            return true;
        }
    }
    false
}

// Keeps how many values each dictionary has.
fn mark(entries: &[TallyEntry], marks: &mut [usize])
    requires { length marks.old ≡ length entries.now }
    ensures { marks.new ≡ tally_lengths entries.now }
{
    for (i, entry) in entries.iter().enumerate() {
        marks[i] = entry.values.len();
    }
}

// Cuts off the values that came since.
fn restore(entries: &mut [TallyEntry], marks: &[usize])
    requires { length marks.now ≡ length entries.old }
    ensures { entries.new ≡ truncated_tally marks.now entries.old }
{
    for (i, len) in marks.iter().enumerate() {
        let entry = &mut entries[i];
        entry.values.truncate(*len);
    }
}

/// The law: a value keeps the position that a tally gives it, whatever is noted later.
pub fn keeps_places()
    ensures { KeepsPlaces }
{}

/// The law: each value that was noted has a position in the tally, if its dictionary has an entry.
pub fn places_all()
    ensures { PlacesAll }
{}

/// The law: a tally's entry has the distinct values of its dictionary, in order of first
/// appearance.
pub fn holds_distinct()
    ensures { HoldsDistinct }
{}
