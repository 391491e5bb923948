//! The dictionaries that the fields of a schema name.
ghost use Rattle.std.specs.Prelude.{◌≡◌, ◌<◌, ◌++◌, ◌∷◌, [], ℕ, true, false, length, IfOk, IfSome};
ghost use Rattle.std.specs.Prelude.{IfNone, OnOk, slice_index_or};
ghost use Rattle.std.specs.Ordering.{int_eq};
ghost use Rattle.ipc_dict.specs.SchemaIds.{of_field, of_fields, index_capacity, fresh, with_field};
ghost use Rattle.ipc_dict.specs.SchemaIds.{empty_entries};
ghost use Rattle.ipc_dict.specs.SchemaEntries.{AreOfSchema};
ghost use Rattle.ipc_dict.specs.declared.entry.TallyEntry.{TallyEntry};

use crate::distinct::DistinctValues;
use crate::entry::TallyEntry;
use crate::seed::Seed;
use ipc_model::{Dictionary, Field, IntBits};
use std::alloc::{AllocError, Global};

// Appends the dictionaries of a field and of its descendants to those that were found.
#[cycle(collect)]
fn collect_one(dictionaries: &mut Vec<Dictionary>, field: &Field) -> Result<(), AllocError>
    ensures { OnOk result (dictionaries.new.items ≡ dictionaries.old.items ++ of_field field.now) }
{
    if let Some(dictionary) = field.dictionary {
        dictionaries.push(dictionary)?;
    }
    collect(dictionaries, field.children.as_slice())
}

// Appends the dictionaries of several fields and of their descendants to those that were found.
#[cycle(collect)]
fn collect(dictionaries: &mut Vec<Dictionary>, fields: &[Field]) -> Result<(), AllocError>
    ensures { OnOk result (dictionaries.new.items
        ≡ dictionaries.old.items ++ of_fields fields.now) }
{
    for field in fields {
        collect_one(dictionaries, field)?;
    }
    Ok(())
}

// How many values the dictionary's indices count.
fn index_capacity(dictionary: &Dictionary) -> usize
    ensures { result ≡ index_capacity dictionary.now }
{
    match (dictionary.index.bits, dictionary.index.signed) {
        (IntBits::B8, true) => 1 << 7,
        (IntBits::B8, false) => 1 << 8,
        (IntBits::B16, true) => 1 << 15,
        (IntBits::B16, false) => 1 << 16,
        (IntBits::B32, true) => 1 << 31,
        (IntBits::B32, false) => 1 << 32,
        (IntBits::B64, true) => 1 << 63,
        (IntBits::B64, false) => usize::MAX,
    }
}

// The position of the dictionary's entry.
fn find_entry(entries: &[TallyEntry], dictionary: &Dictionary) -> Option<usize>
    ensures within { IfSome result (λ i. i < length entries.now) }
    ensures finds { IfSome result (λ i. (e : TallyEntry) → i < length entries.now
        → int_eq (slice_index_or entries.now i e).id dictionary.now.id ≡ true) }
    ensures before { IfSome result (λ i. (k : ℕ) (e : TallyEntry) → k < i
        → int_eq (slice_index_or entries.now k e).id dictionary.now.id ≡ false) }
    ensures absent { IfNone result ((k : ℕ) (e : TallyEntry) → k < length entries.now
        → int_eq (slice_index_or entries.now k e).id dictionary.now.id ≡ false) }
{
    for (i, entry) in entries.iter().enumerate() {
        if entry.id == dictionary.id {
            return Some(i);
        }
    }
    None
}

// Lowers the limit of the dictionary's entry to this one, where there is an entry. Answers whether
// there is.
fn lower_limit(entries: &mut [TallyEntry], dictionary: &Dictionary, limit: usize) -> bool
    requires { limit ≡ index_capacity dictionary.now }
    ensures finds { result ≡ true → entries.new ≡ with_field entries.old dictionary.now }
    ensures unchanged { result ≡ false → entries.new ≡ entries.old }
    ensures absent { result ≡ false
        → entries.old ++ fresh dictionary.now ∷ [] ≡ with_field entries.old dictionary.now }
{
    let Some(at) = find_entry(entries, dictionary) else {
        return false;
    };
    let entry = &mut entries[at];
    entry.limit = entry.limit.min(limit);
    true
}

// One more field's dictionary.
fn add_field(
    alloc: Global,
    seed: Seed,
    entries: &mut Vec<TallyEntry>,
    dictionary: &Dictionary,
) -> Result<(), AllocError>
    ensures { OnOk result (entries.new.items ≡ with_field entries.old.items dictionary.now) }
{
    let limit = index_capacity(dictionary);
    if lower_limit(entries, dictionary, limit) {
        return Ok(());
    }
    entries.push(TallyEntry {
        id: dictionary.id,
        limit,
        values: DistinctValues::new(alloc, seed),
    })?;
    Ok(())
}

// An entry for each id that the fields name, in pre-order without repeats.
pub(crate) fn empty_entries(
    alloc: Global,
    seed: Seed,
    fields: &[Field],
) -> Result<Vec<TallyEntry>, AllocError>
    ensures { IfOk result (λ entries. entries.items ≡ empty_entries fields.now) }
{
    let mut dictionaries = Vec::new(alloc);
    collect(&mut dictionaries, fields)?;
    let mut entries = Vec::new(alloc);
    for dictionary in &dictionaries {
        add_field(alloc, seed, &mut entries, dictionary)?;
    }
    Ok(entries)
}

/// The law: a tally begins with one entry for each id that the fields of its schema name. The
/// entries are in the order in which the ids first appear (pre-order). Each has the smallest count
/// of its index types.
pub fn entries_of_schema()
    ensures { AreOfSchema }
{}
