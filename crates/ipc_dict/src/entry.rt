//! The distinct values of each dictionary.
ghost use Rattle.std.specs.Prelude.{◌≡◌, ◌<◌, ◌≤◌, length, IfErr, OnOk, ◌⊎◌, ℕ, true, false};
ghost use Rattle.std.specs.Prelude.{slice_index_or, IfSome, IfNone};
ghost use Rattle.std.specs.Ordering.{int_eq};
ghost use Rattle.ipc_dict.specs.declared.entry.TallyEntry.{TallyEntry};
ghost use Rattle.ipc_dict.specs.Distinct.{first_index};
ghost use Rattle.ipc_dict.specs.Noting.{note_entry, note_one, place_of_value, AllFit};
ghost use Rattle.ipc_dict.specs.Noting.{IsIndexOverflow, GrowsEntry, AllGrow};

use crate::distinct::DistinctValues;
use crate::recent_values::{RecentValues, slot_of_hash};
use ipc_encode::PushFault;
use ipc_model::Value;

/// The distinct values of one dictionary.
#[derive(Debug, Drop)]
pub struct TallyEntry {
    /// The id of the dictionary.
    pub id: i64,
    /// The number of values that its narrowest index type counts.
    pub limit: usize,
    /// The values.
    pub values: DistinctValues,
}

// The position of the dictionary's entry.
pub(crate) fn find(entries: &[TallyEntry], id: i64) -> Option<usize>
    ensures within { IfSome result (λ i. i < length entries.now) }
    ensures finds { IfSome result
        (λ i. (d : TallyEntry) → i < length entries.now
        → int_eq (slice_index_or entries.now i d).id id ≡ true) }
    ensures before { IfSome result
        (λ i. (k : ℕ) (d : TallyEntry) → k < i
        → int_eq (slice_index_or entries.now k d).id id ≡ false) }
    ensures absent { IfNone result
        ((k : ℕ) (d : TallyEntry) → k < length entries.now
        → int_eq (slice_index_or entries.now k d).id id ≡ false) }
{
    for (i, entry) in entries.iter().enumerate() {
        if entry.id == id {
            return Some(i);
        }
    }
    None
}

// Notes one value of a dictionary, which may be at this position. Returns its position.
fn note_in(entry: &mut TallyEntry, guess: usize, value: &Value) -> Result<usize, PushFault>
    ensures noted { OnOk result (entry.new ≡ note_entry value.now entry.old) }
    ensures fits { OnOk result
        (length entry.old.values ≤ entry.old.limit → length entry.new.values ≤ entry.new.limit) }
    ensures full { IfErr result
        (λ fault. fault ≡ PushFault.DictionaryFull
        → (entry.new ≡ note_entry value.now entry.old)
        × (entry.new.limit < length entry.new.values)) }
    ensures memory { IfErr result
        (λ fault. (fault ≡ PushFault.DictionaryFull) ⊎ (fault ≡ PushFault.OutOfMemory)) }
    ensures grows { GrowsEntry entry.old entry.new }
{
    if let Some(place) = entry.values.index_with_guess(guess, value) {
        return Ok(place);
    }
    let place = entry.values.len();
    if entry.values.add(value)? && entry.values.len() > entry.limit {
        return Err(PushFault::DictionaryFull);
    }
    Ok(place)
}

// Notes one value of the dictionary with the id, if there is one, and keeps its position.
pub(crate) fn note_one(
    entries: &mut [TallyEntry],
    recent: &mut RecentValues,
    id: i64,
    value: &Value,
) -> Result<(), PushFault>
    ensures noted { OnOk result (entries.new ≡ note_one entries.old id value.now) }
    ensures fits { OnOk result (AllFit entries.old → AllFit entries.new) }
    ensures full { IfErr result
        (λ fault. fault ≡ PushFault.DictionaryFull → IsIndexOverflow
        (note_one entries.old id value.now)) }
    ensures memory { IfErr result
        (λ fault. (fault ≡ PushFault.DictionaryFull) ⊎ (fault ≡ PushFault.OutOfMemory)) }
    ensures grows { AllGrow entries.old entries.new }
{
    let Some(at) = find(entries, id) else {
        return Ok(());
    };
    let spot = slot_of_hash(at, value);
    let entry = &mut entries[at];
    let place = note_in(entry, recent.place(spot), value)?;
    recent.keep(spot, place);
    Ok(())
}

// The position of a value among those of the dictionary with the id. The values of a row are looked
// up after they are noted, so most are still at the kept position.
pub(crate) fn place_in(
    entries: &[TallyEntry],
    recent: &RecentValues,
    id: i64,
    value: &Value,
) -> Option<u64>
    ensures { result ≡ place_of_value entries.now id value.now }
{
    let i = find(entries, id)?;
    let guess = recent.place(slot_of_hash(i, value));
    place_of(&entries[i].values, guess, value)
}

// The position of a value among those of one dictionary, where it may be at this position.
fn place_of(values: &DistinctValues, guess: usize, value: &Value) -> Option<u64>
    ensures { result ≡ first_index value.now values.now }
{
    let at = values.index_with_guess(guess, value)?;
    Some(at as u64)
}
