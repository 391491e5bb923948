//! Plans each dictionary; the lists of dictionaries are all in one order.
ghost use Rattle.std.specs.Prelude.{◌≡◌, ◌∷◌, ◌++◌, [], map, length, IfOk, OnOk, IfNone, IfSome};
ghost use Rattle.ipc_dict.specs.Planning.{AreFirstIndices, LacksValue, IsSettled, AllSettled};
ghost use Rattle.ipc_dict.specs.Planning.{number_at, index, number, kept_number, times_sent};
ghost use Rattle.ipc_dict.specs.Planning.{values_after};
ghost use Rattle.ipc_dict.specs.Planning.{after_all, own_send, sends_of, FindsAll, FindsNoted};
ghost use Rattle.ipc_dict.specs.Planning.{KnowsAll};
ghost use Rattle.ipc_dict.specs.SchemaIds.{kept_ids, tally_ids};
ghost use Rattle.ipc_dict.specs.Distinct.{first_index};

use crate::distinct::DistinctValues;
use crate::entry::{TallyEntry, find};
use crate::kept::KeptEntry;
use crate::plan::Plan;
use crate::seed::Seed;
use ipc_model::{Items, Row, Value};
use std::alloc::{AllocError, Global};
use std::mem;

// What a batch with these values does with each dictionary.
pub(crate) fn settle(
    alloc: Global,
    kept: &[KeptEntry],
    entries: Vec<TallyEntry>,
) -> Result<Plan, AllocError>
    requires { length kept.now ≡ length entries.items }
    ensures entries { IfOk result (λ plan. plan.entries ≡ entries.items) }
    ensures settled { IfOk result (λ plan. AllSettled kept.now entries.items plan.numbers) }
    ensures finds { kept_ids kept.now ≡ tally_ids entries.items
        → IfOk result (λ plan. FindsAll kept.now entries.items plan.numbers) }
    ensures finds_noted { kept_ids kept.now ≡ tally_ids entries.items
        → IfOk result (λ plan. FindsNoted kept.now entries.items plan.numbers) }
    ensures knows { IfOk result (λ plan. KnowsAll entries.items plan.numbers) }
{
    let numbers = settle_all(alloc, kept, &entries)?;
    let sends = sends_of(alloc, &entries, &numbers)?;
    Ok(Plan {
        entries,
        numbers,
        sends,
    })
}

// The index of a value of the dictionary with this id.
pub(crate) fn index_of(
    entries: &[TallyEntry],
    numbers: &[Option<Items<u64>>],
    id: i64,
    value: &Value,
) -> Option<u64>
    requires { length numbers.now ≡ length entries.now }
    ensures { result ≡ index entries.now numbers.now id value.now }
{
    let i = find(entries, id)?;
    sent_index_of(&entries[i].values, &numbers[i], value)
}

fn sent_index_of(
    values: &DistinctValues,
    numbers: &Option<Items<u64>>,
    value: &Value,
) -> Option<u64>
    ensures { result ≡ number_at (first_index value.now values.now) numbers.now }
{
    let at = values.index_of(value)?;
    match numbers {
        Some(numbers) => numbers.as_slice().get(at).copied(),
        None => Some(at as u64),
    }
}

// The index that replaces a batch's own number in the dictionary with this id.
pub(crate) fn number_of_index(
    entries: &[TallyEntry],
    numbers: &[Option<Items<u64>>],
    id: i64,
    from: u64,
) -> Option<u64>
    requires { length numbers.now ≡ length entries.now }
    ensures { result ≡ number entries.now numbers.now id from }
{
    let i = find(entries, id)?;
    kept_number(&numbers[i], from)
}

fn kept_number(numbers: &Option<Items<u64>>, from: u64) -> Option<u64>
    ensures { result ≡ kept_number numbers.now from }
{
    match numbers {
        Some(numbers) => numbers.as_slice().get(from as usize).copied(),
        None => None,
    }
}

// Returns the index of each of the values among the distinct ones, or `None` if one is not there.
fn numbers_in(
    alloc: Global,
    distinct: &DistinctValues,
    values: &[Value],
) -> Result<Option<Vec<u64>>, AllocError>
    ensures all { IfOk result
        (λ o. IfSome o (λ to. AreFirstIndices distinct.now values.now to.items)) }
    ensures lacks { IfOk result (λ o. IfNone o (LacksValue distinct.now values.now)) }
{
    let mut to = Vec::with_capacity(alloc, values.len())?;
    for value in values {
        let Some(index) = distinct.index_of(value) else {
            return Ok(None);
        };
        to.push(index as u64)?;
    }
    Ok(Some(to))
}

// What the batch does with one dictionary.
fn settle_one(
    alloc: Global,
    kept: &KeptEntry,
    entry: &TallyEntry,
) -> Result<Option<Items<u64>>, AllocError>
    ensures { IfOk result (IsSettled kept.now.values entry.now.values) }
{
    Ok(match &kept.values {
        Some(values) => numbers_in(alloc, values, entry.values.as_slice())?.map(Items::from_vec),
        None => None,
    })
}

fn settle_all(
    alloc: Global,
    kept: &[KeptEntry],
    entries: &[TallyEntry],
) -> Result<Vec<Option<Items<u64>>>, AllocError>
    requires { length kept.now ≡ length entries.now }
    ensures settled { IfOk result (λ numbers. AllSettled kept.now entries.now numbers.items) }
    ensures len { IfOk result (λ numbers. length numbers.items ≡ length entries.now) }
{
    let mut numbers = Vec::with_capacity(alloc, entries.len())?;
    for (i, entry) in entries.iter().enumerate() {
        numbers.push(settle_one(alloc, &kept[i], entry)?)?;
    }
    Ok(numbers)
}

// The dictionaries to send, as rows of one value.
fn sends_of(
    alloc: Global,
    entries: &[TallyEntry],
    numbers: &[Option<Items<u64>>],
) -> Result<Vec<(i64, Items<Row>)>, AllocError>
    requires { length numbers.now ≡ length entries.now }
    ensures { IfOk result (λ sends. sends.items ≡ sends_of entries.now numbers.now) }
{
    let mut sends = Vec::new(alloc);
    for (i, entry) in entries.iter().enumerate() {
        add_send(alloc, &mut sends, entry, &numbers[i])?;
    }
    Ok(sends)
}

// Puts the dictionary last, where it is sent.
fn add_send(
    alloc: Global,
    sends: &mut Vec<(i64, Items<Row>)>,
    entry: &TallyEntry,
    numbers: &Option<Items<u64>>,
) -> Result<(), AllocError>
    ensures { OnOk result (sends.new.items ≡ sends.old.items ++ own_send entry.now numbers.now) }
{
    if numbers.is_none() {
        let rows = rows_of(alloc, entry.values.as_slice())?;
        sends.push((entry.id, Items::from_vec(rows)))?;
    }
    Ok(())
}

// Copies of the values, each a row of its own.
pub(crate) fn rows_of(alloc: Global, values: &[Value]) -> Result<Vec<Row>, AllocError>
    ensures { IfOk result (λ rows. rows.items ≡ map (λ v. v ∷ []) values.now) }
{
    let mut rows = Vec::with_capacity(alloc, values.len())?;
    for value in values {
        rows.push(row_of(alloc, value)?)?;
    }
    Ok(rows)
}

fn row_of(alloc: Global, value: &Value) -> Result<Row, AllocError>
    ensures { IfOk result (λ row. row ≡ value.now ∷ []) }
{
    let own = value.clone()?;
    let mut values = Vec::with_capacity(alloc, 1)?;
    values.push(own)?;
    Ok(Items::from_vec(values))
}

// Moves the values that are sent to what was sent.
pub(crate) fn commit(
    alloc: Global,
    entries: &mut [TallyEntry],
    numbers: &[Option<Items<u64>>],
    kept: &mut [KeptEntry],
)
    requires len { length entries.old ≡ length kept.old }
    requires numbers { length numbers.now ≡ length entries.old }
    ensures { kept.new ≡ after_all kept.old entries.old numbers.now }
{
    for (i, number) in numbers.iter().enumerate() {
        let entry = &mut entries[i];
        let one = &mut kept[i];
        keep(alloc, one, entry, number);
    }
}

// Keeps the values of one dictionary as the last ones sent, and counts them, if the plan sends it.
fn keep(alloc: Global, kept: &mut KeptEntry, entry: &mut TallyEntry, numbers: &Option<Items<u64>>)
    ensures { kept.new ≡ record kept.old {
      values = values_after kept.old.values entry.old.values numbers.now;
      sent = times_sent kept.old.sent numbers.now;
    } }
{
    if numbers.is_none() {
        let none = DistinctValues::new(alloc, Seed::Fixed);
        kept.values = Some(mem::replace(&mut entry.values, none));
        kept.sent = kept.sent.saturating_add(1);
    }
}
