//! Finds the dictionary values of a row in field order, depth first, without nulls.
ghost use Rattle.std.specs.Prelude.{◌≡◌, [], map, IfErr, IsTrue, OnOk, ◌⊎◌};
ghost use Rattle.ipc_model.specs.declared.value.Value.{Value};
ghost use Rattle.ipc_dict.specs.Noting.{note_all, AllFit, IsIndexOverflow, AllGrow};
ghost use Rattle.ipc_dict.specs.Pairs.{pairs, items_pairs, each_pairs};

use crate::entry::{TallyEntry, note_one};
use crate::recent_values::RecentValues;
use ipc_encode::PushFault;
use ipc_model::{DataType, Field, Value};

/// Returns true only if neither the field nor a descendant names a dictionary.
#[inline(always)]
#[tactic(auto, using(crate::proofs::Walks::plain_pairs))]
pub(crate) fn has_no_dictionary(field: &Field) -> bool
    ensures { IsTrue result → (value : Value) → pairs field.now value ≡ [] }
{
    field.dictionary.is_none() && field.children.is_empty()
}

/// Notes the dictionary values in one value of a field. It is a function of its own, so that a
/// value without dictionaries costs no call.
#[cycle(note)]
#[inline(always)]
#[tactic(auto, using(crate::proofs::Notes::all_grow_same, crate::proofs::Notes::all_grow_trans))]
pub(crate) fn note_value(
    entries: &mut [TallyEntry],
    recent: &mut RecentValues,
    field: &Field,
    value: &Value,
) -> Result<(), PushFault>
    ensures noted { OnOk result (entries.new ≡ note_all entries.old (pairs field.now value.now)) }
    ensures fits { OnOk result (AllFit entries.old → AllFit entries.new) }
    ensures full { IfErr result
        (λ fault. fault ≡ PushFault.DictionaryFull
        → IsIndexOverflow (note_all entries.old (pairs field.now value.now))) }
    ensures memory { IfErr result
        (λ fault. (fault ≡ PushFault.DictionaryFull) ⊎ (fault ≡ PushFault.OutOfMemory)) }
    ensures grows { AllGrow entries.old entries.new }
{
    if has_no_dictionary(field) {
        return Ok(());
    }
    note_named(entries, recent, field, value)
}

// Notes the dictionary values in one value of a field that may name a dictionary.
#[cycle(note)]
#[tactic(auto, using(crate::proofs::Notes::all_grow_same, crate::proofs::Notes::all_grow_trans))]
fn note_named(
    entries: &mut [TallyEntry],
    recent: &mut RecentValues,
    field: &Field,
    value: &Value,
) -> Result<(), PushFault>
    ensures noted { OnOk result (entries.new ≡ note_all entries.old (pairs field.now value.now)) }
    ensures fits { OnOk result (AllFit entries.old → AllFit entries.new) }
    ensures full { IfErr result
        (λ fault. fault ≡ PushFault.DictionaryFull
        → IsIndexOverflow (note_all entries.old (pairs field.now value.now))) }
    ensures memory { IfErr result
        (λ fault. (fault ≡ PushFault.DictionaryFull) ⊎ (fault ≡ PushFault.OutOfMemory)) }
    ensures grows { AllGrow entries.old entries.new }
{
    if let Some(dictionary) = field.dictionary {
        return match value {
            Value::Null => Ok(()),
            _ => note_one(entries, recent, dictionary.id, value),
        };
    }
    let children = field.children.as_slice();
    match (&field.kind, value) {
        (DataType::List | DataType::FixedSizeList(_), Value::List(values)) => {
            match children.first() {
                Some(child) => note_items(entries, recent, child, values.as_slice()),
                None => Ok(()),
            }
        }
        (DataType::Struct, Value::Struct(values)) => {
            note_each(entries, recent, children, values.as_slice())
        }
        _ => Ok(()),
    }
}

// Notes the dictionary values in the items of a list, whose field is its child.
#[cycle(note)]
#[tactic(auto, using(crate::proofs::Notes::all_grow_same, crate::proofs::Notes::all_grow_trans))]
fn note_items(
    entries: &mut [TallyEntry],
    recent: &mut RecentValues,
    child: &Field,
    values: &[Value],
) -> Result<(), PushFault>
    ensures noted { OnOk result
        (entries.new ≡ note_all entries.old (items_pairs (pairs child.now) values.now)) }
    ensures fits { OnOk result (AllFit entries.old → AllFit entries.new) }
    ensures full { IfErr result
        (λ fault. fault ≡ PushFault.DictionaryFull
        → IsIndexOverflow (note_all entries.old (items_pairs (pairs child.now) values.now))) }
    ensures memory { IfErr result
        (λ fault. (fault ≡ PushFault.DictionaryFull) ⊎ (fault ≡ PushFault.OutOfMemory)) }
    ensures grows { AllGrow entries.old entries.new }
{
    for value in values {
        note_value(entries, recent, child, value)?;
    }
    Ok(())
}

// Notes the dictionary values in several values with their fields: those of a row or of a struct.
#[cycle(note)]
#[tactic(auto, using(crate::proofs::Notes::all_grow_same, crate::proofs::Notes::all_grow_trans))]
pub(crate) fn note_each(
    entries: &mut [TallyEntry],
    recent: &mut RecentValues,
    fields: &[Field],
    values: &[Value],
) -> Result<(), PushFault>
    ensures noted { OnOk result
        (entries.new ≡ note_all entries.old (each_pairs (map pairs fields.now) values.now)) }
    ensures fits { OnOk result (AllFit entries.old → AllFit entries.new) }
    ensures full { IfErr result
        (λ fault. fault ≡ PushFault.DictionaryFull
        → IsIndexOverflow (note_all entries.old (each_pairs (map pairs fields.now) values.now))) }
    ensures memory { IfErr result
        (λ fault. (fault ≡ PushFault.DictionaryFull) ⊎ (fault ≡ PushFault.OutOfMemory)) }
    ensures grows { AllGrow entries.old entries.new }
{
    for (number, field) in fields.iter().enumerate() {
        let Some(value) = values.get(number) else {
            return Ok(());
        };
        note_value(entries, recent, field, value)?;
    }
    Ok(())
}
