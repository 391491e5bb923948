ghost use Rattle.ipc_model.specs.Answers.{AnswersUnlessOutOfMemory};
ghost use Rattle.ipc_meta.specs.Reading.{text_read, pair_read, pairs_read, fields_read, field_read};
ghost use Rattle.ipc_meta.specs.Reading.{only_field};

use crate::budget::Budget;
use crate::flat_faults::map_fault;
use crate::types::{read_counted_type, read_dictionary, read_flag};
use ipc_flat::TableRef;
use ipc_model::{Fault, Field, Items, Limits, Text};
use std::alloc::Global;

// The text in a field, copied and counted; an absent text is empty.
#[tactic(auto, unfolding(crate::specs::Reading::text_read, crate::specs::Tables::text_at))]
fn read_text(
    alloc: Global,
    table: &TableRef<'_>,
    id: u16,
    budget: &mut Budget,
) -> Result<Text, Fault>
    ensures { AnswersUnlessOutOfMemory (λ s. (s, budget.new)) result
        (text_read table.now id budget.old) }
{
    let text = map_fault(table.text(id))?.unwrap_or("");
    budget.take_text(text.len())?;
    Ok(Text::copied(alloc, text)?)
}

// A KeyValue table (Schema.fbs): 0 key, 1 value.
#[tactic(auto, unfolding(crate::specs::Reading::pair_read))]
fn read_pair(
    alloc: Global,
    table: &TableRef<'_>,
    budget: &mut Budget,
) -> Result<(Text, Text), Fault>
    ensures { AnswersUnlessOutOfMemory (λ p. (p, budget.new)) result
        (pair_read table.now budget.old) }
{
    let key = read_text(alloc, table, 0, budget)?;
    let value = read_text(alloc, table, 1, budget)?;
    Ok((key, value))
}

/// Reads the pairs of key and value in a field that holds a vector of KeyValue tables (Schema.fbs).
/// All are counted before the first is read.
#[tactic(auto, unfolding(crate::specs::Reading::pairs_read, crate::specs::Tables::vector_at))]
pub(crate) fn read_pairs(
    alloc: Global,
    table: &TableRef<'_>,
    id: u16,
    budget: &mut Budget,
) -> Result<Items<(Text, Text)>, Fault>
    ensures { AnswersUnlessOutOfMemory (λ ps. (ps, budget.new)) result
        (pairs_read table.now id budget.old) }
{
    let mut pairs = Vec::new(alloc);
    let Some(tables) = map_fault(table.tables(id))? else {
        return Ok(Items::from_vec(pairs));
    };
    budget.take_pairs(tables.len())?;
    for i in 0..tables.len() {
        let table = map_fault(tables.at(i))?;
        pairs.push(read_pair(alloc, &table, budget)?)?;
    }
    Ok(Items::from_vec(pairs))
}

/// Reads the fields in a field that holds a vector of Field tables (Schema.fbs), with at most
/// `depth` levels. All are counted before the first is read.
#[cycle(fields)]
#[tactic(auto, unfolding(crate::specs::Reading::fields_read, crate::specs::Tables::vector_at))]
pub(crate) fn read_fields(
    alloc: Global,
    table: &TableRef<'_>,
    id: u16,
    depth: u64,
    budget: &mut Budget,
) -> Result<Items<Field>, Fault>
    ensures { AnswersUnlessOutOfMemory (λ fs. (fs, budget.new)) result
        (fields_read (field_read depth) table.now id budget.old) }
{
    let mut fields = Vec::new(alloc);
    let Some(tables) = map_fault(table.tables(id))? else {
        return Ok(Items::from_vec(fields));
    };
    budget.take_fields(tables.len())?;
    for i in 0..tables.len() {
        let table = map_fault(tables.at(i))?;
        fields.push(read_field(alloc, &table, depth, budget)?)?;
    }
    Ok(Items::from_vec(fields))
}

// A Field table (Schema.fbs) and all below it, with at most `depth` levels: 0 name, 1 nullable, 2
// and 3 type, 4 dictionary, 5 children, 6 custom_metadata.
#[cycle(fields)]
#[tactic(auto, unfolding(crate::specs::Reading::field_read))]
fn read_field(
    alloc: Global,
    table: &TableRef<'_>,
    depth: u64,
    budget: &mut Budget,
) -> Result<Field, Fault>
    ensures { AnswersUnlessOutOfMemory (λ f. (f, budget.new)) result
        (field_read depth table.now budget.old) }
{
    if depth == 0 {
        return Err(Fault::TooDeep);
    }
    let name = read_text(alloc, table, 0, budget)?;
    let nullable = read_flag(table, 1)?;
    let kind = read_counted_type(alloc, table, budget)?;
    let dictionary = read_dictionary(table)?;
    let metadata = read_pairs(alloc, table, 6, budget)?;
    let children = read_fields(alloc, table, 5, depth - 1, budget)?;
    Ok(Field {
        name,
        nullable,
        kind,
        dictionary,
        children,
        metadata,
    })
}

/// Reads one Field table (Schema.fbs) and all below it, as if it were the only field of a schema.
/// Use it to find the field for which `read_message` refuses a schema.
///
/// Errors: F5, F13 to F19 and F22 as in `read_message`, if this field alone has that fault;
/// `OutOfMemory` (F37).
#[tactic(auto, unfolding(crate::specs::Reading::only_field))]
pub fn read_only_field(alloc: Global, limits: &Limits, table: &TableRef<'_>) -> Result<Field, Fault>
    ensures { AnswersUnlessOutOfMemory (λ f. f) result (only_field limits.now table.now) }
{
    let mut budget = Budget {
        fields: limits.fields,
        text: limits.text,
        pairs: limits.pairs,
    };
    read_field(alloc, table, limits.depth, &mut budget)
}
