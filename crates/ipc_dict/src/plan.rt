//! Plans which dictionaries a batch sends, and the indices of its values.
ghost use Rattle.std.specs.Prelude.{◌≡◌, ◌≢◌, ◌⊎◌, List, length, IfOk, IfErr};
ghost use Rattle.ipc_model.specs.declared.schema.Field.{Field};
ghost use Rattle.ipc_dict.specs.Planning.{after_all, sends_of, AllSettled, FindsAll, FindsNoted};
ghost use Rattle.ipc_dict.specs.Planning.{KnowsAll};
ghost use Rattle.ipc_dict.specs.Counted.{HoldsRows};
ghost use Rattle.ipc_dict.specs.Noting.{note_all, AllFit, IsIndexOverflow};
ghost use Rattle.ipc_dict.specs.Pairs.{rows_pairs};
ghost use Rattle.ipc_dict.specs.SchemaIds.{kept_ids, tally_ids, ids_of, empty_entries};
ghost use Rattle.ipc_dict.specs.Sending.{AreAddressed, AreCounted, tally_of_rows};
ghost use Rattle.ipc_dict.specs.Within.{AllWithin, IsOfLimits, IsOverLimit};

use crate::entry::TallyEntry;
use crate::kept::Kept;
use crate::seed::Seed;
use crate::settle::{commit, index_of, number_of_index};
use crate::tally::Tally;
use ipc_column::Batch;
use ipc_encode::{IndexOf, Renumber};
use ipc_model::{Items, Limits, Row, Schema, Value, WriteFault};
use std::alloc::Global;
use std::marker::Model;

/// What a batch does with each dictionary of its schema (Arrow Columnar Format, "Dictionary
/// Messages"). A dictionary is sent with the batch if it was not sent yet, or if it lacks a value
/// of the batch. Otherwise the values are found among those that were sent before.
///
/// The indices of the batch are those in the dictionaries after the batch is sent.
#[derive(Debug, Drop)]
pub struct Plan {
    pub(crate) entries: Vec<TallyEntry>,
    // The index of each value among those that were sent before; None where the dictionary is sent
    // with this batch.
    pub(crate) numbers: Vec<Option<Items<u64>>>,
    pub(crate) sends: Vec<(i64, Items<Row>)>,
}

impl Model for Plan {
    ghost use Rattle.std.specs.Prelude.{◌≡◌, length};
    ghost use Rattle.std.specs.Coded.{codes};
    ghost use Rattle.ipc_dict.specs.contracts.entry.TallyEntry as entry;
    ghost use Rattle.ipc_dict.specs.PlanState.{PlanState};
    ghost use Rattle.ipc_dict.specs.Planning.{sends_of};

    ghost Value = { PlanState };

    ghost coded = { Prim.hlevel (codes, entry.the_row.coded) };

    ghost view = { λ p. record { entries = p.entries.items; numbers = p.numbers.items } };

    ghost invariant = { λ p. (length p.numbers.items ≡ length p.entries.items)
        × (p.sends.items ≡ sends_of p.entries.items p.numbers.items) };
}

impl Plan {
    /// Plans what a batch of these rows does with each dictionary of the schema.
    ///
    /// The rows must fit the schema, and `kept` must be that of a writer of this schema. The values
    /// of each dictionary are the distinct values other than null of the rows, in order of first
    /// appearance: row by row, and within a row in field order, depth first.
    ///
    /// Errors:
    ///
    /// - W7 `DictionaryFull`: exactly if a dictionary has more of these values than an index type
    ///   of its fields counts.
    /// - W8 `TooManyRows`: a dictionary has more than `limits.slots` of these values.
    /// - W6 `TooLong`: as the one column of their message, the values have more data than offsets
    ///   reach, or more than `limits.body` bytes (Arrow Columnar Format, "Array lengths").
    /// - W11 `OutOfMemory`: memory for the values or for the lists of the plan ran out.
    pub fn for_rows(
        alloc: Global,
        limits: &Limits,
        schema: &Schema,
        kept: &Kept,
        rows: &[Row],
    ) -> Result<Plan, WriteFault>
        requires { kept_ids kept.now ≡ ids_of schema.now.fields }
        // Each dictionary has exactly the distinct values of the rows.
        ensures rows { IfOk result
            (λ plan. HoldsRows schema.now.fields rows.now plan.entries) }
        // The entries are those that the schema and the rows give, with their limits.
        ensures tallied { IfOk result
            (λ plan. plan.entries ≡ tally_of_rows schema.now.fields rows.now) }
        // Each is sent where it has not been or lacks a value, and nowhere else.
        ensures settled { IfOk result
            (λ plan. AllSettled kept.now plan.entries plan.numbers) }
        // Each index finds its value in what was sent once the batch was.
        ensures finds { IfOk result (λ plan. FindsAll kept.now plan.entries plan.numbers) }
        // So does each place that a tally gave, under the plan's number for it.
        ensures finds_noted { IfOk result
            (λ plan. FindsNoted kept.now plan.entries plan.numbers) }
        // Each value of the batch has an index.
        ensures knows { IfOk result (λ plan. KnowsAll plan.entries plan.numbers) }
        // Each id that a field names has its entry.
        ensures ids { IfOk result (λ plan. tally_ids plan.entries ≡ ids_of schema.now.fields) }
        // No dictionary has more values than its index types count.
        ensures fits { IfOk result (λ plan. AllFit plan.entries) }
        // Each is within the limits, as the one column of its message.
        ensures within { IfOk result
            (λ plan. AllWithin limits.now schema.now.fields plan.entries) }
        // At W7 one would have more.
        ensures full { IfErr result (λ fault. fault ≡ WriteFault.DictionaryFull
            → IsIndexOverflow (note_all (empty_entries schema.now.fields)
            (rows_pairs schema.now.fields rows.now))) }
        // At W6 and W8 one would be longer than the limits allow.
        ensures over { IfErr result (λ fault. IsOfLimits fault
            → IsOverLimit limits.now schema.now.fields (note_all (empty_entries schema.now.fields)
            (rows_pairs schema.now.fields rows.now)) fault) }
        ensures only { IfErr result (λ fault. ((fault ≡ WriteFault.DictionaryFull)
            ⊎ IsOfLimits fault) ⊎ (fault ≡ WriteFault.OutOfMemory)) }
    {
        let mut tally = Tally::new(alloc, limits, schema, Seed::Fixed)?;
        for row in rows {
            tally.note(row.as_slice())?;
        }
        tally.settle(alloc, kept)
    }

    /// Plans what a batch that was read does with each dictionary of the schema, as
    /// `Plan::for_rows` does for its rows. The code hashes values with `seed`; no clause says so.
    ///
    /// The requirements and the errors are those of `Plan::for_rows`.
    pub fn for_columns(
        alloc: Global,
        limits: &Limits,
        schema: &Schema,
        kept: &Kept,
        seed: Seed,
        batch: &Batch,
    ) -> Result<Plan, WriteFault>
        requires { kept_ids kept.now ≡ ids_of schema.now.fields }
        // The entries are those that the schema and the rows give, with their limits.
        ensures tallied { IfOk result
            (λ plan. plan.entries ≡ tally_of_rows schema.now.fields batch.now.rows) }
        // Each is sent where it has not been or lacks a value, and nowhere else.
        ensures settled { IfOk result
            (λ plan. AllSettled kept.now plan.entries plan.numbers) }
        // Each index finds its value in what was sent once the batch was.
        ensures finds { IfOk result (λ plan. FindsAll kept.now plan.entries plan.numbers) }
        // Each value of the batch has an index.
        ensures knows { IfOk result (λ plan. KnowsAll plan.entries plan.numbers) }
        // Each id that a field names has its entry.
        ensures ids { IfOk result (λ plan. tally_ids plan.entries ≡ ids_of schema.now.fields) }
        // Each index type of the fields can address the values of its dictionary.
        ensures addressed { IfOk result (λ plan. AreAddressed schema.now.fields plan.entries) }
        // No dictionary has more values than its index types count.
        ensures fits { IfOk result (λ plan. AllFit plan.entries) }
        // Each is within the limits, as the one column of its message.
        ensures within { IfOk result
            (λ plan. AllWithin limits.now schema.now.fields plan.entries) }
        // At W7 one would have more.
        ensures full { IfErr result (λ fault. fault ≡ WriteFault.DictionaryFull
            → IsIndexOverflow (tally_of_rows schema.now.fields batch.now.rows)) }
        // At W6 and W8 one would be longer than the limits allow.
        ensures over { IfErr result (λ fault. IsOfLimits fault
            → IsOverLimit limits.now schema.now.fields
            (tally_of_rows schema.now.fields batch.now.rows) fault) }
        ensures only { IfErr result (λ fault. ((fault ≡ WriteFault.DictionaryFull)
            ⊎ IsOfLimits fault) ⊎ (fault ≡ WriteFault.OutOfMemory)) }
    {
        let mut column_tally = Tally::new(alloc, limits, schema, seed)?;
        column_tally.note_columns(batch)?;
        column_tally.settle(alloc, kept)
    }

    /// Returns the dictionaries to send before the batch, each with its id, in the order in which
    /// the ids first appear in the schema (pre-order). The values are rows of one value. It takes
    /// no memory.
    pub fn sends(&self) -> &[(i64, Items<Row>)]
        ensures { result.now ≡ sends_of self.now.entries self.now.numbers }
    {
        self.sends.as_slice()
    }

    /// Records that the plan's dictionaries were sent: they replace the earlier ones in `kept`. It
    /// takes no memory.
    ///
    /// `kept` must be that with which the plan was made. If it has another number of dictionaries,
    /// it is unchanged.
    pub fn commit(self, kept: &mut Kept)
        ensures after { kept_ids kept.old ≡ tally_ids self.entries
            → kept.new ≡ after_all kept.old self.entries self.numbers }
        ensures ids { kept_ids kept.new ≡ kept_ids kept.old }
        // If index types can address the values sent before and those of the plan, they can address
        // the values sent now.
        ensures counted { (fields : List Field) → kept_ids kept.old ≡ tally_ids self.entries
            → AreAddressed fields self.entries → AreCounted fields kept.old
            → AreCounted fields kept.new }
        // If `kept` has another number of dictionaries, it is unchanged.
        ensures unchanged { length kept.old ≢ length self.entries → kept.new ≡ kept.old }
    {
        let Plan {
            entries,
            numbers,
            ..
        } = self;
        let mut entries = entries;
        if kept.entries.len() != entries.len() {
            return;
        }
        commit(
            *numbers.allocator(),
            &mut entries,
            &numbers,
            &mut kept.entries,
        );
    }
}

impl IndexOf for Plan {
    ghost use Rattle.ipc_dict.specs.Planning.{index};

    ghost index = { λ plan id value. index plan.entries plan.numbers id value };

    fn index_of(&self, id: i64, value: &Value) -> Option<u64> {
        index_of(&self.entries, &self.numbers, id, value)
    }
}

impl Renumber for Plan {
    ghost use Rattle.ipc_dict.specs.Planning.{number};

    ghost number = { λ plan id from. number plan.entries plan.numbers id from };

    fn to(&self, id: i64, from: u64) -> u64 {
        number_of_index(&self.entries, &self.numbers, id, from).unwrap_or(from)
    }
}
