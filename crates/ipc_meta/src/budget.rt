ghost use Rattle.ipc_model.specs.Answers.{AnswersUnlessOutOfMemory};
ghost use Rattle.ipc_meta.specs.Budgets.{less_text, less_pairs, less_fields};

use ipc_model::Fault;

/// What a schema may still have while it is read. A table that several offsets point to counts once
/// for each of them, so that a small message cannot denote a large schema.
#[derive(Clone, Copy, Debug, PartialEq, Eq)]
pub(crate) struct Budget {
    /// The remaining number of columns and their descendants.
    pub(crate) fields: u64,
    /// The remaining bytes of names, keys, values and timezones.
    pub(crate) text: u64,
    /// The remaining number of pairs of key and value.
    pub(crate) pairs: u64,
}

impl Budget {
    /// Counts `count` fields. Returns `TooManyFields` if fewer remain.
    pub(crate) fn take_fields(&mut self, count: usize) -> Result<(), Fault>
        ensures { AnswersUnlessOutOfMemory (λ _. self.new) result (less_fields count self.old) }
    {
        if count as u64 > self.fields {
            return Err(Fault::TooManyFields);
        }
        self.fields -= count as u64;
        Ok(())
    }

    /// Counts `count` bytes of text. Returns `TooMuchText` if fewer remain.
    pub(crate) fn take_text(&mut self, count: usize) -> Result<(), Fault>
        ensures { AnswersUnlessOutOfMemory (λ _. self.new) result (less_text count self.old) }
    {
        if count as u64 > self.text {
            return Err(Fault::TooMuchText);
        }
        self.text -= count as u64;
        Ok(())
    }

    /// Counts `count` pairs. Returns `TooMuchText` if fewer remain.
    pub(crate) fn take_pairs(&mut self, count: usize) -> Result<(), Fault>
        ensures { AnswersUnlessOutOfMemory (λ _. self.new) result (less_pairs count self.old) }
    {
        if count as u64 > self.pairs {
            return Err(Fault::TooMuchText);
        }
        self.pairs -= count as u64;
        Ok(())
    }
}
