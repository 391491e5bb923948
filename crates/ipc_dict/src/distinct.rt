//! The distinct values of one dictionary.
ghost use Rattle.std.specs.Prelude.{◌≡◌, [], not, length, take, drop, IfOk, OnOk, OnErr, IsTrue};
ghost use Rattle.std.specs.Prelude.{Some};
ghost use Rattle.ipc_dict.specs.Distinct.{is_among, with_distinct, first_index};

use crate::seed::Seed;
use indexmap::IndexSet;
use ipc_model::Value;
use std::alloc::{AllocError, Global};
use std::marker::Model;

/// Distinct values, numbered from 0 in the order of their first appearance.
#[derive(Debug, Drop)]
pub struct DistinctValues {
    values: IndexSet<Value, Seed>,
}

impl Model for DistinctValues {
    ghost use Rattle.std.specs.Prelude.{List};
    ghost use Rattle.ipc_model.specs.declared.value.Value.{Value as One};
    ghost use Rattle.ipc_model.specs.contracts.value.Value as one;
    ghost use Rattle.std.specs.Coded.{coded_list};

    ghost Value = { List One };

    ghost coded = { coded_list one.the_row.coded };

    ghost view = { λ n. n.values.keys };
}

impl DistinctValues {
    /// Creates an empty list of values. It takes no memory. The code hashes values with `seed`; no
    /// clause says so.
    pub fn new(alloc: Global, seed: Seed) -> DistinctValues
        ensures { result ≡ [] }
    {
        DistinctValues {
            values: IndexSet::with_hasher(alloc, seed),
        }
    }

    /// Returns the number of values.
    pub fn len(&self) -> usize
        ensures { result ≡ length self.now }
    {
        self.values.len()
    }

    /// Returns whether the value is one of these.
    pub fn contains(&self, value: &Value) -> bool
        ensures { result ≡ is_among self.now value.now }
    {
        self.values.contains(value)
    }

    /// Returns the index of a value, or `None` if it is none of these.
    pub fn index_of(&self, value: &Value) -> Option<usize>
        ensures { result ≡ first_index value.now self.now }
    {
        self.values.get_index_of(value)
    }

    /// Returns the index of a value. If it is `guess`, this takes one comparison and no hash.
    #[inline]
    pub(crate) fn index_with_guess(&self, guess: usize, value: &Value) -> Option<usize>
        ensures { result ≡ first_index value.now self.now }
    {
        if self.is_at(guess, value) {
            return Some(guess);
        }
        self.index_of(value)
    }

    // Whether the value has this number.
    #[inline]
    fn is_at(&self, number: usize, value: &Value) -> bool
        ensures { IsTrue result → first_index value.now self.now ≡ Some number }
    {
        match self.values.as_slice().get(number) {
            Some(known) => known == value,
            None => false,
        }
    }

    /// Returns the values in order.
    pub fn as_slice(&self) -> &[Value]
        ensures { result.now ≡ self.now }
    {
        self.values.as_slice()
    }

    /// Returns the values after the first `len`.
    pub(crate) fn since(&self, len: usize) -> &[Value]
        ensures { result.now ≡ drop len self.now }
    {
        self.values.as_slice().get(len..).unwrap_or(&[])
    }

    /// Appends a copy of the value, if it is not there yet. Returns whether it was new. After an
    /// error, because memory ran out, the values are unchanged.
    pub fn add(&mut self, value: &Value) -> Result<bool, AllocError>
        ensures added { IfOk result (λ new. new ≡ not (is_among self.old value.now)) }
        ensures values { OnOk result (self.new ≡ with_distinct self.old value.now) }
        ensures err { OnErr result (self.new ≡ self.old) }
    {
        if self.values.contains(value) {
            return Ok(false);
        }
        let own = value.clone()?;
        self.values.insert(own)?;
        Ok(true)
    }

    /// Keeps the first `len` values, and drops the others.
    pub fn truncate(&mut self, len: usize)
        ensures { self.new ≡ take len self.old }
    {
        self.values.truncate(len);
    }
}
