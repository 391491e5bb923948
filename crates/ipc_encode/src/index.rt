ghost use Rattle.std.specs.Prelude.{◌≡◌, ℤ, ℕ, Option, None};
ghost use Rattle.ipc_model.specs.declared.value.Value.{Value};
ghost use Rattle.ipc_encode.specs.Numbers.{number_or};

use ipc_model::Value;

/// The indices of dictionary values (Arrow Columnar Format, "Dictionary-encoded Layout").
pub trait IndexOf {
    /// The index of each known value, by the dictionary's id and the value.
    ghost index: { Self → ℤ → Value → Option ℕ };

    /// Looks up the index of a value in the dictionary with this id. Returns `None` if it is not
    /// known there. It takes no memory.
    fn index_of(&self, id: i64, value: &Value) -> Option<u64>
        ensures { result ≡ index self.now id value.now };
}

/// Indices without dictionaries: no value has an index.
#[derive(Clone, Copy, Debug, Drop)]
pub struct NoIndices;

impl IndexOf for NoIndices {
    ghost use Rattle.std.specs.Prelude.{None};

    ghost index = { λ none id value. None };

    fn index_of(&self, _id: i64, _value: &Value) -> Option<u64> {
        None
    }
}

/// New numbers for the indices under which values were pushed (Arrow Columnar Format,
/// "Dictionary-encoded Layout").
pub trait Renumber {
    /// The number that replaces each index that has another, by the dictionary's id and the index.
    ghost number: { Self → ℤ → ℕ → Option ℕ };

    /// Returns the number of an index in the dictionary with this id. It is the index itself if it
    /// has no other number. It takes no memory.
    fn to(&self, id: i64, from: u64) -> u64
        ensures { result ≡ number_or (number self.now id from) from };
}

/// Numbers that leave each index as it is.
#[derive(Clone, Copy, Debug, Drop)]
pub struct SameNumbers;

impl Renumber for SameNumbers {
    ghost use Rattle.std.specs.Prelude.{None};

    ghost number = { λ same id from. None };

    fn to(&self, _id: i64, from: u64) -> u64 {
        from
    }
}
