//! Whether a stream has the schema that is expected (Schema.fbs, table Schema).
#![tactic(auto)]

ghost use Rattle.std.specs.Prelude.{◌≡◌, ◌↔◌, ◌∷◌, [], IfOk, IsTrue, MatchOption, option_copied};
ghost use Rattle.ipc_model.specs.declared.schema.Field.{out-Field};
ghost use Rattle.job_expect.specs.Differences.{HaveSameFields, IsExpected, IsFirstDifference};
ghost use Rattle.job_expect.specs.Differences.{IsOther, compared, encoding_of};

use ipc_model::{Dictionary, Field, IndexType, Schema};
use std::alloc::{AllocError, Global};

// What is compared of the dictionary of a field: the type of the indices, and whether the order of
// the values is meaningful.
fn encoding_of(dictionary: &Option<Dictionary>) -> Option<(IndexType, bool)>
    ensures { result ≡ encoding_of dictionary.now }
{
    match dictionary {
        Some(dictionary) => Some((dictionary.index, dictionary.ordered)),
        None => None,
    }
}

// Whether two fields have one name.
fn is_same_name(expected: &Field, found: &Field) -> bool
    ensures { IsTrue result
        ↔ ((out-Field expected.now).name ≡ (out-Field found.now).name) }
{
    expected.name == found.name
}

// Whether two fields have one type, whatever their children are.
fn is_same_type(expected: &Field, found: &Field) -> bool
    ensures { IsTrue result
        ↔ ((out-Field expected.now).kind ≡ (out-Field found.now).kind) }
{
    expected.kind == found.kind
}

// Whether two fields have the same dictionary, but for its id.
fn is_same_encoding(expected: &Field, found: &Field) -> bool
    ensures { IsTrue result ↔ (encoding_of (out-Field expected.now).dictionary
        ≡ encoding_of (out-Field found.now).dictionary) }
{
    encoding_of(&expected.dictionary) == encoding_of(&found.dictionary)
}

// Whether two fields are the same by themselves, whatever their children are.
fn is_same(expected: &Field, found: &Field) -> bool
    ensures { IsTrue result
        ↔ (compared (out-Field expected.now) ≡ compared (out-Field found.now)) }
{
    is_same_name(expected, found)
        && is_same_type(expected, found)
        && expected.nullable == found.nullable
        && is_same_encoding(expected, found)
}

// The first difference between fields that have one parent in each schema, as `first_difference`.
// The path is from this parent on.
#[cycle(difference)]
fn difference_in(
    alloc: Global,
    expected: &[Field],
    found: &[Field],
) -> Result<Option<Vec<u64>>, AllocError>
    ensures { IfOk result (λ path. MatchOption path (HaveSameFields expected.now found.now)
        (λ path. IsFirstDifference expected.now found.now path.items)) }
{
    for (number, field) in expected.iter().enumerate() {
        let Some(other) = found.get(number) else {
            return Ok(Some(path_to(alloc, number)?));
        };
        if !is_same(field, other) {
            return Ok(Some(path_to(alloc, number)?));
        }
        let below = difference_in(alloc, field.children.as_slice(), other.children.as_slice())?;
        if let Some(path) = below {
            return Ok(Some(path_from_parent(number, path)?));
        }
    }
    if expected.len() < found.len() {
        return Ok(Some(path_to(alloc, expected.len())?));
    }
    Ok(None)
}

// The path that has one number.
fn path_to(alloc: Global, number: usize) -> Result<Vec<u64>, AllocError>
    ensures { IfOk result (λ path. path.items ≡ number ∷ []) }
{
    let mut path = Vec::new(alloc);
    path.push(number as u64)?;
    Ok(path)
}

// The path as it is seen from one field further up.
fn path_from_parent(number: usize, path: Vec<u64>) -> Result<Vec<u64>, AllocError>
    ensures { IfOk result (λ longer. longer.items ≡ number ∷ path.items) }
{
    let mut longer = path;
    longer.insert(0, number as u64)?;
    Ok(longer)
}

/// Returns the path of the first field in which a schema differs from the one that is expected: the
/// number of the column, and then of each child on the way, all counted from 0. Returns `None` if
/// there is none, or if no schema is expected.
///
/// Fields are compared in pre-order by their names, types, nullability, and the index types and
/// order flags of their dictionaries. A field that only one of the schemas has is a difference. The
/// ids of dictionaries and all metadata are not compared.
///
/// Errors: memory for the path ran out.
pub fn first_difference(
    alloc: Global,
    expected: Option<&Schema>,
    found: &Schema,
) -> Result<Option<Vec<u64>>, AllocError>
    ensures { IfOk result (λ path. MatchOption path
        (IsExpected (option_copied expected.entry) found.now)
        (λ path. IsOther (option_copied expected.entry) found.now path.items)) }
{
    match expected {
        Some(expected) => {
            difference_in(alloc, expected.fields.as_slice(), found.fields.as_slice())
        }
        None => Ok(None),
    }
}
