//! How many slots are tested of columns of indices of dictionary 7, whose values are texts of one
//! letter.
use crate::lists::{Parts, batch_under, leaf, over};
use ipc_column::Batch;
use ipc_dict_read::Dictionaries;
use ipc_model::{DataType, Dictionary, Fault, Field, IndexType, IntBits, Schema};
use std::alloc::{AllocError, Global};
use std::collections::BTreeMap;

// The number of values, the place of their bytes, and the body: the offsets of texts of one byte
// each, and then these bytes.
pub(crate) struct Values {
    count: i64,
    offsets: (i64, i64),
    bytes: (i64, i64),
    body: &'static [u8],
}

pub(crate) const A_AND_B: Values = Values {
    count: 2,
    offsets: (0, 12),
    bytes: (16, 2),
    body: &[
        0, 0, 0, 0, 1, 0, 0, 0, 2, 0, 0, 0, 0, 0, 0, 0, b'a', b'b', 0, 0, 0, 0, 0, 0,
    ],
};

pub(crate) const ONLY_C: Values = Values {
    count: 1,
    offsets: (0, 8),
    bytes: (8, 1),
    body: &[0, 0, 0, 0, 1, 0, 0, 0, b'c', 0, 0, 0, 0, 0, 0, 0],
};

// Puts values in force for dictionary 7.
pub(crate) fn set(
    alloc: Global,
    dictionaries: &mut Dictionaries,
    values: &Values,
) -> Result<(), Fault> {
    let field = leaf(alloc, DataType::Utf8)?;
    let buffers = [(0, 0), values.offsets, values.bytes];
    let parts: Parts<'_> = (&[(values.count, 0)], &buffers);
    let values = batch_under(alloc, field, parts, values.body, &BTreeMap::new(alloc))?;
    if !values.is_dictionary() {
        return Err(Fault::BadHeader);
    }
    dictionaries.apply(alloc, 7, values)
}

// A column of texts under signed indices of 8 bits.
fn column(alloc: Global) -> Result<Field, AllocError> {
    let index = IndexType {
        bits: IntBits::B8,
        signed: true,
    };
    Ok(leaf(alloc, DataType::Utf8)?.with_dictionary(Dictionary {
        id: 7,
        index,
        ordered: false,
    }))
}

// Such a column alone.
pub(crate) fn schema(alloc: Global) -> Result<Schema, AllocError> {
    let mut fields = Vec::new(alloc);
    fields.push(column(alloc)?)?;
    Ok(Schema::new(fields))
}

// The dictionaries in force before dictionary 7 is set.
pub(crate) fn in_force(alloc: Global) -> Result<Dictionaries, Fault> {
    let schema = schema(alloc)?;
    Ok(Dictionaries::new(alloc, &schema)?)
}

// A batch of indices of 8 bits under the values in force. The node has their number and null count.
pub(crate) fn indexed(
    alloc: Global,
    node: (i64, i64),
    body: &[u8],
    dictionaries: &Dictionaries,
) -> Result<Batch, Fault> {
    // A bitmap precedes the indices if there are nulls.
    let bitmap = if node.1 == 0 { 0 } else { 1 };
    let parts: Parts<'_> = (&[node], &[(0, bitmap), (bitmap, node.0)]);
    batch_under(alloc, column(alloc)?, parts, body, dictionaries.current())
}

// A null slot has an index without a value, so each slot is visited.
fn are_visited(alloc: Global, dictionaries: &Dictionaries) -> Result<bool, Fault> {
    let found = indexed(alloc, (3, 1), &[0b011, 0, 1, 9], dictionaries)?;
    Ok(found.tests() == 3)
}

// A thousand lists, of which the first has all of a thousand indices: whether the last index is
// null, and its number; and how many slots are visited, or why the batch is refused.
struct Thousand {
    nulls: i64,
    last: u8,
    wanted: Result<u64, Fault>,
}

const THOUSANDS: [Thousand; 3] = [
    Thousand {
        nulls: 0,
        last: 2,
        wanted: Err(Fault::BadIndex),
    },
    Thousand {
        nulls: 0,
        last: 1,
        wanted: Ok(0),
    },
    Thousand {
        nulls: 1,
        last: 9,
        wanted: Ok(1000),
    },
];

// Writes the bitmap of the indices, the offsets of the lists, and the indices.
fn write(body: &mut Vec<u8>, thousand: &Thousand) -> Result<(), AllocError> {
    body.extend_from_slice(&[0xff; 124])?;
    let last_bits = if thousand.nulls == 0 { 0xff } else { 0x7f };
    body.extend_from_slice(&[last_bits, 0, 0, 0])?;
    body.extend_from_slice(&[0; 4])?;
    for _ in 0..1000 {
        body.extend_from_slice(&[0xe8, 3, 0, 0])?;
    }
    body.extend_from_slice(&[0; 999])?;
    Ok(body.push(thousand.last)?)
}

// How many slots are tested of a thousand lists with this body.
fn tests(
    alloc: Global,
    thousand: &Thousand,
    body: &[u8],
    dictionaries: &Dictionaries,
) -> Result<u64, Fault> {
    let nodes = [(1000, 0), (1000, thousand.nulls)];
    let buffers = [(0, 0), (128, 4004), (0, 125), (4132, 1000)];
    let parts: Parts<'_> = (&nodes, &buffers);
    let field = over(alloc, DataType::List, column(alloc)?)?;
    Ok(batch_under(alloc, field, parts, body, dictionaries.current())?.tests())
}

fn is_told(
    alloc: Global,
    thousand: &Thousand,
    dictionaries: &Dictionaries,
) -> Result<bool, AllocError> {
    let mut body = Vec::new(alloc);
    write(&mut body, thousand)?;
    Ok(match tests(alloc, thousand, &body, dictionaries) {
        Ok(tests) => matches!(thousand.wanted, Ok(wanted) if tests == wanted),
        Err(fault) => thousand.wanted == Err(fault),
    })
}

// Whether all indices show the values a and b, and few slots are tested.
fn are_told(alloc: Global) -> Result<bool, Fault> {
    let mut dictionaries = in_force(alloc)?;
    set(alloc, &mut dictionaries, &A_AND_B)?;
    for thousand in &THOUSANDS {
        if !is_told(alloc, thousand, &dictionaries)? {
            return Ok(false);
        }
    }
    are_visited(alloc, &dictionaries)
}

#[test]
fn slots_of_indices(rt: HostRuntime) {
    assert!(rt; are_told(rt.alloc()) == Ok(true));
}
