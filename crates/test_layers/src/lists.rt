//! How many slots are tested of columns of lists.
ghost use Rattle.ipc_column.specs.DictionaryBatches.{AreDictionaries};

use ipc_column::Batch;
use ipc_meta::BatchHead;
use ipc_model::{DataType, Fault, Field, IntBits, Items, Limits, Schema};
use std::alloc::{AllocError, Global};
use std::collections::BTreeMap;
use std::sync::Arc;
use std::test::Fail;

pub(crate) const MOST: i64 = 2_147_483_647;

// A batch of one field, which is a schema's, without dictionaries.
pub(crate) fn batch(
    alloc: Global,
    field: Field,
    parts: Parts<'_>,
    body: &[u8],
) -> Result<Batch, Fault> {
    let none = BTreeMap::new(alloc);
    batch_under(alloc, field, parts, body, &none)
}

// The nodes of a batch, and the places of its buffers.
pub(crate) type Parts<'a> = (&'a [(i64, i64)], &'a [(i64, i64)]);

// A batch of one field, which is a schema's, under dictionaries.
pub(crate) fn batch_under(
    alloc: Global,
    field: Field,
    parts: Parts<'_>,
    body: &[u8],
    dictionaries: &BTreeMap<i64, Arc<Batch>>,
) -> Result<Batch, Fault>
    requires { AreDictionaries dictionaries.now }
{
    let mut fields = Vec::new(alloc);
    fields.push(field)?;
    let schema = Schema::new(fields);
    checked(alloc, &schema, head_of(alloc, parts)?, body, dictionaries)
}

fn checked(
    alloc: Global,
    schema: &Schema,
    head: BatchHead,
    body: &[u8],
    dictionaries: &BTreeMap<i64, Arc<Batch>>,
) -> Result<Batch, Fault>
    requires { AreDictionaries dictionaries.now }
{
    let limits = Limits::standard();
    schema.check(alloc, &limits)?;
    let body = Vec::from_slice(alloc, body)?;
    let fields = schema.fields.as_slice();
    Batch::check(alloc, &limits, fields, head, body, dictionaries)
}

fn head_of(alloc: Global, (nodes, buffers): Parts<'_>) -> Result<BatchHead, AllocError> {
    Ok(BatchHead {
        length: nodes.first().map_or(0, |node| node.0),
        nodes: Items::copied(alloc, nodes)?,
        buffers: Items::copied(alloc, buffers)?,
    })
}

// A field with this child, which may be null as it may.
pub(crate) fn over(alloc: Global, kind: DataType, child: Field) -> Result<Field, AllocError> {
    let mut children = Vec::new(alloc);
    children.push(child)?;
    let field = Field::new(alloc, "over", kind)?;
    Ok(field.nullable().with_children(children))
}

// A field without children, which may be null.
pub(crate) fn leaf(alloc: Global, kind: DataType) -> Result<Field, AllocError> {
    Ok(Field::new(alloc, "leaf", kind)?.nullable())
}

// Lists over each other, in this number of levels, over slots of this type.
fn lists(alloc: Global, levels: usize, kind: DataType) -> Result<Field, AllocError> {
    let mut top = leaf(alloc, kind)?;
    for _ in 0..levels {
        top = over(alloc, DataType::List, top)?;
    }
    Ok(top)
}

// Nodes of a thousand slots each, of which the last has one null.
const THOUSANDS: [(i64, i64); 9] = [
    (1000, 0),
    (1000, 0),
    (1000, 0),
    (1000, 0),
    (1000, 0),
    (1000, 0),
    (1000, 0),
    (1000, 0),
    (1000, 1),
];

const BITS_OF_LISTS: (i64, i64) = (4004, 125);

const OFFSETS_OF_LISTS: (i64, i64) = (0, 4004);

// The bitmap and the offsets of eight lists, which they have in common, and those of the texts.
const BUFFERS_OF_THOUSANDS: [(i64, i64); 19] = [
    BITS_OF_LISTS,
    OFFSETS_OF_LISTS,
    BITS_OF_LISTS,
    OFFSETS_OF_LISTS,
    BITS_OF_LISTS,
    OFFSETS_OF_LISTS,
    BITS_OF_LISTS,
    OFFSETS_OF_LISTS,
    BITS_OF_LISTS,
    OFFSETS_OF_LISTS,
    BITS_OF_LISTS,
    OFFSETS_OF_LISTS,
    BITS_OF_LISTS,
    OFFSETS_OF_LISTS,
    BITS_OF_LISTS,
    OFFSETS_OF_LISTS,
    (4129, 125),
    (4255, 4004),
    (4254, 1),
];

// Writes the offsets of the lists and their bitmap, the bitmap of the texts, with a null last,
// their one byte, and their offsets.
fn write_thousands(body: &mut Vec<u8>) -> Result<(), AllocError> {
    for number in 0..1001_u32 {
        body.extend_from_slice(&number.to_le_bytes())?;
    }
    body.extend_from_slice(&[0xff; 125])?;
    body.extend_from_slice(&[0xff; 124])?;
    body.extend_from_slice(&[0x7f, 0xff])?;
    for slot in 0..1001 {
        body.extend_from_slice(&[u8::from(slot == 1000), 0, 0, 0])?;
    }
    Ok(())
}

fn are_thousands(alloc: Global, body: &[u8]) -> Result<bool, Fault> {
    let field = lists(alloc, 8, DataType::Utf8)?;
    let found = batch(alloc, field, (&THOUSANDS, &BUFFERS_OF_THOUSANDS), body)?;
    Ok(found.rows() == 1000 && found.tests() == 9000)
}

// A thousand lists of one slot each, nested eight times, over texts of which the last is null and
// is not UTF-8: each slot is visited once.
#[test]
fn a_null_text_below_eight_lists(rt: HostRuntime) -> Result<(), Fail> {
    let mut body = Vec::new(rt.alloc());
    write_thousands(&mut body)?;
    assert!(rt; are_thousands(rt.alloc(), &body) == Ok(true));
    Ok(())
}

// The lists [[1], []], null and [].
const NODES: [(i64, i64); 3] = [(3, 1), (2, 0), (1, 0)];

const BUFFERS: [(i64, i64); 6] = [(0, 1), (8, 16), (24, 0), (24, 12), (40, 0), (40, 1)];

const BODY: [u8; 48] = [
    5, 0, 0, 0, 0, 0, 0, 0, 0, 0, 0, 0, 2, 0, 0, 0, 2, 0, 0, 0, 2, 0, 0, 0, 0, 0, 0, 0, 1, 0, 0, 0,
    1, 0, 0, 0, 0, 0, 0, 0, 1, 0, 0, 0, 0, 0, 0, 0,
];

// Signed numbers of 8 bits.
const NUMBER: DataType = DataType::Int {
    bits: IntBits::B8,
    signed: true,
};

// Each of the six slots of these lists is tested once at most.
fn are_lists_of_lists(alloc: Global) -> Result<bool, Fault> {
    let field = lists(alloc, 2, NUMBER)?;
    let found = batch(alloc, field, (&NODES, &BUFFERS), &BODY)?;
    Ok(found.rows() == 3 && found.tests() <= 6)
}

#[test]
fn slots_of_lists_of_lists(rt: HostRuntime) {
    assert!(rt; are_lists_of_lists(rt.alloc()) == Ok(true));
}
