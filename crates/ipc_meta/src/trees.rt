//! The tables of schemas, batches and messages that the writer makes.
ghost use Rattle.std.specs.Prelude.{◌≡◌, ◌≤◌, map, IfOk};
ghost use Rattle.ipc_build.specs.Trees.{view};
ghost use Rattle.ipc_model.specs.MaxLimits.{max_body};
ghost use Rattle.ipc_model.specs.declared.schema.Field.{out-Field};
ghost use Rattle.ipc_meta.specs.Written.{field_tree, schema_tree, batch_tree, message_tree};
ghost use Rattle.ipc_meta.specs.Written.{schema_message, batch_message, dictionary_batch_tree};
ghost use Rattle.ipc_meta.specs.Written.{dictionary_message};

use crate::head::BatchHead;
use crate::slots::{push_pairs, table_of, text_slot};
use crate::type_slots::{push_dictionary, type_slots};
use crate::version::VERSION;
use ipc_build::{FlatTree, Slot};
use ipc_model::{Field, Items, Schema, Text};
use std::alloc::{AllocError, Global};

// Schema.fbs, table Field, with the tables of its children.
fn field_table(
    alloc: Global,
    field: &Field,
    children: Vec<FlatTree>,
) -> Result<FlatTree, AllocError>
    requires { map view children.items ≡ map field_tree (out-Field field.now).children }
    ensures { IfOk result (λ t. view t ≡ field_tree field.now) }
{
    let mut slots = vec![in alloc;
        (0, text_slot(&field.name)?),
        (1, Slot::Bool(field.nullable)),
        (2, Slot::U8(field.kind.code())),
        (3, Slot::Table(table_of(type_slots(alloc, &field.kind)?))),
    ]?;
    push_dictionary(alloc, &mut slots, field.dictionary)?;
    slots.push((5, Slot::Tables(Items::from_vec(children))))?;
    push_pairs(alloc, &mut slots, 6, &field.metadata)?;
    Ok(table_of(slots))
}

#[cycle(field_tree)]
fn field_tree(alloc: Global, field: &Field) -> Result<FlatTree, AllocError>
    ensures { IfOk result (λ t. view t ≡ field_tree field.now) }
{
    let children = field_trees(alloc, &field.children)?;
    field_table(alloc, field, children)
}

#[cycle(field_tree)]
fn field_trees(alloc: Global, fields: &Items<Field>) -> Result<Vec<FlatTree>, AllocError>
    ensures { IfOk result (λ ts. map view ts.items ≡ map field_tree fields.now) }
{
    let mut trees = Vec::with_capacity(alloc, fields.len())?;
    for field in fields.as_slice() {
        trees.push(field_tree(alloc, field)?)?;
    }
    Ok(trees)
}

// Schema.fbs, table Schema.
fn schema_tree(alloc: Global, schema: &Schema) -> Result<FlatTree, AllocError>
    ensures { IfOk result (λ t. view t ≡ schema_tree schema.now) }
{
    let fields = field_trees(alloc, &schema.fields)?;
    let mut slots = vec![in alloc; (1, Slot::Tables(Items::from_vec(fields)))]?;
    push_pairs(alloc, &mut slots, 2, &schema.metadata)?;
    Ok(table_of(slots))
}

// Message.fbs, table RecordBatch.
fn batch_tree(alloc: Global, head: &BatchHead) -> Result<FlatTree, AllocError>
    ensures { IfOk result (λ t. view t ≡ batch_tree head.now) }
{
    let nodes = Items::copied(alloc, &head.nodes)?;
    let buffers = Items::copied(alloc, &head.buffers)?;
    let slots = vec![in alloc;
        (0, Slot::I64(head.length)),
        (1, Slot::Pairs(nodes)),
        (2, Slot::Pairs(buffers)),
    ]?;
    Ok(table_of(slots))
}

// Message.fbs, table DictionaryBatch: all the values of the dictionary with this id, and no delta.
fn dictionary_batch_tree(alloc: Global, id: i64, head: &BatchHead) -> Result<FlatTree, AllocError>
    ensures { IfOk result (λ t. view t ≡ dictionary_batch_tree id head.now) }
{
    let data = batch_tree(alloc, head)?;
    let slots = vec![in alloc;
        (0, Slot::I64(id)),
        (1, Slot::Table(data)),
        (2, Slot::Bool(false)),
    ]?;
    Ok(table_of(slots))
}

// Message.fbs, table Message: the header's code in union MessageHeader with its table, the length
// of the body, and the message's pairs.
fn message_tree(
    alloc: Global,
    code: u8,
    header: FlatTree,
    body: u64,
    pairs: &Items<(Text, Text)>,
) -> Result<FlatTree, AllocError>
    requires { body ≤ max_body }
    ensures { IfOk result (λ t. view t ≡ message_tree code (view header) body pairs.now) }
{
    let mut slots = vec![in alloc;
        (0, Slot::I16(VERSION)),
        (1, Slot::U8(code)),
        (2, Slot::Table(header)),
        (3, Slot::I64(body.cast_signed())),
    ]?;
    push_pairs(alloc, &mut slots, 4, pairs)?;
    Ok(table_of(slots))
}

/// Returns the message of a schema, which has no body and no pairs (Message.fbs, table Message).
pub(crate) fn schema_message(alloc: Global, schema: &Schema) -> Result<FlatTree, AllocError>
    ensures { IfOk result (λ t. view t ≡ schema_message schema.now) }
{
    let header = schema_tree(alloc, schema)?;
    message_tree(alloc, 1, header, 0, &Items::new(alloc))
}

/// Returns the message of a record batch with these pairs and a body of `body` bytes (Message.fbs,
/// table Message).
pub(crate) fn batch_message(
    alloc: Global,
    head: &BatchHead,
    pairs: &Items<(Text, Text)>,
    body: u64,
) -> Result<FlatTree, AllocError>
    requires { body ≤ max_body }
    ensures { IfOk result (λ t. view t ≡ batch_message head.now pairs.now body) }
{
    let header = batch_tree(alloc, head)?;
    message_tree(alloc, 3, header, body, pairs)
}

/// Returns the message of a dictionary batch with this id and a body of `body` bytes. It has no
/// pairs (Message.fbs, table Message).
pub(crate) fn dictionary_message(
    alloc: Global,
    id: i64,
    head: &BatchHead,
    body: u64,
) -> Result<FlatTree, AllocError>
    requires { body ≤ max_body }
    ensures { IfOk result (λ t. view t ≡ dictionary_message id head.now body) }
{
    let header = dictionary_batch_tree(alloc, id, head)?;
    message_tree(alloc, 2, header, body, &Items::new(alloc))
}
