//! Columns with their children: what a value adds to them.
ghost use Rattle.std.specs.Prelude.{◌≡◌, ◌≤◌, ◌↔◌, length, IsTrue, [], IfOk, ◌<◌, ◌^◌, ◌++◌};
ghost use Rattle.std.specs.Prelude.{List, ◌∷◌, IfErr, IfSome, OnOk, option_copied, replicate};
ghost use Rattle.std.specs.List.{AllByRecursion};
ghost use Rattle.ipc_model.specs.Fits.{RowFits};
ghost use Rattle.ipc_model.specs.declared.layout.Layout.{Layout};
ghost use Rattle.ipc_model.specs.declared.limits.Limits.{Limits};
ghost use Rattle.ipc_model.specs.declared.schema.Field.{out-Field};
ghost use Rattle.ipc_model.specs.declared.value.Value.{Value};
ghost use Rattle.ipc_model.specs.declared.value.Value.TheVariants.{Null};
ghost use Rattle.ipc_column.specs.Shapes.{field_shape, shape_of, Shape, bare, field};
ghost use Rattle.ipc_encode.specs.Buffers.{child_values, nulls_below};
ghost use Rattle.ipc_encode.specs.Built.{AddsToEach, AddsValues, Appends, ArePushesRefused};
ghost use Rattle.ipc_encode.specs.Built.{BeginsWith, HoldColumns, IsColumn, IsNode};
ghost use Rattle.ipc_encode.specs.Cells.{cell, items};
ghost use Rattle.ipc_encode.specs.Fitting.{FitsOwn, FitsSome, InsideFits, ItemsFit};
ghost use Rattle.ipc_encode.specs.Numbers.{Numbering, known_indices};
ghost use Rattle.ipc_encode.specs.declared.tree.Node.{out-Node};

use crate::column::ColumnBuilder;
use crate::counting::items;
use crate::fault::PushFault;
use crate::index::IndexOf;
use crate::pool::BufferPool;
use ipc_model::{Field, Layout, Limits, Value, layout_of};
use std::alloc::{AllocError, Global};

/// A column and the columns of its children.
#[derive(Debug, Drop)]
pub(crate) struct Node {
    pub(crate) column: ColumnBuilder,
    pub(crate) children: Vec<Node>,
}

impl Node {
    /// Returns whether the column has no children.
    #[inline(always)]
    pub(crate) fn is_leaf(&self) -> bool
        ensures { IsTrue result ↔ (length (out-Node self.now).children.items ≡ 0) }
    {
        self.children.is_empty()
    }
}

/// Returns a column of this field without values, with those of its children, in memory from the
/// pool. Returns an error if memory for a buffer ran out.
#[cycle(new)]
pub(crate) fn new_node(
    field: &Field,
    pool: &mut BufferPool,
    alloc: Global,
) -> Result<Node, AllocError>
    ensures { (known : Numbering) (limits : Limits)
        → IfOk result (λ node. IsNode (IsColumn known limits)
        (field_shape field.now).0 (field_shape field.now).1 node []) }
{
    let column = ColumnBuilder::new(alloc, pool, layout_of(&field.kind, field.dictionary))?;
    let children = new_nodes(field.children.as_slice(), pool, alloc)?;
    Ok(Node { column, children })
}

/// Returns columns of these fields without values, in memory from the pool. Returns an error if
/// memory for a buffer ran out.
#[cycle(new)]
pub(crate) fn new_nodes(
    fields: &[Field],
    pool: &mut BufferPool,
    alloc: Global,
) -> Result<Vec<Node>, AllocError>
    ensures { (known : Numbering) (limits : Limits)
        → IfOk result
        (λ nodes. HoldColumns known limits (shape_of fields.now) nodes.items (λ j. [])) }
{
    let mut nodes = Vec::with_capacity(alloc, fields.len())?;
    for field in fields {
        nodes.push(new_node(field, pool, alloc)?)?;
    }
    Ok(nodes)
}

/// Returns the number of nulls that a null adds to each child of a column of this layout.
#[inline]
pub(crate) fn nulls_below(layout: Layout) -> u64
    ensures count { result ≡ nulls_below layout }
    ensures few { result < 2 ^ 32 }
{
    match layout {
        Layout::FixedLists(size) => u64::from(size),
        Layout::Structs => 1,
        _ => 0,
    }
}

// Appends this number of nulls to a column.
fn append_own_nulls<I: IndexOf>(
    column: &mut ColumnBuilder,
    count: u64,
    limits: &Limits,
    indices: &I,
) -> Result<(), PushFault>
    ensures appended { (layout : Layout) (values : List Value)
        → IsColumn (known_indices (I.index indices.now)) limits.now layout values column.old
        → OnOk result (IsColumn (known_indices (I.index indices.now)) limits.now layout
        (values ++ replicate count Null) column.new) }
    ensures refused { (layout : Layout) (children : Shape) (values : List Value)
        → IsColumn (known_indices (I.index indices.now)) limits.now layout values column.old
        → IfErr result (ArePushesRefused limits.now (field layout children bare)
        (λ j. values ++ replicate count Null)) }
    ensures begun { (layout : Layout) (values : List Value)
        → IsColumn (known_indices (I.index indices.now)) limits.now layout values column.old
        → IfErr result (λ fault. ¬ (fault ≡ PushFault.OutOfMemory)
        → BeginsWith (known_indices (I.index indices.now)) limits.now layout values column.new) }
{
    for _ in 0..count {
        column.push(&Value::Null, limits, indices)?;
    }
    Ok(())
}

// Appends this number of nulls to a column, and those that they add to its children.
#[cycle(append_null)]
fn append_null<I: IndexOf>(
    node: &mut Node,
    count: u64,
    limits: &Limits,
    indices: &I,
) -> Result<(), PushFault>
    ensures { AddsValues (known_indices (I.index indices.now)) limits.now
        (replicate count Null) node.old node.new result }
{
    if count > limits.slots {
        return Err(PushFault::TooMany);
    }
    let below = count * nulls_below(node.column.data.layout());
    append_nulls(&mut node.children, below, limits, indices)?;
    append_own_nulls(&mut node.column, count, limits, indices)
}

// Appends this number of nulls to each column.
#[cycle(append_null)]
fn append_nulls<I: IndexOf>(
    nodes: &mut [Node],
    count: u64,
    limits: &Limits,
    indices: &I,
) -> Result<(), PushFault>
    ensures { AddsToEach (known_indices (I.index indices.now)) limits.now
        (λ j. replicate count Null) nodes.old nodes.new result }
{
    for i in 0..nodes.len() {
        append_null(&mut nodes[i], count, limits, indices)?;
    }
    Ok(())
}

// Returns whether a value fits the field, without a check of the values inside it. No value fits an
// absent field.
#[inline(always)]
fn fits_own(field: Option<&Field>, value: &Value) -> bool
    ensures { IsTrue result → FitsOwn (option_copied field.entry) value.now }
{
    match field {
        Some(field) => field.fits_own_type(value),
        None => false,
    }
}

// Returns true only if a value fits the field, which has no children.
#[inline(always)]
fn fits_leaf(field: Option<&Field>, value: &Value) -> bool
    ensures { IsTrue result → FitsSome (option_copied field.entry) value.now }
{
    match field {
        Some(field) => field.children.is_empty() && field.fits_own_type(value),
        None => false,
    }
}

// Returns the fields of the children.
#[inline(always)]
fn children_of(field: Option<&Field>) -> &[Field]
    ensures { IfSome (option_copied field.entry) (λ f. result.now ≡ (out-Field f).children) }
{
    match field {
        Some(field) => field.children.as_slice(),
        None => &[],
    }
}

// Returns whether a value has no values inside it.
fn is_flat(value: &Value) -> bool
    ensures { (fields : List Field) → IsTrue result → InsideFits fields value.now }
{
    !matches!(value, Value::List(_) | Value::Struct(_))
}

// Returns whether a value is a list, or has no values inside it.
#[inline(always)]
fn is_no_struct(value: &Value) -> bool
    ensures { (fields : List Field) → IsTrue result → ItemsFit fields (items value.now)
        → InsideFits fields value.now }
{
    !matches!(value, Value::Struct(_))
}

/// Appends a value to a column, and to its children the items of a list or the values of a struct.
/// Returns true only if the value fits the field. A value that does not is stored as null is, or
/// with the bits that its layout takes.
///
/// The errors are those of `ColumnBuilder::push`, from any of these columns. After any error but
/// `OutOfMemory` each column begins with what it held.
#[cycle(append)]
#[inline(always)]
pub(crate) fn append<I: IndexOf>(
    value: &Value,
    node: &mut Node,
    field: Option<&Field>,
    limits: &Limits,
    indices: &I,
) -> Result<bool, PushFault>
    ensures appended { AddsValues (known_indices (I.index indices.now)) limits.now
        (value.now ∷ []) node.old node.new result }
    ensures fits { IfOk result (λ all. IsTrue all
        → FitsSome (option_copied field.entry) value.now) }
{
    if node.is_leaf() {
        node.column.push(value, limits, indices)?;
        return Ok(fits_leaf(field, value));
    }
    append_deep(value, node, field, limits, indices)
}

// Appends a value to a column with children: first to the children.
#[cycle(append)]
fn append_deep<I: IndexOf>(
    value: &Value,
    node: &mut Node,
    field: Option<&Field>,
    limits: &Limits,
    indices: &I,
) -> Result<bool, PushFault>
    ensures appended { AddsValues (known_indices (I.index indices.now)) limits.now
        (value.now ∷ []) node.old node.new result }
    ensures fits { IfOk result (λ all. IsTrue all
        → FitsSome (option_copied field.entry) value.now) }
{
    let inside = append_below(
        value,
        node.column.data.layout(),
        &mut node.children,
        children_of(field),
        limits,
        indices,
    )?;
    node.column.push(value, limits, indices)?;
    Ok(inside & fits_own(field, value))
}

// Appends what a value of a column of this layout gives to the columns below it. Returns true only
// if the values inside it fit the fields of these columns.
#[cycle(append)]
#[inline(always)]
fn append_below<I: IndexOf>(
    value: &Value,
    layout: Layout,
    nodes: &mut [Node],
    fields: &[Field],
    limits: &Limits,
    indices: &I,
) -> Result<bool, PushFault>
    ensures appended { (shape : Shape) (values : List Value)
        → HoldColumns (known_indices (I.index indices.now)) limits.now shape nodes.old
        (child_values layout values)
        → Appends (known_indices (I.index indices.now)) limits.now shape
        (child_values layout values)
        (child_values layout (values ++ value.now ∷ [])) nodes.new result }
    ensures fits { IfOk result (λ all. IsTrue all → InsideFits fields.now value.now) }
{
    match layout {
        Layout::Lists => {
            let fit = append_items(items(value), nodes, fields, limits, indices)?;
            Ok(fit & is_no_struct(value))
        }
        Layout::FixedLists(size) => match value {
            Value::List(items) if items.as_slice().len() == size as usize => {
                append_items(items.as_slice(), nodes, fields, limits, indices)
            }
            _ => {
                append_nulls(nodes, nulls_below(layout), limits, indices)?;
                Ok(is_flat(value))
            }
        },
        Layout::Structs => match value {
            Value::Struct(parts) => {
                append_parts(parts.as_slice(), nodes, fields, limits, indices)
            }
            _ => {
                append_nulls(nodes, nulls_below(layout), limits, indices)?;
                Ok(is_flat(value))
            }
        },
        _ => Ok(is_flat(value)),
    }
}

// Appends all items to each column: a list has one child. Returns true only if they fit the first
// field, or there is none.
#[cycle(append)]
#[inline(always)]
fn append_items<I: IndexOf>(
    items: &[Value],
    nodes: &mut [Node],
    fields: &[Field],
    limits: &Limits,
    indices: &I,
) -> Result<bool, PushFault>
    ensures appended { AddsToEach (known_indices (I.index indices.now)) limits.now
        (λ j. items.now) nodes.old nodes.new result }
    ensures fits { IfOk result (λ all. IsTrue all → ItemsFit fields.now items.now) }
{
    let mut fit = false;
    for i in 0..nodes.len() {
        fit = append_all(items, &mut nodes[i], fields.first(), limits, indices)?;
    }
    Ok(fit)
}

// Appends values, one after another, to one column. Returns true only if each fits the field.
#[cycle(append)]
fn append_all<I: IndexOf>(
    values: &[Value],
    node: &mut Node,
    field: Option<&Field>,
    limits: &Limits,
    indices: &I,
) -> Result<bool, PushFault>
    ensures appended { AddsValues (known_indices (I.index indices.now)) limits.now
        values.now node.old node.new result }
    ensures fits { IfOk result (λ all. IsTrue all
        → AllByRecursion (FitsSome (option_copied field.entry)) values.now) }
{
    let mut fit = true;
    for value in values {
        let one = append(value, node, field, limits, indices)?;
        fit &= one;
    }
    Ok(fit)
}

// Returns whether there is one part for each field, and a column for each.
fn have_fields(parts: &[Value], nodes: &[Node], fields: &[Field]) -> bool
    ensures parts { IsTrue result → length parts.now ≡ length fields.now }
    ensures columns { IsTrue result → length fields.now ≤ length nodes.now }
{
    parts.len() == fields.len() && fields.len() <= nodes.len()
}

/// Appends the value of each column, or null if there is none. Returns true only if there is one
/// value for each field, and each fits. The errors are those of `append`.
#[cycle(append)]
pub(crate) fn append_parts<I: IndexOf>(
    parts: &[Value],
    nodes: &mut [Node],
    fields: &[Field],
    limits: &Limits,
    indices: &I,
) -> Result<bool, PushFault>
    ensures appended { AddsToEach (known_indices (I.index indices.now)) limits.now
        (λ j. cell j parts.now ∷ []) nodes.old nodes.new result }
    ensures fits { IfOk result (λ all. IsTrue all → RowFits fields.now parts.now) }
{
    let mut fit = have_fields(parts, nodes, fields);
    for i in 0..nodes.len() {
        match parts.get(i) {
            Some(part) => {
                let one = append(part, &mut nodes[i], fields.get(i), limits, indices)?;
                fit &= one;
            }
            None => append_null(&mut nodes[i], 1, limits, indices)?,
        }
    }
    Ok(fit)
}
