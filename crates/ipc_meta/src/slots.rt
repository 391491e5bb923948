//! Fields of the tables that the writer makes.
ghost use Rattle.std.specs.Prelude.{◌≡◌, map, IfOk};
ghost use Rattle.ipc_build.specs.Trees.{none, string, node, view, fields_view};
ghost use Rattle.ipc_meta.specs.Written.{fields_then, pair_tree, with_pairs};

use ipc_build::{FlatTree, Slot};
use ipc_model::{Items, Text};
use std::alloc::{AllocError, Global};

/// The fields of a table, with their numbers.
pub(crate) type Slots = Vec<(u16, Slot)>;

/// Returns the table with these fields.
pub(crate) fn table_of(slots: Slots) -> FlatTree
    ensures { view result ≡ fields_view slots.items }
{
    FlatTree {
        slots: Items::from_vec(slots),
    }
}

/// Returns a field that holds a text.
pub(crate) fn text_slot(text: &Text) -> Result<Slot, AllocError>
    ensures { IfOk result (λ s. node s ≡ (string text.now, none)) }
{
    Ok(Slot::Text(text.clone()?))
}

// Schema.fbs, table KeyValue.
fn pair_tree(alloc: Global, pair: &(Text, Text)) -> Result<FlatTree, AllocError>
    ensures { IfOk result (λ t. view t ≡ pair_tree pair.now) }
{
    let slots = vec![in alloc; (0, text_slot(&pair.0)?), (1, text_slot(&pair.1)?)]?;
    Ok(table_of(slots))
}

fn pair_trees(alloc: Global, pairs: &[(Text, Text)]) -> Result<Vec<FlatTree>, AllocError>
    ensures { IfOk result (λ ts. map view ts.items ≡ map pair_tree pairs.now) }
{
    let mut trees = Vec::with_capacity(alloc, pairs.len())?;
    for pair in pairs {
        trees.push(pair_tree(alloc, pair)?)?;
    }
    Ok(trees)
}

/// Adds a vector of pairs, if there are any.
pub(crate) fn push_pairs(
    alloc: Global,
    slots: &mut Slots,
    number: u16,
    pairs: &Items<(Text, Text)>,
) -> Result<(), AllocError>
    ensures { IfOk result (λ _. fields_then slots.new.items none
        ≡ fields_then slots.old.items (with_pairs number pairs.now)) }
{
    if pairs.len() > 0 {
        let trees = pair_trees(alloc, pairs.as_slice())?;
        slots.push((number, Slot::Tables(Items::from_vec(trees))))?;
    }
    Ok(())
}
