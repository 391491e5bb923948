//! The columns by which a schema's dictionaries are read.
ghost use Rattle.std.specs.Prelude.{◌≡◌, ◌++◌, ◌∷◌, [], IfOk, OnOk};
ghost use Rattle.ipc_model.specs.declared.schema.Field.{out-Field};
ghost use Rattle.ipc_dict_read.specs.ValuesColumns.{values_column, field_dictionary_columns};
ghost use Rattle.ipc_dict_read.specs.ValuesColumns.{dictionary_columns, AreOneColumn, own_columns};

use ipc_model::{Field, Items};
use std::alloc::{AllocError, Global};

// The column of the values of the field's dictionary.
fn values_column(alloc: Global, field: &Field) -> Result<Field, AllocError>
    ensures { IfOk result (λ column. column
        ≡ values_column (out-Field field.now).name (out-Field field.now).kind) }
{
    Ok(Field {
        name: field.name.clone()?,
        nullable: true,
        kind: field.kind.clone()?,
        dictionary: None,
        children: Items::from_vec(Vec::new(alloc)),
        metadata: Items::from_vec(Vec::new(alloc)),
    })
}

// The column of a field's dictionary, as a list of one field.
fn own_columns(alloc: Global, field: &Field) -> Result<Items<Field>, AllocError>
    ensures { IfOk result (λ columns. columns
        ≡ values_column (out-Field field.now).name (out-Field field.now).kind ∷ []) }
{
    let mut columns = Vec::with_capacity(alloc, 1)?;
    columns.push(values_column(alloc, field)?)?;
    Ok(Items::from_vec(columns))
}

// Appends the column of a field's own dictionary, if it has one, to those that were found.
fn collect_own(
    alloc: Global,
    columns_by_id: &mut Vec<(i64, Items<Field>)>,
    field: &Field,
) -> Result<(), AllocError>
    ensures { OnOk result (columns_by_id.new.items ≡ columns_by_id.old.items
        ++ own_columns (out-Field field.now) (out-Field field.now).dictionary) }
{
    if let Some(dictionary) = field.dictionary {
        let columns = own_columns(alloc, field)?;
        columns_by_id.push((dictionary.id, columns))?;
    }
    Ok(())
}

// Appends the columns of a field and of its descendants to those that were found.
#[cycle(collect_columns)]
fn collect_one(
    alloc: Global,
    columns_by_id: &mut Vec<(i64, Items<Field>)>,
    field: &Field,
) -> Result<(), AllocError>
    ensures { OnOk result (columns_by_id.new.items ≡ columns_by_id.old.items
        ++ field_dictionary_columns field.now) }
{
    collect_own(alloc, columns_by_id, field)?;
    collect_columns(alloc, columns_by_id, field.children.as_slice())
}

// Appends the columns of several fields and of their descendants to those that were found.
#[cycle(collect_columns)]
pub(crate) fn collect_columns(
    alloc: Global,
    columns_by_id: &mut Vec<(i64, Items<Field>)>,
    fields: &[Field],
) -> Result<(), AllocError>
    ensures { OnOk result (columns_by_id.new.items ≡ columns_by_id.old.items
        ++ dictionary_columns fields.now) }
{
    for field in fields {
        collect_one(alloc, columns_by_id, field)?;
    }
    Ok(())
}

/// The law: each dictionary that the fields of a schema name is read by one column. Its values may
/// be null, and it has no dictionary, children or pairs.
pub fn one_column()
    ensures { AreOneColumn }
{}
