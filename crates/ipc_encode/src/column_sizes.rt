//! A column whose values are counted and not kept.
ghost use Rattle.std.specs.Prelude.{◌≡◌, ◌++◌, List, [], ◌∷◌, IfOk, IfErr};
ghost use Rattle.ipc_model.specs.declared.schema.Field.{Field};
ghost use Rattle.ipc_model.specs.declared.value.Value.{Value};
ghost use Rattle.ipc_column.specs.Shapes.{bare, field, child_shape, shape_of};
ghost use Rattle.ipc_encode.specs.Buffers.{row_columns};
ghost use Rattle.ipc_encode.specs.Built.{AreCountsOf};
ghost use Rattle.ipc_encode.specs.ColumnSizes.{as_rows, CountsRows};
ghost use Rattle.ipc_encode.specs.Faults.{write_fault};
ghost use Rattle.ipc_encode.specs.Limits.{AreRowsRefused, AreColumnsTooLong};

use crate::column::ColumnCounts;
use crate::fault::PushFault;
use ipc_model::{Field, Layout, Limits, Value, WriteFault, layout_of};

/// The sizes of one column without children: its slots, its null slots, and its data. Its values
/// are counted and not kept, so it takes no memory.
///
/// It serves for the values of a dictionary, which are one column of a message (Arrow Columnar
/// Format, "Dictionary Messages").
#[derive(Clone, Copy, Debug, Drop)]
pub struct ColumnSizes {
    layout: Layout,
    counts: ColumnCounts,
}

impl ColumnSizes {
    /// Creates the sizes of a column of this field without values. The field must have no children.
    ///
    /// Errors: `TooLong` if the buffers of zero values already have more than `limits.body` bytes.
    /// A binary or UTF-8 column has one offset (Arrow Columnar Format, "Variable-size Binary
    /// Layout").
    pub fn new(field: &Field, limits: &Limits) -> Result<ColumnSizes, PushFault>
        requires { child_shape field.now ≡ bare }
        ensures counts { IfOk result (CountsRows limits.now (field.now ∷ []) []) }
        ensures refused { IfErr result (λ fault. (fault ≡ PushFault.TooLong)
            × AreColumnsTooLong limits.now (field.now ∷ []) []) }
    {
        let column = ColumnSizes {
            layout: layout_of(&field.kind, field.dictionary),
            counts: ColumnCounts::none(),
        };
        column.within_body(limits)
    }

    /// Returns the sizes with these values added. It takes no memory.
    ///
    /// Errors (Arrow Columnar Format, "Array lengths"):
    ///
    /// - `TooMany`: there would be more than `limits.slots` slots.
    /// - `TooLong`: a binary or UTF-8 column would have more data than offsets reach, or the
    ///   buffers more than `limits.body` bytes.
    pub fn with(self, values: &[Value], limits: &Limits) -> Result<ColumnSizes, PushFault>
        ensures counts { (fields : List Field) (rows : List (List Value))
            → CountsRows limits.now fields rows self
            → IfOk result (CountsRows limits.now fields (rows ++ as_rows values.now)) }
        ensures refused { (fields : List Field) (rows : List (List Value))
            → CountsRows limits.now fields rows self
            → IfErr result (λ fault. AreRowsRefused limits.now fields (rows ++ as_rows values.now)
            (write_fault fault) × ¬ (write_fault fault ≡ WriteFault.OutOfMemory)) }
    {
        let mut counts = self.counts;
        for value in values {
            counts = counts.with(self.layout, value, limits)?;
        }
        let column = ColumnSizes {
            layout: self.layout,
            counts,
        };
        column.within_body(limits)
    }

    // Returns these sizes, if the buffers are within a body.
    fn within_body(self, limits: &Limits) -> Result<ColumnSizes, PushFault>
        ensures counts { (fields : List Field) (rows : List (List Value))
            → shape_of fields ≡ field self.layout bare bare
            → AreCountsOf limits.now self.layout (row_columns rows 0) self.counts
            → IfOk result (CountsRows limits.now fields rows) }
        ensures refused { (fields : List Field) (rows : List (List Value))
            → shape_of fields ≡ field self.layout bare bare
            → AreCountsOf limits.now self.layout (row_columns rows 0) self.counts
            → IfErr result (λ fault. (fault ≡ PushFault.TooLong)
            × AreColumnsTooLong limits.now fields rows) }
    {
        if self.counts.len(self.layout) > limits.body {
            return Err(PushFault::TooLong);
        }
        Ok(self)
    }
}
