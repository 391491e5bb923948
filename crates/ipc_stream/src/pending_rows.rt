//! The stream to which the rows of a batch belong.
ghost use Rattle.std.specs.Prelude.{List};
ghost use Rattle.ipc_model.specs.declared.limits.Limits.{Limits};
ghost use Rattle.ipc_model.specs.declared.schema.Field.{Field};

use crate::pending_batch::PendingBatch;

/// Rows that are held for a stream.
pub trait PendingRows {
    /// The limits of the stream.
    ghost limits: { Self → Limits };

    /// The fields of the stream's schema.
    ghost fields: { Self → List Field };
}

impl PendingRows for PendingBatch {
    ghost limits = { λ held. held.tally.limits };

    ghost fields = { λ held. held.tally.fields };
}
