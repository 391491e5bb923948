//! The state of a stream that is written.
ghost use Rattle.std.specs.Prelude.{◌≡◌, MatchResult};
ghost use Rattle.ipc_stream_session.specs.Stages.{HasWritten, IsNotNew, IsNotOpen, emptied_stage};
ghost use Rattle.ipc_stream_session.specs.declared.stage.Stage.TheVariants as stage;

use crate::open_table::OpenTable;
use crate::ready::Ready;
use crate::write_error::WriteError;
use ipc_model::WriteFault;
use std::alloc::Global;
use std::mem;

/// The state of a stream that is written.
#[derive(Drop)]
pub(crate) enum Stage {
    /// It has no schema.
    New,
    /// It has its schema, and takes rows.
    Open(OpenTable),
    /// Nothing more is written, and these bytes of the stream were not taken.
    Ended(Ready),
}

impl Stage {
    // Returns the table that takes rows.
    pub(crate) fn open(&self) -> Result<&OpenTable, WriteError>
        ensures { MatchResult result (λ table. self.now ≡ stage.Open table.now)
            (IsNotOpen self.now) }
    {
        match self {
            Stage::New => Err(WriteError::Misuse),
            Stage::Open(table) => Ok(table),
            Stage::Ended(_) => Err(WriteError::Refused(WriteFault::Failed)),
        }
    }

    // Checks that the stream has no schema.
    pub(crate) fn check_new(&self) -> Result<(), WriteError>
        ensures { MatchResult result (λ _. self.now ≡ stage.New) (IsNotNew self.now) }
    {
        match self {
            Stage::New => Ok(()),
            Stage::Open(_) => Err(WriteError::Misuse),
            Stage::Ended(_) => Err(WriteError::Refused(WriteFault::Failed)),
        }
    }

    // Takes the bytes that were written and not taken.
    pub(crate) fn take_bytes(&mut self, alloc: Global) -> Ready
        ensures taken { HasWritten self.old result }
        ensures emptied { self.new ≡ emptied_stage self.old }
    {
        match self {
            Stage::New => Ready::new(Vec::new(alloc)),
            Stage::Open(table) => table.take_bytes(alloc),
            Stage::Ended(ready) => mem::replace(ready, Ready::new(Vec::new(alloc))),
        }
    }

    // Returns the bytes that were written and not taken. Nothing more is written.
    pub(crate) fn into_ready(self, alloc: Global) -> Ready
        ensures { HasWritten self result }
    {
        match self {
            Stage::New => Ready::new(Vec::new(alloc)),
            Stage::Open(table) => table.into_ready(),
            Stage::Ended(ready) => ready,
        }
    }
}
