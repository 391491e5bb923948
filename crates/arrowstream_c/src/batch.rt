//! A batch that C holds, or null.
ghost use Rattle.std.specs.Coded.{coded_option};
ghost use Rattle.std.specs.Prelude.{◌≡◌, None, Option, Some};
ghost use Rattle.ipc_stream_session.specs.contracts.batch.ReadBatch as batch;
ghost use Rattle.ipc_stream_session.specs.declared.batch.ReadBatch.{ReadBatch};
ghost use Rattle.arrowstream_c.specs.Calls.{MayHold};

use crate::answers::status_of;
use crate::block::Block;
use ipc_model::Fault;
use ipc_stream_session::ReadBatch;
use std::alloc::Global;
use std::marker::Model;
use std::ptr::null_mut;

/// The pointer to a batch, or null, with the status of the call that took it.
pub(crate) struct BatchHandle {
    pub(crate) at: *mut u8,
    pub(crate) status: u32,
    pub(crate) ghost held: { Option ReadBatch } by { coded_option batch.the_row.coded },
}

impl Model for BatchHandle {
    ghost use Rattle.arrowstream_c.specs.Handles.{batch_or_null};

    ghost also_owns = { λ h. batch_or_null h.at h.held };
}

impl BatchHandle {
    // Moves a batch to memory of its own. If memory ran out, the batch is dropped, and the pointer
    // is null.
    pub(crate) fn holding(alloc: Global, batch: ReadBatch) -> BatchHandle
        ensures { MayHold batch result.held result.status }
    {
        match Box::new(alloc, batch) {
            Ok(whole) => BatchHandle::of(Block::out_of(whole)),
            Err(_) => BatchHandle::none(status_of(&Fault::OutOfMemory)),
        }
    }

    // Null, with the status that says why.
    pub(crate) fn none(status: u32) -> BatchHandle
        ensures { (result.held ≡ None) × (result.status ≡ status) }
    {
        BatchHandle {
            at: null_mut(),
            status,
        }
    }

    // The pointer of this block, with the status 0.
    fn of(whole: Block<ReadBatch, Global>) -> BatchHandle
        ensures { (result.held ≡ Some whole.value) × (result.status ≡ 0) }
    {
        let Block { ptr, alloc: _ } = whole;
        BatchHandle {
            at: ptr as *mut u8,
            status: 0,
        }
    }
}
