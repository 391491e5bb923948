//! A writer that C holds, or null.
ghost use Rattle.std.specs.Coded.{coded_option};
ghost use Rattle.std.specs.Prelude.{◌≡◌, None, Option, Some};
ghost use Rattle.ipc_stream_session.specs.contracts.write_session.WriteSession as session;
ghost use Rattle.ipc_stream_session.specs.declared.write_session.WriteSession.{WriteSession};
ghost use Rattle.arrowstream_c.specs.WriterCalls.{OpensWriter};

use crate::answers::{LIMITS_SIZE, ReadLimits, cap_limits};
use crate::block::Block;
use ipc_stream_session::WriteSession;
use std::alloc::Global;
use std::marker::Model;
use std::ptr::null_mut;

/// The pointer to a writer, or null.
pub(crate) struct WriterHandle {
    pub(crate) at: *mut u8,
    pub(crate) ghost held: { Option WriteSession } by { coded_option session.the_row.coded },
}

impl Model for WriterHandle {
    ghost use Rattle.arrowstream_c.specs.Handles.{writer_or_null};

    ghost also_owns = { λ h. writer_or_null h.at h.held };
}

impl WriterHandle {
    // A new writer, or null if memory ran out or the struct is too small.
    pub(crate) fn fresh(alloc: Global, limits: &ReadLimits) -> WriterHandle
        ensures { OpensWriter limits.now result.held }
    {
        if limits.size < LIMITS_SIZE {
            return WriterHandle::none();
        }
        match Box::new(alloc, WriteSession::new(alloc, cap_limits(limits))) {
            Ok(whole) => WriterHandle::of(Block::out_of(whole)),
            Err(_) => WriterHandle::none(),
        }
    }

    // Null.
    fn none() -> WriterHandle
        ensures { result.held ≡ None }
    {
        WriterHandle { at: null_mut() }
    }

    // The pointer of this block.
    fn of(whole: Block<WriteSession, Global>) -> WriterHandle
        ensures { result.held ≡ Some whole.value }
    {
        let Block { ptr, alloc: _ } = whole;
        WriterHandle { at: ptr as *mut u8 }
    }
}
