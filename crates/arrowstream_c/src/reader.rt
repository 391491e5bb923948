//! A reader that C holds, or null.
ghost use Rattle.std.specs.Coded.{coded_option};
ghost use Rattle.std.specs.Prelude.{◌≡◌, None, Option, Some};
ghost use Rattle.ipc_stream_session.specs.contracts.session.ReadSession as session;
ghost use Rattle.ipc_stream_session.specs.declared.session.ReadSession.{ReadSession};
ghost use Rattle.arrowstream_c.specs.Calls.{OpensReader};

use crate::answers::{LIMITS_SIZE, ReadLimits, cap_limits};
use crate::block::Block;
use ipc_stream_session::ReadSession;
use std::alloc::Global;
use std::marker::Model;
use std::ptr::null_mut;

/// The pointer to a reader, or null.
pub(crate) struct ReaderHandle {
    pub(crate) at: *mut u8,
    pub(crate) ghost held: { Option ReadSession } by { coded_option session.the_row.coded },
}

impl Model for ReaderHandle {
    ghost use Rattle.arrowstream_c.specs.Handles.{reader_or_null};

    ghost also_owns = { λ h. reader_or_null h.at h.held };
}

impl ReaderHandle {
    // A new reader, or null if memory ran out or the struct is too small.
    pub(crate) fn fresh(alloc: Global, limits: &ReadLimits) -> ReaderHandle
        ensures { OpensReader limits.now result.held }
    {
        if limits.size < LIMITS_SIZE {
            return ReaderHandle::none();
        }
        match Box::new(alloc, ReadSession::new(alloc, cap_limits(limits))) {
            Ok(whole) => ReaderHandle::of(Block::out_of(whole)),
            Err(_) => ReaderHandle::none(),
        }
    }

    // Null.
    fn none() -> ReaderHandle
        ensures { result.held ≡ None }
    {
        ReaderHandle { at: null_mut() }
    }

    // The pointer of this block.
    fn of(whole: Block<ReadSession, Global>) -> ReaderHandle
        ensures { result.held ≡ Some whole.value }
    {
        let Block { ptr, alloc: _ } = whole;
        ReaderHandle { at: ptr as *mut u8 }
    }
}
