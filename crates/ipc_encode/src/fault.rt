ghost use Rattle.std.specs.Prelude.{◌≡◌};
ghost use Rattle.ipc_encode.specs.Faults.{write_fault};

use ipc_model::WriteFault;
use std::alloc::AllocError;

/// Why a row or a value is not added, in one byte. As a fault of the writer it is W6, W7, W8,
/// W10 or W11.
#[derive(Clone, Copy, Debug, PartialEq, Eq, Drop)]
pub enum PushFault {
    /// A column would have more data than offsets reach, or more bytes than a body may have.
    TooLong,
    /// There would be more rows, or a column would have more slots, than the limits allow.
    TooMany,
    /// A dictionary would have more distinct values than an index type of its fields counts.
    DictionaryFull,
    /// Memory for a buffer ran out.
    OutOfMemory,
    /// The call comes after an error that made it fail.
    Failed,
}

impl From<AllocError> for PushFault {
    ghost use Rattle.ipc_encode.specs.declared.fault.PushFault.TheVariants.{OutOfMemory};

    ghost from_gives = { λ error fault. fault ≡ OutOfMemory };

    fn from(_error: AllocError) -> PushFault {
        PushFault::OutOfMemory
    }
}

impl From<PushFault> for WriteFault {
    ghost from_gives = { λ error fault. fault ≡ write_fault error };

    #[cold]
    #[inline(never)]
    fn from(fault: PushFault) -> WriteFault {
        match fault {
            PushFault::TooLong => WriteFault::TooLong,
            PushFault::TooMany => WriteFault::TooManyRows,
            PushFault::DictionaryFull => WriteFault::DictionaryFull,
            PushFault::OutOfMemory => WriteFault::OutOfMemory,
            PushFault::Failed => WriteFault::Failed,
        }
    }
}
