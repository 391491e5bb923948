//! Why a reader stops that holds at most a number of bytes.
ghost use Rattle.std.specs.Prelude.{◌≡◌};
ghost use Rattle.ipc_stream_read.specs.Held.{fault_of};
ghost use Rattle.ipc_stream_read.specs.declared.read_stop.ReadStop.TheVariants.{Held};

use ipc_model::Fault;

/// Why a reader stops that holds at most a number of bytes.
#[derive(Debug, Drop)]
pub enum ReadStop {
    /// The stream is refused, the source failed, or memory ran out.
    Refused(Fault),
    /// The next part of a message would exceed the maximum.
    Held,
}

impl ReadStop {
    // The fault of a reader that may hold any number of bytes.
    pub(crate) fn fault(self) -> Fault
        requires { self ≡ Held → ⊥ }
        ensures { result ≡ fault_of self }
    {
        match self {
            ReadStop::Refused(fault) => fault,
            ReadStop::Held => unreachable!(),
        }
    }
}

impl From<Fault> for ReadStop {
    ghost use Rattle.std.specs.Prelude.{◌≡◌};
    ghost use Rattle.ipc_stream_read.specs.declared.read_stop.ReadStop.TheVariants.{Refused};

    ghost from_gives = { λ fault stop. stop ≡ Refused fault };

    fn from(fault: Fault) -> ReadStop {
        ReadStop::Refused(fault)
    }
}
