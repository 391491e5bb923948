ghost use Rattle.std.specs.Prelude.{◌≡◌};
ghost use Rattle.ipc_meta.specs.FlatFaults.{fault_of, map_fault};

use ipc_flat::FlatFault;
use ipc_model::Fault;

// The message's fault of ill-formed FlatBuffers.
fn fault_of(fault: FlatFault) -> Fault
    ensures { result ≡ fault_of fault }
{
    match fault {
        FlatFault::NotUtf8 => Fault::NameNotUtf8,
        _ => Fault::BadFlat,
    }
}

/// Converts a result of the FlatBuffers reader into a result about the message.
pub(crate) fn map_fault<T>(answer: Result<T, FlatFault>) -> Result<T, Fault>
    ensures { result ≡ map_fault answer }
{
    match answer {
        Ok(value) => Ok(value),
        Err(fault) => Err(fault_of(fault)),
    }
}
