ghost use Rattle.ipc_model.specs.FirstRowFault.{FirstOfRowFaults};

/// The law: the first one in the list of all faults of a row is the fault that `conforms` returns.
pub fn first_row_fault()
    ensures { FirstOfRowFaults }
{}
