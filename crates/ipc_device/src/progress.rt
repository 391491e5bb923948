//! Reports of how far a job has come.
ghost use Rattle.std.specs.Prelude.{List, Option, None, [], ◌∷◌};
ghost use Rattle.ipc_device.specs.Reports.{Report, AreAppended};

/// Receives a report after each batch of a job.
pub trait Progress {
    /// The reports so far, in order, if they are kept.
    ghost reports: { Self → Option (List Report) };

    /// Receives a report after one more batch: the number of bytes taken from the source so far,
    /// and the numbers of batches and rows that are done. A count stops at 2^64 - 1.
    fn batch_done(&mut self, bytes: u64, batches: u64, rows: u64)
        ensures { AreAppended (reports self.old) (reports self.new)
            (record { bytes = bytes; batches = batches; rows = rows } ∷ []) };
}

/// Ignores each report.
impl Progress for () {
    ghost reports = { λ _. None };

    fn batch_done(&mut self, _bytes: u64, _batches: u64, _rows: u64) {}
}
