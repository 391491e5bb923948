//! Devices that count bytes, and a progress that keeps the last numbers of batches and rows.
ghost use Rattle.std.specs.Prelude.{◌≡◌, ◌≤◌, ◌<◌, ◌+◌, ◌-◌, ◌^◌, ◌∷◌, [], length, min, Some};
ghost use Rattle.std.specs.Prelude.{IfOk, OnErr, OnOk};
ghost use Rattle.std.specs.Io.KnownBytes.{Keeps, ReadConsumes, WriteAppends};
ghost use Rattle.ipc_device.specs.Failures.{CountsFailures};
ghost use Rattle.ipc_device.specs.Reports.{AreAppended};

use ipc_device::{Failed, Progress, Sink, Source};

/// A device that counts the bytes that it returned or took. The count stops at 2^64 - 1.
#[derive(Drop)]
pub struct Counted<D> {
    pub(crate) device: D,
    pub(crate) count: u64,
}

impl<D> Counted<D> {
    /// Creates a device over `device`, with the count 0.
    pub fn new(device: D) -> Counted<D>
        ensures device { result.device ≡ device }
        ensures count { result.count ≡ 0 }
    {
        Counted { device, count: 0 }
    }

    /// Returns the device.
    pub fn into_inner(self) -> D
        ensures { result ≡ self.device }
    {
        let Counted { device, count: _ } = self;
        device
    }
}

impl<D: Source> Source for Counted<D> {
    ghost remaining = { λ c. D.remaining c.device };

    ghost failures = { λ c. D.failures c.device };

    ghost bound = { λ c. D.bound c.device };

    fn read(&mut self, into: &mut [u8]) -> Result<usize, Failed>
        ensures count { IfOk result (λ k. k ≤ length into.new) }
        ensures bytes { ReadConsumes (D.remaining self.old.device)
            (D.remaining self.new.device) result into.new }
        ensures fewer { IfOk result (λ k. (D.bound self.new.device + k) ≤ D.bound self.old.device) }
        ensures failures { CountsFailures (D.failures self.old.device)
            (D.failures self.new.device) result }
        // The count grows by the number of bytes that were returned.
        ensures counted { IfOk result
            (λ k. self.new.count ≡ min (self.old.count + k) (2 ^ 64 - 1)) }
        ensures kept { OnErr result (self.new.count ≡ self.old.count) }
    {
        let count = self.device.read(into)?;
        self.count = self.count.saturating_add(count as u64);
        Ok(count)
    }
}

impl<D: Sink> Sink for Counted<D> {
    ghost written = { λ c. D.written c.device };

    ghost held_back = { λ c. D.held_back c.device };

    ghost failures = { λ c. D.failures c.device };

    fn write(&mut self, bytes: &[u8]) -> Result<usize, Failed>
        ensures count { IfOk result (λ k. k ≤ length bytes.now) }
        ensures some { IfOk result (λ k. 0 < length bytes.now → 0 < k) }
        ensures bytes { WriteAppends (D.written self.old.device)
            (D.written self.new.device) result bytes.now }
        ensures failures { CountsFailures (D.failures self.old.device)
            (D.failures self.new.device) result }
        // The count grows by the number of bytes that were taken.
        ensures counted { IfOk result
            (λ k. self.new.count ≡ min (self.old.count + k) (2 ^ 64 - 1)) }
        ensures kept { OnErr result (self.new.count ≡ self.old.count) }
    {
        let count = self.device.write(bytes)?;
        self.count = self.count.saturating_add(count as u64);
        Ok(count)
    }

    fn flush(&mut self) -> Result<(), Failed>
        ensures bytes { Keeps (D.written self.old.device) (D.written self.new.device) }
        ensures handed_on { OnOk result (D.held_back self.new.device ≡ Some []) }
        ensures failures { CountsFailures (D.failures self.old.device)
            (D.failures self.new.device) result }
        ensures kept { self.new.count ≡ self.old.count }
    {
        self.device.flush()
    }
}

/// A progress that keeps the numbers of batches and rows of the last report.
#[derive(Drop)]
pub struct LastReport<N> {
    pub(crate) progress: N,
    pub(crate) batches: u64,
    pub(crate) rows: u64,
}

impl<N> LastReport<N> {
    /// Creates a progress over `progress`, without a batch or a row.
    pub fn new(progress: N) -> LastReport<N>
        ensures progress { result.progress ≡ progress }
        ensures batches { result.batches ≡ 0 }
        ensures rows { result.rows ≡ 0 }
    {
        LastReport {
            progress,
            batches: 0,
            rows: 0,
        }
    }

    /// Returns the progress.
    pub fn into_inner(self) -> N
        ensures { result ≡ self.progress }
    {
        let LastReport {
            progress,
            batches: _,
            rows: _,
        } = self;
        progress
    }
}

impl<N: Progress> Progress for LastReport<N> {
    ghost reports = { λ p. N.reports p.progress };

    fn batch_done(&mut self, bytes: u64, batches: u64, rows: u64)
        ensures appended { AreAppended (N.reports self.old.progress) (N.reports self.new.progress)
            (record { bytes = bytes; batches = batches; rows = rows } ∷ []) }
        // The numbers of this report are kept.
        ensures batches { self.new.batches ≡ batches }
        ensures rows { self.new.rows ≡ rows }
    {
        self.progress.batch_done(bytes, batches, rows);
        self.batches = batches;
        self.rows = rows;
    }
}
