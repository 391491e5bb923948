//! A line on standard error with how far a stream is read.
ghost use Rattle.std.specs.Prelude.{None};

use ipc_device::{Progress, Retry};
use std::io::{IsTerminal, Write};
use std::time::{Duration, Instant};

// The least time between two lines, in milliseconds.
const PAUSE: u64 = 5_000;

// The same at a terminal.
const TERMINAL_PAUSE: u64 = 500;

// How far a stream is read.
#[derive(Clone, Copy, Drop)]
struct Counts {
    bytes: u64,
    batches: u64,
    rows: u64,
}

// When the job began, and when the line was last written.
#[derive(Clone, Copy, Drop)]
struct Times {
    start: Instant,
    last_write: Instant,
}

/// Writes lines to standard error: the bytes that were read, the batches, the rows, and the speed
/// in MB/s.
///
/// Each line begins with the label. A line is written after a batch, and at most every five
/// seconds. At a terminal it is written over the one before, and at most twice a second. `finish`
/// writes the last state. An error of the clock or of standard error changes nothing else.
#[derive(Drop)]
pub struct ProgressLine<'a> {
    rt: &'a HostRuntime,
    label: &'a str,
    is_terminal: bool,
    times: Option<Times>,
    counts: Option<Counts>,
}

impl<'a> ProgressLine<'a> {
    /// Starts the clock, or writes nothing at all if `on` is false or there is no clock.
    pub fn start(rt: &'a HostRuntime, on: bool, label: &'a str) -> ProgressLine<'a> {
        let times = match Instant::now(rt) {
            Ok(now) if on => Some(Times {
                start: now,
                last_write: now,
            }),
            _ => None,
        };
        ProgressLine {
            rt,
            label,
            is_terminal: rt.stderr().is_terminal(),
            times,
            counts: None,
        }
    }

    // Writes a line, at a terminal over the one before.
    fn write(&self, elapsed: Duration, counts: Counts) {
        let Counts {
            bytes,
            batches,
            rows,
        } = counts;
        let speed = bytes as u128 / elapsed.as_micros().max(1);
        let label = self.label;
        let (start, end) = if self.is_terminal {
            ("\r", "  ")
        } else {
            ("", "\n")
        };
        let line = format!(in self.rt.alloc();
            "{start}{label}{bytes} bytes, {batches} batches, {rows} rows, {speed} MB/s{end}"
        );
        if let Ok(line) = line {
            let _ = Retry::new(self.rt.stderr()).write_all(line.as_bytes());
        }
    }

    /// Writes the last state, and ends the line. Without a batch nothing is written.
    pub fn finish(&self) {
        let (Some(times), Some(counts)) = (self.times, self.counts) else {
            return;
        };
        let now = Instant::now(self.rt).unwrap_or(times.last_write);
        self.write(now.duration_since(times.start), counts);
        if self.is_terminal {
            let _ = Retry::new(self.rt.stderr()).write_all(b"\n");
        }
    }
}

impl Progress for ProgressLine<'_> {
    ghost reports = { λ _. None };

    fn batch_done(&mut self, bytes: u64, batches: u64, rows: u64) {
        let counts = Counts {
            bytes,
            batches,
            rows,
        };
        self.counts = Some(counts);
        let (Some(times), Ok(now)) = (self.times, Instant::now(self.rt)) else {
            return;
        };
        let pause = if self.is_terminal {
            TERMINAL_PAUSE
        } else {
            PAUSE
        };
        if now.duration_since(times.last_write) >= Duration::from_millis(pause) {
            self.times = Some(Times {
                start: times.start,
                last_write: now,
            });
            self.write(now.duration_since(times.start), counts);
        }
    }
}
