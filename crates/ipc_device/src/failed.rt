ghost use Rattle.std.specs.Prelude.{Some};
ghost use Rattle.ipc_device.specs.Texts.{failed_text};

use std::error::Error;
use std::fmt;

/// A call of a device failed. Each later call of it fails too.
#[derive(Clone, Copy, Debug, PartialEq, Eq)]
pub struct Failed;

/// Prints `the device failed`.
impl fmt::Display for Failed {
    ghost output = { λ failed. Some (failed_text failed) };

    fn fmt<W: fmt::Write>(&self, f: &mut fmt::Formatter<W>) -> fmt::Result {
        f.write_str("the device failed")
    }
}

impl Error for Failed {}
