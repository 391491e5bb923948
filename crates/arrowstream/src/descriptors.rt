//! Standard input, output and error that are closed when the program starts.
use std::fs::{File, OpenOptions};
use std::io;
use std::os::fd::AsRawFd;

const NULL_DEVICE: &str = "/dev/null";

// The file, if its descriptor is one of the first.
fn keep(file: io::Result<File>, last: i32) -> Option<File> {
    file.ok().filter(|file| file.as_raw_fd() <= last)
}

/// Opens the null device in place of each standard descriptor that is closed, so that no file that
/// is opened later becomes standard input or output. Reading the first and writing the others then
/// fails, as without them. The files must live as long as the program.
pub fn fill_closed(rt: &HostRuntime) -> [Option<File>; 3] {
    [
        keep(OpenOptions::new().write(true).open(rt, NULL_DEVICE), 0),
        keep(File::open(rt, NULL_DEVICE), 2),
        keep(File::open(rt, NULL_DEVICE), 2),
    ]
}
