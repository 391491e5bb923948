//! The words of the program's command line, and the job that they ask for.
#![tactic(auto)]

mod arguments;
mod command_line;
mod csv_dialect;

pub use arguments::{Invocation, Job, OutputLimits, Usage, read_words};
pub use csv_dialect::CsvDialect;
