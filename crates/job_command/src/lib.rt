//! The command `arrowstream`: reads its arguments, and does each job between an input and a sink.
#![tactic(auto)]

mod counted;
mod running;
mod schema_file;
mod stop;
mod stop_line;
mod summary;

pub use counted::{Counted, LastReport};
pub use running::run;
pub use stop::Stop;
