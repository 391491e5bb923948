//! Tests of `ipc_text`, and of the jobs of the command.
#![tactic(auto)]

#[cfg(test)]
mod explained;
#[cfg(test)]
mod jobs;
#[cfg(test)]
mod texts;
