//! Tests of streams that need Rust: devices that fail, limits of calls, how often a sink is called,
//! bytes in pieces, refusals of the writer, and rows that are refused between others. What the
//! library answers to streams is in `cases/`.
#![tactic(auto)]

#[cfg(test)]
mod calls;
#[cfg(test)]
mod columns;
#[cfg(test)]
mod devices;
#[cfg(test)]
mod example;
#[cfg(test)]
mod pieces;
#[cfg(test)]
mod refused_rows;
#[cfg(test)]
mod scripts;
#[cfg(test)]
mod streams;
#[cfg(test)]
mod tables;
#[cfg(test)]
mod written;
