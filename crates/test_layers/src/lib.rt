//! Tests of the crates below the stream: counts of bits, limits, printed faults, how many slots of
//! columns are tested, dictionaries that are replaced, and plans of rows.
#![tactic(auto)]

#[cfg(test)]
mod bits;
#[cfg(test)]
mod columns;
#[cfg(test)]
mod dictionaries;
#[cfg(test)]
mod fault_texts;
#[cfg(test)]
mod indices;
#[cfg(test)]
mod limits;
#[cfg(test)]
mod lists;
#[cfg(test)]
mod plans;
