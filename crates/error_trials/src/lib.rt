//! Tests of the error side: banks and injections, records, tables and blocks, firmware and the file of records, over their
//! public calls.
//!
//! They stand apart from the crates that they try, so that each of these is proved once. A row is for what no clause
//! promises: an example from a standard, a text, a call that takes memory.
#![tactic(auto)]

#[cfg(test)]
mod banks;
#[cfg(test)]
mod blocks;
#[cfg(test)]
mod expected;
#[cfg(test)]
mod firmware;
#[cfg(test)]
mod records;
#[cfg(test)]
mod run_records;
#[cfg(test)]
mod runs;
