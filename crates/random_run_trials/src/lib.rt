//! Random runs of the machine whose memory takes faults, beside the flat machine's.
//!
//! They stand apart from the crate that they try, so that it is proved once.
#![tactic(auto)]

#[cfg(test)]
mod faults;
#[cfg(test)]
mod machines;
#[cfg(test)]
mod random_runs;
