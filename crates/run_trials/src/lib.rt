//! Tests of runs of the machine whose memory takes faults: how they stop, what they print, and what firmware emits.
//!
//! They stand apart from the crate that they try, so that it is proved once. The expected values were worked out by hand.
#![tactic(auto)]

#[cfg(test)]
mod errors;
#[cfg(test)]
mod flips;
#[cfg(test)]
mod harts;
#[cfg(test)]
mod runs;
