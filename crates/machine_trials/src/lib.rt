//! Tests of both machines' calls, the flat one's and the one's whose memory takes faults: each is made and run, the second is
//! stepped and shown, and programs stop both.
//!
//! They stand apart from the crate that they try, so that it is proved once. The expected values were worked out by hand.
#![tactic(auto)]

#[cfg(test)]
mod calls;
#[cfg(test)]
mod machines;
#[cfg(test)]
mod stops;
