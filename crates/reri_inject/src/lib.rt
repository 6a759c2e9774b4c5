//! Injections that wait for their step.
//!
//! No call of this crate takes memory.
#![tactic(auto)]

mod calls;
mod critical;
mod due;
mod inject;

pub use calls::injections_are_logged_when_due;
pub use critical::{critical_events_are_due, other_calls_bring_no_critical_event};
pub use due::at_most_one_injection_is_due;
pub use inject::{count_down, stage};
