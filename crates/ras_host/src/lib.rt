//! The outside of the program: files, standard output and standard error.
//!
//! A [`Host`] tells what it likes of the outside: the files, the bytes written, the files made and
//! the calls that were made on it. What it does tell is bound by the trait's clauses, and each call
//! that fails raises its count of faults.
#![tactic(auto)]

mod buffer;
mod call_log;
mod created;
mod memory;
mod outside;
mod real;
mod steady;
mod stored;

pub use memory::MemoryHost;
pub use outside::{Got, Host, HostError, HostFault};
pub use real::RealHost;
pub use steady::SteadyHost;
