//! The demo workload: a program that sweeps memory, and a script of random flips of the words that it sweeps.
#![tactic(auto)]

mod demo;
mod draws;

pub use demo::workload;
