//! The debugger: a session of lines and replies over a machine.
//!
//! `Session::make` takes memory, and no other call does.
#![tactic(auto)]

mod commands;
mod fields;
mod inspecting;
mod laws;
mod reply;
mod requests;
mod running;
mod session;

pub use laws::sessions_see_lines_by_steps;
pub use session::{Session, Turn};
