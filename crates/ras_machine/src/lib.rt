//! The machine whose memory takes faults, and the flat machine, whose plain memory takes none.
//!
//! Only `Machine::make` and `Flat::make` take memory.
#![tactic(auto)]

mod count_downs;
mod ending;
mod first_line;
mod flat;
mod laws;
mod loading;
mod machine;
mod readers;
mod reset;
mod same;
mod schedule;
mod settings;
mod state;
mod state_calls;
mod undisturbed;

pub use count_downs::count_downs_are_calls;
pub use ending::{Ending, Stop};
pub use flat::Flat;
pub use laws::runs_go_on;
pub use machine::Machine;
pub use schedule::pick;
pub use settings::{MOST_HARTS, Settings};
