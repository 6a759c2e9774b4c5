//! One hart of an RV64 computer: the state that it keeps, the console that its program writes, and
//! one step of it over any bus; and the bus of harts that share a memory.
//!
//! Only `Console::make`, `Shared::make` and `Harts::make` take memory.
#![tactic(auto)]

mod access;
mod around;
mod console;
mod console_calls;
mod decoded;
mod ends;
mod firmware;
mod hart;
mod hart_calls;
mod harts;
mod jumps;
mod laws;
mod locate;
mod memory;
mod operands;
mod operation;
mod parts;
mod peers;
mod reservation;
mod shared;
mod step;
mod system;
mod traps;

pub use console::{CONSOLE_ROOM, Console};
pub use ends::{Effect, TurnEnd};
pub use hart::{Hart, HartState};
pub use harts::Harts;
pub use laws::{console_reads_fill_ram, console_writes_are_bytes_of_ram, steps_go_by_their_events};
pub use peers::Peers;
pub use shared::Shared;
