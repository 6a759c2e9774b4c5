//! The words of the command line.
//!
//! The crate knows nothing of the machine: it says what command the words ask for, or that they
//! are refused.
#![tactic(auto)]

mod commands;
mod limits;
mod tables;

pub use clap_words::WordsError;
pub use commands::{Command, DebugWords, MachineWords, RunWords, read_words};
pub use limits::{
    COMMANDS_LIMIT, DEFAULT_BUDGET, DEFAULT_HARTS, DEFAULT_PATROL, DEFAULT_POLL, DEFAULT_RAM_MIB,
    IMAGE_LIMIT, INPUT_LIMIT, LEAST_RAM_MIB, MOST_HARTS, MOST_RAM_MIB, PRINTED_LIMIT,
    SCHEDULE_LIMIT, SCRIPT_LIMIT,
};
