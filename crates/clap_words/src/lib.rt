//! Command words by a table of options and plain words, read by `clap`.
//!
//! The words are the usual ones of long options. Which are taken, and what they give, is said by the
//! table alone, and is proved once for every table.
#![tactic(auto)]

mod build;
mod given;
mod read;
mod table;

pub use given::Given;
pub use read::{WordsError, read_given};
pub use table::{Kind, Limit, OptionRow, Table};
