//! What a run leaves behind, as bytes: the report of its ending, and its records as a file.
//!
//! `FileBuf::make` takes memory, and no other call does.
#![tactic(auto)]

mod harts;
mod judging;
mod records;
mod reports;
mod stops;
mod text;
mod verdicts;

pub use judging::verdict;
pub use records::{FileBuf, records_file};
pub use reports::{flat_report, registers, report};
pub use stops::stop_text;
pub use text::{REPORT_ROOM, Report};
pub use verdicts::{Verdict, verdict_line};
