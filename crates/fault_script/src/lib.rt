//! The script of faults that a run is given: bits to flip, words to scrub, errors to inject and control
//! registers to write, each before a step.
//!
//! A text is read into its lines, or refused at its first failing line with the cause. The lines of
//! a script stand in rising steps, and their canonical text is read as the same script.
#![tactic(auto)]

mod commands;
mod fields;
mod laws;
mod lines;
mod reading;
mod scripts;
mod words;
mod writing;

pub use laws::{written_lines_read_back, written_reads_back};
pub use lines::{Act, ScriptError, ScriptLine, Why};
pub use reading::is_readable;
pub use scripts::Script;
pub use words::{count_words, cut_line, line_word, trim_return};
pub use writing::line_text;
