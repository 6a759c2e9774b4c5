//! The one reader of numbers in text, and the one writer of hexadecimal numbers.
//!
//! No call of this crate takes memory. Decimal text is what the crate `itoa` writes.
#![tactic(auto)]

mod laws;
mod reading;
mod writing;

pub use laws::{address_reads_back, decimal_reads_back, hex_reads_back};
pub use reading::number;
pub use writing::{address, hex_digit, hex_digits};
