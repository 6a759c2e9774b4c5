//! The calls that a guest makes to the firmware by ECALL from S mode: which call its registers ask for,
//! and what the answers are made of (RISC-V Supervisor Binary Interface Specification, version 2.0).
//!
//! The base extension, TIME, SRST, DBCN, HSM, the IPI extension and four legacy calls are there. An
//! extension has a file of its own, and a row in the table of `extension`. No call of this crate takes
//! memory.
#![tactic(auto)]

mod base;
mod call;
mod console;
mod error;
mod extension;
mod hsm;
mod ipi;
mod legacy;
mod reset;
mod stop;
mod time;

pub use base::base_answer;
pub use call::SbiCall;
pub use console::{MOST_BYTES, span};
pub use error::SbiError;
pub use extension::probe_answer;
pub use hsm::status_answer;
pub use ipi::selected_harts;
pub use reset::reset_of;
pub use stop::GuestStop;
