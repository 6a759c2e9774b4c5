//! Error banks: what each record keeps of its events, and the registers that show it (a profile after RISC-V RERI).
//!
//! No call of this crate takes memory.
#![tactic(auto)]

mod bank;
mod banks;
mod layout;
mod record;
mod state;
mod views;

pub use bank::{Bank, BankKind};
pub use banks::Banks;
pub use layout::{
    ADDR, BANK_ID, BANK_INFO, CONTROL, Control, INFO, RDIP, SINV, SRDP, STATUS, STRIDE, SUPPL,
    TIMESTAMP, VALID_SUMMARY, control_bits, control_of, status_bits, view_of,
    views_come_back_from_their_registers,
};
pub use state::{RecState, Staged};
pub use views::reachable_views_are_those_of_events;
