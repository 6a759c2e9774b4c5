//! The supervisor's registers, with trap entry and return and the interrupts (RISC-V privileged manual,
//! "Supervisor-Level ISA").
//!
//! The registers are sstatus, sie, stvec, scounteren, sscratch, sepc, scause, stval, sip and satp, and the
//! counters cycle, time and instret. Beside them stand the timer that the firmware sets and the number of
//! retired instructions. Exceptions and interrupts all go to S mode. No call of this crate takes memory.
#![tactic(auto)]

mod csrs;
mod interrupt;
mod parts;
mod status;
mod table;

pub use csrs::Csrs;
pub use parts::CsrParts;
