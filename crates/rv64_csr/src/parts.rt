//! The register file as plain numbers.

/// Each register's value, as a snapshot keeps it.
#[derive(Clone, Copy, Debug, PartialEq, Eq)]
pub struct CsrParts {
    /// sstatus as it reads, with UXL 2.
    pub sstatus: u64,
    /// sie: bits 1, 5 and 9 alone.
    pub sie: u64,
    /// stvec: bit 1 is 0.
    pub stvec: u64,
    /// scounteren: bits 0, 1 and 2 alone.
    pub scounteren: u64,
    /// sscratch.
    pub sscratch: u64,
    /// sepc: bits 1:0 are 0.
    pub sepc: u64,
    /// scause.
    pub scause: u64,
    /// stval.
    pub stval: u64,
    /// SSIP of sip, in its place: 0 or 2.
    pub ssip: u64,
    /// satp: MODE is 0 or 8.
    pub satp: u64,
    /// The step from which on STIP is set.
    pub timer: u64,
    /// The number of retired instructions, modulo 2^64.
    pub retired: u64,
}
