//! Where a walk stands between two entries.

/// The table whose entry comes next, or the end.
#[derive(Clone, Copy)]
pub enum Progress {
    /// An entry of the table at this physical address comes next, at this level.
    Table { level: u8, table: u64 },
    /// The translated address.
    Done(u64),
    /// A page fault.
    Fault,
}
