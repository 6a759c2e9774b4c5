//! What a walk wants next.

/// The entry that a walk needs, or how it ended.
#[derive(Clone, Copy, Debug, PartialEq, Eq)]
pub enum WalkStep {
    /// The page-table entry at this physical address is needed.
    Need(u64),
    /// The walk ended with this physical address.
    Done(u64),
    /// The walk ended with a page fault of this code: 12 fetch, 13 load, 15 store or AMO.
    Fault(u64),
}
