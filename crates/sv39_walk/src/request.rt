//! What a walk is asked to translate.

use ras_bits::{Access, Mode};

/// An access to a virtual address, and what counts for its permission.
#[derive(Clone, Copy)]
pub struct Request {
    /// The virtual address.
    pub va: u64,
    /// What the access does.
    pub kind: Access,
    /// The mode that the access is made in.
    pub mode: Mode,
    /// SUM of sstatus: S mode may load and store in pages of U mode.
    pub sum: bool,
    /// MXR of sstatus: loads may read executable pages.
    pub mxr: bool,
}
