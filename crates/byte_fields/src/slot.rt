//! Slots: the named parts of a format.

/// A part of a format. A constant of this type has the name that the standard gives the part.
#[derive(Clone, Copy, Debug, PartialEq, Eq)]
pub struct Slot {
    /// The offset of its first byte, counted from the first byte of the format.
    pub offset: usize,
    /// Its length in bytes.
    pub width: usize,
}
