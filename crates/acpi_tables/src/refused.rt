//! Why a table or a status block is refused.

/// The first rule that a table or a status block breaks, in the order of a reader's tests.
#[derive(Clone, Copy, Debug, PartialEq, Eq)]
pub enum TableRefused {
    /// There are fewer bytes than the least table or block has.
    Short,
    /// The table has another signature.
    Signature,
    /// The length is below the least one or passes the bytes. Of a block: the data pass the bytes, there are more than 16
    /// entries, or data is left behind the last.
    Length,
    /// The bytes of the table don't sum to 0 modulo 256.
    Sum,
    /// The error source of this number, counted from 0, is no generic one or passes the table's end.
    Source(u32),
    /// The entry of this number, counted from 0, or its section passes the end of the data.
    Entry(u32),
}
