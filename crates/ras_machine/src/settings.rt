//! What a machine is made with.

/// The most harts.
pub const MOST_HARTS: u8 = 4;

/// The size of RAM and the intervals and limits of a run.
#[derive(Clone, Copy, Debug, PartialEq, Eq)]
pub struct Settings {
    /// The RAM in MiB, from 1 to 64.
    pub ram_mib: u32,
    /// How many harts there are, from 1 to [`MOST_HARTS`].
    pub harts: u8,
    /// The steps from one drain of the error records to the next, at least 2; 0 for no drain.
    pub poll: u64,
    /// The steps from one patrol scrub to the next; 0 for no patrol.
    pub patrol: u64,
    /// The most steps of a run, at most [`ras_bits::LAST_STEP`].
    pub budget: u64,
}
