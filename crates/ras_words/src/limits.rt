//! The limits of the files that a command reads, and the ranges and defaults of the numbers that options
//! give.

use clap_words::Limit;
use ras_bits::LAST_STEP;

/// The most bytes of an image.
pub const IMAGE_LIMIT: u64 = 83_886_080;

/// The most bytes of a script.
pub const SCRIPT_LIMIT: u64 = 4_194_304;

/// The most bytes of an input.
pub const INPUT_LIMIT: u64 = 16_777_216;

/// The most bytes of a schedule.
pub const SCHEDULE_LIMIT: u64 = 16_777_216;

/// The most bytes of a file of the debugger's commands.
pub const COMMANDS_LIMIT: u64 = 1_048_576;

/// The most bytes of a file that is printed.
pub const PRINTED_LIMIT: u64 = 16_777_216;

/// How many steps a run may take where `--budget` is not given; the most is [`LAST_STEP`].
pub const DEFAULT_BUDGET: u64 = 10_000_000;

/// The least size of RAM, in units of 2^20 bytes.
pub const LEAST_RAM_MIB: u64 = 1;

/// The greatest size of RAM, in units of 2^20 bytes.
pub const MOST_RAM_MIB: u64 = 64;

/// The size of RAM where `--ram-mib` is not given, in units of 2^20 bytes.
pub const DEFAULT_RAM_MIB: u64 = 16;

/// The most harts.
pub const MOST_HARTS: u64 = 4;

/// How many harts there are where `--harts` is not given, and the least.
pub const DEFAULT_HARTS: u64 = 1;

/// The steps from one drain of the error records to the next where `--poll` is not given.
pub const DEFAULT_POLL: u64 = 1_000;

/// The steps from one patrol scrub to the next where `--patrol` is not given.
pub const DEFAULT_PATROL: u64 = 64;

/// How many steps a run may take.
pub(crate) const STEPS: Limit = Limit {
    least: 0,
    most: LAST_STEP,
    default: DEFAULT_BUDGET,
};

/// The size of RAM, in units of 2^20 bytes.
pub(crate) const RAM_SIZE: Limit = Limit {
    least: LEAST_RAM_MIB,
    most: MOST_RAM_MIB,
    default: DEFAULT_RAM_MIB,
};

/// How many harts there are.
pub(crate) const HART_COUNT: Limit = Limit {
    least: DEFAULT_HARTS,
    most: MOST_HARTS,
    default: DEFAULT_HARTS,
};

/// The steps from one drain to the next; 0 for none. It is not 1, since a drain takes two steps.
pub(crate) const DRAIN_STEPS: Limit = Limit {
    least: 0,
    most: LAST_STEP,
    default: DEFAULT_POLL,
};

/// The steps from one patrol scrub to the next; 0 for none.
pub(crate) const PATROL_STEPS: Limit = Limit {
    least: 0,
    most: LAST_STEP,
    default: DEFAULT_PATROL,
};
