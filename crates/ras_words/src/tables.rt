//! The tables of the commands: their plain words and their options.

use crate::limits::{DRAIN_STEPS, HART_COUNT, PATROL_STEPS, RAM_SIZE, STEPS};
use clap_words::{Kind, OptionRow, Table};

/// The image is raw bytes.
pub(crate) const RAW: OptionRow = OptionRow {
    name: "raw",
    kind: Kind::Flag,
};

/// The file of the script.
pub(crate) const SCRIPT: OptionRow = OptionRow {
    name: "script",
    kind: Kind::Text,
};

/// The file of the input.
pub(crate) const INPUT: OptionRow = OptionRow {
    name: "input",
    kind: Kind::Text,
};

/// The most steps.
pub(crate) const BUDGET: OptionRow = OptionRow {
    name: "budget",
    kind: Kind::Number(STEPS),
};

/// The size of RAM.
pub(crate) const RAM_MIB: OptionRow = OptionRow {
    name: "ram-mib",
    kind: Kind::Number(RAM_SIZE),
};

/// The steps from one drain of the error records to the next.
pub(crate) const POLL: OptionRow = OptionRow {
    name: "poll",
    kind: Kind::Number(DRAIN_STEPS),
};

/// The steps from one patrol scrub to the next.
pub(crate) const PATROL: OptionRow = OptionRow {
    name: "patrol",
    kind: Kind::Number(PATROL_STEPS),
};

/// How many harts there are.
pub(crate) const HARTS: OptionRow = OptionRow {
    name: "harts",
    kind: Kind::Number(HART_COUNT),
};

/// The file of the schedule.
pub(crate) const SCHEDULE: OptionRow = OptionRow {
    name: "schedule",
    kind: Kind::Text,
};

/// The file that the error records are written to.
pub(crate) const RECORDS: OptionRow = OptionRow {
    name: "records",
    kind: Kind::Text,
};

/// The file that firmware's memory is written to.
pub(crate) const TABLES: OptionRow = OptionRow {
    name: "tables",
    kind: Kind::Text,
};

/// The file of the image, a plain word.
pub(crate) const IMAGE: &str = "image";

/// The file of the debugger's commands, a plain word.
pub(crate) const COMMANDS: &str = "commands";

/// The file that is printed, a plain word.
pub(crate) const FILE: &str = "file";

/// The number of the demo workload, a plain word.
pub(crate) const NUMBER: &str = "number";

/// The command `run`.
pub(crate) const RUN: Table = Table {
    plain: &[IMAGE],
    options: &[
        RAW, SCRIPT, INPUT, BUDGET, RAM_MIB, POLL, PATROL, HARTS, SCHEDULE, RECORDS, TABLES,
    ],
};

/// The command `compare`.
pub(crate) const COMPARE: Table = Table {
    plain: &[IMAGE],
    options: &[
        RAW, SCRIPT, INPUT, BUDGET, RAM_MIB, POLL, PATROL, HARTS, SCHEDULE,
    ],
};

/// The command `debug`.
pub(crate) const DEBUG: Table = Table {
    plain: &[IMAGE, COMMANDS],
    options: &[
        RAW, SCRIPT, INPUT, BUDGET, RAM_MIB, POLL, PATROL, HARTS, SCHEDULE,
    ],
};

/// The command `read`.
pub(crate) const READ: Table = Table {
    plain: &[FILE],
    options: &[],
};

/// The command `demo`.
pub(crate) const DEMO: Table = Table {
    plain: &[NUMBER],
    options: &[],
};
