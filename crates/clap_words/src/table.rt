//! The table of a command: its plain words and its options.

/// The least and the most that a number may be, and what it is where no option gives it.
#[derive(Clone, Copy)]
pub struct Limit {
    pub least: u64,
    pub most: u64,
    pub default: u64,
}

/// What an option has for a value.
#[derive(Clone, Copy)]
pub enum Kind {
    /// None: the option is given or not.
    Flag,
    /// A text, which is not empty.
    Text,
    /// A number within its limits.
    Number(Limit),
}

/// An option, by its whole name.
#[derive(Clone, Copy)]
pub struct OptionRow {
    pub name: &'static str,
    pub kind: Kind,
}

/// The plain words of a command, each of which has to be there, and its options. No two have the same
/// name.
#[derive(Clone, Copy)]
pub struct Table {
    pub plain: &'static [&'static str],
    pub options: &'static [OptionRow],
}
