//! The files that a command reads.

ghost use Rattle.std.specs.Prelude.{◌≡◌, ◌≤◌, length};
ghost use Rattle.ras_cli.specs.Files.{limit_of, word_of};

use ras_words::{
    COMMANDS_LIMIT, IMAGE_LIMIT, INPUT_LIMIT, PRINTED_LIMIT, SCHEDULE_LIMIT, SCRIPT_LIMIT,
};

/// A file that a command reads.
#[derive(Clone, Copy)]
pub enum FileKind {
    Image,
    Script,
    Input,
    Schedule,
    /// The commands of the debugger.
    Commands,
    /// The file whose text `read` prints.
    Printed,
}

impl FileKind {
    /// The most bytes that it may have.
    pub fn limit(self) -> u64
        ensures { result ≡ limit_of self }
    {
        match self {
            FileKind::Image => IMAGE_LIMIT,
            FileKind::Script => SCRIPT_LIMIT,
            FileKind::Input => INPUT_LIMIT,
            FileKind::Schedule => SCHEDULE_LIMIT,
            FileKind::Commands => COMMANDS_LIMIT,
            FileKind::Printed => PRINTED_LIMIT,
        }
    }

    /// What lines call it.
    pub fn word(self) -> &'static [u8]
        ensures word { result.now ≡ word_of self }
        ensures short { length result.now ≤ 100 }
    {
        match self {
            FileKind::Image => b"image",
            FileKind::Script => b"script",
            FileKind::Input => b"input",
            FileKind::Schedule => b"schedule",
            FileKind::Commands => b"commands",
            FileKind::Printed => b"file",
        }
    }
}
