//! The commands: their names, and how many words a line of each has.

ghost use Rattle.std.specs.Prelude.{◌≡◌, ◌+◌, ◌≤◌, length};
ghost use Rattle.fault_script.specs.Commands.{command_name, command_fields, command_of, command_of_act};

use crate::lines::{Act, Why};

/// The first word of a line that acts.
#[derive(Clone, Copy)]
pub(crate) enum Command {
    Flip,
    Scrub,
    Inject,
    Control,
}

impl Command {
    pub(crate) fn name(self) -> &'static [u8]
        ensures text { result.now ≡ command_name self }
        ensures short { length result.now ≤ 7 }
    {
        match self {
            Command::Flip => b"flip",
            Command::Scrub => b"scrub",
            Command::Inject => b"inject",
            Command::Control => b"control",
        }
    }

    /// How many words a line has: the name, the step and the fields.
    pub(crate) fn word_count(self) -> usize
        ensures { result ≡ length (command_fields self) + 2 }
    {
        match self {
            Command::Flip => 4,
            Command::Scrub => 3,
            Command::Inject => 7,
            Command::Control => 5,
        }
    }

    /// The command that a word names.
    #[tactic(auto, unfolding(crate::specs::Commands::command_of))]
    pub(crate) fn named(word: &[u8]) -> Result<Command, Why>
        ensures { result ≡ command_of word.now }
    {
        if word == Command::Flip.name() {
            Ok(Command::Flip)
        } else if word == Command::Scrub.name() {
            Ok(Command::Scrub)
        } else if word == Command::Inject.name() {
            Ok(Command::Inject)
        } else if word == Command::Control.name() {
            Ok(Command::Control)
        } else {
            Err(Why::Word)
        }
    }

    /// The command of a line with this act.
    pub(crate) fn of(act: &Act) -> Command
        ensures { result ≡ command_of_act act.now }
    {
        match act {
            Act::Flip { .. } => Command::Flip,
            Act::Scrub { .. } => Command::Scrub,
            Act::Inject { .. } => Command::Inject,
            Act::Control { .. } => Command::Control,
        }
    }
}
