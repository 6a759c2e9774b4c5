//! The commands, their names and their words, and why a line is refused.

ghost use Rattle.std.specs.Prelude.{◌≡◌, ◌≤◌, length};
ghost use Rattle.ras_debug.specs.Commands.{command_name, command_of, why_text, word_count};

/// The first word of a line.
#[derive(Clone, Copy)]
pub(crate) enum Command {
    Step,
    Run,
    Break,
    Regs,
    Mem,
    Poison,
    Bank,
    List,
    Quit,
}

/// Why a line is refused, in the order in which it is tested.
#[derive(Clone, Copy)]
pub(crate) enum Why {
    /// A byte is neither printable ASCII, a space nor a tab.
    Bytes,
    /// The first word is no command.
    Word,
    /// The command has another number of words.
    Count,
    /// A field is no number.
    Number,
    /// An address isn't aligned, or not in RAM.
    Address,
    /// A number is outside its bounds, or more is asked for than RAM has.
    Range,
    /// There is no room for a further breakpoint.
    Full,
}

impl Command {
    fn name(self) -> &'static [u8]
        ensures { result.now ≡ command_name self }
    {
        match self {
            Command::Step => b"step",
            Command::Run => b"run",
            Command::Break => b"break",
            Command::Regs => b"regs",
            Command::Mem => b"mem",
            Command::Poison => b"poison",
            Command::Bank => b"bank",
            Command::List => b"list",
            Command::Quit => b"quit",
        }
    }

    /// How many words a line of it has, with the name.
    pub(crate) fn word_count(self) -> usize
        ensures { result ≡ word_count self }
    {
        match self {
            Command::Step => 2,
            Command::Run => 1,
            Command::Break => 2,
            Command::Regs => 1,
            Command::Mem => 3,
            Command::Poison => 1,
            Command::Bank => 2,
            Command::List => 3,
            Command::Quit => 1,
        }
    }

    /// The command that a word names.
    #[tactic(auto, unfolding(crate::specs::Commands::command_of))]
    pub(crate) fn named(word: &[u8]) -> Result<Command, Why>
        ensures { result ≡ command_of word.now }
    {
        if word == Command::Step.name() {
            Ok(Command::Step)
        } else if word == Command::Run.name() {
            Ok(Command::Run)
        } else if word == Command::Break.name() {
            Ok(Command::Break)
        } else if word == Command::Regs.name() {
            Ok(Command::Regs)
        } else if word == Command::Mem.name() {
            Ok(Command::Mem)
        } else if word == Command::Poison.name() {
            Ok(Command::Poison)
        } else if word == Command::Bank.name() {
            Ok(Command::Bank)
        } else if word == Command::List.name() {
            Ok(Command::List)
        } else if word == Command::Quit.name() {
            Ok(Command::Quit)
        } else {
            Err(Why::Word)
        }
    }
}

impl Why {
    pub(crate) fn text(self) -> &'static [u8]
        ensures text { result.now ≡ why_text self }
        ensures short { length result.now ≤ 7 }
    {
        match self {
            Why::Bytes => b"bytes",
            Why::Word => b"word",
            Why::Count => b"count",
            Why::Number => b"number",
            Why::Address => b"address",
            Why::Range => b"range",
            Why::Full => b"full",
        }
    }
}
