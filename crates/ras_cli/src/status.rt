//! How the program ends.

ghost use Rattle.std.specs.Prelude.{◌≡◌};
ghost use Rattle.ras_cli.specs.Status.{code_of};

/// The status of the program.
#[derive(Clone, Copy, Debug, PartialEq, Eq)]
pub struct Status {
    pub code: u8,
}

/// Why the program ends.
#[derive(Clone, Copy)]
pub enum Exit {
    /// What was asked for was done.
    Ended,
    /// The words ask for nothing.
    Usage,
    /// A file is refused.
    Refused,
    /// A call of the host failed.
    HostFailed,
    /// Want of memory.
    NoMemory,
    /// The run stopped at an error.
    StoppedAtError,
    /// What the run shows is not what the flat machine's shows, and no error was seen.
    Silent,
}

impl Exit {
    /// Its status.
    pub fn status(self) -> Status
        ensures { result.code ≡ code_of self }
    {
        let code = match self {
            Exit::Ended => 0,
            Exit::Usage => 1,
            Exit::Refused => 2,
            Exit::HostFailed => 3,
            Exit::NoMemory => 4,
            Exit::StoppedAtError => 5,
            Exit::Silent => 6,
        };
        Status { code }
    }
}
