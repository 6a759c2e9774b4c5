//! The outside, as a trait.

ghost use Rattle.std.specs.Prelude.{◌≡◌, ℕ, ◌+◌, ◌≤◌, [], ◌∷◌, take, IfOk, OnOk, OnErr, IfSome, ◌⊎◌};
ghost use Rattle.ras_host.specs.Causes.{Rose};
ghost use Rattle.ras_host.specs.Told.{Outside, Performs, Read, Create, MissCreate, Out, Err as ErrAction, bytes_of};
ghost use Rattle.ras_host.specs.Reads.{Gets, FitsIn};

use std::alloc::Global;

/// What a read within a limit gave.
#[derive(Debug, Drop)]
pub enum Got {
    /// All bytes of the file.
    Whole(Vec<u8>),
    /// The file is longer than the limit.
    Longer,
}

/// Why a read gave nothing.
#[derive(Clone, Copy, Debug, PartialEq, Eq)]
pub enum HostError {
    /// The file could not be read; the host counted a fault.
    Failed,
    /// Want of memory.
    NoMemory,
}

/// A write failed; the host counted a fault.
#[derive(Clone, Copy, Debug, PartialEq, Eq)]
pub struct HostFault;

/// The outside: the files that are read, what is written and made, and the calls that were made.
///
/// `told` is what the host tells of them, each part optionally. `faults` counts the calls that
/// failed; it never falls, and a count at 2^64 - 1 stays there. Each call is told with its name and
/// limit, also where it fails, and leaves alone all that its clauses do not speak of.
pub trait Host {
    ghost told: { Self → Outside };

    ghost faults: { Self → ℕ };

    /// Reads the file of that name, of at most `limit` bytes.
    ///
    /// A name that the told files lack stands for an empty file.
    fn read(&mut self, alloc: Global, name: &str, limit: u64) -> Result<Got, HostError>
        ensures performs { Performs (told self.old) (told self.new) (Read name.now limit ∷ []) }
        ensures got { IfOk result (λ got. IfSome (told self.old).files (λ files. Gets (bytes_of files name.now) limit got)) }
        ensures fits { IfOk result (FitsIn limit) }
        ensures later { faults self.old ≤ faults self.new }
        ensures failed { result ≡ Err HostError.Failed → Rose (faults self.old) (faults self.new) };

    /// Makes a file of these bytes, in place of an earlier one of that name.
    ///
    /// Where it fails, the file holds a prefix of the bytes or was not made.
    fn create(&mut self, name: &str, bytes: &[u8]) -> Result<(), HostFault>
        ensures ok { OnOk result (Performs (told self.old) (told self.new) (Create name.now bytes.now ∷ [])) }
        ensures err { OnErr result (Performs (told self.old) (told self.new) (MissCreate name.now ∷ [])
            ⊎ ((n : ℕ) × Performs (told self.old) (told self.new) (Create name.now (take n bytes.now) ∷ []))) }
        ensures later { faults self.old ≤ faults self.new }
        ensures failed { OnErr result (Rose (faults self.old) (faults self.new)) };

    /// Appends the bytes to standard output; where it fails, a prefix of them.
    fn out(&mut self, bytes: &[u8]) -> Result<(), HostFault>
        ensures ok { OnOk result (Performs (told self.old) (told self.new) (Out bytes.now ∷ [])) }
        ensures err { OnErr result ((n : ℕ) × Performs (told self.old) (told self.new) (Out (take n bytes.now) ∷ [])) }
        ensures later { faults self.old ≤ faults self.new }
        ensures failed { OnErr result (Rose (faults self.old) (faults self.new)) };

    /// Appends the bytes to standard error; where it fails, a prefix of them.
    fn err(&mut self, bytes: &[u8]) -> Result<(), HostFault>
        ensures ok { OnOk result (Performs (told self.old) (told self.new) (ErrAction bytes.now ∷ [])) }
        ensures err { OnErr result ((n : ℕ) × Performs (told self.old) (told self.new) (ErrAction (take n bytes.now) ∷ [])) }
        ensures later { faults self.old ≤ faults self.new }
        ensures failed { OnErr result (Rose (faults self.old) (faults self.new)) };
}
