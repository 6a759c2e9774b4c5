//! What a line of a script says, and why one is refused.

ghost use Rattle.std.specs.Prelude.{◌≡◌};
ghost use Rattle.fault_script.specs.declared.lines.ScriptError.TheVariants.{NoMemory};

use poison_mem::Class;
use std::alloc::{AllocError, AllocFailed};
use thiserror::Error;

/// How many lines of a script may act.
pub(crate) const MOST_LINES: usize = 65_536;

/// What a line of a script does.
#[derive(Clone, Copy, Debug, PartialEq)]
pub enum Act {
    /// Bit `bit` of the codeword of word `w` is turned: 0 to 63 are the word's own bits, 64 to 71 its
    /// check bits.
    Flip {
        w: u32,
        bit: u8,
    },
    /// Word `w` is read, and written back where it is good, so that its flips are gone.
    Scrub {
        w: u32,
    },
    /// An error of this class is staged in record `rec` of bank `bank`, to be logged `delay` steps later
    /// as one of the word at the address `addr`. Banks and their records are 0 and 1, the delay is 1 to
    /// 65,535, and the address is a multiple of 8 in RAM.
    Inject {
        bank: u8,
        rec: u8,
        class: Class,
        delay: u16,
        addr: u64,
    },
    /// The low half of the control register of record `rec` of bank `bank` is written with `value`.
    Control {
        bank: u8,
        rec: u8,
        value: u8,
    },
}

/// An act and the step before which it is done.
#[derive(Clone, Copy, Debug, PartialEq)]
pub struct ScriptLine {
    /// The number of completed steps at which the act is due: 0 to 1,000,000,000.
    pub step: u64,
    /// What is done.
    pub act: Act,
}

/// Why a line is refused.
#[derive(Clone, Copy, Debug, PartialEq)]
pub enum Why {
    /// A byte is neither printable ASCII, a space nor a tab. Comments are tested too.
    Bytes,
    /// The first word is no command.
    Word,
    /// The command has another number of words.
    Count,
    /// A field that must be a number isn't one below 2^64, or a control value is above 255.
    Number,
    /// The address is not a multiple of 8 or not in RAM.
    Address,
    /// The bit is above 71.
    Bit,
    /// The bank or the record is above 1.
    Bank,
    /// The class is none of `ce`, `ued` and `uec`.
    Class,
    /// The delay is 0 or above 65,535.
    Delay,
    /// The step is above 1,000,000,000.
    Step,
    /// 65,536 lines that act stand before this one.
    TooMany,
}

/// Why a text gave no script.
#[derive(Clone, Copy, Debug, PartialEq, Error)]
pub enum ScriptError {
    /// The first line that is refused, counted from 1, and the first cause that it gives.
    #[error("line {line}: {why:?}")]
    Refused { line: u32, why: Why },
    /// Memory ran out.
    #[error("out of memory")]
    NoMemory,
}

impl From<AllocError> for ScriptError {
    ghost from_gives = { λ _ e. e ≡ NoMemory };

    fn from(_refused: AllocError) -> ScriptError {
        ScriptError::NoMemory
    }
}

impl<T: Drop> From<AllocFailed<T>> for ScriptError {
    ghost from_gives = { λ _ e. e ≡ NoMemory };

    fn from(_refused: AllocFailed<T>) -> ScriptError {
        ScriptError::NoMemory
    }
}
