//! How a step ends.

ghost use Rattle.std.specs.Prelude.{◌≡◌};
ghost use Rattle.rv64_hart.specs.declared.ends.TurnEnd.TheVariants.{Poisoned};

use poison_mem::UseKind;
use sbi_calls::GuestStop;

/// What a step does to harts beside its own turn.
#[derive(Clone, Copy, Debug, PartialEq, Eq)]
pub enum Effect {
    Nothing,
    /// Another hart is started at an address, a multiple of 4 in RAM, with a value in a1.
    Start { hart: u8, entry: u64, opaque: u64 },
    /// The hart of the step is stopped.
    StopSelf,
    /// SSIP is set in sip of these harts, bit i for hart i.
    Ipi(u8),
}

/// How a step ends.
#[derive(Clone, Copy, Debug, PartialEq, Eq)]
pub enum TurnEnd {
    /// One step was made. Its effect on harts is still to be done.
    Went(Effect),
    /// The program stopped in this step: at a call that stops it, or because the step would bring the
    /// console over 1,048,576 bytes. In the second case hart, place and console are as before, and
    /// nothing was stored.
    Stop(GuestStop),
    /// The step asked for word `w`, and the bus answered poison. It is the first such word. Hart, place
    /// and console are as before, and nothing was stored.
    Poisoned { w: u32, use_kind: UseKind },
}

/// The end of a step that asked for word `w` and got poison.
pub(crate) fn poisoned(w: u32, use_kind: UseKind) -> TurnEnd
    ensures { result ≡ Poisoned w use_kind }
{
    TurnEnd::Poisoned { w, use_kind }
}
