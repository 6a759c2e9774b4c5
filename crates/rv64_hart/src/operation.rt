//! What an instruction does to memory.

ghost use Rattle.std.specs.Prelude.{◌≡◌};
ghost use Rattle.rv64_hart.specs.Operations.{width_of, kind_of, atomic_width, atomic_load, atomic_store};

use crate::access::Width;
use ras_bits::Access;
use rv64_decode::{AmoOp, LoadOp, StoreOp};

/// An atomic memory operation.
#[derive(Clone, Copy)]
pub(crate) struct Exchange {
    pub(crate) op: AmoOp,
    pub(crate) wide: bool,
    pub(crate) rd: u8,
    pub(crate) operand: u64,
}

/// An operation on memory. `rd` is the register that gets its value, and `wide` is true for the forms of a doubleword.
#[derive(Clone, Copy)]
pub(crate) enum Operation {
    Load { op: LoadOp, rd: u8 },
    Store { op: StoreOp, value: u64 },
    LoadReserved { wide: bool, rd: u8 },
    StoreConditional { wide: bool, rd: u8, value: u64 },
    Atomic(Exchange),
}

impl Operation {
    /// How many bytes it takes.
    pub(crate) fn width(self) -> Width
        ensures { result ≡ width_of self }
    {
        match self {
            Operation::Load { op, .. } => Width::of_load(op),
            Operation::Store { op, .. } => Width::of_store(op),
            Operation::LoadReserved { wide, .. } | Operation::StoreConditional { wide, .. } => {
                atomic_width(wide)
            }
            Operation::Atomic(exchange) => atomic_width(exchange.wide),
        }
    }

    /// What its access is translated as.
    pub(crate) fn kind(self) -> Access
        ensures { result ≡ kind_of self }
    {
        match self {
            Operation::Load { .. } | Operation::LoadReserved { .. } => Access::Load,
            Operation::Store { .. } | Operation::StoreConditional { .. } | Operation::Atomic(_) =>
                Access::Store,
        }
    }
}

/// The width of an atomic operation.
pub(crate) fn atomic_width(wide: bool) -> Width
    ensures { result ≡ atomic_width wide }
{
    if wide { Width::Doubleword } else { Width::Word }
}

/// The load of an atomic operation.
pub(crate) fn atomic_load(wide: bool) -> LoadOp
    ensures { result ≡ atomic_load wide }
{
    if wide { LoadOp::Ld } else { LoadOp::Lw }
}

/// The store of an atomic operation.
pub(crate) fn atomic_store(wide: bool) -> StoreOp
    ensures { result ≡ atomic_store wide }
{
    if wide { StoreOp::Sd } else { StoreOp::Sw }
}
