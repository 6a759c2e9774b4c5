//! Exceptions (privileged manual, "Supervisor Cause Register").

ghost use Rattle.std.specs.Prelude.{◌≡◌};
ghost use Rattle.sv39_walk.specs.Walking.{page_fault as walk_fault};
ghost use Rattle.rv64_hart.specs.Traps.{code_of, misaligned, access_fault, page_fault, raised, illegal};

use crate::hart::Hart;
use ras_bits::Access;

/// An exception.
#[derive(Clone, Copy)]
pub(crate) enum Exception {
    InstructionAddressMisaligned,
    InstructionAccessFault,
    IllegalInstruction,
    Breakpoint,
    LoadAddressMisaligned,
    LoadAccessFault,
    /// A store, SC or atomic memory operation whose address is no multiple of its width.
    StoreAddressMisaligned,
    /// A store, SC or atomic memory operation outside RAM.
    StoreAccessFault,
    EnvironmentCallFromUser,
    InstructionPageFault,
    LoadPageFault,
    /// A store, SC or atomic memory operation at an address without a translation for it.
    StorePageFault,
}

impl Exception {
    /// The exception code.
    pub(crate) fn code(self) -> u64
        ensures { result ≡ code_of self }
    {
        match self {
            Exception::InstructionAddressMisaligned => 0,
            Exception::InstructionAccessFault => 1,
            Exception::IllegalInstruction => 2,
            Exception::Breakpoint => 3,
            Exception::LoadAddressMisaligned => 4,
            Exception::LoadAccessFault => 5,
            Exception::StoreAddressMisaligned => 6,
            Exception::StoreAccessFault => 7,
            Exception::EnvironmentCallFromUser => 8,
            Exception::InstructionPageFault => 12,
            Exception::LoadPageFault => 13,
            Exception::StorePageFault => 15,
        }
    }

    /// The exception of an access that isn't aligned.
    pub(crate) fn misaligned(kind: Access) -> Exception
        ensures { result ≡ misaligned kind }
    {
        match kind {
            Access::Fetch => Exception::InstructionAddressMisaligned,
            Access::Load => Exception::LoadAddressMisaligned,
            Access::Store => Exception::StoreAddressMisaligned,
        }
    }

    /// The exception of an access to an address that isn't in RAM.
    pub(crate) fn access_fault(kind: Access) -> Exception
        ensures { result ≡ access_fault kind }
    {
        match kind {
            Access::Fetch => Exception::InstructionAccessFault,
            Access::Load => Exception::LoadAccessFault,
            Access::Store => Exception::StoreAccessFault,
        }
    }

    /// The exception of an access that no translation permits. Its code is the walk's.
    pub(crate) fn page_fault(kind: Access) -> Exception
        ensures value { result ≡ page_fault kind }
        ensures code { code_of result ≡ walk_fault kind }
    {
        match kind {
            Access::Fetch => Exception::InstructionPageFault,
            Access::Load => Exception::LoadPageFault,
            Access::Store => Exception::StorePageFault,
        }
    }
}

impl Hart {
    /// Enters the trap of an exception, with this value in stval.
    pub(crate) fn raise(&mut self, exception: Exception, tval: u64)
        ensures { self.new ≡ raised self.old exception tval }
    {
        self.trap(exception.code(), tval);
    }

    /// Enters the trap of an illegal instruction, whose bits stval gets.
    pub(crate) fn raise_illegal(&mut self, word: u32)
        ensures { self.new ≡ illegal self.old word }
    {
        self.raise(Exception::IllegalInstruction, u64::from(word));
    }
}
