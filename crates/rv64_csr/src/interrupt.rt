//! The interrupts of S mode.

ghost use Rattle.std.specs.Prelude.{◌≡◌, ◌<◌};
ghost use Rattle.rv64_csr.specs.Interrupt.{interrupt_number, cause_of};

/// Set in scause for an interrupt, clear for an exception.
const INTERRUPT: u64 = 1 << 63;

/// An interrupt of S mode.
#[derive(Clone, Copy)]
pub enum Interrupt {
    /// Supervisor external interrupt, SEI.
    External,
    /// Supervisor software interrupt, SSI.
    Software,
    /// Supervisor timer interrupt, STI.
    Timer,
}

impl Interrupt {
    /// Its exception code, which is its bit in sie and sip.
    pub fn number(self) -> u32
        ensures value { result ≡ interrupt_number self }
        ensures below { result < 64 }
    {
        match self {
            Interrupt::External => 9,
            Interrupt::Software => 1,
            Interrupt::Timer => 5,
        }
    }

    /// Its value in scause.
    pub fn cause(self) -> u64
        ensures { result ≡ cause_of self }
    {
        INTERRUPT + self.number() as u64
    }
}
