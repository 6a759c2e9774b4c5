//! The table of registers.

ghost use Rattle.std.specs.Prelude.{◌≡◌, ◌==◌};
ghost use Rattle.std.specs.List.{find};
ghost use Rattle.rv64_csr.specs.Table.{supervisor, counter, csr_row, csr_at, holds, is_open_to, is_read_only};

use ras_bits::Mode;

/// A register that a hart in S or U mode may name.
#[derive(Clone, Copy)]
pub enum Register {
    Sstatus,
    Sie,
    Stvec,
    Scounteren,
    Sscratch,
    Sepc,
    Scause,
    Stval,
    Sip,
    Satp,
    Cycle,
    Time,
    Instret,
}

/// Who may use a register.
#[derive(Clone, Copy)]
pub enum Permission {
    /// S mode alone, which may write it too.
    SupervisorOnly,
    /// A read-only counter, for S mode, and for U mode where one of these bits of scounteren is set.
    Counter(u64),
}

/// What the table says of a register.
#[derive(Clone, Copy)]
pub struct Row {
    /// The register's number in an instruction.
    pub number: u16,
    /// The bits that a write may change. Of a register that is kept as a number it holds no others.
    pub writable: u64,
    /// Who may use it.
    pub permission: Permission,
}

const ALL: u64 = u64::MAX;

const REGISTERS: [Register; 13] = [
    Register::Sstatus,
    Register::Sie,
    Register::Stvec,
    Register::Scounteren,
    Register::Sscratch,
    Register::Sepc,
    Register::Scause,
    Register::Stval,
    Register::Sip,
    Register::Satp,
    Register::Cycle,
    Register::Time,
    Register::Instret,
];

impl Row {
    fn supervisor(number: u16, writable: u64) -> Row
        ensures { result ≡ supervisor number writable }
    {
        Row {
            number,
            writable,
            permission: Permission::SupervisorOnly,
        }
    }

    fn counter(number: u16, opens: u64) -> Row
        ensures { result ≡ counter number opens }
    {
        Row {
            number,
            writable: 0,
            permission: Permission::Counter(opens),
        }
    }
}

impl Register {
    /// Its row of the table of registers.
    pub fn row(self) -> Row
        ensures { result ≡ csr_row self }
    {
        match self {
            Register::Sstatus => Row::supervisor(0x100, 0xC_0122),
            Register::Sie => Row::supervisor(0x104, 0x222),
            Register::Stvec => Row::supervisor(0x105, ALL - 2),
            Register::Scounteren => Row::supervisor(0x106, 7),
            Register::Sscratch => Row::supervisor(0x140, ALL),
            Register::Sepc => Row::supervisor(0x141, ALL - 3),
            Register::Scause => Row::supervisor(0x142, ALL),
            Register::Stval => Row::supervisor(0x143, ALL),
            Register::Sip => Row::supervisor(0x144, 2),
            Register::Satp => Row::supervisor(0x180, ALL),
            Register::Cycle => Row::counter(0xC00, 1),
            Register::Time => Row::counter(0xC01, 2),
            Register::Instret => Row::counter(0xC02, 4),
        }
    }

    /// Whether the register can hold this value.
    pub fn holds(self, v: u64) -> bool
        ensures { result ≡ holds self v }
    {
        v & self.row().writable == v
    }

    /// The register of a number.
    #[tactic(auto, unfolding(crate::specs::Table::csr_at))]
    pub fn at(number: u16) -> Option<Register>
        ensures { result ≡ csr_at number }
    {
        register_in(&REGISTERS, number)
    }
}

fn register_in(registers: &[Register], number: u16) -> Option<Register>
    ensures { result ≡ find (λ register. (csr_row register).number == number) registers.now }
{
    registers
        .iter()
        .copied()
        .find(|register| register.row().number == number)
}

impl Permission {
    /// Whether a hart in this mode may use the register.
    pub fn is_open_to(self, mode: Mode, scounteren: u64) -> bool
        ensures { result ≡ is_open_to self mode scounteren }
    {
        match (mode, self) {
            (Mode::Supervisor, _) => true,
            (Mode::User, Permission::SupervisorOnly) => false,
            (Mode::User, Permission::Counter(opens)) => scounteren & opens != 0,
        }
    }

    pub fn is_read_only(self) -> bool
        ensures { result ≡ is_read_only self }
    {
        match self {
            Permission::SupervisorOnly => false,
            Permission::Counter(_) => true,
        }
    }
}
