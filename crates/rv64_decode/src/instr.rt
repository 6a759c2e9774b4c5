//! The instructions of RV64IMA with their operands (unprivileged manual, chapters "RV32I", "RV64I", "Zifencei",
//! "Zicsr", "M" and "A"; privileged manual for SRET, WFI and SFENCE.VMA).

/// An operation on whole registers.
#[derive(Clone, Copy, Debug, PartialEq, Eq)]
pub enum AluOp {
    Add,
    Sub,
    Sll,
    Slt,
    Sltu,
    Xor,
    Srl,
    Sra,
    Or,
    And,
}

/// An operation on the low 32 bits of registers.
#[derive(Clone, Copy, Debug, PartialEq, Eq)]
pub enum AluWOp {
    Addw,
    Subw,
    Sllw,
    Srlw,
    Sraw,
}

/// A multiplication, division or remainder; the names that end in `w` work on the low 32 bits.
#[derive(Clone, Copy, Debug, PartialEq, Eq)]
pub enum MulOp {
    Mul,
    Mulh,
    Mulhsu,
    Mulhu,
    Div,
    Divu,
    Rem,
    Remu,
    Mulw,
    Divw,
    Divuw,
    Remw,
    Remuw,
}

/// The condition of a branch.
#[derive(Clone, Copy, Debug, PartialEq, Eq)]
pub enum BranchOp {
    Beq,
    Bne,
    Blt,
    Bge,
    Bltu,
    Bgeu,
}

/// The width of a load, and whether its sign is extended.
#[derive(Clone, Copy, Debug, PartialEq, Eq)]
pub enum LoadOp {
    Lb,
    Lh,
    Lw,
    Ld,
    Lbu,
    Lhu,
    Lwu,
}

/// The width of a store.
#[derive(Clone, Copy, Debug, PartialEq, Eq)]
pub enum StoreOp {
    Sb,
    Sh,
    Sw,
    Sd,
}

/// An access to a control and status register: read and write, set or clear; the names that end in `i` take an
/// immediate.
#[derive(Clone, Copy, Debug, PartialEq, Eq)]
pub enum CsrOp {
    Rw,
    Rs,
    Rc,
    Rwi,
    Rsi,
    Rci,
}

/// The operation of an atomic memory operation.
#[derive(Clone, Copy, Debug, PartialEq, Eq)]
pub enum AmoOp {
    Swap,
    Add,
    Xor,
    And,
    Or,
    Min,
    Max,
    Minu,
    Maxu,
}

/// An instruction with its operands, or a word that is none.
///
/// A field `rd`, `rs1` or `rs2` is the number of a register, below 32.
#[derive(Clone, Copy, Debug, PartialEq, Eq)]
pub enum Instr {
    /// `imm` is bits 31:12, below 2^20.
    Lui {
        rd: u8,
        imm: u32,
    },
    /// `imm` is bits 31:12, below 2^20.
    Auipc {
        rd: u8,
        imm: u32,
    },
    /// `off` is even, from -2^20 to 2^20 - 2.
    Jal {
        rd: u8,
        off: i32,
    },
    /// `imm` is from -2048 to 2047.
    Jalr {
        rd: u8,
        rs1: u8,
        imm: i16,
    },
    /// `off` is even, from -4096 to 4094.
    Branch {
        op: BranchOp,
        rs1: u8,
        rs2: u8,
        off: i16,
    },
    /// `imm` is from -2048 to 2047.
    Load {
        op: LoadOp,
        rd: u8,
        rs1: u8,
        imm: i16,
    },
    /// `imm` is from -2048 to 2047.
    Store {
        op: StoreOp,
        rs1: u8,
        rs2: u8,
        imm: i16,
    },
    /// `op` isn't `Sub`. `imm` is from 0 to 63 for `Sll`, `Srl` and `Sra`, else from -2048 to 2047.
    AluImm {
        op: AluOp,
        rd: u8,
        rs1: u8,
        imm: i16,
    },
    /// `op` isn't `Subw`. `imm` is from -2048 to 2047 for `Addw`, else from 0 to 31.
    AluWImm {
        op: AluWOp,
        rd: u8,
        rs1: u8,
        imm: i16,
    },
    /// Two registers, on whole registers.
    Alu {
        op: AluOp,
        rd: u8,
        rs1: u8,
        rs2: u8,
    },
    /// Two registers, on the low 32 bits.
    AluW {
        op: AluWOp,
        rd: u8,
        rs1: u8,
        rs2: u8,
    },
    /// Two registers, of the M extension.
    Mul {
        op: MulOp,
        rd: u8,
        rs1: u8,
        rs2: u8,
    },
    /// `imm` is bits 31:20, below 4096. All operands are free.
    Fence {
        rd: u8,
        rs1: u8,
        imm: u16,
    },
    /// `imm` is bits 31:20, below 4096. All operands are free.
    FenceI {
        rd: u8,
        rs1: u8,
        imm: u16,
    },
    /// The environment call.
    Ecall,
    /// The breakpoint.
    Ebreak,
    /// Return from a trap that was taken in S mode.
    Sret,
    /// Wait for an interrupt.
    Wfi,
    /// The address and the address space whose translations are ordered.
    SfenceVma {
        rs1: u8,
        rs2: u8,
    },
    /// `csr` is the register's number, below 4096. `src` is below 32: a register, or the immediate of `Rwi`, `Rsi` and
    /// `Rci`.
    Csr {
        op: CsrOp,
        rd: u8,
        csr: u16,
        src: u8,
    },
    /// `wide` is true for .D, and `aq` and `rl` are the ordering bits, here and below.
    LoadReserved {
        wide: bool,
        aq: bool,
        rl: bool,
        rd: u8,
        rs1: u8,
    },
    /// Stores where the reservation holds.
    StoreCond {
        wide: bool,
        aq: bool,
        rl: bool,
        rd: u8,
        rs1: u8,
        rs2: u8,
    },
    /// Reads, computes and writes one word or doubleword.
    Amo {
        op: AmoOp,
        wide: bool,
        aq: bool,
        rl: bool,
        rd: u8,
        rs1: u8,
        rs2: u8,
    },
    /// The word fits no row.
    Illegal(u32),
}
