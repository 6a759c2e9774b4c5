//! The names of registers and instructions (unprivileged manual, "RISC-V Assembly Programmer's Handbook" and the
//! listings).

ghost use Rattle.std.specs.Prelude.{◌≡◌, ◌<◌, ◌≤◌, length};
ghost use Rattle.rv64_text.specs.Names.{register_name, branch_name, load_name, store_name, imm_name, imm_w_name, alu_name, alu_w_name, mul_name, csr_name, amo_name, width, ordering};

use rv64_decode::{AluOp, AluWOp, AmoOp, BranchOp, CsrOp, LoadOp, MulOp, StoreOp};

/// The name of a register in the calling convention.
pub fn register_name(n: u8) -> &'static str
    requires { n < 32 }
    ensures name { result.now ≡ register_name n }
    ensures short { length result.now ≤ 4 }
{
    match n {
        0 => "zero",
        1 => "ra",
        2 => "sp",
        3 => "gp",
        4 => "tp",
        5 => "t0",
        6 => "t1",
        7 => "t2",
        8 => "s0",
        9 => "s1",
        10 => "a0",
        11 => "a1",
        12 => "a2",
        13 => "a3",
        14 => "a4",
        15 => "a5",
        16 => "a6",
        17 => "a7",
        18 => "s2",
        19 => "s3",
        20 => "s4",
        21 => "s5",
        22 => "s6",
        23 => "s7",
        24 => "s8",
        25 => "s9",
        26 => "s10",
        27 => "s11",
        28 => "t3",
        29 => "t4",
        30 => "t5",
        _ => "t6",
    }
}

/// The name of a branch.
pub fn branch_name(op: BranchOp) -> &'static str
    ensures name { result.now ≡ branch_name op }
    ensures short { length result.now ≤ 4 }
{
    match op {
        BranchOp::Beq => "beq",
        BranchOp::Bne => "bne",
        BranchOp::Blt => "blt",
        BranchOp::Bge => "bge",
        BranchOp::Bltu => "bltu",
        BranchOp::Bgeu => "bgeu",
    }
}

/// The name of a load.
pub fn load_name(op: LoadOp) -> &'static str
    ensures name { result.now ≡ load_name op }
    ensures short { length result.now ≤ 3 }
{
    match op {
        LoadOp::Lb => "lb",
        LoadOp::Lh => "lh",
        LoadOp::Lw => "lw",
        LoadOp::Ld => "ld",
        LoadOp::Lbu => "lbu",
        LoadOp::Lhu => "lhu",
        LoadOp::Lwu => "lwu",
    }
}

/// The name of a store.
pub fn store_name(op: StoreOp) -> &'static str
    ensures name { result.now ≡ store_name op }
    ensures short { length result.now ≤ 2 }
{
    match op {
        StoreOp::Sb => "sb",
        StoreOp::Sh => "sh",
        StoreOp::Sw => "sw",
        StoreOp::Sd => "sd",
    }
}

/// The name of an operation with an immediate.
pub fn imm_name(op: AluOp) -> &'static str
    ensures name { result.now ≡ imm_name op }
    ensures short { length result.now ≤ 5 }
{
    match op {
        AluOp::Add => "addi",
        AluOp::Sub => "subi",
        AluOp::Sll => "slli",
        AluOp::Slt => "slti",
        AluOp::Sltu => "sltiu",
        AluOp::Xor => "xori",
        AluOp::Srl => "srli",
        AluOp::Sra => "srai",
        AluOp::Or => "ori",
        AluOp::And => "andi",
    }
}

/// The name of an operation with an immediate, on the low 32 bits.
pub fn imm_w_name(op: AluWOp) -> &'static str
    ensures name { result.now ≡ imm_w_name op }
    ensures short { length result.now ≤ 5 }
{
    match op {
        AluWOp::Addw => "addiw",
        AluWOp::Subw => "subiw",
        AluWOp::Sllw => "slliw",
        AluWOp::Srlw => "srliw",
        AluWOp::Sraw => "sraiw",
    }
}

/// The name of an operation.
pub fn alu_name(op: AluOp) -> &'static str
    ensures name { result.now ≡ alu_name op }
    ensures short { length result.now ≤ 4 }
{
    match op {
        AluOp::Add => "add",
        AluOp::Sub => "sub",
        AluOp::Sll => "sll",
        AluOp::Slt => "slt",
        AluOp::Sltu => "sltu",
        AluOp::Xor => "xor",
        AluOp::Srl => "srl",
        AluOp::Sra => "sra",
        AluOp::Or => "or",
        AluOp::And => "and",
    }
}

/// The name of an operation on the low 32 bits.
pub fn alu_w_name(op: AluWOp) -> &'static str
    ensures name { result.now ≡ alu_w_name op }
    ensures short { length result.now ≤ 4 }
{
    match op {
        AluWOp::Addw => "addw",
        AluWOp::Subw => "subw",
        AluWOp::Sllw => "sllw",
        AluWOp::Srlw => "srlw",
        AluWOp::Sraw => "sraw",
    }
}

/// The name of a multiplication, division or remainder.
pub fn mul_name(op: MulOp) -> &'static str
    ensures name { result.now ≡ mul_name op }
    ensures short { length result.now ≤ 6 }
{
    match op {
        MulOp::Mul => "mul",
        MulOp::Mulh => "mulh",
        MulOp::Mulhsu => "mulhsu",
        MulOp::Mulhu => "mulhu",
        MulOp::Div => "div",
        MulOp::Divu => "divu",
        MulOp::Rem => "rem",
        MulOp::Remu => "remu",
        MulOp::Mulw => "mulw",
        MulOp::Divw => "divw",
        MulOp::Divuw => "divuw",
        MulOp::Remw => "remw",
        MulOp::Remuw => "remuw",
    }
}

/// The name of an access to a control and status register.
pub fn csr_name(op: CsrOp) -> &'static str
    ensures name { result.now ≡ csr_name op }
    ensures short { length result.now ≤ 6 }
{
    match op {
        CsrOp::Rw => "csrrw",
        CsrOp::Rs => "csrrs",
        CsrOp::Rc => "csrrc",
        CsrOp::Rwi => "csrrwi",
        CsrOp::Rsi => "csrrsi",
        CsrOp::Rci => "csrrci",
    }
}

/// The name of an atomic memory operation.
pub fn amo_name(op: AmoOp) -> &'static str
    ensures name { result.now ≡ amo_name op }
    ensures short { length result.now ≤ 7 }
{
    match op {
        AmoOp::Swap => "amoswap",
        AmoOp::Add => "amoadd",
        AmoOp::Xor => "amoxor",
        AmoOp::And => "amoand",
        AmoOp::Or => "amoor",
        AmoOp::Min => "amomin",
        AmoOp::Max => "amomax",
        AmoOp::Minu => "amominu",
        AmoOp::Maxu => "amomaxu",
    }
}

/// The ending of an atomic instruction for its width.
pub fn width(wide: bool) -> &'static str
    ensures name { result.now ≡ width wide }
    ensures short { length result.now ≤ 2 }
{
    if wide { ".d" } else { ".w" }
}

/// The ending of an atomic instruction for its ordering bits.
pub fn ordering(aq: bool, rl: bool) -> &'static str
    ensures name { result.now ≡ ordering aq rl }
    ensures short { length result.now ≤ 5 }
{
    match (aq, rl) {
        (false, false) => "",
        (true, false) => ".aq",
        (false, true) => ".rl",
        (true, true) => ".aqrl",
    }
}
