//! The table of the instructions: each opcode, the operations below it, and the fixed words, read both ways
//! (unprivileged manual, "RV32/64G Instruction Set Listings").

ghost use Rattle.std.specs.Prelude.{◌≡◌, ◌<◌, ◌^◌};
ghost use Rattle.rv64_decode.specs.Table.{op_at, op_at_both, branch_funct3, branch_ops, load_funct3, load_ops, store_funct3, store_ops, csr_funct3, csr_ops, alu_functs, alu_ops, imm_functs, imm_funct3, imm_ops, shift_ops, alu_w_functs, alu_w_ops, shift_w_ops, mul_functs, mul_opcode, mul_ops, mul_w_ops, amo_funct5, amo_ops};

use crate::instr::{AluOp, AluWOp, AmoOp, BranchOp, CsrOp, LoadOp, MulOp, StoreOp};

// the opcodes, by the manual's names

pub const LUI: u8 = 0x37;

pub const AUIPC: u8 = 0x17;

pub const JAL: u8 = 0x6F;

pub const JALR: u8 = 0x67;

pub const BRANCH: u8 = 0x63;

pub const LOAD: u8 = 0x03;

pub const STORE: u8 = 0x23;

pub const OP_IMM: u8 = 0x13;

pub const OP_IMM_32: u8 = 0x1B;

pub const OP: u8 = 0x33;

pub const OP_32: u8 = 0x3B;

pub const MISC_MEM: u8 = 0x0F;

pub const SYSTEM: u8 = 0x73;

pub const AMO: u8 = 0x2F;

// funct3 of MISC_MEM

pub const FENCE: u8 = 0;

pub const FENCE_I: u8 = 1;

// bits 31:20 of SYSTEM, where all other fields are 0, and funct7 of SFENCE.VMA

pub const ECALL: u16 = 0x000;

pub const EBREAK: u16 = 0x001;

pub const SRET: u16 = 0x102;

pub const WFI: u16 = 0x105;

pub const SFENCE_VMA: u8 = 0x09;

// bits 31:27 of AMO

pub const LR: u8 = 0x02;

pub const SC: u8 = 0x03;

// by funct3

macro_rules! branch_rows {
    ($read:ident, $x:expr) => {
        $read!($x, BranchOp { 0 Beq, 1 Bne, 4 Blt, 5 Bge, 6 Bltu, 7 Bgeu })
    };
}

macro_rules! load_rows {
    ($read:ident, $x:expr) => {
        $read!($x, LoadOp { 0 Lb, 1 Lh, 2 Lw, 3 Ld, 4 Lbu, 5 Lhu, 6 Lwu })
    };
}

macro_rules! store_rows {
    ($read:ident, $x:expr) => {
        $read!($x, StoreOp { 0 Sb, 1 Sh, 2 Sw, 3 Sd })
    };
}

macro_rules! csr_rows {
    ($read:ident, $x:expr) => {
        $read!($x, CsrOp { 1 Rw, 2 Rs, 3 Rc, 5 Rwi, 6 Rsi, 7 Rci })
    };
}

macro_rules! imm_rows {
    ($read:ident, $x:expr) => {
        $read!($x, AluOp { 0 Add, 2 Slt, 3 Sltu, 4 Xor, 6 Or, 7 And })
    };
}

// by bits 31:26 and funct3

macro_rules! shift_rows {
    ($read:ident, $x:expr) => {
        $read!($x, AluOp { (0x00, 1) Sll, (0x00, 5) Srl, (0x10, 5) Sra })
    };
}

// by funct7 and funct3

macro_rules! alu_rows {
    ($read:ident, $x:expr) => {
        $read!($x, AluOp {
            (0x00, 0) Add, (0x20, 0) Sub, (0x00, 1) Sll, (0x00, 2) Slt, (0x00, 3) Sltu,
            (0x00, 4) Xor, (0x00, 5) Srl, (0x20, 5) Sra, (0x00, 6) Or, (0x00, 7) And
        })
    };
}

macro_rules! alu_w_rows {
    ($read:ident, $x:expr) => {
        $read!($x, AluWOp {
            (0x00, 0) Addw, (0x20, 0) Subw, (0x00, 1) Sllw, (0x00, 5) Srlw, (0x20, 5) Sraw
        })
    };
}

macro_rules! shift_w_rows {
    ($read:ident, $x:expr) => {
        $read!($x, AluWOp { (0x00, 1) Sllw, (0x00, 5) Srlw, (0x20, 5) Sraw })
    };
}

macro_rules! mul_rows {
    ($read:ident, $x:expr) => {
        $read!($x, MulOp {
            (0x01, 0) Mul, (0x01, 1) Mulh, (0x01, 2) Mulhsu, (0x01, 3) Mulhu,
            (0x01, 4) Div, (0x01, 5) Divu, (0x01, 6) Rem, (0x01, 7) Remu
        })
    };
}

macro_rules! mul_w_rows {
    ($read:ident, $x:expr) => {
        $read!($x, MulOp {
            (0x01, 0) Mulw, (0x01, 4) Divw, (0x01, 5) Divuw, (0x01, 6) Remw, (0x01, 7) Remuw
        })
    };
}

// by bits 31:27

macro_rules! amo_rows {
    ($read:ident, $x:expr) => {
        $read!($x, AmoOp {
            0x01 Swap, 0x00 Add, 0x04 Xor, 0x0C And, 0x08 Or, 0x10 Min, 0x14 Max, 0x18 Minu, 0x1C Maxu
        })
    };
}

/// The operation of a row with this key.
macro_rules! op_of {
    ($x:expr, $op:ident { $($key:tt $name:ident),* }) => {
        match $x {
            $($key => Some($op::$name),)*
            _ => None,
        }
    };
}

/// The key of the operation's row.
macro_rules! key_of {
    ($x:expr, $op:ident { $($key:tt $name:ident),* }) => {
        match $x {
            $($op::$name => $key,)*
        }
    };
}

/// The key of the operation's row, where the table has one.
macro_rules! key_in {
    ($x:expr, $op:ident { $($key:tt $name:ident),* }) => {
        match $x {
            $($op::$name => Some($key),)*
            _ => None,
        }
    };
}

pub fn branch_op(funct3: u8) -> Option<BranchOp>
    ensures { result ≡ op_at branch_funct3 branch_ops funct3 }
{
    branch_rows!(op_of, funct3)
}

pub fn load_op(funct3: u8) -> Option<LoadOp>
    ensures { result ≡ op_at load_funct3 load_ops funct3 }
{
    load_rows!(op_of, funct3)
}

pub fn store_op(funct3: u8) -> Option<StoreOp>
    ensures { result ≡ op_at store_funct3 store_ops funct3 }
{
    store_rows!(op_of, funct3)
}

pub fn csr_op(funct3: u8) -> Option<CsrOp>
    ensures { result ≡ op_at csr_funct3 csr_ops funct3 }
{
    csr_rows!(op_of, funct3)
}

pub fn imm_op(funct3: u8) -> Option<AluOp>
    ensures { result ≡ op_at imm_funct3 imm_ops funct3 }
{
    imm_rows!(op_of, funct3)
}

pub fn shift_op(funct6: u8, funct3: u8) -> Option<AluOp>
    ensures { result ≡ op_at_both imm_functs shift_ops funct6 funct3 }
{
    shift_rows!(op_of, (funct6, funct3))
}

pub fn alu_op(funct7: u8, funct3: u8) -> Option<AluOp>
    ensures { result ≡ op_at_both alu_functs alu_ops funct7 funct3 }
{
    alu_rows!(op_of, (funct7, funct3))
}

pub fn alu_w_op(funct7: u8, funct3: u8) -> Option<AluWOp>
    ensures { result ≡ op_at_both alu_w_functs alu_w_ops funct7 funct3 }
{
    alu_w_rows!(op_of, (funct7, funct3))
}

pub fn shift_w_op(funct7: u8, funct3: u8) -> Option<AluWOp>
    ensures { result ≡ op_at_both alu_w_functs shift_w_ops funct7 funct3 }
{
    shift_w_rows!(op_of, (funct7, funct3))
}

pub fn mul_op(funct7: u8, funct3: u8) -> Option<MulOp>
    ensures { result ≡ op_at_both mul_functs mul_ops funct7 funct3 }
{
    mul_rows!(op_of, (funct7, funct3))
}

pub fn mul_w_op(funct7: u8, funct3: u8) -> Option<MulOp>
    ensures { result ≡ op_at_both mul_functs mul_w_ops funct7 funct3 }
{
    mul_w_rows!(op_of, (funct7, funct3))
}

pub fn amo_op(funct5: u8) -> Option<AmoOp>
    ensures { result ≡ op_at amo_funct5 amo_ops funct5 }
{
    amo_rows!(op_of, funct5)
}

pub fn branch_key(op: BranchOp) -> u8
    ensures value { result ≡ branch_funct3 op }
    ensures small { result < 2 ^ 3 }
{
    branch_rows!(key_of, op)
}

pub fn load_key(op: LoadOp) -> u8
    ensures value { result ≡ load_funct3 op }
    ensures small { result < 2 ^ 3 }
{
    load_rows!(key_of, op)
}

pub fn store_key(op: StoreOp) -> u8
    ensures value { result ≡ store_funct3 op }
    ensures small { result < 2 ^ 3 }
{
    store_rows!(key_of, op)
}

pub fn csr_key(op: CsrOp) -> u8
    ensures value { result ≡ csr_funct3 op }
    ensures small { result < 2 ^ 3 }
{
    csr_rows!(key_of, op)
}

/// Bits 31:26, where they are fixed, and funct3.
pub fn imm_key(op: AluOp) -> (u8, u8)
    ensures value { result ≡ imm_functs op }
    ensures small { (result.0 < 2 ^ 6) × (result.1 < 2 ^ 3) }
{
    if let Some(key) = shift_rows!(key_in, op) {
        return key;
    }
    let (_, funct3) = alu_rows!(key_of, op);
    (0, funct3)
}

pub fn alu_key(op: AluOp) -> (u8, u8)
    ensures value { result ≡ alu_functs op }
    ensures small { (result.0 < 2 ^ 7) × (result.1 < 2 ^ 3) }
{
    alu_rows!(key_of, op)
}

pub fn alu_w_key(op: AluWOp) -> (u8, u8)
    ensures value { result ≡ alu_w_functs op }
    ensures small { (result.0 < 2 ^ 7) × (result.1 < 2 ^ 3) }
{
    alu_w_rows!(key_of, op)
}

/// The opcode of a multiplication or division, and its funct7 and funct3.
pub fn mul_key(op: MulOp) -> (u8, (u8, u8))
    ensures opcode { result.0 ≡ mul_opcode op }
    ensures functs { result.1 ≡ mul_functs op }
    ensures small { (result.0 < 2 ^ 7) × (result.1.0 < 2 ^ 7) × (result.1.1 < 2 ^ 3) }
{
    if let Some(key) = mul_rows!(key_in, op) {
        return (OP, key);
    }
    match mul_w_rows!(key_in, op) {
        Some(key) => (OP_32, key),
        None => unreachable!(),
    }
}

pub fn amo_key(op: AmoOp) -> u8
    ensures value { result ≡ amo_funct5 op }
    ensures small { result < 2 ^ 5 }
{
    amo_rows!(key_of, op)
}
