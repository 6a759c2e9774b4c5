//! From an instruction to its word.

ghost use Rattle.std.specs.Prelude.{◌≡◌, ℕ, ◌<◌, ◌^◌};
ghost use Rattle.rv64_decode.specs.Fields.{AreFields};
ghost use Rattle.rv64_decode.specs.Decoding.{row};
ghost use Rattle.rv64_decode.specs.Encoding.{OperandsInRange, IsAtomic, encoding, r_format, i_format, s_format, b_format, u_format, atomic_format, fields_for};

use crate::fields::Fields;
use crate::immediates::{bits_12, bits_13, bits_21, upper_from_offset};
use crate::instr::Instr;
use crate::table::{
    AMO, AUIPC, BRANCH, EBREAK, ECALL, FENCE, FENCE_I, JAL, JALR, LOAD, LR, LUI, MISC_MEM, OP,
    OP_32, OP_IMM, OP_IMM_32, SC, SFENCE_VMA, SRET, STORE, SYSTEM, WFI, alu_key, alu_w_key,
    amo_key, branch_key, csr_key, imm_key, load_key, mul_key, store_key,
};

/// The word of an instruction. Its operands are in the range of their row; of `Illegal(word)`, no row fits the word.
pub fn encode(i: &Instr) -> u32
    requires { OperandsInRange i.now }
    ensures exact { result ≡ encoding i.now }
    // The word is read as this instruction, and no other word is.
    ensures decodes { row result ≡ i.now }
    ensures inverse { (word : ℕ) → word < 2 ^ 32 → row word ≡ i.now → result ≡ word }
{
    fields(i).word()
}

#[tactic(auto, using(crate::proofs::Writing::fields_small))]
fn fields(i: &Instr) -> Fields
    requires { OperandsInRange i.now }
    ensures value { result ≡ fields_for i.now }
    ensures small { AreFields result }
{
    match *i {
        Instr::Lui { rd, imm } => upper(LUI, rd, imm),
        Instr::Auipc { rd, imm } => upper(AUIPC, rd, imm),
        Instr::Jal { rd, off } => upper(JAL, rd, upper_from_offset(bits_21(off))),
        Instr::Jalr { rd, rs1, imm } => immediate(JALR, rd, 0, rs1, bits_12(imm)),
        Instr::Branch { op, rs1, rs2, off } => branch(branch_key(op), rs1, rs2, bits_13(off)),
        Instr::Load { op, rd, rs1, imm } => immediate(LOAD, rd, load_key(op), rs1, bits_12(imm)),
        Instr::Store { op, rs1, rs2, imm } => store(store_key(op), rs1, rs2, bits_12(imm)),
        Instr::AluImm { op, rd, rs1, imm } => {
            let (upper, funct3) = imm_key(op);
            let imm = upper as u16 * 64 + bits_12(imm);
            immediate(OP_IMM, rd, funct3, rs1, imm)
        }
        Instr::AluWImm { op, rd, rs1, imm } => {
            let (funct7, funct3) = alu_w_key(op);
            let imm = funct7 as u16 * 32 + bits_12(imm);
            immediate(OP_IMM_32, rd, funct3, rs1, imm)
        }
        Instr::Alu { op, rd, rs1, rs2 } => registers(OP, alu_key(op), rd, rs1, rs2),
        Instr::AluW { op, rd, rs1, rs2 } => registers(OP_32, alu_w_key(op), rd, rs1, rs2),
        Instr::Mul { op, rd, rs1, rs2 } => {
            let (opcode, functs) = mul_key(op);
            registers(opcode, functs, rd, rs1, rs2)
        }
        Instr::Fence { rd, rs1, imm } => immediate(MISC_MEM, rd, FENCE, rs1, imm),
        Instr::FenceI { rd, rs1, imm } => immediate(MISC_MEM, rd, FENCE_I, rs1, imm),
        Instr::Ecall => immediate(SYSTEM, 0, 0, 0, ECALL),
        Instr::Ebreak => immediate(SYSTEM, 0, 0, 0, EBREAK),
        Instr::Sret => immediate(SYSTEM, 0, 0, 0, SRET),
        Instr::Wfi => immediate(SYSTEM, 0, 0, 0, WFI),
        Instr::SfenceVma { rs1, rs2 } => registers(SYSTEM, (SFENCE_VMA, 0), 0, rs1, rs2),
        Instr::Csr { op, rd, csr, src } => immediate(SYSTEM, rd, csr_key(op), src, csr),
        Instr::LoadReserved { .. } | Instr::StoreCond { .. } | Instr::Amo { .. } => {
            atomic_fields(i)
        }
        Instr::Illegal(word) => Fields::of(word),
    }
}

fn atomic_fields(i: &Instr) -> Fields
    requires { IsAtomic i.now }
    ensures { result ≡ fields_for i.now }
{
    match *i {
        Instr::LoadReserved {
            wide,
            aq,
            rl,
            rd,
            rs1,
        } => atomic(LR, wide, aq, rl, rd, rs1, 0),
        Instr::StoreCond {
            wide,
            aq,
            rl,
            rd,
            rs1,
            rs2,
        } => atomic(SC, wide, aq, rl, rd, rs1, rs2),
        Instr::Amo {
            op,
            wide,
            aq,
            rl,
            rd,
            rs1,
            rs2,
        } => atomic(amo_key(op), wide, aq, rl, rd, rs1, rs2),
        _ => unreachable!(),
    }
}

fn immediate(opcode: u8, rd: u8, funct3: u8, rs1: u8, imm: u16) -> Fields
    requires { imm < 2 ^ 12 }
    ensures { result ≡ i_format opcode rd funct3 rs1 imm }
{
    Fields {
        opcode,
        rd,
        funct3,
        rs1,
        rs2: (imm % 32) as u8,
        funct7: (imm / 32) as u8,
    }
}

fn store(funct3: u8, rs1: u8, rs2: u8, imm: u16) -> Fields
    requires { imm < 2 ^ 12 }
    ensures { result ≡ s_format 0x23 funct3 rs1 rs2 imm }
{
    Fields {
        opcode: STORE,
        rd: (imm % 32) as u8,
        funct3,
        rs1,
        rs2,
        funct7: (imm / 32) as u8,
    }
}

fn branch(funct3: u8, rs1: u8, rs2: u8, off: u16) -> Fields
    requires { off < 2 ^ 13 }
    ensures { result ≡ b_format 0x63 funct3 rs1 rs2 off }
{
    Fields {
        opcode: BRANCH,
        rd: ((off >> 1) % 16 * 2 + (off >> 11) % 2) as u8,
        funct3,
        rs1,
        rs2,
        funct7: ((off >> 12) * 64 + (off >> 5) % 64) as u8,
    }
}

fn upper(opcode: u8, rd: u8, imm: u32) -> Fields
    requires { imm < 2 ^ 20 }
    ensures { result ≡ u_format opcode rd imm }
{
    Fields {
        opcode,
        rd,
        funct3: (imm % 8) as u8,
        rs1: ((imm >> 3) % 32) as u8,
        rs2: ((imm >> 8) % 32) as u8,
        funct7: (imm >> 13) as u8,
    }
}

fn registers(opcode: u8, functs: (u8, u8), rd: u8, rs1: u8, rs2: u8) -> Fields
    ensures { result ≡ r_format opcode rd functs.1 rs1 rs2 functs.0 }
{
    Fields {
        opcode,
        rd,
        funct3: functs.1,
        rs1,
        rs2,
        funct7: functs.0,
    }
}

fn atomic(funct5: u8, wide: bool, aq: bool, rl: bool, rd: u8, rs1: u8, rs2: u8) -> Fields
    requires { funct5 < 2 ^ 5 }
    ensures { result ≡ atomic_format funct5 wide aq rl rd rs1 rs2 }
{
    Fields {
        opcode: AMO,
        rd,
        funct3: 2 + wide as u8,
        rs1,
        rs2,
        funct7: funct5 * 4 + aq as u8 * 2 + rl as u8,
    }
}
