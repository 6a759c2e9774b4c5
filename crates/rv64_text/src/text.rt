//! The text of an instruction.

ghost use Rattle.std.specs.Prelude.{◌≡◌, ◌≤◌, ◌<◌, ◌+◌, ◌++◌, [], ◌∷◌, length};
ghost use Rattle.rv64_decode.specs.Encoding.{OperandsInRange};
ghost use Rattle.rv64_text.specs.declared.operands.Operand.TheVariants.{Immediate, Register};
ghost use Rattle.rv64_text.specs.Names.{mnemonic, width, ordering};
ghost use Rattle.rv64_text.specs.Operands.{IsOperand, csr_source, operands, target};
ghost use Rattle.rv64_text.specs.Text.{operands_text, text_of};

use crate::names::{
    alu_name, alu_w_name, amo_name, branch_name, csr_name, imm_name, imm_w_name, load_name,
    mul_name, ordering, register_name, store_name, width,
};
use crate::operands::{Operand, put, put_operand};
use arrayvec::ArrayVec;
use rv64_decode::{CsrOp, Instr};

/// Replaces the contents of `out` by the text of an instruction that stands at `pc`. Its operands are in the range
/// of their row.
///
/// The text is the instruction's name in lower case, one space, and the operands joined by commas. Registers have
/// the names of the calling convention; jumps and branches show the address they go to.
pub fn write_text(i: &Instr, pc: u64, out: &mut ArrayVec<u8, 64>)
    requires { OperandsInRange i.now }
    ensures text { out.new.items ≡ text_of i.now pc }
    ensures fits { length out.new.items ≤ 64 }
{
    out.clear();
    put_mnemonic(out, i);
    put_operands(out, i, pc);
}

/// Appends the name of an instruction; it has at most 14 bytes.
fn put_mnemonic(out: &mut ArrayVec<u8, 64>, i: &Instr)
    requires { length out.old.items + 14 ≤ 64 }
    ensures text { out.new.items ≡ out.old.items ++ mnemonic i.now }
    ensures short { length out.new.items ≤ length out.old.items + 14 }
{
    match *i {
        Instr::Lui { .. } => put(out, b"lui"),
        Instr::Auipc { .. } => put(out, b"auipc"),
        Instr::Jal { .. } => put(out, b"jal"),
        Instr::Jalr { .. } => put(out, b"jalr"),
        Instr::Branch { op, .. } => put(out, branch_name(op).as_bytes()),
        Instr::Load { op, .. } => put(out, load_name(op).as_bytes()),
        Instr::Store { op, .. } => put(out, store_name(op).as_bytes()),
        Instr::AluImm { op, .. } => put(out, imm_name(op).as_bytes()),
        Instr::AluWImm { op, .. } => put(out, imm_w_name(op).as_bytes()),
        Instr::Alu { op, .. } => put(out, alu_name(op).as_bytes()),
        Instr::AluW { op, .. } => put(out, alu_w_name(op).as_bytes()),
        Instr::Mul { op, .. } => put(out, mul_name(op).as_bytes()),
        Instr::Fence { .. } => put(out, b"fence"),
        Instr::FenceI { .. } => put(out, b"fence.i"),
        Instr::Ecall => put(out, b"ecall"),
        Instr::Ebreak => put(out, b"ebreak"),
        Instr::Sret => put(out, b"sret"),
        Instr::Wfi => put(out, b"wfi"),
        Instr::SfenceVma { .. } => put(out, b"sfence.vma"),
        Instr::Csr { op, .. } => put(out, csr_name(op).as_bytes()),
        Instr::LoadReserved { wide, aq, rl, .. } => put_atomic(out, "lr", wide, aq, rl),
        Instr::StoreCond { wide, aq, rl, .. } => put_atomic(out, "sc", wide, aq, rl),
        Instr::Amo {
            op,
            wide,
            aq,
            rl,
            ..
        } => put_atomic(out, amo_name(op), wide, aq, rl),
        Instr::Illegal(_) => put(out, b".word"),
    }
}

/// Appends the name of an atomic instruction with its endings.
fn put_atomic(out: &mut ArrayVec<u8, 64>, name: &str, wide: bool, aq: bool, rl: bool)
    requires short { length name.now ≤ 7 }
    requires room { length out.old.items + 14 ≤ 64 }
    ensures text { out.new.items ≡ out.old.items ++ (name.now ++ width wide ++ ordering aq rl) }
    ensures short { length out.new.items ≤ length out.old.items + 14 }
{
    put(out, name.as_bytes());
    put(out, width(wide).as_bytes());
    put(out, ordering(aq, rl).as_bytes());
}

/// Appends the operands of an instruction, at most 50 bytes of them.
fn put_operands(out: &mut ArrayVec<u8, 64>, i: &Instr, pc: u64)
    requires known { OperandsInRange i.now }
    requires room { length out.old.items ≤ 14 }
    ensures text { out.new.items ≡ out.old.items ++ operands_text (operands i.now pc) }
    ensures fits { length out.new.items ≤ 64 }
{
    match *i {
        Instr::Lui { rd, imm } => two(out, rd, Operand::Upper(imm)),
        Instr::Auipc { rd, imm } => two(out, rd, Operand::Upper(imm)),
        Instr::Jal { rd, off } => two(out, rd, Operand::Address(target(pc, off))),
        Instr::Jalr { rd, rs1, imm } => two(out, rd, Operand::Offset(imm, rs1)),
        Instr::Branch { rs1, rs2, off, .. } => {
            let target = target(pc, i32::from(off));
            three(out, rs1, Operand::Register(rs2), Operand::Address(target))
        }
        Instr::Load { rd, rs1, imm, .. } => two(out, rd, Operand::Offset(imm, rs1)),
        Instr::Store { rs1, rs2, imm, .. } => two(out, rs2, Operand::Offset(imm, rs1)),
        Instr::AluImm { rd, rs1, imm, .. } => immediate(out, rd, rs1, imm),
        Instr::AluWImm { rd, rs1, imm, .. } => immediate(out, rd, rs1, imm),
        Instr::Alu { rd, rs1, rs2, .. } => registers(out, rd, rs1, rs2),
        Instr::AluW { rd, rs1, rs2, .. } => registers(out, rd, rs1, rs2),
        Instr::Mul { rd, rs1, rs2, .. } => registers(out, rd, rs1, rs2),
        Instr::Fence { .. } => {}
        Instr::FenceI { .. } => {}
        Instr::Ecall | Instr::Ebreak | Instr::Sret | Instr::Wfi => {}
        Instr::SfenceVma { rs1, rs2 } => two(out, rs1, Operand::Register(rs2)),
        Instr::Csr { op, rd, csr, src } => {
            three(out, rd, Operand::CsrNumber(csr), csr_source(op, src))
        }
        Instr::LoadReserved { rd, rs1, .. } => two(out, rd, Operand::Base(rs1)),
        Instr::StoreCond { rd, rs1, rs2, .. } => {
            three(out, rd, Operand::Register(rs2), Operand::Base(rs1))
        }
        Instr::Amo { rd, rs1, rs2, .. } => {
            three(out, rd, Operand::Register(rs2), Operand::Base(rs1))
        }
        Instr::Illegal(word) => one(out, Operand::Word(word)),
    }
}

/// Where a jump or a branch goes.
fn target(pc: u64, off: i32) -> u64
    ensures { result ≡ target pc off }
{
    pc.wrapping_add_signed(i64::from(off))
}

/// A register, or the immediate of the forms that have one.
fn csr_source(op: CsrOp, src: u8) -> Operand
    requires { src < 32 }
    ensures value { result ≡ csr_source op src }
    ensures known { IsOperand result }
{
    match op {
        CsrOp::Rw | CsrOp::Rs | CsrOp::Rc => Operand::Register(src),
        CsrOp::Rwi | CsrOp::Rsi | CsrOp::Rci => Operand::CsrImmediate(src),
    }
}

/// Appends three registers.
fn registers(out: &mut ArrayVec<u8, 64>, rd: u8, rs1: u8, rs2: u8)
    requires known { (rd < 32) × (rs1 < 32) × (rs2 < 32) }
    requires room { length out.old.items ≤ 14 }
    ensures text { out.new.items ≡ out.old.items ++ operands_text (Register rd ∷ Register rs1 ∷ Register rs2 ∷ []) }
    ensures fits { length out.new.items ≤ 64 }
{
    three(out, rd, Operand::Register(rs1), Operand::Register(rs2));
}

/// Appends two registers and an immediate.
fn immediate(out: &mut ArrayVec<u8, 64>, rd: u8, rs1: u8, imm: i16)
    requires known { (rd < 32) × (rs1 < 32) }
    requires room { length out.old.items ≤ 14 }
    ensures text { out.new.items ≡ out.old.items ++ operands_text (Register rd ∷ Register rs1 ∷ Immediate imm ∷ []) }
    ensures fits { length out.new.items ≤ 64 }
{
    three(out, rd, Operand::Register(rs1), Operand::Immediate(imm));
}

/// Appends one operand.
fn one(out: &mut ArrayVec<u8, 64>, operand: Operand)
    requires known { IsOperand operand }
    requires room { length out.old.items ≤ 14 }
    ensures text { out.new.items ≡ out.old.items ++ operands_text (operand ∷ []) }
    ensures fits { length out.new.items ≤ 64 }
{
    put(out, b" ");
    put_operand(out, operand);
}

/// Appends a register and another operand.
fn two(out: &mut ArrayVec<u8, 64>, first: u8, second: Operand)
    requires known { (first < 32) × IsOperand second }
    requires room { length out.old.items ≤ 14 }
    ensures text { out.new.items ≡ out.old.items ++ operands_text (Register first ∷ second ∷ []) }
    ensures fits { length out.new.items ≤ 64 }
{
    put(out, b" ");
    put(out, register_name(first).as_bytes());
    put(out, b",");
    put_operand(out, second);
}

/// Appends a register and two other operands.
fn three(out: &mut ArrayVec<u8, 64>, first: u8, second: Operand, third: Operand)
    requires known { (first < 32) × IsOperand second × IsOperand third }
    requires room { length out.old.items ≤ 14 }
    ensures text { out.new.items ≡ out.old.items ++ operands_text (Register first ∷ second ∷ third ∷ []) }
    ensures fits { length out.new.items ≤ 64 }
{
    put(out, b" ");
    put(out, register_name(first).as_bytes());
    put(out, b",");
    put_operand(out, second);
    put(out, b",");
    put_operand(out, third);
}
