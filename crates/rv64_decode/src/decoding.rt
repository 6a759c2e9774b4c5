//! From a word to its instruction, one function an opcode.

ghost use Rattle.std.specs.Prelude.{◌≡◌};
ghost use Rattle.rv64_decode.specs.Fields.{AreFields};
ghost use Rattle.rv64_decode.specs.Encoding.{OperandsInRange, IsItsRow, encoding};
ghost use Rattle.rv64_decode.specs.Decoding.{row, row_of, jal_row, jalr_row, branch_row, load_row, store_row, alu_imm_row, alu_w_imm_row, alu_row, alu_w_row, fence_row, system_row, atomic_row};

use crate::fields::Fields;
use crate::immediates::{signed_12, signed_13, signed_21};
use crate::instr::{AluWOp, Instr};
use crate::table::{
    AMO, AUIPC, BRANCH, EBREAK, ECALL, FENCE, FENCE_I, JAL, JALR, LOAD, LR, LUI, MISC_MEM, OP,
    OP_32, OP_IMM, OP_IMM_32, SC, SFENCE_VMA, SRET, STORE, SYSTEM, WFI, alu_op, alu_w_op, amo_op,
    branch_op, csr_op, imm_op, load_op, mul_op, mul_w_op, shift_op, shift_w_op, store_op,
};

/// The instruction of a word, with its operands in the range of their row.
///
/// `Instr::Illegal(word)` comes exactly where the word fits no row of the manual's listings.
pub fn decode(word: u32) -> Instr
    ensures exact { result ≡ row word }
    // A word fits at most one row, and this is it; Illegal comes exactly where none fits.
    ensures unique { IsItsRow word result }
    ensures in_range { OperandsInRange result }
    ensures written_back { encoding result ≡ word }
{
    row_of_word(word)
}

#[tactic(auto, unfolding(crate::specs::Decoding::row, crate::specs::Fields::fields_of))]
fn row_of_word(word: u32) -> Instr
    ensures { result ≡ row word }
{
    match instruction(Fields::of(word)) {
        Some(instr) => instr,
        None => Instr::Illegal(word),
    }
}

#[tactic(auto, unfolding(crate::specs::Decoding::row_of, crate::specs::Decoding::lui_row, crate::specs::Decoding::auipc_row))]
fn instruction(f: Fields) -> Option<Instr>
    requires { AreFields f }
    ensures { result ≡ row_of f }
{
    match f.opcode {
        LUI => Some(Instr::Lui {
            rd: f.rd,
            imm: f.imm_u(),
        }),
        AUIPC => Some(Instr::Auipc {
            rd: f.rd,
            imm: f.imm_u(),
        }),
        JAL => jump(f),
        JALR => jump_register(f),
        BRANCH => branch(f),
        LOAD => load(f),
        STORE => store(f),
        OP_IMM => alu_imm(f),
        OP_IMM_32 => alu_w_imm(f),
        OP => alu(f),
        OP_32 => alu_w(f),
        MISC_MEM => fence(f),
        SYSTEM => system(f),
        AMO => atomic(f),
        _ => None,
    }
}

#[tactic(auto, unfolding(crate::specs::Decoding::jal_row))]
fn jump(f: Fields) -> Option<Instr>
    requires { AreFields f }
    ensures { result ≡ jal_row f }
{
    Some(Instr::Jal {
        rd: f.rd,
        off: signed_21(f.imm_j()),
    })
}

#[tactic(auto, unfolding(crate::specs::Decoding::jalr_row))]
fn jump_register(f: Fields) -> Option<Instr>
    requires { AreFields f }
    ensures { result ≡ jalr_row f }
{
    match f.funct3 {
        0 => Some(Instr::Jalr {
            rd: f.rd,
            rs1: f.rs1,
            imm: signed_12(f.imm_i()),
        }),
        _ => None,
    }
}

#[tactic(auto, unfolding(crate::specs::Decoding::branch_row))]
fn branch(f: Fields) -> Option<Instr>
    requires { AreFields f }
    ensures { result ≡ branch_row f }
{
    let op = branch_op(f.funct3)?;
    Some(Instr::Branch {
        op,
        rs1: f.rs1,
        rs2: f.rs2,
        off: signed_13(f.imm_b()),
    })
}

#[tactic(auto, unfolding(crate::specs::Decoding::load_row))]
fn load(f: Fields) -> Option<Instr>
    requires { AreFields f }
    ensures { result ≡ load_row f }
{
    let op = load_op(f.funct3)?;
    Some(Instr::Load {
        op,
        rd: f.rd,
        rs1: f.rs1,
        imm: signed_12(f.imm_i()),
    })
}

#[tactic(auto, unfolding(crate::specs::Decoding::store_row))]
fn store(f: Fields) -> Option<Instr>
    requires { AreFields f }
    ensures { result ≡ store_row f }
{
    let op = store_op(f.funct3)?;
    Some(Instr::Store {
        op,
        rs1: f.rs1,
        rs2: f.rs2,
        imm: signed_12(f.imm_s()),
    })
}

#[tactic(auto, unfolding(crate::specs::Decoding::alu_imm_row))]
fn alu_imm(f: Fields) -> Option<Instr>
    requires { AreFields f }
    ensures { result ≡ alu_imm_row f }
{
    if let Some(op) = imm_op(f.funct3) {
        return Some(Instr::AluImm {
            op,
            rd: f.rd,
            rs1: f.rs1,
            imm: signed_12(f.imm_i()),
        });
    }
    let op = shift_op(f.funct7 / 2, f.funct3)?;
    Some(Instr::AluImm {
        op,
        rd: f.rd,
        rs1: f.rs1,
        imm: (f.imm_i() % 64) as i16,
    })
}

#[tactic(auto, unfolding(crate::specs::Decoding::alu_w_imm_row))]
fn alu_w_imm(f: Fields) -> Option<Instr>
    requires { AreFields f }
    ensures { result ≡ alu_w_imm_row f }
{
    if f.funct3 == 0 {
        return Some(Instr::AluWImm {
            op: AluWOp::Addw,
            rd: f.rd,
            rs1: f.rs1,
            imm: signed_12(f.imm_i()),
        });
    }
    let op = shift_w_op(f.funct7, f.funct3)?;
    Some(Instr::AluWImm {
        op,
        rd: f.rd,
        rs1: f.rs1,
        imm: f.rs2 as i16,
    })
}

#[tactic(auto, unfolding(crate::specs::Decoding::alu_row))]
fn alu(f: Fields) -> Option<Instr>
    requires { AreFields f }
    ensures { result ≡ alu_row f }
{
    if let Some(op) = alu_op(f.funct7, f.funct3) {
        return Some(Instr::Alu {
            op,
            rd: f.rd,
            rs1: f.rs1,
            rs2: f.rs2,
        });
    }
    let op = mul_op(f.funct7, f.funct3)?;
    Some(Instr::Mul {
        op,
        rd: f.rd,
        rs1: f.rs1,
        rs2: f.rs2,
    })
}

#[tactic(auto, unfolding(crate::specs::Decoding::alu_w_row))]
fn alu_w(f: Fields) -> Option<Instr>
    requires { AreFields f }
    ensures { result ≡ alu_w_row f }
{
    if let Some(op) = alu_w_op(f.funct7, f.funct3) {
        return Some(Instr::AluW {
            op,
            rd: f.rd,
            rs1: f.rs1,
            rs2: f.rs2,
        });
    }
    let op = mul_w_op(f.funct7, f.funct3)?;
    Some(Instr::Mul {
        op,
        rd: f.rd,
        rs1: f.rs1,
        rs2: f.rs2,
    })
}

#[tactic(auto, unfolding(crate::specs::Decoding::fence_row))]
fn fence(f: Fields) -> Option<Instr>
    requires { AreFields f }
    ensures { result ≡ fence_row f }
{
    match f.funct3 {
        FENCE => Some(Instr::Fence {
            rd: f.rd,
            rs1: f.rs1,
            imm: f.imm_i(),
        }),
        FENCE_I => Some(Instr::FenceI {
            rd: f.rd,
            rs1: f.rs1,
            imm: f.imm_i(),
        }),
        _ => None,
    }
}

#[tactic(auto, unfolding(crate::specs::Decoding::system_row))]
fn system(f: Fields) -> Option<Instr>
    requires { AreFields f }
    ensures { result ≡ system_row f }
{
    if f.funct3 == 0 && f.rd == 0 {
        if f.rs1 == 0 {
            match f.imm_i() {
                ECALL => return Some(Instr::Ecall),
                EBREAK => return Some(Instr::Ebreak),
                SRET => return Some(Instr::Sret),
                WFI => return Some(Instr::Wfi),
                _ => {}
            }
        }
        if f.funct7 == SFENCE_VMA {
            return Some(Instr::SfenceVma {
                rs1: f.rs1,
                rs2: f.rs2,
            });
        }
    }
    let op = csr_op(f.funct3)?;
    Some(Instr::Csr {
        op,
        rd: f.rd,
        csr: f.imm_i(),
        src: f.rs1,
    })
}

#[tactic(auto, unfolding(crate::specs::Decoding::atomic_row))]
fn atomic(f: Fields) -> Option<Instr>
    requires { AreFields f }
    ensures { result ≡ atomic_row f }
{
    if f.funct3 / 2 != 1 {
        return None;
    }
    let wide = f.funct3 == 3;
    let aq = f.funct7 / 2 % 2 == 1;
    let rl = f.funct7 % 2 == 1;
    if let Some(op) = amo_op(f.funct7 / 4) {
        return Some(Instr::Amo {
            op,
            wide,
            aq,
            rl,
            rd: f.rd,
            rs1: f.rs1,
            rs2: f.rs2,
        });
    }
    match f.funct7 / 4 {
        LR if f.rs2 == 0 => Some(Instr::LoadReserved {
            wide,
            aq,
            rl,
            rd: f.rd,
            rs1: f.rs1,
        }),
        SC => Some(Instr::StoreCond {
            wide,
            aq,
            rl,
            rd: f.rd,
            rs1: f.rs1,
            rs2: f.rs2,
        }),
        _ => None,
    }
}
