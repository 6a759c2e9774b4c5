//! Instructions: words of the manual's formats, results of the manual's tables, and the text of each form.

use arrayvec::ArrayVec;
use rv64_alu::{alu, alu_w, amo, branch, muldiv};
use rv64_decode::{AluOp, AluWOp, AmoOp, BranchOp, CsrOp, Instr, MulOp, decode, encode};
use rv64_text::write_text;

const LEAST: u64 = 0x8000_0000_0000_0000;

const ONES: u64 = 0xFFFF_FFFF_FFFF_FFFF;

// Put together by hand from the formats of the unprivileged manual.
#[test]
fn words_of_each_format(rt: HostRuntime) {
    let or = Instr::Alu {
        op: AluOp::Or,
        rd: 5,
        rs1: 5,
        rs2: 6,
    };
    let farthest_branch = Instr::Branch {
        op: BranchOp::Beq,
        rs1: 0,
        rs2: 0,
        off: -4096,
    };
    let set_satp = Instr::Csr {
        op: CsrOp::Rw,
        rd: 0,
        csr: 0x180,
        src: 5,
    };
    let amomaxu_aqrl = Instr::Amo {
        op: AmoOp::Maxu,
        wide: true,
        aq: true,
        rl: true,
        rd: 10,
        rs1: 12,
        rs2: 11,
    };
    let fence_with_free_fields = Instr::Fence {
        rd: 31,
        rs1: 31,
        imm: 0xFFF,
    };
    for (word, want) in [
        (0x0062_E2B3, or),
        (0x8000_0063, farthest_branch),
        (0x0010_006F, Instr::Jal { rd: 0, off: 2048 }),
        (0x1802_9073, set_satp),
        (0xE6B6_352F, amomaxu_aqrl),
        (0xFFFF_8F8F, fence_with_free_fields),
        (0, Instr::Illegal(0)),
    ] {
        let read = decode(word);
        assert_eq!(rt; read, want, "{word}");
        assert_eq!(rt; encode(&read), word);
    }
}

// A shift amount has six bits, in the W forms five, and bits 31:26 or 31:25 tell the shift.
#[test]
fn words_of_shifts(rt: HostRuntime) {
    let srai = Instr::AluImm {
        op: AluOp::Sra,
        rd: 1,
        rs1: 1,
        imm: 63,
    };
    let sraiw = Instr::AluWImm {
        op: AluWOp::Sraw,
        rd: 1,
        rs1: 1,
        imm: 31,
    };
    for (word, want) in [
        (0x43F0_D093, srai),
        (0x23F0_D093, Instr::Illegal(0x23F0_D093)),
        (0x41F0_D09B, sraiw),
        (0x43F0_D09B, Instr::Illegal(0x43F0_D09B)),
    ] {
        assert_eq!(rt; decode(word), want, "{word}");
    }
}

// The manual's table of division by zero and overflow, and upper halves by hand.
#[test]
fn products_and_quotients(rt: HostRuntime) {
    for (op, a, b, want) in [
        (MulOp::Div, LEAST, ONES, LEAST),
        (MulOp::Rem, LEAST, ONES, 0),
        (MulOp::Divu, 5, 0, ONES),
        (MulOp::Remu, 5, 0, 5),
        (MulOp::Divw, 0x8000_0000, ONES, 0xFFFF_FFFF_8000_0000),
        (MulOp::Remuw, 0x8000_0000, 0, 0xFFFF_FFFF_8000_0000),
        (MulOp::Mulh, ONES, ONES, 0),
        (MulOp::Mulhu, ONES, ONES, 0xFFFF_FFFF_FFFF_FFFE),
        (MulOp::Mulhsu, ONES, ONES, ONES),
    ] {
        assert_eq!(rt; muldiv(op, a, b), want, "{a} {op:?} {b}");
    }
}

#[test]
fn sums_shifts_and_conditions(rt: HostRuntime) {
    for (op, a, b, want) in [
        (AluOp::Sub, 0, 1, ONES),
        (AluOp::Sra, LEAST, 127, ONES),
        (AluOp::Slt, ONES, 0, 1),
        (AluOp::Sltu, ONES, 0, 0),
    ] {
        assert_eq!(rt; alu(op, a, b), want, "{a} {op:?} {b}");
    }
    for (op, a, b, want) in [
        (AluWOp::Addw, 0x7FFF_FFFF, 1, 0xFFFF_FFFF_8000_0000),
        (AluWOp::Srlw, 0xFFFF_FFFF_8000_0000, 63, 1),
    ] {
        assert_eq!(rt; alu_w(op, a, b), want, "{a} {op:?} {b}");
    }
    assert!(rt; !branch(BranchOp::Bge, ONES, 0));
    assert!(rt; branch(BranchOp::Bgeu, ONES, 0));
}

// The narrow form looks at the low 32 bits alone.
#[test]
fn atomic_operations(rt: HostRuntime) {
    for (op, old, b, wide, want) in [
        (AmoOp::Max, 1, 0x8000_0000, false, 1),
        (AmoOp::Max, 1, 0x8000_0000, true, 0x8000_0000),
        (AmoOp::Maxu, 1, 0x8000_0000, false, 0xFFFF_FFFF_8000_0000),
        (AmoOp::Swap, ONES, 0x1_0000_0005, false, 5),
    ] {
        assert_eq!(rt; amo(op, old, b, wide), want, "{old} {op:?} {b}");
    }
}

// One row a form, as assemblers write it, with the ordering bits apart and together. The instructions stand at 0x80000000.
#[test]
fn texts_of_each_form(rt: HostRuntime) {
    let mut out: ArrayVec<u8, 64> = ArrayVec::new();
    for (word, text) in [
        (0x0008_02B7, "lui t0,0x80"),
        (0x0100_00EF, "jal ra,0x0000000080000010"),
        (0x8001_00E7, "jalr ra,-2048(sp)"),
        (0x80B5_1063, "bne a0,a1,0x000000007ffff000"),
        (0x7FF4_3183, "ld gp,2047(s0)"),
        (0xFFF2_1FA3, "sh t6,-1(tp)"),
        (0x4213_5393, "srai t2,t1,33"),
        (0x0349_AAB3, "mulhsu s5,s3,s4"),
        (0x0FF0_000F, "fence"),
        (0x1020_0073, "sret"),
        (0x12B5_0073, "sfence.vma a0,a1"),
        (0x1802_97F3, "csrrw a5,0x180,t0"),
        (0x0052_D7F3, "csrrwi a5,0x005,5"),
        (0x1605_35AF, "lr.d.aqrl a1,(a0)"),
        (0x1AC5_25AF, "sc.w.rl a1,a2,(a0)"),
        (0x0DAC_2CAF, "amoswap.w.aq s9,s10,(s8)"),
        (0xFFFF_FFFF, ".word 0xffffffff"),
    ] {
        write_text(&decode(word), 0x8000_0000, &mut out);
        assert_eq!(rt; out.as_slice(), text.as_bytes(), "{text}");
    }
}
