//! Instructions of one hart over plain words, by hand from the manuals.

use crate::hart_guest::{DATA, Guest, NEGATIVE, OPERAND, WENT, WORD_1, WORD_8};
use ras_bits::RAM_START;
use rv64_hart::Console;
use std::test::Fail;

/// An instruction, how far the pc moves, and t0 afterwards.
#[derive(Clone, Copy)]
struct Executed {
    word: u32,
    a0: u64,
    moves: u64,
    t0: u64,
}

#[test]
fn each_format_and_load_by_hand(rt: HostRuntime) -> Result<(), Fail> {
    let rows = [
        Executed {
            word: 0xFF85_0293, // addi t0,a0,-8
            a0: WORD_1,
            moves: 4,
            t0: RAM_START,
        },
        Executed {
            word: 0x00A5_02B3, // add t0,a0,a0
            a0: WORD_1,
            moves: 4,
            t0: 0x1_0000_0010,
        },
        Executed {
            word: 0x8000_02B7, // lui t0,0x80000
            a0: WORD_1,
            moves: 4,
            t0: 0xFFFF_FFFF_8000_0000,
        },
        Executed {
            word: 0x0080_02EF, // jal t0,8
            a0: WORD_1,
            moves: 8,
            t0: RAM_START + 4,
        },
        Executed {
            word: 0x0005_0567, // jalr a0,0(a0)
            a0: WORD_1,
            moves: 8,
            t0: 0,
        },
        Executed {
            word: 0x0005_4463, // blt a0,zero,8
            a0: NEGATIVE,
            moves: 8,
            t0: 0,
        },
        Executed {
            word: 0x0005_6163, // bltu a0,zero,2
            a0: NEGATIVE,
            moves: 4,
            t0: 0,
        },
        Executed {
            word: 0x0055_0283, // lb t0,5(a0)
            a0: WORD_1,
            moves: 4,
            t0: 0x33,
        },
        Executed {
            word: 0x0075_4283, // lbu t0,7(a0)
            a0: WORD_1,
            moves: 4,
            t0: 0x91,
        },
        Executed {
            word: 0x0065_1283, // lh t0,6(a0)
            a0: WORD_1,
            moves: 4,
            t0: 0xFFFF_FFFF_FFFF_9122,
        },
        Executed {
            word: 0x0025_5283, // lhu t0,2(a0)
            a0: WORD_1,
            moves: 4,
            t0: 0x8566,
        },
        Executed {
            word: 0x0045_2283, // lw t0,4(a0)
            a0: WORD_1,
            moves: 4,
            t0: 0xFFFF_FFFF_9122_3344,
        },
        Executed {
            word: 0x0005_6283, // lwu t0,0(a0)
            a0: WORD_1,
            moves: 4,
            t0: 0x8566_F788,
        },
        Executed {
            word: 0x0005_3283, // ld t0,0(a0)
            a0: WORD_1,
            moves: 4,
            t0: DATA,
        },
    ];
    let mut console = Console::make(rt.alloc())?;
    for Executed {
        word,
        a0,
        moves,
        t0,
    } in rows {
        let mut guest = Guest::make(rt.alloc(), 4, &[word], a0)?;
        guest.put(1, DATA);
        let pc = RAM_START.wrapping_add(moves);
        assert_eq!(rt; guest.run(1, &mut console), WENT, "{word:#x}");
        assert_eq!(rt; guest.trap(), [pc, 0, 0, 0], "{word:#x}");
        assert_eq!(rt; guest.status(), [0, 1], "{word:#x}");
        let [zero, got, _, _] = guest.registers();
        assert_eq!(rt; [zero, got, guest.word(1)], [0, t0, DATA], "{word:#x}");
    }
    Ok(())
}

/// An instruction with OPERAND in t1 and the address of word 1 in a0, and word 1 and t0 afterwards.
#[derive(Clone, Copy)]
struct Stored {
    word: u32,
    stored: u64,
    t0: u64,
}

#[test]
fn stores_change_their_bytes_alone(rt: HostRuntime) -> Result<(), Fail> {
    let rows = [
        Stored {
            word: 0x0065_01A3, // sb t1,3(a0)
            stored: 0x9122_3344_0F66_F788,
            t0: 0,
        },
        Stored {
            word: 0x0065_1323, // sh t1,6(a0)
            stored: 0x920F_3344_8566_F788,
            t0: 0,
        },
        Stored {
            word: 0x0065_2223, // sw t1,4(a0)
            stored: 0x7081_920F_8566_F788,
            t0: 0,
        },
        Stored {
            word: 0x0865_22AF, // amoswap.w t0,t1,(a0)
            stored: 0x9122_3344_7081_920F,
            t0: 0xFFFF_FFFF_8566_F788,
        },
    ];
    let mut console = Console::make(rt.alloc())?;
    for Stored { word, stored, t0 } in rows {
        let load = 0x0085_3303; // ld t1,8(a0)
        let mut guest = Guest::make(rt.alloc(), 4, &[load, word], WORD_1)?;
        guest.put(1, DATA);
        guest.put(2, OPERAND);
        assert_eq!(rt; guest.run(2, &mut console), WENT, "{word:#x}");
        let words = [guest.word(1), guest.word(2)];
        assert_eq!(rt; words, [stored, OPERAND], "{word:#x}");
        assert_eq!(rt; guest.hart.x(5), t0, "{word:#x}");
    }
    Ok(())
}

/// A program that ends with the step under test, and t0 and word 8, whose address is in a0, afterwards.
#[derive(Clone, Copy)]
struct Program<'a> {
    steps: &'a [u32],
    t0: u64,
    stored: u64,
}

#[test]
fn reservations_counts_and_new_code(rt: HostRuntime) -> Result<(), Fail> {
    let a0 = WORD_8;
    let half = 0x9122_3344_8000_0040;
    let (lr_w, sc_w) = (0x1005_22AF, 0x18A5_22AF); // lr.w t0,(a0); sc.w t0,a0,(a0)
    let (lr_d, sc_d) = (0x1005_32AF, 0x18A5_32AF); // lr.d t0,(a0); sc.d t0,a0,(a0)
    let next = 0x0085_0593; // addi a1,a0,8
    let (lr_next, sc_next) = (0x1005_B2AF, 0x18A5_B2AF); // lr.d t0,(a1); sc.d t0,a0,(a1)
    let (set_stvec, ecall, ebreak) = (0x1055_9073, 0x0000_0073, 0x0010_0073); // csrrw zero,stvec,a1; ecall; ebreak
    let back = 0xFD05_0593; // addi a1,a0,-48
    let instret = 0xC020_22F3; // csrrs t0,instret,zero
    let (load, store) = (0x0085_3303, 0xFC65_2623); // ld t1,8(a0); sw t1,-52(a0)
    let fence = 0x0000_100F; // fence.i
    let rows = [
        Program {
            steps: &[lr_w],
            t0: 0xFFFF_FFFF_8566_F788,
            stored: DATA,
        },
        Program {
            steps: &[lr_d],
            t0: DATA,
            stored: DATA,
        },
        Program {
            steps: &[lr_d, sc_d],
            t0: 0,
            stored: a0,
        },
        Program {
            steps: &[lr_w, sc_w],
            t0: 0,
            stored: half,
        },
        Program {
            steps: &[sc_d],
            t0: 1,
            stored: DATA,
        },
        Program {
            steps: &[sc_w],
            t0: 1,
            stored: DATA,
        },
        Program {
            steps: &[lr_w, sc_d],
            t0: 1,
            stored: DATA,
        },
        Program {
            steps: &[lr_d, sc_w],
            t0: 1,
            stored: DATA,
        },
        Program {
            steps: &[next, lr_next, sc_d],
            t0: 1,
            stored: DATA,
        },
        Program {
            steps: &[lr_d, sc_d, sc_d],
            t0: 1,
            stored: a0,
        },
        Program {
            steps: &[lr_d, sc_w, sc_d],
            t0: 1,
            stored: DATA,
        },
        Program {
            steps: &[next, lr_d, sc_next, sc_d],
            t0: 1,
            stored: DATA,
        },
        // neither the call nor the trap, which goes to the instruction behind it, is counted
        Program {
            steps: &[back, set_stvec, ecall, ebreak, instret],
            t0: 2,
            stored: DATA,
        },
        // the last instruction is stored by the second
        Program {
            steps: &[load, store, fence, 0],
            t0: 7,
            stored: DATA,
        },
    ];
    let mut console = Console::make(rt.alloc())?;
    for Program { steps, t0, stored } in rows {
        let mut guest = Guest::make(rt.alloc(), 10, steps, a0)?;
        guest.put(8, DATA);
        guest.put(9, 0x0070_0293); // addi t0,zero,7
        let end = guest.run(steps.len() as u64, &mut console);
        assert_eq!(rt; end, WENT, "{steps:?}");
        let got = [guest.hart.x(5), guest.word(8)];
        assert_eq!(rt; got, [t0, stored], "{steps:?}");
    }
    Ok(())
}
