//! A guest of one hart over plain words, for the trials of the hart.

use poison_mem::{Bus, Cell, FlatMem, NoLog};
use ras_bits::{NoMemory, RAM_START};
use rv64_hart::{Console, Effect, Hart, Peers, TurnEnd};
use std::alloc::Global;

/// The value of a word in memory. Its lower half is negative, and so is the whole.
pub(crate) const DATA: u64 = 0x9122_3344_8566_F788;

/// A positive value whose lower half is positive too.
pub(crate) const OPERAND: u64 = 0x4A5B_6C7D_7081_920F;

/// An odd and negative value.
pub(crate) const NEGATIVE: u64 = 0x8899_AABB_CCDD_EEFF;

pub(crate) const ONES: u64 = 0xFFFF_FFFF_FFFF_FFFF;

/// What a firmware call answers where it isn't supported.
pub(crate) const NOT_SUPPORTED: u64 = 0xFFFF_FFFF_FFFF_FFFE;

/// What a firmware call answers where an argument isn't valid.
pub(crate) const INVALID_PARAM: u64 = 0xFFFF_FFFF_FFFF_FFFD;

pub(crate) const BASE: u64 = 0x10;

/// The letters SRST.
pub(crate) const SYSTEM_RESET: u64 = 0x5352_5354;

/// The letters DBCN.
pub(crate) const DEBUG_CONSOLE: u64 = 0x4442_434E;

pub(crate) const PUTCHAR: u64 = 1;

pub(crate) const GETCHAR: u64 = 2;

/// The address of word 1 of RAM.
pub(crate) const WORD_1: u64 = RAM_START + 8;

/// The address of word 8 of RAM.
pub(crate) const WORD_8: u64 = RAM_START + 0x40;

/// A call to the firmware: a7, a6, and a0 to a2.
#[derive(Clone, Copy, Debug)]
pub(crate) struct Call {
    pub(crate) extension: u64,
    pub(crate) function: u64,
    pub(crate) arguments: [u64; 3],
}

/// The end of a step with which the machine goes on, and no hart but its own is touched.
pub(crate) const WENT: TurnEnd = TurnEnd::Went(Effect::Nothing);

/// A hart, its memory, and how many bytes of the input it took.
#[derive(Drop)]
pub(crate) struct Guest {
    pub(crate) hart: Hart,
    pub(crate) memory: FlatMem,
    pub(crate) place: u64,
}

/// Hart 0, started at an address with this value in a0.
pub(crate) fn hart_at(entry: u64, a0: u64) -> Hart {
    let hart = Hart::new(0, RAM_START);
    let mut state = hart.state();
    state.started = true;
    state.pc = entry;
    state.x[10] = a0;
    match Hart::from_state(&state) {
        Some(hart) => hart,
        None => hart,
    }
}

/// Instruction `i` of a program, 0 behind its end.
pub(crate) fn instruction(program: &[u32], i: usize) -> u64 {
    if i < program.len() {
        u64::from(program[i])
    } else {
        0
    }
}

impl Guest {
    /// A hart with this value in a0, at the first instruction of a program that stands at the start of a memory.
    pub(crate) fn make(
        alloc: Global,
        words: u32,
        program: &[u32],
        a0: u64,
    ) -> Result<Guest, NoMemory> {
        let mut guest = Guest {
            hart: hart_at(RAM_START, a0),
            memory: FlatMem::make(alloc, words)?,
            place: 0,
        };
        for w in 0..guest.memory.words() {
            let i = 2 * w as usize;
            let high = instruction(program, i + 1) << 32;
            guest.put(w, instruction(program, i) | high);
        }
        Ok(guest)
    }

    /// Sets a word, where there is one.
    pub(crate) fn put(&mut self, w: u32, value: u64) {
        if w < self.memory.words() {
            self.memory.load(w, value);
        }
    }

    /// A word, 0 where there is none.
    pub(crate) fn word(&mut self, w: u32) -> u64 {
        if w < self.memory.words() {
            match self.memory.read(w, &mut NoLog) {
                Cell::Good(value) => return value,
                Cell::Poison => (),
            }
        }
        0
    }

    /// zero, t0, a0 and a1.
    pub(crate) fn registers(&self) -> [u64; 4] {
        let hart = &self.hart;
        [hart.x(0), hart.x(5), hart.x(10), hart.x(11)]
    }

    /// The pc, scause, stval and sepc.
    pub(crate) fn trap(&self) -> [u64; 4] {
        let csrs = self.hart.csrs().parts();
        [self.hart.pc(), csrs.scause, csrs.stval, csrs.sepc]
    }

    /// sstatus without UXL, and how many instructions have retired.
    pub(crate) fn status(&self) -> [u64; 2] {
        let csrs = self.hart.csrs().parts();
        [csrs.sstatus % 0x1_0000_0000, csrs.retired]
    }

    /// One step, in step `now` of a machine with one hart. A guest whose hart isn't started makes none.
    pub(crate) fn step(&mut self, now: u64, input: &[u8], console: &mut Console) -> TurnEnd {
        let state = self.hart.state();
        if state.id != 0 || !state.started {
            return WENT;
        }
        let alone = Peers {
            harts: 1,
            started: 1,
        };
        self.hart.step(
            &mut self.memory,
            &mut NoLog,
            now,
            input,
            &mut self.place,
            alone,
            console,
        )
    }

    /// Steps 0 to `n` - 1 of the machine. The first end that isn't `WENT`, if there is one.
    pub(crate) fn run(&mut self, n: u64, console: &mut Console) -> TurnEnd {
        for now in 0..n {
            let end = self.step(now, &[], console);
            if end != WENT {
                return end;
            }
        }
        WENT
    }

    /// Makes a call by the program `CALLS`.
    pub(crate) fn call(&mut self, call: Call, input: &[u8], console: &mut Console) -> TurnEnd {
        self.put(4, call.extension);
        self.put(5, call.function);
        for i in 0..3 {
            self.put(6 + i, call.arguments[i as usize]);
        }
        self.run(6, console);
        self.step(6, input, console)
    }
}

/// Loads the five registers of a firmware call from word 4 on, whose address stands in a0 at first, makes the call, and
/// begins again.
pub(crate) const CALLS: [u32; 8] = [
    0x0005_0413, // addi s0,a0,0
    0x0004_3883, // ld a7,0(s0)
    0x0084_3803, // ld a6,8(s0)
    0x0104_3503, // ld a0,16(s0)
    0x0184_3583, // ld a1,24(s0)
    0x0204_3603, // ld a2,32(s0)
    0x0000_0073, // ecall
    0xFE9F_F06F, // jal zero,-24
];

/// The address of word 4.
pub(crate) const ARGUMENTS: u64 = RAM_START + 0x20;

/// Where the hart stands before and after the ecall of `CALLS`.
pub(crate) const AT_CALL: u64 = RAM_START + 0x18;

pub(crate) const BEHIND_CALL: u64 = RAM_START + 0x1C;
