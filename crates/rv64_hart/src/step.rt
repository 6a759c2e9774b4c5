//! One step of a hart.

ghost use Rattle.std.specs.Prelude.{◌≡◌, ◌<◌, ◌≤◌, ℕ, true};
ghost use Rattle.ras_bits.specs.Bits.{has_bit};
ghost use Rattle.ras_bits.specs.Map.{is_ram};
ghost use Rattle.poison_mem.specs.Asking.{play, replies_of, IsEndOf};
ghost use Rattle.rv64_decode.specs.Encoding.{OperandsInRange};
ghost use Rattle.rv64_hart.specs.Around.{around_at, around_of};
ghost use Rattle.rv64_hart.specs.Causes.{Causes};
ghost use Rattle.rv64_hart.specs.Outcome.{went};
ghost use Rattle.rv64_hart.specs.Program.{IsTold, IsAlone};
ghost use Rattle.rv64_hart.specs.Step.{scene, stepped, step_of};
ghost use Rattle.rv64_hart.specs.Translation.{At};
ghost use Rattle.rv64_hart.specs.Turn.{turn, turn_after, instruction_turn, fetched_at, executed, called};
ghost use Rattle.rv64_hart.specs.Within.{TurnWithin, CanBeDone};

use crate::access::instruction_in;
use crate::around::Around;
use crate::console::Console;
use crate::decoded::{DecodedWord, instruction_of};
use crate::ends::{Effect, TurnEnd, poisoned};
use crate::hart::Hart;
use crate::locate::Located;
use crate::operands::{even, immediate, offset, upper_imm};
use crate::operation::{Exchange, Operation};
use crate::peers::Peers;
use crate::traps::Exception;
use poison_mem::{Bus, Cell, EventLog, UseKind};
use ras_bits::{Access, Mode, word_at};
use rv64_alu::{alu, alu_w, branch, muldiv};
use rv64_decode::Instr;

impl Hart {
    /// One step over a bus that logs to `log`, in step `now` of the machine: a stopped hart does nothing; else a pending
    /// interrupt is entered, or the instruction at the pc is done, or its exception is entered.
    ///
    /// `input` is the whole input, and `place` how many bytes of it were taken; a place at or past its length is its end.
    /// `peers` are the harts of the machine, of which this one is one. What the step does to harts beside its own turn is
    /// answered, and is the machine's to do.
    ///
    /// The step asks the bus for the words of its turn, at most 600, in order, before it stores any. Where the bus answers
    /// poison, and where the console has no room for the bytes of the step, hart, place and console stay as they were and
    /// nothing is stored. Any other stop changes the pc alone.
    pub fn step<B: Bus, G: EventLog>(
        &mut self,
        bus: &mut B,
        log: &mut G,
        now: u64,
        input: &[u8],
        place: &mut u64,
        peers: Peers,
        con: &mut Console,
    ) -> TurnEnd
        requires harts { (1 ≤ peers.harts) × (peers.harts ≤ 4) }
        requires own { (self.old.number < peers.harts) × (has_bit peers.started self.old.number ≡ self.old.started) }
        ensures step { let around = around_at (B.meaning.words bus.old) peers now input.now place.old in
            step_of B.meaning G.logged (turn around self.old) (scene self.old place.old con.old bus.old log.old)
            ≡ stepped result (scene self.new place.new con.new bus.new log.new) }
        ensures asks { let around = around_at (B.meaning.words bus.old) peers now input.now place.old in
            let replies = replies_of B.meaning (turn around self.old) bus.old in
            IsEndOf (play B.meaning G.logged (turn around self.old) bus.old log.old) (turn_after around self.old replies) }
        ensures causes { let around = around_at (B.meaning.words bus.old) peers now input.now place.old in
            Causes (scene self.old place.old con.old bus.old log.old)
            (play B.meaning G.logged (turn around self.old) bus.old log.old)
            (stepped result (scene self.new place.new con.new bus.new log.new)) }
        ensures bound { let around = around_at (B.meaning.words bus.old) peers now input.now place.old in
            TurnWithin (B.meaning.words bus.old) 600 self.old (turn around self.old) }
        ensures number { self.new.number ≡ self.old.number }
        ensures started { self.new.started ≡ self.old.started }
        ensures effect { CanBeDone result }
        ensures words { B.meaning.words bus.new ≡ B.meaning.words bus.old }
    {
        let around = Around::at(bus.words(), peers, now, input, *place);
        self.act(around, &mut [], place, bus, log, con)
    }

    /// A step that is told this. An instruction is taken of those that were decoded, where it is there.
    pub(crate) fn act<B: Bus, G: EventLog>(
        &mut self,
        around: Around<'_>,
        decoded: &mut [DecodedWord],
        place: &mut u64,
        bus: &mut B,
        log: &mut G,
        con: &mut Console,
    ) -> TurnEnd
        requires { IsTold (B.meaning.words bus.old) place.old (around_of around) }
        ensures step { step_of B.meaning G.logged (turn (around_of around.entry) self.old)
            (scene self.old place.old con.old bus.old log.old)
            ≡ stepped result (scene self.new place.new con.new bus.new log.new) }
        ensures number { self.new.number ≡ self.old.number }
        ensures started { self.new.started ≡ self.old.started }
        ensures effect { CanBeDone result }
    {
        self.take_turn(around, decoded, place, bus, log, con)
    }

    /// A step: nothing where the hart is stopped, else the interrupt that is pending, or an instruction.
    #[tactic(auto, unfolding(crate::specs::Turn::turn, crate::specs::Step::finished))]
    fn take_turn<B: Bus, G: EventLog>(
        &mut self,
        around: Around<'_>,
        decoded: &mut [DecodedWord],
        place: &mut u64,
        bus: &mut B,
        log: &mut G,
        con: &mut Console,
    ) -> TurnEnd
        requires { IsTold (B.meaning.words bus.old) place.old (around_of around) }
        ensures { step_of B.meaning G.logged (turn (around_of around.entry) self.old)
            (scene self.old place.old con.old bus.old log.old)
            ≡ stepped result (scene self.new place.new con.new bus.new log.new) }
    {
        if !self.started() {
            return TurnEnd::Went(Effect::Nothing);
        }
        match self.csrs().pending(around.now, self.mode()) {
            Some(cause) => {
                self.trap(cause, 0);
                TurnEnd::Went(Effect::Nothing)
            }
            None => self.step_instruction(around, decoded, place, bus, log, con),
        }
    }

    /// A step in which no interrupt is taken.
    #[tactic(auto, unfolding(crate::specs::Turn::instruction_turn, crate::specs::Turn::fetched_at, crate::specs::Step::finished))]
    fn step_instruction<B: Bus, G: EventLog>(
        &mut self,
        around: Around<'_>,
        decoded: &mut [DecodedWord],
        place: &mut u64,
        bus: &mut B,
        log: &mut G,
        con: &mut Console,
    ) -> TurnEnd
        requires { IsTold (B.meaning.words bus.old) place.old (around_of around) }
        ensures { step_of B.meaning G.logged (instruction_turn (around_of around.entry) self.old)
            (scene self.old place.old con.old bus.old log.old)
            ≡ stepped result (scene self.new place.new con.new bus.new log.new) }
    {
        let pc = self.pc();
        match self.locate(around.words, Access::Fetch, pc, bus, log) {
            Located::At(physical) => self.fetch(around, decoded, physical, place, bus, log, con),
            Located::Refused(exception) => {
                self.raise(exception, pc);
                TurnEnd::Went(Effect::Nothing)
            }
            Located::Poisoned(w) => poisoned(w, UseKind::Walk),
        }
    }

    /// Fetches the instruction at a physical address, and does it.
    #[tactic(auto, unfolding(crate::specs::Turn::fetched_at, crate::specs::Turn::executed_word, crate::specs::Step::finished))]
    fn fetch<B: Bus, G: EventLog>(
        &mut self,
        around: Around<'_>,
        decoded: &mut [DecodedWord],
        physical: u64,
        place: &mut u64,
        bus: &mut B,
        log: &mut G,
        con: &mut Console,
    ) -> TurnEnd
        requires told { IsTold (B.meaning.words bus.old) place.old (around_of around) }
        requires in_ram { is_ram around.words physical ≡ true }
        ensures { step_of B.meaning G.logged (fetched_at (around_of around.entry) self.old (At physical))
            (scene self.old place.old con.old bus.old log.old)
            ≡ stepped result (scene self.new place.new con.new bus.new log.new) }
    {
        match bus.read(word_at(around.words, physical), log) {
            Cell::Poison => poisoned(word_at(around.words, physical), UseKind::Fetch),
            Cell::Good(value) => {
                let word = instruction_in(self.pc(), value);
                let instr = instruction_of(decoded, self.pc(), word);
                self.execute(around, word, instr, place, bus, log, con)
            }
        }
    }

    /// Does an instruction, of this word.
    #[tactic(auto, unfolding(crate::specs::Turn::executed, crate::specs::Step::finished))]
    fn execute<B: Bus, G: EventLog>(
        &mut self,
        around: Around<'_>,
        word: u32,
        instr: Instr,
        place: &mut u64,
        bus: &mut B,
        log: &mut G,
        con: &mut Console,
    ) -> TurnEnd
        requires told { IsTold (B.meaning.words bus.old) place.old (around_of around) }
        requires range { OperandsInRange instr }
        ensures { step_of B.meaning G.logged (executed (around_of around.entry) self.old word instr)
            (scene self.old place.old con.old bus.old log.old)
            ≡ stepped result (scene self.new place.new con.new bus.new log.new) }
    {
        let (operation, address) = match instr {
            Instr::Load { op, rd, rs1, imm } => {
                (Operation::Load { op, rd }, offset(self.x(rs1), imm as i64))
            }
            Instr::Store { op, rs1, rs2, imm } => {
                let value = self.x(rs2);
                (
                    Operation::Store { op, value },
                    offset(self.x(rs1), imm as i64),
                )
            }
            Instr::LoadReserved { wide, rd, rs1, .. } => {
                (Operation::LoadReserved { wide, rd }, self.x(rs1))
            }
            Instr::StoreCond {
                wide,
                rd,
                rs1,
                rs2,
                ..
            } => {
                let value = self.x(rs2);
                (Operation::StoreConditional { wide, rd, value }, self.x(rs1))
            }
            Instr::Amo {
                op,
                wide,
                rd,
                rs1,
                rs2,
                ..
            } => {
                let operand = self.x(rs2);
                let exchange = Exchange {
                    op,
                    wide,
                    rd,
                    operand,
                };
                (Operation::Atomic(exchange), self.x(rs1))
            }
            Instr::Ecall => return self.call(around, place, bus, log, con),
            _ => {
                self.execute_alone(around, word, instr);
                return TurnEnd::Went(Effect::Nothing);
            }
        };
        self.access(around.words, operation, address, bus, log)
    }

    /// Does an instruction, of this word, that touches the hart alone.
    #[tactic(auto, unfolding(crate::specs::Turn::executed))]
    fn execute_alone(&mut self, around: Around<'_>, word: u32, instr: Instr)
        requires range { OperandsInRange instr }
        requires alone { IsAlone instr }
        ensures { executed (around_of around.entry) self.old word instr ≡ went self.new }
    {
        match instr {
            Instr::Lui { rd, imm } => self.compute(rd, upper_imm(imm)),
            Instr::Auipc { rd, imm } => self.compute(rd, self.pc().wrapping_add(upper_imm(imm))),
            Instr::Jal { rd, off } => self.jump(rd, offset(self.pc(), off as i64)),
            Instr::Jalr { rd, rs1, imm } => self.jump(rd, even(offset(self.x(rs1), imm as i64))),
            Instr::Branch { op, rs1, rs2, off } => {
                let taken = branch(op, self.x(rs1), self.x(rs2));
                self.branch(taken, offset(self.pc(), off as i64));
            }
            Instr::AluImm { op, rd, rs1, imm } => {
                self.compute(rd, alu(op, self.x(rs1), immediate(imm)))
            }
            Instr::AluWImm { op, rd, rs1, imm } => {
                self.compute(rd, alu_w(op, self.x(rs1), immediate(imm)))
            }
            Instr::Alu { op, rd, rs1, rs2 } => {
                self.compute(rd, alu(op, self.x(rs1), self.x(rs2)))
            }
            Instr::AluW { op, rd, rs1, rs2 } => {
                self.compute(rd, alu_w(op, self.x(rs1), self.x(rs2)))
            }
            Instr::Mul { op, rd, rs1, rs2 } => {
                self.compute(rd, muldiv(op, self.x(rs1), self.x(rs2)))
            }
            Instr::Fence { .. } | Instr::FenceI { .. } => self.pass(),
            Instr::Ebreak => self.raise(Exception::Breakpoint, self.pc()),
            Instr::Sret => self.return_from_trap(word),
            Instr::Wfi | Instr::SfenceVma { .. } => self.pass_privileged(word),
            Instr::Csr { op, rd, csr, src } => self.do_csr(around.now, word, op, rd, csr, src),
            Instr::Illegal(_) => self.raise_illegal(word),
            Instr::Ecall
            | Instr::Load { .. }
            | Instr::Store { .. }
            | Instr::LoadReserved { .. }
            | Instr::StoreCond { .. }
            | Instr::Amo { .. } => unreachable!(),
        }
    }

    /// An environment call: from U mode a trap, from S mode a call to the firmware.
    #[tactic(auto, unfolding(crate::specs::Turn::called, crate::specs::Step::finished))]
    fn call<B: Bus, G: EventLog>(
        &mut self,
        around: Around<'_>,
        place: &mut u64,
        bus: &mut B,
        log: &mut G,
        con: &mut Console,
    ) -> TurnEnd
        requires { IsTold (B.meaning.words bus.old) place.old (around_of around) }
        ensures { step_of B.meaning G.logged (called (around_of around.entry) self.old)
            (scene self.old place.old con.old bus.old log.old)
            ≡ stepped result (scene self.new place.new con.new bus.new log.new) }
    {
        match self.mode() {
            Mode::User => {
                self.raise(Exception::EnvironmentCallFromUser, 0);
                TurnEnd::Went(Effect::Nothing)
            }
            Mode::Supervisor => self.call_firmware(around, place, bus, log, con),
        }
    }
}
