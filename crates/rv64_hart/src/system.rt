//! Instructions of supervisor registers and modes (unprivileged manual, chapter "Zicsr"; privileged manual, "Trap-Return
//! Instructions", "Wait for Interrupt" and "Supervisor Memory-Management Fence Instruction").

ghost use Rattle.std.specs.Prelude.{◌≡◌, ◌<◌};
ghost use Rattle.rv64_hart.specs.System.{is_exchange, new_value, csr_operand, csr_accessed, csr_done, trap_returned, privileged};
ghost use Rattle.rv64_hart.specs.Program.{CsrEnds};

use crate::hart::Hart;
use ras_bits::Mode;
use rv64_decode::CsrOp;

/// Whether an access writes its operand itself, and doesn't set or clear bits.
fn is_exchange(op: CsrOp) -> bool
    ensures { result ≡ is_exchange op }
{
    match op {
        CsrOp::Rw | CsrOp::Rwi => true,
        CsrOp::Rs | CsrOp::Rc | CsrOp::Rsi | CsrOp::Rci => false,
    }
}

/// What an access writes.
fn new_value(op: CsrOp, old: u64, operand: u64) -> u64
    ensures { result ≡ new_value op old operand }
{
    match op {
        CsrOp::Rw | CsrOp::Rwi => operand,
        CsrOp::Rs | CsrOp::Rsi => old | operand,
        CsrOp::Rc | CsrOp::Rci => old & !operand,
    }
}

impl Hart {
    /// The register or the immediate that an access takes.
    fn csr_operand(&self, op: CsrOp, src: u8) -> u64
        requires { src < 32 }
        ensures { result ≡ csr_operand self.now op src }
    {
        match op {
            CsrOp::Rw | CsrOp::Rs | CsrOp::Rc => self.x(src),
            CsrOp::Rwi | CsrOp::Rsi | CsrOp::Rci => u64::from(src),
        }
    }

    /// An access to a supervisor register, and its old value. Where it isn't permitted, none, and nothing changes.
    #[tactic(auto, unfolding(crate::specs::System::csr_accessed))]
    fn access_csr(&mut self, now: u64, op: CsrOp, rd: u8, number: u16, src: u8) -> Option<u64>
        requires { src < 32 }
        ensures { CsrEnds (csr_accessed self.old.csrs self.old.mode now op rd number src (csr_operand self.old op src)) self.old self.new result }
    {
        let operand = self.csr_operand(op, src);
        if is_exchange(op) && rd == 0 {
            return if self.write_csr(number, operand) {
                Some(0)
            } else {
                None
            };
        }
        let old = self.csrs().read(number, self.mode(), now)?;
        if !is_exchange(op) && src == 0 {
            return Some(old);
        }
        if self.write_csr(number, new_value(op, old, operand)) {
            Some(old)
        } else {
            None
        }
    }

    /// An instruction of supervisor registers, of this word. Where its access isn't permitted it is illegal.
    #[tactic(auto, unfolding(crate::specs::System::csr_done))]
    pub(crate) fn do_csr(&mut self, now: u64, word: u32, op: CsrOp, rd: u8, number: u16, src: u8)
        requires rd { rd < 32 }
        requires src { src < 32 }
        ensures { self.new ≡ csr_done self.old now word op rd number src }
    {
        match self.access_csr(now, op, rd, number, src) {
            Some(old) => self.compute(rd, old),
            None => self.raise_illegal(word),
        }
    }

    /// SRET, of this word, which is illegal in U mode.
    #[tactic(auto, unfolding(crate::specs::System::trap_returned))]
    pub(crate) fn return_from_trap(&mut self, word: u32)
        ensures { self.new ≡ trap_returned self.old word }
    {
        match self.mode() {
            Mode::User => self.raise_illegal(word),
            Mode::Supervisor => {
                self.leave_trap();
                self.retire();
            }
        }
    }

    /// WFI or SFENCE.VMA, of this word: nothing, and illegal in U mode.
    #[tactic(auto, unfolding(crate::specs::System::privileged))]
    pub(crate) fn pass_privileged(&mut self, word: u32)
        ensures { self.new ≡ privileged self.old word }
    {
        match self.mode() {
            Mode::User => self.raise_illegal(word),
            Mode::Supervisor => self.pass(),
        }
    }
}
