//! Jumps and branches (unprivileged manual, "Control Transfer Instructions").

ghost use Rattle.std.specs.Prelude.{◌≡◌, ◌<◌};
ghost use Rattle.rv64_hart.specs.Turn.{jumped, branched};

use crate::hart::Hart;
use crate::traps::Exception;

impl Hart {
    /// Jumps, and leaves the next address in a register.
    #[tactic(auto, unfolding(crate::specs::Turn::jumped))]
    pub(crate) fn jump(&mut self, rd: u8, target: u64)
        requires { rd < 32 }
        ensures { self.new ≡ jumped self.old rd target }
    {
        if target % 4 != 0 {
            self.raise(Exception::InstructionAddressMisaligned, target);
            return;
        }
        let link = self.pc().wrapping_add(4);
        self.retire();
        self.set_pc(target);
        self.set_x(rd, link);
    }

    /// Branches, or goes on to the next instruction.
    #[tactic(auto, unfolding(crate::specs::Turn::branched))]
    pub(crate) fn branch(&mut self, taken: bool, target: u64)
        ensures { self.new ≡ branched self.old taken target }
    {
        if !taken {
            self.pass();
        } else if target % 4 == 0 {
            self.retire();
            self.set_pc(target);
        } else {
            self.raise(Exception::InstructionAddressMisaligned, target);
        }
    }
}
