//! Whether the machine whose memory takes faults has the harts of the flat machine.

ghost use Rattle.std.specs.Prelude.{◌≡◌, ◌↔◌, IsTrue};
ghost use Rattle.ras_machine.specs.Same.{HaveSameHarts};

use crate::flat::Flat;
use crate::machine::Machine;

impl Machine {
    /// Whether the flat machine has the same harts: as many of them, each equal in every part, and
    /// as many bytes of the input taken.
    pub fn same_harts(&self, f: &Flat) -> bool
        ensures { IsTrue result ↔ HaveSameHarts self.now f.now }
    {
        if self.place() != f.place() {
            return false;
        }
        let harts = self.harts();
        if harts != f.harts() {
            return false;
        }
        for i in 0..harts {
            if !self.hart(i).same(f.hart(i)) {
                return false;
            }
        }
        true
    }
}
