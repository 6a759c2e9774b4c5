//! The bus that a hart works on.

ghost use Rattle.std.specs.Prelude.{◌≡◌, ◌<◌, ℕ};
ghost use Rattle.poison_mem.specs.Bus.{BusMeaning, KeepsWords, logged_all};

use crate::cell::Cell;
use crate::log::EventLog;

/// Words that are read and stored, and what is logged on the way. No call refuses or takes memory.
pub trait Bus {
    /// What each call answers, leaves and logs, as functions of the state before and the arguments.
    ghost meaning: { BusMeaning Self };

    /// How many words there are.
    fn words(&self) -> u32
        ensures { result ≡ meaning.words self.now };

    /// Reads the word `w`.
    fn read<G: EventLog>(&mut self, w: u32, g: &mut G) -> Cell
        requires { w < meaning.words self.old }
        ensures cell { result ≡ (meaning.read self.old w).cell }
        ensures after { self.new ≡ (meaning.read self.old w).after }
        ensures events { g.new ≡ logged_all G.logged g.old (meaning.read self.old w).events }
        ensures words { meaning.words self.new ≡ meaning.words self.old };

    /// Stores the bytes of `v` whose bits are set in `mask` into the word `w`. Bit i stands for byte i.
    fn store<G: EventLog>(&mut self, w: u32, v: u64, mask: u8, g: &mut G)
        requires { w < meaning.words self.old }
        ensures after { self.new ≡ (meaning.store self.old w v mask).after }
        ensures events { g.new ≡ logged_all G.logged g.old (meaning.store self.old w v mask).events }
        ensures words { meaning.words self.new ≡ meaning.words self.old };

    /// No read and no store changes the number of words.
    ghost keeps_words: { KeepsWords meaning };
}
