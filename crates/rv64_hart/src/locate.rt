//! Where an access goes (privileged manual, "Virtual Address Translation Process").

ghost use Rattle.std.specs.Prelude.{◌≡◌};
ghost use Rattle.poison_mem.specs.Asking.{play};
ghost use Rattle.sv39_walk.specs.Progress.{left_of};
ghost use Rattle.rv64_hart.specs.Translation.{walked, located};
ghost use Rattle.rv64_hart.specs.Program.{located_at, located_end, IsFoundInRam, IsFoundInPage};

use crate::access::ram_word;
use crate::hart::Hart;
use crate::traps::Exception;
use poison_mem::{Bus, Cell, EventLog};
use ras_bits::{Access, get_field, is_ram};
use sv39_walk::{Walk, WalkStep};

/// Where an access goes.
#[derive(Clone, Copy)]
pub(crate) enum Located {
    /// To this physical address, in RAM.
    At(u64),
    /// Nowhere: it traps with this exception.
    Refused(Exception),
    /// A page-table entry was needed, and its word, this one, is poison.
    Poisoned(u32),
}

/// An access at a physical address, which must be in RAM.
#[inline]
fn at(words: u32, kind: Access, physical: u64) -> Located
    ensures value { located_at words kind physical ≡ result }
    ensures in_ram { IsFoundInRam words result }
{
    if is_ram(words, physical) {
        Located::At(physical)
    } else {
        Located::Refused(Exception::access_fault(kind))
    }
}

/// Follows a walk through page tables in RAM to its end.
#[tactic(auto, using(crate::proofs::Walks::walked_done, crate::proofs::Walks::walked_fault))]
fn follow<B: Bus, G: EventLog>(
    words: u32,
    kind: Access,
    start: Walk,
    bus: &mut B,
    log: &mut G,
) -> Located
    requires { words ≡ B.meaning.words bus.old }
    ensures plays { play B.meaning G.logged (walked words kind (left_of start)) bus.old log.old ≡ located_end result bus.new log.new }
    ensures words { B.meaning.words bus.new ≡ B.meaning.words bus.old }
    ensures in_ram { IsFoundInRam words result }
{
    let mut walk = start;
    'walk: loop {
        match walk.next() {
            WalkStep::Done(physical) => return at(words, kind, physical),
            WalkStep::Fault(_) => return Located::Refused(Exception::page_fault(kind)),
            WalkStep::Need(address) => {
                let Some(w) = ram_word(words, address) else {
                    return Located::Refused(Exception::access_fault(kind));
                };
                match bus.read(w, log) {
                    Cell::Poison => return Located::Poisoned(w),
                    Cell::Good(entry) => walk.give(entry),
                }
            }
        }
    }
}

impl Hart {
    /// Where an access of this kind to a virtual address goes. The page-table entries on the way are read.
    #[inline]
    #[tactic(auto, unfolding(sv39_walk::specs::Walking::walk, crate::specs::Translation::walked))]
    pub(crate) fn locate<B: Bus, G: EventLog>(
        &self,
        words: u32,
        kind: Access,
        address: u64,
        bus: &mut B,
        log: &mut G,
    ) -> Located
        requires { words ≡ B.meaning.words bus.old }
        ensures plays { play B.meaning G.logged (located words self.now kind address) bus.old log.old ≡ located_end result bus.new log.new }
        ensures words { B.meaning.words bus.new ≡ B.meaning.words bus.old }
        ensures in_page { IsFoundInPage words address result }
    {
        // Without translation, as most programs run, no walk is made.
        if get_field(self.csrs().satp(), 60, 4) == 0 {
            return at(words, kind, address);
        }
        self.translate(words, kind, address, bus, log)
    }

    /// Where an access goes by a walk through page tables. It stands apart, so that an access without one stays short.
    #[inline(never)]
    fn translate<B: Bus, G: EventLog>(
        &self,
        words: u32,
        kind: Access,
        address: u64,
        bus: &mut B,
        log: &mut G,
    ) -> Located
        requires { words ≡ B.meaning.words bus.old }
        ensures plays { play B.meaning G.logged (located words self.now kind address) bus.old log.old ≡ located_end result bus.new log.new }
        ensures words { B.meaning.words bus.new ≡ B.meaning.words bus.old }
        ensures in_page { IsFoundInPage words address result }
    {
        let csrs = self.csrs();
        let satp = csrs.satp();
        let walk = Walk::start(satp, address, kind, self.mode(), csrs.sum(), csrs.mxr());
        follow(words, kind, walk, bus, log)
    }
}
