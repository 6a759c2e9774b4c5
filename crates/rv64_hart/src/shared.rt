//! A memory that several harts share.

ghost use Rattle.std.specs.Prelude.{◌≡◌, ◌<◌, ◌%◌, IfOk};
ghost use Rattle.rv64_hart.specs.Within.{HasEntry};

use crate::ends::Effect;
use crate::hart::Hart;
use poison_mem::{Bus, Cell, EventLog};
use ras_bits::NoMemory;
use std::alloc::Global;
use std::marker::Model;
use std::mem;

/// A memory, and the harts that wait while another one makes its turn on it. It is the bus of that turn: each store into it
/// clears the reservations of the waiting harts that lie in its word.
#[derive(Drop)]
pub struct Shared<B> {
    memory: B,
    waiting: Vec<Hart>,
}

impl<B> Model for Shared<B> {
    ghost use Rattle.rv64_hart.specs.Shared.{SharedState};

    ghost Value = { SharedState B };

    ghost view = { λ a. record { memory = a.memory; waiting = a.waiting.items } };
}

impl<B: Drop> Shared<B> {
    ghost use Rattle.rv64_hart.specs.Harts.{stopped_from};

    /// A memory, and `harts` stopped harts with this pc, a multiple of 4.
    ///
    /// `NoMemory` comes for want of memory alone.
    pub fn make(alloc: Global, memory: B, harts: u8, entry: u64) -> Result<Shared<B>, NoMemory>
        requires { entry % 4 ≡ 0 }
        ensures { IfOk result (λ made. made ≡ record { memory = memory; waiting = stopped_from 0 harts entry }) }
    {
        let mut waiting = Vec::with_capacity(alloc, harts as usize)?;
        for id in 0..harts {
            waiting.push(Hart::new(u64::from(id), entry))?;
        }
        Ok(Shared { memory, waiting })
    }
}

impl<B> Shared<B> {
    ghost use Rattle.std.specs.Prelude.{length, map, slice_set, slice_index_or};
    ghost use Rattle.std.specs.Borrow.{sem};
    ghost use Rattle.rv64_hart.specs.Harts.{affected};
    ghost use Rattle.rv64_hart.specs.Lends.{lends_shared};

    /// The memory.
    pub fn memory(&self) -> &B
        ensures { result.now ≡ self.now.memory }
    {
        &self.memory
    }

    /// The memory, for changes that no hart makes.
    pub fn memory_mut(&mut self) -> &mut B
        ensures* writes_back { sem 𝓛 (lends_shared B.row self.entry result) }
        ensures value { result.now ≡ self.old.memory }
    {
        &mut self.memory
    }

    /// The harts that wait.
    pub fn waiting(&self) -> &[Hart]
        ensures { result.now ≡ self.now.waiting }
    {
        self.waiting.as_slice()
    }

    /// A hart takes the place of waiting hart `i`, and that one its.
    pub fn swap(&mut self, i: usize, hart: &mut Hart)
        requires { i < length self.old.waiting }
        ensures waiting { self.new ≡ record self.old { waiting = slice_set self.old.waiting i hart.old } }
        ensures hart { hart.new ≡ slice_index_or self.old.waiting i hart.old }
    {
        mem::swap(&mut self.waiting[i], hart);
    }

    /// Does to all harts that wait what an effect of hart `acting` does.
    pub(crate) fn affect(&mut self, acting: u64, effect: Effect)
        requires { HasEntry effect }
        ensures { self.new ≡ record self.old { waiting = map (affected acting effect) self.old.waiting } }
    {
        for hart in self.waiting.iter_mut() {
            hart.affect(acting, effect);
        }
    }
}

impl<B: Bus> Bus for Shared<B> {
    ghost use Rattle.rv64_hart.specs.Shared.{shared_meaning};
    ghost use Rattle.rv64_hart.specs.SharedLaws.{shared_keeps_words};

    ghost meaning = { shared_meaning B.meaning };

    ghost keeps_words = { shared_keeps_words B.meaning B.keeps_words };

    fn words(&self) -> u32 {
        self.memory.words()
    }

    #[inline]
    fn read<G: EventLog>(&mut self, w: u32, g: &mut G) -> Cell {
        self.memory.read(w, g)
    }

    fn store<G: EventLog>(&mut self, w: u32, v: u64, mask: u8, g: &mut G) {
        self.memory.store(w, v, mask, g);
        for hart in self.waiting.iter_mut() {
            hart.saw_store(w);
        }
    }
}
