//! A bus of plain words.

ghost use Rattle.std.specs.Prelude.{◌≡◌, ◌<◌, ℕ, List, length, slice_set, replicate, IfOk};
ghost use Rattle.poison_mem.specs.Flat.{flat_meaning};

use crate::bus::Bus;
use crate::cell::{Cell, merged};
use crate::log::EventLog;
use ras_bits::NoMemory;
use std::alloc::Global;
use std::marker::Model;

/// Plain words, zero at first. Every read is good, and nothing is logged.
#[derive(Drop)]
pub struct FlatMem {
    values: Vec<u64>,
}

impl Model for FlatMem {
    ghost use Rattle.std.specs.Prelude.{ℕ, List, ◌<◌, ◌^◌, vec_len};

    ghost Value = { List ℕ };

    ghost view = { λ memory. memory.values.items };

    ghost invariant = { λ memory. vec_len memory.values < 2 ^ 32 };
}

impl FlatMem {
    /// A memory of this many words, all zero. The one refusal is want of memory.
    pub fn make(alloc: Global, words: u32) -> Result<FlatMem, NoMemory>
        ensures { IfOk result (λ memory. memory ≡ replicate words 0) }
    {
        let values = vec![in alloc; 0u64; words as usize]?;
        Ok(FlatMem { values })
    }

    /// Sets the word `w`.
    pub fn load(&mut self, w: u32, v: u64)
        requires { w < length self.old }
        ensures { self.new ≡ slice_set self.old w v }
    {
        self.values[w as usize] = v;
    }
}

impl Bus for FlatMem {
    ghost use Rattle.poison_mem.specs.FlatLaws.{flat_keeps_words};

    ghost meaning = { flat_meaning };

    ghost keeps_words = { flat_keeps_words };

    fn words(&self) -> u32 {
        self.values.len() as u32
    }

    fn read<G: EventLog>(&mut self, w: u32, _g: &mut G) -> Cell {
        Cell::Good(self.values[w as usize])
    }

    fn store<G: EventLog>(&mut self, w: u32, v: u64, mask: u8, _g: &mut G) {
        let old = self.values[w as usize];
        self.values[w as usize] = merged(old, v, mask);
    }
}
