//! The harts of a machine and the memory that they share.

ghost use Rattle.std.specs.Prelude.{◌≡◌, ◌<◌, ◌≤◌, ◌%◌, IfOk, length, slice_set};
ghost use Rattle.ras_bits.specs.Bits.{has_bit};
ghost use Rattle.rv64_hart.specs.Harts.{affected, effect_applied};
ghost use Rattle.rv64_hart.specs.Within.{HasEntry, CanBeDone};

use crate::around::Around;
use crate::console::Console;
use crate::decoded::{DecodedWord, decoded_words};
use crate::ends::{Effect, TurnEnd};
use crate::hart::Hart;
use crate::peers::Peers;
use crate::shared::Shared;
use poison_mem::{Bus, EventLog};
use ras_bits::{NoMemory, has_bit};
use std::alloc::Global;
use std::marker::Model;

impl Effect {
    /// Whether an interrupt of this mask is for a hart, of whose number all 64 bits count.
    fn is_for(harts: u8, number: u64) -> bool
        ensures { result ≡ has_bit harts number }
    {
        number < 8 && has_bit(u64::from(harts), number as u32)
    }
}

impl Hart {
    /// Does what an effect of hart `acting` does to this one.
    pub(crate) fn affect(&mut self, acting: u64, effect: Effect)
        requires { HasEntry effect }
        ensures { self.new ≡ affected acting effect self.old }
    {
        match effect {
            Effect::Nothing => {}
            Effect::Start {
                hart,
                entry,
                opaque,
            } => {
                if self.number() == u64::from(hart) {
                    self.start(entry, opaque);
                }
            }
            Effect::StopSelf => {
                if self.number() == acting {
                    self.stop();
                }
            }
            Effect::Ipi(harts) => {
                if Effect::is_for(harts, self.number()) {
                    self.ipi();
                }
            }
        }
    }
}

/// Lets hart `i` act in place of the hart that acts.
fn select<B>(acting: &mut Hart, at: &mut usize, shared: &mut Shared<B>, i: usize)
    requires at { at.old < length shared.old.waiting }
    requires there { i < length shared.old.waiting }
    ensures at { at.new ≡ i }
    ensures harts { slice_set shared.new.waiting i acting.new ≡ slice_set shared.old.waiting at.old acting.old }
    ensures memory { shared.new.memory ≡ shared.old.memory }
    ensures len { length shared.new.waiting ≡ length shared.old.waiting }
{
    if *at == i {
        return;
    }
    shared.swap(*at, acting);
    shared.swap(i, acting);
    *at = i;
}

/// Does to all harts what the effect of a step of hart `i`, which acts, does.
fn apply<B>(acting: &mut Hart, shared: &mut Shared<B>, i: u8, answer: TurnEnd)
    requires { CanBeDone answer }
    ensures harts { slice_set shared.new.waiting i acting.new
        ≡ effect_applied i answer (slice_set shared.old.waiting i acting.old) }
    ensures memory { shared.new.memory ≡ shared.old.memory }
{
    match answer {
        TurnEnd::Went(Effect::Nothing) => {}
        TurnEnd::Went(effect) => {
            acting.affect(u64::from(i), effect);
            shared.affect(u64::from(i), effect);
        }
        TurnEnd::Stop(_) => {}
        TurnEnd::Poisoned { .. } => {}
    }
}

/// The harts of a machine, 1 to 4, which stand by their numbers, and the memory that they share.
#[derive(Drop)]
pub struct Harts<B> {
    /// The hart that made the last step.
    acting: Hart,
    /// Its number. The hart that waits in its place means nothing.
    at: usize,
    shared: Shared<B>,
    /// Words that were decoded lately, at the places of their pcs.
    decoded: Vec<DecodedWord>,
}

impl<B> Model for Harts<B> {
    ghost use Rattle.std.specs.Prelude.{◌<◌, length, slice_set};
    ghost use Rattle.rv64_hart.specs.Harts.{HartsState, AreHarts};

    ghost Value = { HartsState B };

    ghost view = { λ a. record { harts = slice_set a.shared.waiting a.at a.acting; memory = a.shared.memory } };

    ghost invariant = { λ a. (a.at < length a.shared.waiting) × AreHarts (slice_set a.shared.waiting a.at a.acting) };
}

impl<B: Drop> Harts<B> {
    ghost use Rattle.rv64_hart.specs.Harts.{first_harts};

    /// A memory and `harts` harts, 1 to 4, of which hart 0 is started at an address, a multiple of 4.
    ///
    /// `NoMemory` comes for want of memory alone.
    pub fn make(alloc: Global, memory: B, harts: u8, entry: u64) -> Result<Harts<B>, NoMemory>
        requires some { 1 ≤ harts }
        requires few { harts ≤ 4 }
        requires aligned { entry % 4 ≡ 0 }
        ensures { IfOk result (λ made. made ≡ record { harts = first_harts harts entry; memory = memory }) }
    {
        let mut acting = Hart::new(0, entry);
        acting.start(entry, 0);
        Ok(Harts {
            acting,
            at: 0,
            shared: Shared::make(alloc, memory, harts, entry)?,
            decoded: decoded_words(alloc)?,
        })
    }
}

impl<B> Harts<B> {
    ghost use Rattle.std.specs.Prelude.{length};
    ghost use Rattle.std.specs.Borrow.{sem};
    ghost use Rattle.rv64_hart.specs.Harts.{hart_at, peers_of, AreHarts};
    ghost use Rattle.rv64_hart.specs.Lends.{lends_memory};

    /// How many harts there are.
    pub fn count(&self) -> u8
        ensures count { result ≡ length self.now.harts }
        ensures harts { AreHarts self.now.harts }
    {
        self.shared.waiting().len() as u8
    }

    /// Hart `i`.
    pub fn hart(&self, i: u8) -> &Hart
        requires { i < length self.now.harts }
        ensures { result.now ≡ hart_at self.now.harts i }
    {
        if i as usize == self.at {
            &self.acting
        } else {
            &self.shared.waiting()[i as usize]
        }
    }

    /// Puts a hart in the place of hart `i`, whose number it has. The others and the memory stay. No step does so.
    pub fn set_hart(&mut self, i: u8, mut h: Hart)
        requires there { i < length self.old.harts }
        requires number { h.number ≡ i }
        ensures { self.new ≡ record self.old { harts = slice_set self.old.harts i h } }
    {
        if i as usize == self.at {
            self.acting = h;
        } else {
            self.shared.swap(i as usize, &mut h);
        }
    }

    /// The memory.
    pub fn memory(&self) -> &B
        ensures { result.now ≡ self.now.memory }
    {
        self.shared.memory()
    }

    /// The memory, for changes that no hart makes.
    pub fn memory_mut(&mut self) -> &mut B
        ensures* writes_back { sem 𝓛 (lends_memory B.row self.entry result) }
        ensures value { result.now ≡ self.old.memory }
    {
        self.shared.memory_mut()
    }

    /// How many harts there are, and which are started.
    fn peers(&self) -> Peers
        ensures { result ≡ peers_of self.now.harts }
    {
        let harts = self.count();
        if harts == 1 {
            let started = u8::from(self.acting.started());
            return Peers { harts, started };
        }
        let mut started = 0;
        let mut i = harts;
        while i > 0 {
            i -= 1;
            started = 2 * started + u8::from(self.hart(i).started());
        }
        Peers { harts, started }
    }
}

impl<B: Bus> Harts<B> {
    ghost use Rattle.std.specs.Prelude.{length};
    ghost use Rattle.rv64_hart.specs.Around.{around_at};
    ghost use Rattle.rv64_hart.specs.Harts.{hart_at, peers_of, harts_scene, harts_stepped, harts_step_of};
    ghost use Rattle.rv64_hart.specs.Turn.{turn};

    /// A step of hart `i`, which `Hart::step` describes, and its effect on all harts: each store clears the reservations of
    /// the other harts that lie in its word, and harts that it starts, stops or interrupts are so.
    pub fn step<G: EventLog>(
        &mut self,
        i: u8,
        log: &mut G,
        now: u64,
        input: &[u8],
        place: &mut u64,
        con: &mut Console,
    ) -> TurnEnd
        requires { i < length self.old.harts }
        ensures { let around = around_at (B.meaning.words self.old.memory) (peers_of self.old.harts) now input.now place.old in
            harts_step_of B.meaning G.logged i (turn around (hart_at self.old.harts i))
            (harts_scene self.old.harts place.old con.old self.old.memory log.old)
            ≡ harts_stepped result (harts_scene self.new.harts place.new con.new self.new.memory log.new) }
    {
        let around = Around::at(self.shared.words(), self.peers(), now, input, *place);
        select(&mut self.acting, &mut self.at, &mut self.shared, i as usize);
        let decoded = self.decoded.as_mut_slice();
        let answer = self
            .acting
            .act(around, decoded, place, &mut self.shared, log, con);
        apply(&mut self.acting, &mut self.shared, i, answer);
        answer
    }
}
