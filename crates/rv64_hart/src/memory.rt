//! Loads, stores and atomic operations (unprivileged manual, "Load and Store Instructions" and chapter "A").

ghost use Rattle.std.specs.Prelude.{◌≡◌, ◌<◌, ℕ, List, [], ◌∷◌, true};
ghost use Rattle.ras_bits.specs.Map.{is_ram};
ghost use Rattle.rv64_hart.specs.Access.{is_aligned, load_width};
ghost use Rattle.rv64_hart.specs.Operations.{accessed, performed, loaded, reserved, exchanged, width_of, atomic_width as width_of_atomic, store_of};
ghost use Rattle.rv64_hart.specs.Program.{HasRegister};
ghost use Rattle.rv64_hart.specs.Step.{scene, stepped, step_of, stored};

use crate::access::{Width, loaded_value, stored_mask, stored_value};
use crate::ends::{Effect, TurnEnd, poisoned};
use crate::hart::Hart;
use crate::locate::Located;
use crate::operation::{Exchange, Operation, atomic_load, atomic_store, atomic_width};
use crate::traps::Exception;
use poison_mem::{Bus, Cell, EventLog, UseKind};
use ras_bits::word_at;
use rv64_alu::amo;
use rv64_decode::{LoadOp, StoreOp};

// An access takes no input and writes nothing to the console, wherever these stand.
impl Hart {
    /// An operation at a virtual address: it is checked for alignment, then the address is translated, then checked for
    /// RAM, and then it is done.
    #[tactic(auto, unfolding(crate::specs::Operations::accessed, crate::specs::Step::finished))]
    pub(crate) fn access<B: Bus, G: EventLog>(
        &mut self,
        words: u32,
        operation: Operation,
        address: u64,
        bus: &mut B,
        log: &mut G,
    ) -> TurnEnd
        requires bus { words ≡ B.meaning.words bus.old }
        requires rd { HasRegister operation }
        ensures { (place : ℕ) (console : List ℕ) →
            step_of B.meaning G.logged (accessed words self.old operation address) (scene self.old place console bus.old log.old)
            ≡ stepped result (scene self.new place console bus.new log.new) }
    {
        if !operation.width().divides(address) {
            self.raise(Exception::misaligned(operation.kind()), address);
            return TurnEnd::Went(Effect::Nothing);
        }
        match self.locate(words, operation.kind(), address, bus, log) {
            Located::At(physical) => self.perform(words, operation, physical, bus, log),
            Located::Refused(exception) => {
                self.raise(exception, address);
                TurnEnd::Went(Effect::Nothing)
            }
            Located::Poisoned(w) => poisoned(w, UseKind::Walk),
        }
    }

    /// Does an operation at a physical address.
    #[tactic(auto, unfolding(crate::specs::Operations::performed, crate::specs::Operations::conditionally_stored, crate::specs::Step::finished))]
    fn perform<B: Bus, G: EventLog>(
        &mut self,
        words: u32,
        operation: Operation,
        physical: u64,
        bus: &mut B,
        log: &mut G,
    ) -> TurnEnd
        requires bus { words ≡ B.meaning.words bus.old }
        requires rd { HasRegister operation }
        requires aligned { is_aligned (width_of operation) physical ≡ true }
        requires in_ram { is_ram words physical ≡ true }
        ensures { (place : ℕ) (console : List ℕ) →
            step_of B.meaning G.logged (performed self.old operation physical) (scene self.old place console bus.old log.old)
            ≡ stepped result (scene self.new place console bus.new log.new) }
    {
        match operation {
            Operation::Load { op, rd } => return self.load(words, op, rd, physical, bus, log),
            Operation::Store { op, value } => {
                store(words, op, physical, value, bus, log);
                self.pass();
            }
            Operation::LoadReserved { wide, rd } => {
                return self.load_reserved(words, wide, rd, physical, bus, log);
            }
            Operation::StoreConditional { wide, rd, value } => {
                if self.take_reservation(physical, atomic_width(wide)) {
                    store(words, atomic_store(wide), physical, value, bus, log);
                    self.compute(rd, 0);
                } else {
                    self.compute(rd, 1);
                }
            }
            Operation::Atomic(exchange) => {
                return self.exchange(words, exchange, physical, bus, log);
            }
        }
        TurnEnd::Went(Effect::Nothing)
    }

    /// Loads the bytes of one word.
    #[tactic(auto, unfolding(crate::specs::Operations::loaded, crate::specs::Step::finished))]
    fn load<B: Bus, G: EventLog>(
        &mut self,
        words: u32,
        op: LoadOp,
        rd: u8,
        physical: u64,
        bus: &mut B,
        log: &mut G,
    ) -> TurnEnd
        requires bus { words ≡ B.meaning.words bus.old }
        requires rd { rd < 32 }
        requires aligned { is_aligned (load_width op) physical ≡ true }
        requires in_ram { is_ram words physical ≡ true }
        ensures { (place : ℕ) (console : List ℕ) →
            step_of B.meaning G.logged (loaded self.old op rd physical) (scene self.old place console bus.old log.old)
            ≡ stepped result (scene self.new place console bus.new log.new) }
    {
        match bus.read(word_at(words, physical), log) {
            Cell::Poison => poisoned(word_at(words, physical), UseKind::Load),
            Cell::Good(value) => {
                self.compute(rd, loaded_value(op, value, physical));
                TurnEnd::Went(Effect::Nothing)
            }
        }
    }

    /// Loads a word or doubleword, and reserves it.
    #[tactic(auto, unfolding(crate::specs::Operations::reserved, crate::specs::Step::finished))]
    fn load_reserved<B: Bus, G: EventLog>(
        &mut self,
        words: u32,
        wide: bool,
        rd: u8,
        physical: u64,
        bus: &mut B,
        log: &mut G,
    ) -> TurnEnd
        requires bus { words ≡ B.meaning.words bus.old }
        requires rd { rd < 32 }
        requires aligned { is_aligned (width_of_atomic wide) physical ≡ true }
        requires in_ram { is_ram words physical ≡ true }
        ensures { (place : ℕ) (console : List ℕ) →
            step_of B.meaning G.logged (reserved self.old wide rd physical) (scene self.old place console bus.old log.old)
            ≡ stepped result (scene self.new place console bus.new log.new) }
    {
        match bus.read(word_at(words, physical), log) {
            Cell::Poison => poisoned(word_at(words, physical), UseKind::Amo),
            Cell::Good(value) => {
                self.reserve(physical, atomic_width(wide));
                self.compute(rd, loaded_value(atomic_load(wide), value, physical));
                TurnEnd::Went(Effect::Nothing)
            }
        }
    }

    /// Exchanges the value in memory for that of an operation on it.
    #[tactic(auto, unfolding(crate::specs::Operations::exchanged, crate::specs::Step::finished))]
    fn exchange<B: Bus, G: EventLog>(
        &mut self,
        words: u32,
        exchange: Exchange,
        physical: u64,
        bus: &mut B,
        log: &mut G,
    ) -> TurnEnd
        requires bus { words ≡ B.meaning.words bus.old }
        requires rd { exchange.rd < 32 }
        requires aligned { is_aligned (width_of_atomic exchange.wide) physical ≡ true }
        requires in_ram { is_ram words physical ≡ true }
        ensures { (place : ℕ) (console : List ℕ) →
            step_of B.meaning G.logged (exchanged self.old exchange physical) (scene self.old place console bus.old log.old)
            ≡ stepped result (scene self.new place console bus.new log.new) }
    {
        let Exchange {
            op,
            wide,
            rd,
            operand,
        } = exchange;
        match bus.read(word_at(words, physical), log) {
            Cell::Poison => poisoned(word_at(words, physical), UseKind::Amo),
            Cell::Good(word) => {
                let old = loaded_value(atomic_load(wide), word, physical);
                let new = amo(op, old, operand, wide);
                store(words, atomic_store(wide), physical, new, bus, log);
                self.compute(rd, old);
                TurnEnd::Went(Effect::Nothing)
            }
        }
    }
}

/// Stores the bytes of one word, which isn't read.
fn store<B: Bus, G: EventLog>(
    words: u32,
    op: StoreOp,
    physical: u64,
    value: u64,
    bus: &mut B,
    log: &mut G,
)
    requires bus { words ≡ B.meaning.words bus.old }
    requires in_ram { is_ram words physical ≡ true }
    ensures { stored B.meaning G.logged (store_of op physical value ∷ []) bus.old log.old ≡ (bus.new, log.new) }
{
    bus.store(
        word_at(words, physical),
        stored_value(physical, value),
        stored_mask(Width::of_store(op), physical),
        log,
    );
}
