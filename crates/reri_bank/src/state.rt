//! The state of one record.

ghost use Rattle.std.specs.Prelude.{◌≡◌, ◌==◌, ◌<◌, ℕ};
ghost use Rattle.poison_mem.specs.declared.event.Event.{Event};
ghost use Rattle.reri_bank.specs.State.{shown, StandsAfter, StaysHeld, state_logged, lists_logged, state_emptied, lists_emptied, state_marked, lists_marked, state_written, lists_written};
ghost use Rattle.reri_bank.specs.Views.{IsOf};

use crate::layout::{Control, SINV, SRDP, control_of};
use crate::record::with_event;
use poison_mem::{Class, Event, RecordView};
use ras_bits::has_bit;

/// An injection that waits for its step.
#[derive(Clone, Copy, Debug, PartialEq, Eq)]
pub struct Staged {
    /// The class of its event.
    pub class: Class,
    /// The address of its event.
    pub addr: u64,
    /// How many steps are left, at least 1.
    pub left: u16,
}

/// The state of a record.
#[derive(Clone, Copy, Debug, PartialEq, Eq)]
pub struct RecState {
    /// What it shows of the events since its last clear, None where there are none.
    pub kept: Option<RecordView>,
    /// It was read (`srdp`), and no event came since.
    pub rdip: bool,
    /// Its control register.
    pub control: Control,
    /// The injection that waits for it.
    pub staged: Option<Staged>,
}

impl RecState {
    /// Logs an event, where logging is enabled.
    pub(crate) fn log(&mut self, event: Event)
        ensures state { self.new ≡ state_logged self.old event }
        ensures lists { StandsAfter shown (λ r. lists_logged r event) self.old self.new }
        ensures held { (bank rec : ℕ) → IsOf bank rec event → event.pri < 4
            → StaysHeld bank rec self.old self.new }
    {
        if self.control.logging {
            self.kept = Some(with_event(self.kept, event));
            self.rdip = false;
        }
    }

    /// Empties the record where `rdip` is set.
    pub(crate) fn empty(&mut self)
        ensures state { self.new ≡ state_emptied self.old }
        ensures lists { StandsAfter shown lists_emptied self.old self.new }
        ensures held { (bank rec : ℕ) → StaysHeld bank rec self.old self.new }
    {
        if self.rdip {
            self.kept = None;
            self.rdip = false;
        }
    }

    /// Sets `rdip` where the record is valid.
    pub(crate) fn mark(&mut self)
        ensures state { self.new ≡ state_marked self.old }
        ensures lists { StandsAfter shown lists_marked self.old self.new }
        ensures held { (bank rec : ℕ) → StaysHeld bank rec self.old self.new }
    {
        if self.kept.is_some() {
            self.rdip = true;
        }
    }

    /// Writes the control register.
    pub(crate) fn write(&mut self, always_logs: bool, value: u64)
        ensures state { self.new ≡ state_written always_logs self.old value }
        ensures lists { StandsAfter shown (λ r. lists_written always_logs r value)
            self.old self.new }
        ensures held { (bank rec : ℕ) → (bank == 2) ≡ always_logs
            → StaysHeld bank rec self.old self.new }
    {
        let mut control = control_of(value);
        control.logging = control.logging | always_logs;
        self.control = control;
        if has_bit(value, SINV) {
            self.empty();
        }
        if has_bit(value, SRDP) {
            self.mark();
        }
    }
}
