//! The three banks of a machine.

ghost use Rattle.std.specs.Prelude.{◌≡◌, ◌<◌, ◌≤◌, None, IfSome};
ghost use Rattle.reri_bank.specs.State.{IsRecordHeld, StandsAfter, RecordLists, shown, lists_logged, lists_written};
ghost use Rattle.reri_bank.specs.BankState.{kind_number, AreHeld};
ghost use Rattle.reri_bank.specs.Bank.{record_count, is_control_of, no_events, lists_staged};
ghost use Rattle.reri_bank.specs.Banks.{with_record_of, records_of, banks_shown, banks_of, banks_logged, banks_logged_by, bank_at, new_banks, with_now, first_critical, is_critical, banks_written, banks_written_by, banks_staged};

use crate::bank::{Bank, BankKind};
use crate::state::{RecState, Staged};
use poison_mem::{Class, Event, EventLog, RecordView};
use std::marker::Model;

/// The banks, and the step that is put into events.
#[derive(Drop)]
pub struct Banks {
    memory: Bank,
    caches: Bank,
    hart: Bank,
    step: u64,
}

impl Model for Banks {
    ghost use Rattle.std.specs.Prelude.{◌≡◌};
    ghost use Rattle.reri_bank.specs.BanksState.{BanksState};

    ghost Value = { BanksState };

    ghost use Rattle.reri_bank.specs.declared.bank.BankKind.TheVariants.{Memory, Caches, Hart};

    ghost view = { λ b. record {
      memory = b.memory;
      caches = b.caches;
      hart = b.hart;
      step = b.step;
    } };

    ghost invariant = { λ b. (b.memory.kind ≡ Memory) × (b.caches.kind ≡ Caches)
        × (b.hart.kind ≡ Hart) };
}

/// Whether a record keeps a critical event.
fn is_critical(kept: Option<RecordView>) -> bool
    ensures { result ≡ is_critical kept }
{
    match kept {
        None => false,
        Some(view) => view.kept.class == Class::Critical,
    }
}

impl Banks {
    /// The new banks 0, 1 and 2, and step 0.
    pub fn new() -> Banks
        ensures value { result ≡ new_banks }
        ensures stands { result ≡ banks_shown (banks_of no_events) }
    {
        Banks {
            memory: Bank::new(BankKind::Memory),
            caches: Bank::new(BankKind::Caches),
            hart: Bank::new(BankKind::Hart),
            step: 0,
        }
    }

    /// Sets the step that is put into events.
    pub fn set_now(&mut self, n: u64)
        ensures state { self.new ≡ with_now self.old n }
        ensures lists { StandsAfter banks_shown (λ l. with_now l n) self.old self.new }
    {
        self.step = n;
    }

    /// A bank, of 0 to 2.
    pub fn bank(&self, b: u8) -> &Bank
        requires { b < 3 }
        ensures value { result.now ≡ bank_at self.now b }
        ensures kind { kind_number result.now.kind ≡ b }
        ensures records { record_count result.now.kind ≡ records_of b }
        ensures held { AreHeld result.now }
    {
        if b == 0 {
            self.memory.see_records();
            &self.memory
        } else if b == 1 {
            self.caches.see_records();
            &self.caches
        } else {
            self.hart.see_records();
            &self.hart
        }
    }

    /// The least bank and record that keeps a critical event, None exactly where none does.
    pub fn first_critical(&self) -> Option<(u8, u8)>
        ensures { result ≡ first_critical self.now }
    {
        if is_critical(self.memory.kept(0)) {
            return Some((0, 0));
        }
        if is_critical(self.memory.kept(1)) {
            return Some((0, 1));
        }
        if is_critical(self.caches.kept(0)) {
            return Some((1, 0));
        }
        if is_critical(self.caches.kept(1)) {
            return Some((1, 1));
        }
        if is_critical(self.hart.kept(0)) {
            return Some((2, 0));
        }
        None
    }

    /// Writes a register of bank `b`, of 0 to 2. The other banks stay.
    ///
    /// False exactly at an undefined or read-only offset, and then nothing changes.
    pub fn write_reg(&mut self, b: u8, offset: u16, v: u64) -> bool
        requires { b < 3 }
        ensures written { result ≡ is_control_of (bank_at self.old b).kind offset }
        ensures state { self.new ≡ banks_written self.old b offset v }
        ensures lists { StandsAfter banks_shown (λ l. banks_written_by lists_written l b offset v)
            self.old self.new }
    {
        if b == 0 {
            self.memory.write_reg(offset, v)
        } else if b == 1 {
            self.caches.write_reg(offset, v)
        } else {
            self.hart.write_reg(offset, v)
        }
    }

    /// Stages an injection for a record of bank `b`, or takes it away. The bank and the record are there, and the other
    /// banks stay.
    ///
    /// What is staged has at least one step left, and nothing is staged in bank 2.
    pub fn set_staged(&mut self, b: u8, rec: u8, s: Option<Staged>)
        requires bank { b < 3 }
        requires rec { rec < records_of b }
        requires left { IfSome s (λ t. 1 ≤ t.left) }
        requires hart { b ≡ 2 → s ≡ None }
        ensures state { self.new ≡ banks_staged self.old b rec s }
        ensures lists { StandsAfter banks_shown (λ l. with_record_of l b rec (lists_staged s))
            self.old self.new }
    {
        if b == 0 {
            self.memory.set_staged(rec, s);
        } else if b == 1 {
            self.caches.set_staged(rec, s);
        } else {
            self.hart.set_staged(rec, s);
        }
    }

    /// Sets the state of a record of bank `b`, under the conditions of `Bank::set_rec_state`. The other banks stay.
    pub fn set_rec_state(&mut self, b: u8, rec: u8, s: &RecState)
        requires bank { b < 3 }
        requires rec { rec < records_of b }
        requires held { IsRecordHeld b rec s.now }
        ensures state { self.new ≡ with_record_of self.old b rec (λ _. s.now) }
        ensures lists { (r : RecordLists) → s.now ≡ shown r
            → StandsAfter banks_shown (λ l. with_record_of l b rec (λ _. r)) self.old self.new }
    {
        if b == 0 {
            self.memory.set_rec_state(rec, s);
        } else if b == 1 {
            self.caches.set_rec_state(rec, s);
        } else {
            self.hart.set_rec_state(rec, s);
        }
    }
}

impl EventLog for Banks {
    ghost logged = { banks_logged };

    /// Puts the step into the event and logs it to the record that it names. An event that names no record of these
    /// banks, or has a `pri` above 3, changes nothing.
    fn log(&mut self, e: Event)
        ensures state { self.new ≡ banks_logged self.old e }
        ensures lists { StandsAfter banks_shown (λ l. banks_logged_by lists_logged l e)
            self.old self.new }
    {
        if e.pri > 3 {
            return;
        }
        let stamped = Event { at: self.step, ..e };
        if e.bank == 0 && e.rec < 2 {
            self.memory.log(stamped);
        } else if e.bank == 1 && e.rec < 2 {
            self.caches.log(stamped);
        } else if e.bank == 2 && e.rec == 0 {
            self.hart.log(stamped);
        }
    }
}
