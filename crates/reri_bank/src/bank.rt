//! A bank of records, and its registers.

ghost use Rattle.std.specs.Prelude.{◌≡◌, ◌<◌, ◌≤◌, ◌==◌, ℕ, None, IfSome};
ghost use Rattle.poison_mem.specs.declared.event.Event.{Event};
ghost use Rattle.reri_bank.specs.Views.{IsReachable, IsOf, PriFits};
ghost use Rattle.reri_bank.specs.State.{IsRecordHeld, StandsAfter, RecordLists, shown, state_logged, lists_logged, lists_written};
ghost use Rattle.reri_bank.specs.BankState.{kind_number, AreHeld};
ghost use Rattle.reri_bank.specs.Bank.{is_hart, with_record, bank_shown, bank_of, no_events, record_count, record_at, bank_logged_by, new_state, new_bank, bank_written, bank_written_by, is_control_of, state_staged, lists_staged, eid_of, bank_info, kept_register, record_register, register_at, valid_summary};

use crate::layout::{
    ADDR, BANK_ID, BANK_INFO, CONTROL, Control, INFO, STATUS, STRIDE, SUPPL, TIMESTAMP,
    VALID_SUMMARY, control_bits, status_bits,
};
use crate::state::{RecState, Staged};
use poison_mem::{Event, RecordView};
use std::marker::Model;

// Where the registers of the second record begin, and where they end.
const SECOND_CONTROL: u16 = CONTROL + STRIDE;

const RECORDS_END: u16 = SECOND_CONTROL + STRIDE;

// The unit of the number of records in the register that describes a bank, and what the version adds to it.
pub(crate) const RECORDS_UNIT: u64 = 1 << 16;

pub(crate) const VERSION: u64 = 1 << 56;

/// What a bank's records are about.
#[derive(Clone, Copy, Debug, PartialEq, Eq)]
pub enum BankKind {
    /// Bank 0: record 0 for words that the machine reads, record 1 for those that a scrub reads.
    Memory,
    /// Bank 1: record 0 for the first cache level, record 1 for the second.
    Caches,
    /// Bank 2: record 0 for poison that the hart consumed.
    Hart,
}

impl BankKind {
    /// The bank's number.
    fn number(self) -> u8
        ensures { result ≡ kind_number self }
    {
        match self {
            BankKind::Memory => 0,
            BankKind::Caches => 1,
            BankKind::Hart => 2,
        }
    }

    /// How many records the bank has.
    fn record_count(self) -> u8
        ensures { result ≡ record_count self }
    {
        match self {
            BankKind::Memory | BankKind::Caches => 2,
            BankKind::Hart => 1,
        }
    }
}

/// A bank of error records.
#[derive(Drop)]
pub struct Bank {
    kind: BankKind,
    first: RecState,
    second: RecState,
}

impl Model for Bank {
    ghost use Rattle.reri_bank.specs.State.{IsRecordHeld};
    ghost use Rattle.reri_bank.specs.BankState.{BankState, kind_number};

    ghost Value = { BankState };

    ghost view = { λ b. record { kind = b.kind; first = b.first; second = b.second } };

    ghost invariant = { λ b. IsRecordHeld (kind_number b.kind) 0 b.first
        × IsRecordHeld (kind_number b.kind) 1 b.second };
}

/// A record's state at first.
fn new_state() -> RecState
    ensures value { result ≡ new_state }
    ensures held { (bank rec : ℕ) → IsRecordHeld bank rec result }
{
    RecState {
        kept: None,
        rdip: false,
        control: Control {
            logging: true,
            cece: true,
            ces: 1,
            ueds: 1,
            uecs: 1,
        },
        staged: None,
    }
}

/// The steps that are left of an injection.
fn eid_of(staged: Option<Staged>) -> u16
    ensures { result ≡ eid_of staged }
{
    match staged {
        None => 0,
        Some(staged) => staged.left,
    }
}

/// The register that describes a bank.
fn bank_info(kind: BankKind) -> u64
    ensures { result ≡ bank_info kind }
{
    let number = u64::from(kind.number());
    let count = u64::from(kind.record_count());
    number + RECORDS_UNIT * count + VERSION
}

/// What the registers after the status show of the kept event, 0 of an empty record.
fn kept_reg(kept: Option<RecordView>, offset: u16) -> Option<u64>
    ensures { result ≡ kept_register kept offset }
{
    match offset {
        ADDR => Some(kept.map_or(0, |view| view.kept.addr)),
        INFO => Some(kept.map_or(0, |view| view.kept.info)),
        SUPPL => Some(kept.map_or(0, |view| view.kept.suppl)),
        TIMESTAMP => Some(kept.map_or(0, |view| view.kept.at)),
        _ => None,
    }
}

/// The registers of one record, by their offset from the control register, which is the first.
fn record_reg(state: &RecState, offset: u16) -> Option<u64>
    requires pri { PriFits state.now.kept }
    requires ces { state.now.control.ces < 4 }
    requires ueds { state.now.control.ueds < 4 }
    requires uecs { state.now.control.uecs < 4 }
    ensures { result ≡ record_register state.now offset }
{
    match offset {
        0 => Some(control_bits(state.control, eid_of(state.staged))),
        STATUS => Some(status_bits(state.kept.as_ref(), state.control.cece, state.rdip)),
        _ => kept_reg(state.kept, offset),
    }
}

impl Bank {
    /// A bank with empty records, the first control, and nothing staged.
    pub fn new(kind: BankKind) -> Bank
        ensures value { result ≡ new_bank kind }
        ensures stands { result ≡ bank_shown (bank_of no_events kind) }
    {
        Bank {
            kind,
            first: new_state(),
            second: new_state(),
        }
    }

    /// Each record is in a state that `set_rec_state` would take. Nothing is done: the call tells the prover so.
    pub(crate) fn see_records(&self)
        ensures { AreHeld self.now }
    {
        let _ = &self.kind;
    }

    /// Logs an event to its record, where logging of that is enabled, and then clears its `rdip`.
    ///
    /// The event names this bank and a record of it, and has a `pri` below 4.
    pub fn log(&mut self, e: Event)
        requires bank { e.bank ≡ kind_number self.old.kind }
        requires rec { e.rec < record_count self.old.kind }
        requires pri { e.pri < 4 }
        ensures state { self.new ≡ bank_logged_by state_logged self.old e }
        ensures lists { StandsAfter bank_shown (λ b. bank_logged_by lists_logged b e)
            self.old self.new }
    {
        if e.rec == 0 {
            self.first.log(e);
        } else {
            self.second.log(e);
        }
    }

    /// Reads a register. None exactly at an undefined offset.
    pub fn read_reg(&self, offset: u16) -> Option<u64>
        ensures { result ≡ register_at self.now offset }
    {
        match offset {
            BANK_ID => Some(0),
            BANK_INFO => Some(bank_info(self.kind)),
            VALID_SUMMARY => Some(self.valid_summary()),
            CONTROL..SECOND_CONTROL => record_reg(&self.first, offset - CONTROL),
            SECOND_CONTROL..RECORDS_END if self.kind != BankKind::Hart => {
                record_reg(&self.second, offset - SECOND_CONTROL)
            }
            _ => None,
        }
    }

    /// Which records are valid.
    fn valid_summary(&self) -> u64
        ensures { result ≡ valid_summary self.now }
    {
        let first = u64::from(self.first.kept.is_some());
        let is_second = self.kind != BankKind::Hart && self.second.kept.is_some();
        1 + 2 * first + 4 * u64::from(is_second)
    }

    /// Writes a register: of a control register bits 7:0, then `sinv`, then `srdp`; other bits are ignored.
    ///
    /// False exactly at an undefined or read-only offset, and then nothing changes.
    pub fn write_reg(&mut self, offset: u16, v: u64) -> bool
        ensures written { result ≡ is_control_of self.old.kind offset }
        ensures state { self.new ≡ bank_written self.old offset v }
        ensures lists { StandsAfter bank_shown (λ b. bank_written_by lists_written b offset v)
            self.old self.new }
    {
        let always_logs = self.kind == BankKind::Hart;
        if offset == CONTROL {
            self.first.write(always_logs, v);
            true
        } else if offset == SECOND_CONTROL && !always_logs {
            self.second.write(always_logs, v);
            true
        } else {
            false
        }
    }

    /// What a record keeps, None exactly where it isn't valid. The record is there.
    pub fn kept(&self, rec: u8) -> Option<RecordView>
        requires { rec < record_count self.now.kind }
        ensures value { result ≡ (record_at self.now rec).kept }
        ensures reachable { IfSome result IsReachable }
        ensures names { IfSome result (λ v. IsOf (kind_number self.now.kind) rec v.kept) }
    {
        self.rec_state(rec).kept
    }

    /// The injection that is staged for a record, None exactly where none is. The record is there.
    pub fn staged(&self, rec: u8) -> Option<Staged>
        requires { rec < record_count self.now.kind }
        ensures { result ≡ (record_at self.now rec).staged }
    {
        self.rec_state(rec).staged
    }

    /// Stages an injection, or takes it away. The record is there.
    ///
    /// What is staged has at least one step left, and nothing is staged in the hart's bank.
    pub fn set_staged(&mut self, rec: u8, s: Option<Staged>)
        requires rec { rec < record_count self.old.kind }
        requires left { IfSome s (λ t. 1 ≤ t.left) }
        requires hart { kind_number self.old.kind ≡ 2 → s ≡ None }
        ensures state { self.new ≡ with_record self.old rec (state_staged s) }
        ensures lists { StandsAfter bank_shown (λ b. with_record b rec (lists_staged s))
            self.old self.new }
    {
        if rec == 0 {
            self.first.staged = s;
        } else {
            self.second.staged = s;
        }
    }

    /// The state of a record. The record is there.
    pub fn rec_state(&self, rec: u8) -> RecState
        requires { rec < record_count self.now.kind }
        ensures value { result ≡ record_at self.now rec }
        ensures held { IsRecordHeld (kind_number self.now.kind) rec result }
    {
        if rec == 0 {
            return self.first;
        }
        self.second
    }

    /// Sets the state of a record. The record is there.
    ///
    /// A kept view is one that events lead to, and names this bank and record. `ces`, `ueds` and `uecs` are below 4.
    /// `rdip` is set only with a kept view. What is staged has at least one step left. In the hart's bank logging is on
    /// and nothing is staged.
    pub fn set_rec_state(&mut self, rec: u8, s: &RecState)
        requires rec { rec < record_count self.old.kind }
        requires held { IsRecordHeld (kind_number self.old.kind) rec s.now }
        ensures state { self.new ≡ with_record self.old rec (λ _. s.now) }
        ensures lists { (r : RecordLists) → s.now ≡ shown r
            → StandsAfter bank_shown (λ b. with_record b rec (λ _. r)) self.old self.new }
    {
        if rec == 0 {
            self.first = *s;
        } else {
            self.second = *s;
        }
    }
}
