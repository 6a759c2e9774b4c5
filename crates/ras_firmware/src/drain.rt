//! The drain: valid signalled records are noted, and later emptied where no event came between.

ghost use Rattle.std.specs.Prelude.{◌≡◌, ◌+◌, ◌*◌, ◌<◌, ℕ, IfSome};
ghost use Rattle.std.specs.List.{AllByRecursion};
ghost use Rattle.poison_mem.specs.RecordId.{bank_number, record_number, record_id};
ghost use Rattle.poison_mem.specs.RecordView.{IsListedView};
ghost use Rattle.reri_bank.specs.Bank.{record_at, with_record, record_count, eid_of};
ghost use Rattle.reri_bank.specs.BankState.{AreHeld, kind_number};
ghost use Rattle.reri_bank.specs.Banks.{bank_at, with_bank, records_of};
ghost use Rattle.reri_bank.specs.Layout.{control_word};
ghost use Rattle.reri_bank.specs.State.{state_marked, state_emptied};
ghost use Rattle.reri_bank.specs.StateAt.{state_at};
ghost use Rattle.ras_firmware.specs.Drain.{signals, is_signalled, note_of, marked, emission, cleared, with_state, notes_of, marked_banks, cleared_banks, emissions, all_kept, fatal_view};
ghost use Rattle.ras_firmware.specs.Memory.{with_polled, with_region};
ghost use Rattle.ras_firmware.specs.Notes.{Notes, no_notes, note_at, named_note, with_named_note, index_of, IsNote, AreNotes};
ghost use Rattle.ras_firmware.specs.Records.{with_all};

use crate::memory::{FirmMemory, MOST_VIEWS};
use crate::records::Records;
use arrayvec::ArrayVec;
use poison_mem::{Class, RecordId, RecordView};
use ras_bits::{has_bit, put_field};
use reri_bank::{Bank, Banks, CONTROL, Control, RDIP, SINV, SRDP, STATUS, STRIDE, control_of};
use std::marker::Model;

/// The offset of the control register of a record of a bank.
pub(crate) fn control_offset(rec: u8) -> u16
    requires { rec < 2 }
    ensures { result ≡ CONTROL + STRIDE * rec }
{
    CONTROL + STRIDE * u16::from(rec)
}

/// Whether a class is signalled to the firmware.
fn signals(control: Control, class: Class) -> bool
    ensures { result ≡ signals control class }
{
    match class {
        Class::Corrected => control.ces != 0,
        Class::Deferred => control.ueds != 0,
        Class::Critical => control.uecs != 0,
    }
}

/// Whether a record is valid and its kept class is signalled.
fn is_signalled(kept: Option<RecordView>, control: Control) -> bool
    ensures { result ≡ is_signalled kept control }
{
    match kept {
        None => false,
        Some(view) => signals(control, view.kept.class),
    }
}

/// The control register of a record, whose `sinv` and `srdp` read 0.
fn control_register(bank: &Bank, rec: u8) -> u64
    requires { rec < record_count bank.now.kind }
    ensures { result ≡ control_word (record_at bank.now rec).control
        (eid_of (record_at bank.now rec).staged) }
{
    match bank.read_reg(control_offset(rec)) {
        Some(value) => value,
        None => 0,
    }
}

/// Whether `rdip` of a record is set, by its status register.
fn reads_rdip(bank: &Bank, rec: u8) -> bool
    requires rec { rec < record_count bank.now.kind }
    requires held { AreHeld bank.now }
    ensures { result ≡ (record_at bank.now rec).rdip }
{
    match bank.read_reg(control_offset(rec) + STATUS) {
        Some(value) => has_bit(value, RDIP),
        None => false,
    }
}

/// Writes `srdp` to a record: `rdip` is set where it is valid.
fn write_srdp(banks: &mut Banks, bank: u8, rec: u8)
    requires bank { bank < 3 }
    requires rec { rec < records_of bank }
    ensures { banks.new ≡ with_bank banks.old bank (λ k. with_record k rec state_marked) }
{
    let value = control_register(banks.bank(bank), rec);
    banks.write_reg(bank, control_offset(rec), put_field(value, SRDP, 1, 1));
}

/// Writes `sinv` to a record: it becomes empty where its `rdip` is set.
fn write_sinv(banks: &mut Banks, bank: u8, rec: u8)
    requires bank { bank < 3 }
    requires rec { rec < records_of bank }
    ensures { banks.new ≡ with_bank banks.old bank (λ k. with_record k rec state_emptied) }
{
    let value = control_register(banks.bank(bank), rec);
    banks.write_reg(bank, control_offset(rec), put_field(value, SINV, 1, 1));
}

/// What a record's control register says.
fn control_of_record(bank: &Bank, rec: u8) -> Control
    requires rec { rec < record_count bank.now.kind }
    requires held { AreHeld bank.now }
    ensures { result ≡ (record_at bank.now rec).control }
{
    control_of(control_register(bank, rec))
}

/// What a record shows, where it is valid and signalled.
fn signalled_view(bank: &Bank, rec: u8) -> Option<RecordView>
    requires rec { rec < record_count bank.now.kind }
    requires held { AreHeld bank.now }
    ensures view { result ≡ note_of (record_at bank.now rec) }
    ensures listed { IfSome result (IsNote (kind_number bank.now.kind) rec) }
{
    let kept = bank.kept(rec);
    if is_signalled(kept, control_of_record(bank, rec)) {
        kept
    } else {
        None
    }
}

/// Notes a record where it is valid and signalled, and sets its `rdip`.
fn mark_record(banks: &mut Banks, id: RecordId) -> Option<RecordView>
    ensures note { result ≡ note_of (state_at banks.old id) }
    ensures listed { IfSome result (IsNote (bank_number id) (record_number id)) }
    ensures banks { banks.new ≡ with_state banks.old id marked }
{
    let note = signalled_view(banks.bank(id.bank()), id.record());
    if note.is_some() {
        write_srdp(banks, id.bank(), id.record());
    }
    note
}

/// Empties a noted record where no event came since. What was noted is then the answer.
fn clear_record(banks: &mut Banks, id: RecordId, note: Option<RecordView>) -> Option<RecordView>
    requires { IfSome note (IsNote (bank_number id) (record_number id)) }
    ensures emitted { result ≡ emission note (state_at banks.old id) }
    ensures listed { IfSome result IsListedView }
    ensures banks { banks.new ≡ with_state banks.old id (cleared note) }
{
    match note {
        None => None,
        Some(view) => {
            let is_unchanged = reads_rdip(banks.bank(id.bank()), id.record());
            write_sinv(banks, id.bank(), id.record());
            if is_unchanged { Some(view) } else { None }
        }
    }
}

/// What a record shows.
fn kept_by(banks: &Banks, id: RecordId) -> Option<RecordView>
    ensures kept { result ≡ (state_at banks.now id).kept }
    ensures listed { IfSome result IsListedView }
{
    banks.bank(id.bank()).kept(id.record())
}

/// The place of a record among all.
fn index_of(id: RecordId) -> usize
    ensures { result ≡ index_of id }
{
    match id {
        RecordId::Read => 0,
        RecordId::Scrub => 1,
        RecordId::L1 => 2,
        RecordId::L2 => 3,
        RecordId::Hart => 4,
    }
}

/// The note of a record.
fn note_at(notes: &[Option<RecordView>; 5], id: RecordId) -> Option<RecordView>
    requires { AreNotes notes.now }
    ensures note { result ≡ note_at notes.now id }
    ensures listed { IfSome result (IsNote (bank_number id) (record_number id)) }
{
    notes[index_of(id)]
}

/// What firmware has noted of each record in the first step of the drain.
#[derive(Drop)]
pub struct Drain {
    notes: [Option<RecordView>; 5],
}

impl Model for Drain {
    ghost use Rattle.ras_firmware.specs.Notes.{Notes, AreNotes};

    ghost Value = { Notes };

    ghost view = { λ d. d.notes };

    ghost invariant = { λ d. AreNotes d.notes };
}

impl Drain {
    /// No notes.
    pub fn new() -> Drain
        ensures { result ≡ no_notes }
    {
        Drain { notes: [None; 5] }
    }

    /// Notes what each valid signalled record shows, and sets its `rdip` by `srdp`. Every older note is forgotten.
    pub fn mark(&mut self, banks: &mut Banks)
        ensures notes { self.new ≡ notes_of banks.old }
        ensures banks { banks.new ≡ marked_banks banks.old }
    {
        self.notes = marked_notes(banks);
    }

    /// Writes `sinv` to each noted record. Where its `rdip` was still set, no event came since, the record is empty then,
    /// and what was noted is emitted; else the record stays. Afterwards no note is left.
    ///
    /// What is emitted goes to `out`, in the order of banks and records, and is shown in the polled block of `firm`; where
    /// nothing is, the block stays.
    pub fn clear(&mut self, banks: &mut Banks, out: &mut Records, firm: &mut FirmMemory)
        ensures notes { self.new ≡ no_notes }
        ensures banks { banks.new ≡ cleared_banks self.old banks.old }
        ensures emitted { out.new ≡ with_all out.old (emissions self.old banks.old) }
        ensures polled { firm.new ≡ with_polled firm.old (emissions self.old banks.old) }
    {
        let emitted = emissions(&self.notes, banks);
        out.emit_all(emitted.as_slice());
        firm.show_polled(emitted.as_slice());
        self.notes = [None; 5];
    }

    /// The note of a record, None exactly where none is left. The bank and the record exist.
    pub fn note(&self, bank: u8, rec: u8) -> Option<RecordView>
        requires bank { bank < 3 }
        requires rec { rec < records_of bank }
        ensures note { result ≡ named_note self.now (record_id bank rec) }
        ensures listed { IfSome result (IsNote bank rec) }
    {
        match RecordId::named(bank, rec) {
            None => None,
            Some(id) => note_at(&self.notes, id),
        }
    }

    /// Sets the note of a record. The bank and the record exist, and a given view is sound and names the record.
    pub fn set_note(&mut self, bank: u8, rec: u8, v: Option<RecordView>)
        requires bank { bank < 3 }
        requires rec { rec < records_of bank }
        requires note { IfSome v (IsNote bank rec) }
        ensures { self.new ≡ with_named_note self.old (record_id bank rec) v }
    {
        match RecordId::named(bank, rec) {
            None => {}
            Some(id) => self.notes[index_of(id)] = v,
        }
    }
}

/// The notes of a mark.
fn marked_notes(banks: &mut Banks) -> [Option<RecordView>; 5]
    ensures notes { result ≡ notes_of banks.old }
    ensures each { AreNotes result }
    ensures banks { banks.new ≡ marked_banks banks.old }
{
    let mut notes = [None; 5];
    for (i, id) in RecordId::ALL.iter().enumerate() {
        notes[i] = mark_record(banks, *id);
    }
    notes
}

/// Clears the noted records, and answers what they emit.
fn emissions(notes: &[Option<RecordView>; 5], banks: &mut Banks) -> ArrayVec<RecordView, MOST_VIEWS>
    requires { AreNotes notes.now }
    ensures views { result.items ≡ emissions notes.now banks.old }
    ensures listed { AllByRecursion IsListedView result.items }
    ensures banks { banks.new ≡ cleared_banks notes.now banks.old }
{
    let mut emitted = ArrayVec::new();
    for id in RecordId::ALL.iter() {
        match clear_record(banks, *id, note_at(notes, *id)) {
            None => {}
            Some(view) => emitted.push(view),
        }
    }
    emitted
}

/// Emits what every valid record shows, in the order of banks and records. Where `fatal` names a record, the boot error
/// region shows what that one does.
pub fn finish(banks: &Banks, out: &mut Records, firm: &mut FirmMemory, fatal: Option<(u8, u8)>)
    ensures emitted { out.new ≡ with_all out.old (all_kept banks.now) }
    ensures region { firm.new ≡ with_region firm.old (fatal_view banks.now fatal) }
{
    out.emit_all(all_kept(banks).as_slice());
    firm.show_fatal(fatal_view(banks, fatal));
}

/// What every valid record shows.
fn all_kept(banks: &Banks) -> ArrayVec<RecordView, MOST_VIEWS>
    ensures views { result.items ≡ all_kept banks.now }
    ensures listed { AllByRecursion IsListedView result.items }
{
    let mut kept = ArrayVec::new();
    for id in RecordId::ALL.iter() {
        match kept_by(banks, *id) {
            None => {}
            Some(view) => kept.push(view),
        }
    }
    kept
}

/// What the record shows that a bank and a number name, where they name one.
fn fatal_view(banks: &Banks, fatal: Option<(u8, u8)>) -> Option<RecordView>
    ensures view { result ≡ fatal_view banks.now fatal }
    ensures listed { IfSome result IsListedView }
{
    let (bank, rec) = fatal?;
    let id = RecordId::named(bank, rec)?;
    kept_by(banks, id)
}
