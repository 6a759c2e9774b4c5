//! Entries of a status block, from the views of records.

ghost use Rattle.std.specs.Prelude.{◌≡◌, ◌≤◌, length, map};
ghost use Rattle.std.specs.List.{AllByRecursion};
ghost use Rattle.cper_sections.specs.Record.{section_type, section_bytes};
ghost use Rattle.poison_mem.specs.RecordView.{IsListedView};
ghost use Rattle.ras_firmware.specs.Memory.{entry_of, views_block};

use crate::memory::MOST_VIEWS;
use acpi_tables::{Entry, status_block};
use arrayvec::ArrayVec;
use byte_fields::push_bytes;
use cper_sections::{
    MEMORY_SECTION, PROCESSOR_SECTION, fru_text, mem_section, proc_section, severity_of,
};
use poison_mem::RecordView;

/// The type of a view's section: of a memory error for bank 0, else of a processor error.
fn section_type(v: &RecordView) -> [u8; 16]
    ensures { result ≡ section_type v.now }
{
    if v.kept.bank == 0 {
        MEMORY_SECTION
    } else {
        PROCESSOR_SECTION
    }
}

/// The section of a view.
fn section(v: &RecordView) -> ArrayVec<u8, 192>
    requires { IsListedView v.now }
    ensures { result.items ≡ section_bytes v.now }
{
    let mut section = ArrayVec::new();
    if v.kept.bank == 0 {
        push_bytes(&mut section, &mem_section(v));
        return section;
    }
    push_bytes(&mut section, &proc_section(v));
    section
}

/// The entry of a view, with its section.
fn entry_of(v: &RecordView) -> Entry
    requires { IsListedView v.now }
    ensures { result ≡ entry_of v.now }
{
    Entry {
        kind: section_type(v),
        severity: severity_of(v.kept.class),
        fru: fru_text(v),
        body: section(v),
    }
}

/// The entries of views, in order.
fn entries_of(views: &[RecordView]) -> ArrayVec<Entry, MOST_VIEWS>
    requires few { length views.now ≤ MOST_VIEWS }
    requires listed { AllByRecursion IsListedView views.now }
    ensures { result.items ≡ map entry_of views.now }
{
    let mut entries = ArrayVec::new();
    for view in views {
        entries.push(entry_of(view));
    }
    entries
}

/// The status block of these views.
#[tactic(auto, unfolding(crate::specs::Memory::views_block))]
pub(crate) fn views_block(views: &[RecordView]) -> ArrayVec<u8, 2048>
    requires few { length views.now ≤ MOST_VIEWS }
    requires listed { AllByRecursion IsListedView views.now }
    ensures { result.items ≡ views_block views.now }
{
    let mut block = ArrayVec::new();
    status_block(entries_of(views).as_slice(), &mut block);
    block
}
