//! Records, written.

ghost use Rattle.std.specs.Prelude.{ℕ, List, ◌≡◌, ◌+◌, ◌≤◌, ◌<◌, ◌^◌, ◌++◌, length, true, Ok};
ghost use Rattle.arrayvec.specs.ArrayVec.{array_vec_len};
ghost use Rattle.poison_mem.specs.RecordId.{names_record};
ghost use Rattle.cper_sections.specs.Record.{record_bytes, record_of_section};
ghost use Rattle.cper_sections.specs.Reading.{record_of};
ghost use Rattle.cper_sections.specs.Written.{cper_of};

use crate::descriptor::{SECTION_START, section_descriptor};
use crate::header::record_header;
use crate::memory::{MEMORY_SECTION, mem_section};
use crate::processor::{PROCESSOR_SECTION, proc_section};
use arrayvec::ArrayVec;
use byte_fields::push_bytes;
use poison_mem::RecordView;

/// Replaces what is in `out` by the record of a view (UEFI Appendix N, "Common Platform Error Record"): a header with the
/// record id `id`, one section descriptor, and a memory section for bank 0, else a processor section: at most 392 bytes. The
/// view is of a record that there is.
///
/// `read_record` reads it back, whatever follows it, since its fields stand at their slots
/// (`byte_fields::fields_stand_at_their_slots`).
pub fn write_record(v: &RecordView, id: u64, out: &mut ArrayVec<u8, 400>)
    requires { names_record v.now.kept.bank v.now.kept.rec ≡ true }
    ensures bytes { out.new.items ≡ record_bytes v.now id }
    ensures short { array_vec_len out.new ≤ 392 }
    ensures reads_back { (rest : List ℕ) →
        record_of (out.new.items ++ rest) ≡ Ok (cper_of v.now id) }
{
    if v.kept.bank == 0 {
        write_section(v, id, &MEMORY_SECTION, &mem_section(v), out);
    } else {
        write_section(v, id, &PROCESSOR_SECTION, &proc_section(v), out);
    }
}

// The record of a view whose one section is this one.
fn write_section(
    v: &RecordView,
    id: u64,
    section_type: &[u8; 16],
    section: &[u8],
    out: &mut ArrayVec<u8, 400>,
)
    requires view { names_record v.now.kept.bank v.now.kept.rec ≡ true }
    requires short { length section.now ≤ 192 }
    ensures bytes { out.new.items ≡ record_of_section v.now id section_type.now section.now }
    ensures len { array_vec_len out.new ≡ 200 + length section.now }
    ensures at_fits { v.now.kept.at < 2 ^ 64 }
{
    let section_length = section.len() as u32;
    out.clear();
    push_bytes(out, &record_header(v, id, SECTION_START + section_length));
    push_bytes(out, &section_descriptor(v, section_type, section_length));
    push_bytes(out, section);
}
