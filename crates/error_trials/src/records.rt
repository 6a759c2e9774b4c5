//! Records and their sections, as views are written and records read.

ghost use Rattle.std.specs.Prelude.{◌≡◌};

use crate::expected::MEMORY_RECORD;
use cper_sections::{MEMORY_SECTION, fru_text, mem_section, proc_section, read_record};
use poison_mem::{Class, Event, RecordView};

fn view(bank: u8, rec: u8, class: Class, addr: u64) -> RecordView
    ensures bank { result.kept.bank ≡ bank }
    ensures rec { result.kept.rec ≡ rec }
{
    RecordView {
        kept: Event {
            bank,
            rec,
            class,
            addr,
            ..Event::default()
        },
        ce: class == Class::Corrected,
        ued: class == Class::Deferred,
        uec: class == Class::Critical,
        ..RecordView::default()
    }
}

#[test]
fn a_written_record_is_read(rt: HostRuntime) {
    let Ok(record) = read_record(&MEMORY_RECORD) else {
        panic!(rt; "refused");
    };
    assert_eq!(rt;
        (record.id, record.severity, record.at, record.length),
        (1, 2, 0, 280)
    );
    assert_eq!(rt; record.sections.len(), 1);
    let section = record.sections.as_slice()[0];
    assert_eq!(rt; section.kind, MEMORY_SECTION);
    assert_eq!(rt;
        (section.start, section.length, section.severity),
        (200, 80, 2)
    );
    assert_eq!(rt; section.fru, Some(*b"b0r0 c00001 s100 m0\0"));
}

// An older program wrote memory sections of 73 bytes, and so records of 273.
#[test]
fn a_record_with_a_section_of_73_bytes_is_read(rt: HostRuntime) {
    let mut older = MEMORY_RECORD;
    older[20] = 0x11;
    older[132] = 0x49;
    let Ok(record) = read_record(&older[..273]) else {
        panic!(rt; "refused");
    };
    assert_eq!(rt; (record.id, record.length), (1, 273));
    assert_eq!(rt; record.sections.len(), 1);
    let section = record.sections.as_slice()[0];
    assert_eq!(rt; section.kind, MEMORY_SECTION);
    assert_eq!(rt;
        (section.start, section.length, section.severity),
        (200, 73, 2)
    );
    assert_eq!(rt; section.fru, Some(*b"b0r0 c00001 s100 m0\0"));
}

#[test]
fn texts_name_record_counts_and_classes(rt: HostRuntime) {
    let mut v = view(0, 1, Class::Deferred, 0);
    v.cec = 2;
    v.ce = true;
    assert_eq!(rt; fru_text(&v), *b"b0r1 c00002 s110 m0\0");
    v.cec = 65_535;
    v.ceco = true;
    v.mo = true;
    assert_eq!(rt; fru_text(&v), *b"b0r1 c65535+s110 m1\0");
    let hart = view(2, 0, Class::Critical, 0);
    assert_eq!(rt; fru_text(&hart), *b"b2r0 c00000 s001 m0\0");
}

#[test]
fn memory_error_types_differ_by_record_and_class(rt: HostRuntime) {
    for (rec, class, want) in [
        (0, Class::Corrected, 2),
        (0, Class::Deferred, 3),
        (0, Class::Critical, 3),
        (1, Class::Corrected, 13),
        (1, Class::Deferred, 14),
    ] {
        let section = mem_section(&view(0, rec, class, 0x8000_0008));
        assert_eq!(rt; section[72], want, "record {rec}, {class:?}");
    }
}

#[test]
fn a_hart_tells_its_number_and_pc_and_a_cache_its_level(rt: HostRuntime) {
    let mut v = view(2, 0, Class::Critical, 0x8000_0040);
    v.kept.suppl = 0x8000_000C;
    v.kept.info = 0x502;
    let mut want = [0; 192];
    for (at, byte) in [
        (0, 0x0C),
        (1, 0x13),
        (10, 8),
        (11, 1),
        (152, 5),
        (160, 0x40),
        (163, 0x80),
        (184, 0x0C),
        (187, 0x80),
    ] {
        want[at] = byte;
    }
    assert_eq!(rt; proc_section(&v), want);
    let mut want = [0; 192];
    for (at, byte) in [
        (0, 0x24),
        (1, 0x02),
        (10, 1),
        (13, 1),
        (160, 0x40),
        (163, 0x80),
    ] {
        want[at] = byte;
    }
    assert_eq!(rt;
        proc_section(&view(1, 1, Class::Deferred, 0x8000_0040)),
        want
    );
}
