//! Files of records.

ghost use Rattle.std.specs.Prelude.{◌≤◌};
ghost use Rattle.arrayvec.specs.ArrayVec.{array_vec_len};
ghost use Rattle.poison_mem.specs.RecordView.{IsListedView};

use crate::helpers::{cut_at, is_printed, is_refused};
use arrayvec::ArrayVec;
use cper_sections::{CperRefused, write_record};
use poison_mem::{Class, Event, RecordView, UseKind};
use ras_read::{ReadRefused, read_file};

// A word of memory that was corrected in step 0.
fn corrected_word() -> RecordView
    ensures { IsListedView result }
{
    RecordView {
        kept: Event {
            addr: 0x8000_0000,
            ..Event::default()
        },
        ce: true,
        cec: 1,
        ..RecordView::default()
    }
}

// A poisoned word that was put down by the second cache in step 7.
fn put_down() -> RecordView
    ensures { IsListedView result }
{
    RecordView {
        kept: Event {
            bank: 1,
            rec: 1,
            class: Class::Deferred,
            addr: 0x8000_0040,
            at: 7,
            ..Event::default()
        },
        ued: true,
        ..RecordView::default()
    }
}

// A poisoned word that hart 3 took for a firmware call in step 5.
fn consumption() -> RecordView
    ensures { IsListedView result }
{
    RecordView {
        kept: Event {
            at: 5,
            ..Event::consumption(UseKind::Sbi, 3, 0x8000_0048, 0x8000_0014)
        },
        uec: true,
        ..RecordView::default()
    }
}

const RECORD_LINE: &[u8] = b"record 1 severity 2 at 0 length 280 sections 1\n";

const MEMORY_LINE: &[u8] = b"  memory address 0x0000000080000000 kind 2 fru b0r0 c00001 s100 m0\n";

const HART_RECORD_LINE: &[u8] = b"record 2 severity 1 at 5 length 392 sections 1\n";

const HART_LINE: [&[u8]; 2] = [
    b"  processor kind 8 operation 1 level - id 3 target 0x0000000080000048",
    b" ip 0x0000000080000014 fru b2r0 c00000 s001 m0\n",
];

// The record of a view.
fn record_of(view: &RecordView, id: u64) -> ArrayVec<u8, 400>
    requires { IsListedView view.now }
    ensures { array_vec_len result ≤ 392 }
{
    let mut record = ArrayVec::new();
    write_record(view, id, &mut record);
    record
}

// The record of the corrected word, with some bytes changed.
fn changed(bytes: &[(usize, u8)]) -> ArrayVec<u8, 400> {
    let mut record = record_of(&corrected_word(), 1);
    for (at, byte) in bytes {
        if let Some(place) = record.get_mut(*at) {
            *place = *byte;
        }
    }
    record
}

#[test]
fn the_second_line_is_the_same_for_a_section_of_73_bytes(rt: HostRuntime) {
    let older = changed(&[(20, 0x11), (132, 0x49)]);
    let older = older.as_slice();
    assert!(rt; older.len() == 280);
    let first = b"record 1 severity 2 at 0 length 273 sections 1\n".as_slice();
    assert!(rt; is_printed(rt.alloc(), cut_at(older, 273), &[first, MEMORY_LINE]));
    let newer = changed(&[]);
    assert_eq!(rt; newer.len(), 280);
    assert!(rt; is_printed(rt.alloc(), newer.as_slice(), &[RECORD_LINE, MEMORY_LINE]));
}

#[test]
fn a_section_is_printed_by_its_type_and_what_is_valid(rt: HostRuntime) {
    for (bytes, line) in [
        // without the bit of the address, of the kind, of the text
        (
            [(200, 0x00), (0, 0x43)],
            b"  memory address - kind 2 fru b0r0 c00001 s100 m0\n".as_slice(),
        ),
        (
            [(201, 0x00), (0, 0x43)],
            b"  memory address 0x0000000080000000 kind - fru b0r0 c00001 s100 m0\n",
        ),
        (
            [(138, 0x01), (0, 0x43)],
            b"  memory address 0x0000000080000000 kind 2 fru -\n",
        ),
        // texts without a zero, with bytes that aren't printable, and empty
        (
            [(199, 0x7E), (180, 0x1F)],
            b"  memory address 0x0000000080000000 kind 2 fru .0r0 c00001 s100 m0~\n",
        ),
        (
            [(181, 0x7F), (182, 0x80)],
            b"  memory address 0x0000000080000000 kind 2 fru b..0 c00001 s100 m0\n",
        ),
        (
            [(180, 0x00), (0, 0x43)],
            b"  memory address 0x0000000080000000 kind 2 fru \n",
        ),
        // too short for its type, and another type
        (
            [(132, 0x48), (0, 0x43)],
            b"  other 1411bca5646fde4eb8633e83ed7c83b1 length 72\n",
        ),
        (
            [(144, 0x0A), (132, 0x02)],
            b"  other 0a11bca5646fde4eb8633e83ed7c83b1 length 2\n",
        ),
    ] {
        let record = changed(&bytes);
        assert_eq!(rt; record.len(), 280);
        assert!(rt; is_printed(rt.alloc(), record.as_slice(), &[RECORD_LINE, line]));
    }
}

#[test]
fn processor_sections_are_printed(rt: HostRuntime) {
    let hart = record_of(&consumption(), 2);
    let [first, second] = HART_LINE;
    assert!(rt;
        is_printed(
            rt.alloc(),
            hart.as_slice(),
            &[HART_RECORD_LINE, first, second]
        )
    );
    let cache = record_of(&put_down(), u64::MAX);
    assert!(rt;
        is_printed(
            rt.alloc(),
            cache.as_slice(),
            &[
                b"record 18446744073709551615 severity 0 at 7 length 392 sections 1\n",
                b"  processor kind 1 operation - level 1 id - target 0x0000000080000040",
                b" ip - fru b1r1 c00000 s010 m0\n",
            ],
        )
    );
}

// The records of the corrected word and of the consumption, 280 and 392 bytes.
fn two_records() -> ArrayVec<u8, 800> {
    let mut file = ArrayVec::new();
    let _ = file.try_extend_from_slice(record_of(&corrected_word(), 1).as_slice());
    let _ = file.try_extend_from_slice(record_of(&consumption(), 2).as_slice());
    file
}

#[test]
fn a_file_that_is_cut_is_refused_at_its_last_record(rt: HostRuntime) {
    use CperRefused::{Length, Short};
    let file = two_records();
    let [first, second] = HART_LINE;
    let whole = [RECORD_LINE, MEMORY_LINE, HART_RECORD_LINE, first, second];
    assert_eq!(rt; file.len(), 672);
    for length in 0..=672 {
        let cut = &file.as_slice()[..length];
        let expected = match length {
            0 => is_printed(rt.alloc(), cut, &[]),
            1..4 => is_refused(rt.alloc(), cut, ReadRefused::Kind),
            4..128 => is_refused(rt.alloc(), cut, ReadRefused::Bad { at: 0, why: Short }),
            128..280 => is_refused(rt.alloc(), cut, ReadRefused::Bad { at: 0, why: Length }),
            280 => is_printed(rt.alloc(), cut, &[RECORD_LINE, MEMORY_LINE]),
            281..408 => is_refused(
                rt.alloc(),
                cut,
                ReadRefused::Bad {
                    at: 280,
                    why: Short,
                },
            ),
            408..672 => is_refused(
                rt.alloc(),
                cut,
                ReadRefused::Bad {
                    at: 280,
                    why: Length,
                },
            ),
            _ => is_printed(rt.alloc(), cut, &whole),
        };
        assert!(rt; expected, "cut at {length}");
    }
}

#[test]
fn a_byte_that_is_set_is_refused_or_printed(rt: HostRuntime) {
    use CperRefused::{Length, SectionPlace, Sections};
    for at in 0..280 {
        let record = changed(&[(at, 0xFF)]);
        assert_eq!(rt; record.len(), 280);
        let file = record.as_slice();
        let expected = match at {
            0..4 => is_refused(rt.alloc(), file, ReadRefused::Kind),
            10..12 => is_refused(
                rt.alloc(),
                file,
                ReadRefused::Bad {
                    at: 0,
                    why: Sections,
                },
            ),
            20..24 => is_refused(rt.alloc(), file, ReadRefused::Bad { at: 0, why: Length }),
            128..136 => is_refused(
                rt.alloc(),
                file,
                ReadRefused::Bad {
                    at: 0,
                    why: SectionPlace(0),
                },
            ),
            _ => read_file(rt.alloc(), file).is_ok(),
        };
        assert!(rt; expected, "byte {at}");
    }
}

#[test]
fn the_first_record_that_fails_is_named(rt: HostRuntime) {
    use CperRefused::{EndMark, Sections, Signature};
    for (at, byte, place, why) in [
        (280, 0x63, 280, Signature),
        (286, 0x00, 280, EndMark),
        (290, 0x00, 280, Sections),
        (6, 0x00, 0, EndMark),
    ] {
        let mut file = two_records();
        if let Some(changed) = file.get_mut(at) {
            *changed = byte;
        }
        let refused = ReadRefused::Bad { at: place, why };
        assert!(rt;
            is_refused(rt.alloc(), file.as_slice(), refused),
            "byte {at}"
        );
    }
}
