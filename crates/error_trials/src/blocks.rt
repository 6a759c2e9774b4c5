//! Status blocks, and the tables that point at them.

use crate::expected::MEMORY_BLOCK;
use acpi_tables::{Entry, bert, hest, read_block, status_block};
use arrayvec::ArrayVec;
use cper_sections::MEMORY_SECTION;

#[test]
fn a_block_is_read(rt: HostRuntime) {
    let Ok(block) = read_block(&MEMORY_BLOCK) else {
        panic!(rt; "refused");
    };
    assert_eq!(rt; (block.status, block.severity), (0x11, 1));
    assert_eq!(rt; block.entries.len(), 1);
    let section = block.entries.as_slice()[0];
    assert_eq!(rt; section.kind, MEMORY_SECTION);
    assert_eq!(rt;
        (section.start, section.length, section.severity),
        (92, 80, 1)
    );
    assert_eq!(rt; section.fru, Some(*b"b0r0 c00000 s001 m0\0"));
}

#[test]
fn blocks_count_their_entries_and_have_the_worst_severity(rt: HostRuntime) {
    let mut out = ArrayVec::<u8, 2048>::new();
    for (severities, status, severity) in [
        ([0, 2, 2], 0x3B, 0),
        ([0, 1, 2], 0x37, 1),
        ([2, 2, 2], 0x3A, 2),
    ] {
        let entries = severities.map(|severity| Entry {
            kind: MEMORY_SECTION,
            severity,
            ..Entry::default()
        });
        status_block(&entries, &mut out);
        assert_eq!(rt; out.as_slice().first(), Some(&status));
        assert_eq!(rt; out.as_slice().get(16), Some(&severity));
    }
}

// The sum of all bytes but the checksum.
fn unchecked_sum(table: &[u8]) -> u32 {
    let mut total = 0u32;
    for (at, byte) in table.iter().enumerate() {
        if at != 9 {
            total = total.wrapping_add(u32::from(*byte));
        }
    }
    total
}

#[test]
fn tables_have_these_checksums(rt: HostRuntime) {
    assert_eq!(rt; (hest()[9], unchecked_sum(&hest())), (0x7F, 2689));
    assert_eq!(rt; (bert()[9], unchecked_sum(&bert())), (0x02, 1790));
}
