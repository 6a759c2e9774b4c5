//! Firmware's memory.

use crate::helpers::{cut_at, is_printed, is_refused};
use acpi_tables::TableRefused;
use poison_mem::{Event, EventKind, EventLog, UseKind};
use ras_firmware::Firmware;
use ras_read::{ReadRefused, read_file};
use std::test::Fail;

const TABLES: &[u8] = b"hest sources 1\nbert length 4096 address 0x0000000040001000\n";

const EMPTY: &[u8] = b"boot status 0x00000000 severity 0\npolled status 0x00000000 severity 0\n";

#[test]
fn an_error_is_printed_below_its_block(rt: HostRuntime) -> Result<(), Fail> {
    let mut firmware = Firmware::make(rt.alloc())?;
    assert!(rt; is_printed(rt.alloc(), firmware.memory.bytes(), &[TABLES, EMPTY]));
    let corrected = Event::new(EventKind::CorrectedWord, 0, 1, 0x8000_0320);
    firmware.banks.log(corrected);
    firmware.mark();
    firmware.clear();
    let consumption = Event::consumption(UseKind::Fetch, 0, 0x8000_0008, 0x8000_000C);
    firmware.banks.log(consumption);
    firmware.stop(Some((2, 0)));
    assert!(rt;
        is_printed(
            rt.alloc(),
            firmware.memory.bytes(),
            &[
                TABLES,
                b"boot status 0x00000011 severity 1\n",
                b"  processor kind 8 operation 3 level - id 0 target 0x0000000080000008",
                b" ip 0x000000008000000c fru b2r0 c00000 s001 m0\n",
                b"polled status 0x00000012 severity 2\n",
                b"  memory address 0x0000000080000320 kind 13 fru b0r1 c00001 s100 m0\n",
            ],
        )
    );
    Ok(())
}

// Firmware's memory without an error.
fn memory(rt: &HostRuntime) -> Result<Vec<u8>, Fail> {
    let firmware = Firmware::make(rt.alloc())?;
    Ok(Vec::from_slice(rt.alloc(), firmware.memory.bytes())?)
}

#[test]
fn a_memory_of_another_length_is_refused(rt: HostRuntime) -> Result<(), Fail> {
    let mut file = memory(&rt)?;
    file.push(0)?;
    let bytes = file.as_slice();
    assert!(rt; bytes.len() == 16_385);
    let short = ReadRefused::Table {
        at: 0,
        why: TableRefused::Short,
    };
    assert!(rt; is_refused(rt.alloc(), bytes, short));
    for length in 4..400 {
        assert!(rt;
            is_refused(rt.alloc(), cut_at(bytes, length), short),
            "{length} bytes"
        );
    }
    assert!(rt; is_refused(rt.alloc(), cut_at(bytes, 16_383), short));
    Ok(())
}

#[test]
fn a_byte_of_the_tables_that_is_set_is_refused_or_printed(rt: HostRuntime) -> Result<(), Fail> {
    use TableRefused::{Length, Signature, Sum};
    let mut file = memory(&rt)?;
    for at in 0..400 {
        assert_eq!(rt; file.len(), 16_384);
        let before = file[at];
        file[at] = 0xFF;
        let why = match at {
            _ if before == 0xFF => None,
            0..4 => Some(ReadRefused::Kind),
            4 | 8..104 => Some(ReadRefused::Table { at: 0, why: Sum }),
            5..8 => Some(ReadRefused::Table { at: 0, why: Length }),
            256..260 => Some(ReadRefused::Table {
                at: 256,
                why: Signature,
            }),
            260 | 264..304 => Some(ReadRefused::Table { at: 256, why: Sum }),
            261..264 => Some(ReadRefused::Table {
                at: 256,
                why: Length,
            }),
            _ => None,
        };
        let expected = match why {
            None => is_printed(rt.alloc(), file.as_slice(), &[TABLES, EMPTY]),
            Some(why) => is_refused(rt.alloc(), file.as_slice(), why),
        };
        assert!(rt; expected, "byte {at}");
        file[at] = before;
    }
    Ok(())
}

#[test]
fn the_first_block_that_fails_is_named(rt: HostRuntime) -> Result<(), Fail> {
    use TableRefused::{Entry, Length, Signature};
    let mut file = memory(&rt)?;
    // Each of these stays, and the next is refused before it.
    for (place, byte, at, why) in [
        (0x2000, 0x10, 0x2000, Entry(0)),
        (0x200D, 0x08, 0x2000, Length),
        (0x1000, 0x20, 0x1000, Entry(0)),
        (0x100D, 0x10, 0x1000, Length),
        (0x0100, 0x62, 0x0100, Signature),
    ] {
        assert_eq!(rt; file.len(), 16_384);
        file[place] = byte;
        let refused = ReadRefused::Table { at, why };
        assert!(rt;
            is_refused(rt.alloc(), file.as_slice(), refused),
            "byte {place}"
        );
    }
    Ok(())
}
