//! The error side of a machine: races with the drain by hand, more records than there is room for, and firmware's memory as
//! an operating system reads it.

use poison_mem::{Event, EventKind, EventLog, RecordId};
use ras_firmware::Firmware;
use std::test::Fail;

// Of bank 0, record 0: a corrected word, with the flip's number in `info`.
fn corrected() -> Event {
    Event {
        info: 3,
        ..Event::new(EventKind::CorrectedWord, 0, 0, 0x8000_0000)
    }
}

// What happens to a record, in order.
#[derive(Clone, Copy)]
enum Act {
    Log,
    Mark,
    Clear,
}

// The number of records emitted by these acts and at the stop after them, and the count of the last one.
fn emitted_by(rt: &HostRuntime, acts: &[Act]) -> Result<(usize, usize, u16), Fail> {
    let mut firmware = Firmware::make(rt.alloc())?;
    for act in acts.iter() {
        match *act {
            Act::Log => firmware.banks.log(corrected()),
            Act::Mark => firmware.mark(),
            Act::Clear => firmware.clear(),
        }
    }
    let drained = firmware.records.list().len();
    firmware.stop(None);
    let records = firmware.records.list();
    let last = match records.last() {
        None => 0,
        Some(view) => view.cec,
    };
    Ok((drained, records.len(), last))
}

#[test]
fn an_event_races_with_the_drain(rt: HostRuntime) -> Result<(), Fail> {
    use Act::{Clear, Log, Mark};
    for (acts, want) in [
        ([Mark, Clear, Log, Log], (0, 1, 2)),
        ([Log, Mark, Clear, Log], (1, 2, 1)),
        ([Log, Mark, Log, Clear], (0, 1, 2)),
        ([Log, Clear, Mark, Log], (0, 1, 2)),
        ([Log, Log, Mark, Clear], (1, 1, 2)),
        ([Log, Mark, Mark, Clear], (1, 1, 1)),
        ([Log, Mark, Clear, Clear], (1, 1, 1)),
        ([Clear, Mark, Log, Log], (0, 1, 2)),
    ] {
        assert_eq!(rt; emitted_by(&rt, &acts)?, want);
    }
    Ok(())
}

// Logs an event to the first of these records, as many as are said, and lets the drain emit what they show.
fn emit(firmware: &mut Firmware, step: u64, count: usize) {
    firmware.begin_step(step);
    for (k, id) in RecordId::ALL.iter().enumerate() {
        if k < count {
            firmware
                .banks
                .log(Event::new(EventKind::BadWord, id.bank(), id.record(), 0));
        }
    }
    firmware.mark();
    firmware.clear();
}

// 819 times five views, and then two more.
#[test]
fn the_view_past_the_room_is_dropped_and_shown(rt: HostRuntime) -> Result<(), Fail> {
    let mut firmware = Firmware::make(rt.alloc())?;
    for step in 0..819u64 {
        emit(&mut firmware, step, 5);
    }
    assert_eq!(rt; firmware.records.dropped(), 0);
    emit(&mut firmware, 819, 2);
    let records = firmware.records.list();
    assert_eq!(rt; records.len(), 4096);
    assert_eq!(rt;
        records.last().map(|view| (view.kept.rec, view.kept.at)),
        Some((0, 819))
    );
    assert_eq!(rt; firmware.records.dropped(), 1);
    let polled = firmware.memory.polled();
    assert_eq!(rt; polled.len(), 2);
    assert_eq!(rt;
        polled.last().map(|view| (view.kept.rec, view.kept.at)),
        Some((1, 819))
    );
    Ok(())
}

// Whether these bytes stand at an offset.
fn stand_at(bytes: &[u8], offset: usize, want: &[u8]) -> bool {
    offset < bytes.len() && bytes[offset..].starts_with(want)
}

#[test]
fn the_tables_and_the_address_stand_in_their_places(rt: HostRuntime) -> Result<(), Fail> {
    let firmware = Firmware::make(rt.alloc())?;
    let bytes = firmware.memory.bytes();
    assert_eq!(rt; bytes.len(), 16_384);
    for (offset, want) in [
        (0, b"HEST\x68\0\0\0\x01\x7FRASMCH".as_slice()),
        (0x100, b"BERT\x30\0\0\0\x01\x02RASMCH".as_slice()),
        (0x128, b"\0\x10\0\x40\0\0\0\0".as_slice()),
        (0x200, b"\0\x20\0\x40\0\0\0\0\0\0\0\0".as_slice()),
        (0x1000, [0; 512].as_slice()),
        (0x2000, [0; 512].as_slice()),
    ] {
        assert!(rt; stand_at(bytes, offset, want), "offset {offset}");
    }
    Ok(())
}

#[test]
fn a_shorter_block_leaves_nothing_of_a_longer_one(rt: HostRuntime) -> Result<(), Fail> {
    let mut firmware = Firmware::make(rt.alloc())?;
    firmware.banks.log(corrected());
    firmware.banks.log(Event::new(EventKind::PoisonWrittenBack, 1, 1, 0x8000_0040));
    firmware.mark();
    firmware.clear();
    // Two entries: one of a memory section, one of a processor section.
    let both = firmware.memory.bytes();
    assert!(rt;
        stand_at(
            both,
            0x2000,
            b"\x23\0\0\0\0\0\0\0\0\0\0\0\xA0\x01\0\0\0\0\0\0"
        )
    );
    assert!(rt; stand_at(both, 0x2040, b"b0r0 c00001 s100 m0\0"));
    assert!(rt; stand_at(both, 0x20D8, b"b1r1 c00000 s010 m0\0"));
    firmware.banks.log(corrected());
    firmware.mark();
    firmware.clear();
    let one = firmware.memory.bytes();
    assert!(rt;
        stand_at(
            one,
            0x2000,
            b"\x12\0\0\0\0\0\0\0\0\0\0\0\x98\0\0\0\x02\0\0\0"
        )
    );
    assert!(rt; stand_at(one, 0x20AC, &[0; 1024]));
    // A clear that emits nothing leaves the block.
    firmware.mark();
    firmware.clear();
    assert!(rt; stand_at(firmware.memory.bytes(), 0x2000, b"\x12\0\0\0"));
    Ok(())
}
