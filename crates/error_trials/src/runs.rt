//! Runs of the error side alone: what happens to the banks in each step, and what the file of records and the blocks of
//! firmware's memory are like then.

use crate::expected::{HART_BLOCK, HART_RECORD, MEMORY_BLOCK, MEMORY_RECORD};
use poison_mem::{Class, Event, EventKind, EventLog, RecordId, UseKind};
use ras_firmware::Firmware;
use ras_report::{FileBuf, records_file};
use reri_inject::{count_down, stage};
use std::test::Fail;

// What happens in a step: a word that is corrected for a record of bank 0, or found bad; a word that a hart consumes, with its
// pc; an injection and a write of the control register, both of record 0 of bank 0.
#[derive(Clone, Copy)]
pub(crate) enum Happening {
    Corrected(u8, u64),
    Bad(u64),
    Consumed(UseKind, u8, u64, u64),
    Staged(Class, u16, u64),
    Control(u32),
}

// What a piece of a file or of memory is like.
#[derive(Clone, Copy)]
pub(crate) enum Like {
    Nothing,
    Memory,
    Hart,
}

// A run: so many steps begin, with a drain of this interval, and it leaves records and blocks like these, but for these bytes of
// the file, of the region and of the polled block.
#[derive(Clone, Copy)]
pub(crate) struct Run<'a> {
    pub(crate) interval: u64,
    pub(crate) steps: u64,
    pub(crate) happenings: &'a [(u64, Happening)],
    pub(crate) records: &'a [Like],
    pub(crate) file_but: &'a [(usize, u8)],
    pub(crate) region: Like,
    pub(crate) region_but: &'a [(usize, u8)],
    pub(crate) polled: Like,
    pub(crate) polled_but: &'a [(usize, u8)],
}

// What a run leaves that isn't as it should be.
#[derive(Clone, Copy, Debug, PartialEq, Eq)]
pub(crate) enum Unlike {
    Record(usize),
    FileEnd,
    Region,
    PolledBlock,
}

fn happens(firmware: &mut Firmware, happening: Happening) {
    match happening {
        Happening::Corrected(rec, addr) => {
            firmware
                .banks
                .log(Event::new(EventKind::CorrectedWord, 0, rec, addr));
        }
        Happening::Bad(addr) => firmware
            .banks
            .log(Event::new(EventKind::BadWord, 0, 0, addr)),
        Happening::Consumed(use_kind, hart, addr, pc) => {
            firmware
                .banks
                .log(Event::consumption(use_kind, hart, addr, pc));
        }
        Happening::Staged(class, delay, addr) => {
            if delay > 0 {
                stage(&mut firmware.banks, 0, 0, class, delay, addr);
            }
        }
        Happening::Control(value) => firmware.write_control(RecordId::Read, value),
    }
}

// The firmware after a run, and its stop.
fn after(rt: &HostRuntime, run: &Run) -> Result<Firmware, Fail> {
    let mut firmware = Firmware::make(rt.alloc())?;
    for step in 0..run.steps {
        firmware.begin_step(step);
        count_down(&mut firmware.banks);
        for (at, happening) in run.happenings {
            if *at == step {
                happens(&mut firmware, *happening);
            }
        }
        firmware.drain(step, run.interval);
    }
    let fatal = firmware.banks.first_critical();
    firmware.stop(fatal);
    Ok(firmware)
}

fn byte_at(place: usize, byte: u8, but: &[(usize, u8)]) -> u8 {
    for (at, other) in but {
        if *at == place {
            return *other;
        }
    }
    byte
}

// Whether bytes begin like others, but for some, whose places count from `start` bytes before.
fn begin_like(bytes: &[u8], like: &[u8], start: usize, but: &[(usize, u8)]) -> bool {
    for (place, byte) in like.iter().enumerate() {
        let want = byte_at(place.saturating_add(start), *byte, but);
        if bytes.get(place).copied() != Some(want) {
            return false;
        }
    }
    true
}

// What stands behind so many bytes.
fn behind(bytes: &[u8], count: usize) -> &[u8] {
    if count <= bytes.len() {
        &bytes[count..]
    } else {
        &[]
    }
}

fn begin_like_record(bytes: &[u8], like: Like, start: usize, but: &[(usize, u8)]) -> bool {
    match like {
        Like::Nothing => true,
        Like::Memory => begin_like(bytes, &MEMORY_RECORD, start, but),
        Like::Hart => begin_like(bytes, &HART_RECORD, start, but),
    }
}

fn record_length(like: Like) -> usize {
    match like {
        Like::Nothing => 0,
        Like::Memory => 280,
        Like::Hart => 392,
    }
}

fn unlike_records(file: &[u8], run: &Run) -> Option<Unlike> {
    let mut start = 0usize;
    for (k, like) in run.records.iter().enumerate() {
        if !begin_like_record(behind(file, start), *like, start, run.file_but) {
            return Some(Unlike::Record(k));
        }
        start = start.saturating_add(record_length(*like));
    }
    if file.len() == start {
        None
    } else {
        Some(Unlike::FileEnd)
    }
}

// A block, and zeros behind it.
fn shows(piece: &[u8], block: &[u8], but: &[(usize, u8)]) -> bool {
    for byte in behind(piece, block.len()) {
        if *byte != 0 {
            return false;
        }
    }
    begin_like(piece, block, 0, but)
}

fn shows_block(piece: &[u8], like: Like, but: &[(usize, u8)]) -> bool {
    match like {
        Like::Nothing => shows(piece, &[], but),
        Like::Memory => shows(piece, &MEMORY_BLOCK, but),
        Like::Hart => shows(piece, &HART_BLOCK, but),
    }
}

fn unlike_blocks(memory: &[u8], run: &Run) -> Option<Unlike> {
    if memory.len() != 16_384 || !shows_block(&memory[0x1000..0x2000], run.region, run.region_but) {
        return Some(Unlike::Region);
    }
    if shows_block(&memory[0x2000..], run.polled, run.polled_but) {
        None
    } else {
        Some(Unlike::PolledBlock)
    }
}

// The first thing that the run leaves and that isn't as it should be.
pub(crate) fn first_unlike(
    rt: &HostRuntime,
    buffer: &mut FileBuf,
    run: &Run,
) -> Result<Option<Unlike>, Fail> {
    let firmware = after(rt, run)?;
    match unlike_records(records_file(&firmware.records, buffer), run) {
        None => Ok(unlike_blocks(firmware.memory.bytes(), run)),
        Some(found) => Ok(Some(found)),
    }
}
