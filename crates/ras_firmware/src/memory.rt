//! The memory that firmware writes for the operating system.

ghost use Rattle.std.specs.Prelude.{◌≡◌, ◌+◌, ◌-◌, ◌≤◌, ◌++◌, length, drop, take, vec_capacity, vec_len, IfOk, IfSome};
ghost use Rattle.std.specs.List.{AllByRecursion};
ghost use Rattle.std.specs.Option.{option_to_list};
ghost use Rattle.byte_fields.specs.Fields.{padded};
ghost use Rattle.poison_mem.specs.RecordView.{IsListedView};
ghost use Rattle.ras_firmware.specs.Memory.{FirmMemoryState, new_memory, with_polled, with_region, memory_front, memory_bytes, polled_piece, pointer_piece, region_piece, views_block, AreMemory};

use crate::entries::views_block;
use acpi_tables::{bert, hest};
use arrayvec::ArrayVec;
use byte_fields::{Slot, put_u64};
use poison_mem::RecordView;
use ras_bits::{
    BERT_START, BOOT_REGION_LENGTH, BOOT_REGION_START, FIRMWARE_LENGTH, FIRMWARE_START, NoMemory,
    POLLED_BLOCK_START, POLLED_POINTER,
};
use std::alloc::Global;
use std::marker::Model;

/// How many views a block has at most: one of each record.
pub(crate) const MOST_VIEWS: usize = 5;

/// What stands at `POLLED_POINTER`.
pub(crate) const POLLED_BLOCK_ADDRESS: Slot = Slot {
    offset: 0,
    width: 8,
};

// How many bytes each piece of the memory has, in the order of the map.
const HEST_ROOM: usize = (BERT_START - FIRMWARE_START) as usize;

const BERT_ROOM: usize = (POLLED_POINTER - BERT_START) as usize;

const POINTER_ROOM: usize = (BOOT_REGION_START - POLLED_POINTER) as usize;

const REGION_ROOM: usize = BOOT_REGION_LENGTH as usize;

const POLLED_OFFSET: usize = (POLLED_BLOCK_START - FIRMWARE_START) as usize;

const POLLED_ROOM: usize = FIRMWARE_LENGTH as usize - POLLED_OFFSET;

/// The tables HEST and BERT, the polled block, and the boot error region.
#[derive(Drop)]
pub struct FirmMemory {
    bytes: Vec<u8>,
    polled: ArrayVec<RecordView, MOST_VIEWS>,
    region: Option<RecordView>,
}

impl Model for FirmMemory {
    ghost use Rattle.std.specs.Prelude.{vec_capacity};
    ghost use Rattle.ras_firmware.specs.Memory.{FirmMemoryState, AreMemory};

    ghost Value = { FirmMemoryState };

    ghost view = { λ m. record { polled = m.polled.items; region = m.region } };

    ghost invariant = { λ m. AreMemory m.bytes.items (vec_capacity m.bytes)
        (record { polled = m.polled.items; region = m.region }) };
}

impl FirmMemory {
    /// The tables, and an empty polled block and boot error region.
    pub fn make(alloc: Global) -> Result<FirmMemory, NoMemory>
        ensures { IfOk result (λ m. m ≡ new_memory) }
    {
        let mut bytes = Vec::with_capacity(alloc, FIRMWARE_LENGTH as usize)?;
        write_memory(&mut bytes, None, &[]);
        Ok(FirmMemory {
            bytes,
            polled: ArrayVec::new(),
            region: None,
        })
    }

    /// The bytes from `FIRMWARE_START` on: the tables, the address of the polled block, the boot error
    /// region and the polled block, each followed by zeros.
    pub fn bytes(&self) -> &[u8]
        ensures bytes { result.now ≡ memory_bytes self.now }
        ensures count { length result.now ≡ FIRMWARE_LENGTH }
        ensures region { take BOOT_REGION_LENGTH (drop (BOOT_REGION_START - FIRMWARE_START) result.now)
            ≡ region_piece self.now.region }
        ensures polled { drop (POLLED_BLOCK_START - FIRMWARE_START) result.now
            ≡ polled_piece self.now.polled }
    {
        let _ = &self.region;
        self.bytes.as_slice()
    }

    /// The views of the polled block, five at most.
    pub fn polled(&self) -> &[RecordView]
        ensures views { result.now ≡ self.now.polled }
        ensures few { length result.now ≤ MOST_VIEWS }
        ensures listed { AllByRecursion IsListedView result.now }
    {
        self.polled.as_slice()
    }

    /// Makes the polled block that of these views, and the boot error region empty.
    ///
    /// There are at most five views, and each is sound and names a record that exists.
    pub fn reset_to(&mut self, polled: &[RecordView])
        requires few { length polled.now ≤ MOST_VIEWS }
        requires listed { AllByRecursion IsListedView polled.now }
        ensures { self.new ≡ record { polled = polled.now; region = None } }
    {
        write_memory(&mut self.bytes, None, polled);
        self.polled = copied(polled);
        self.region = None;
    }

    /// Shows what a clear emitted in the polled block, where it emitted any.
    pub(crate) fn show_polled(&mut self, views: &[RecordView])
        requires few { length views.now ≤ MOST_VIEWS }
        requires listed { AllByRecursion IsListedView views.now }
        ensures { self.new ≡ with_polled self.old views.now }
    {
        if !views.is_empty() {
            self.bytes.truncate(POLLED_OFFSET);
            push_padded(&mut self.bytes, views_block(views).as_slice(), POLLED_ROOM);
            self.polled = copied(views);
        }
    }

    /// Shows a fatal record in the boot error region, where there is one.
    pub(crate) fn show_fatal(&mut self, fatal: Option<RecordView>)
        requires { IfSome fatal IsListedView }
        ensures { self.new ≡ with_region self.old fatal }
    {
        if fatal.is_some() {
            write_memory(&mut self.bytes, fatal, self.polled.as_slice());
            self.region = fatal;
        }
    }
}

/// Replaces what is in `bytes` by the whole memory. There is room for it.
fn write_memory(bytes: &mut Vec<u8>, region: Option<RecordView>, polled: &[RecordView])
    requires room { FIRMWARE_LENGTH ≤ vec_capacity bytes.old }
    requires region { IfSome region IsListedView }
    requires few { length polled.now ≤ MOST_VIEWS }
    requires listed { AllByRecursion IsListedView polled.now }
    ensures { AreMemory bytes.new.items (vec_capacity bytes.new)
        (record { polled = polled.now; region = region }) }
{
    write_front(bytes, region);
    push_padded(bytes, views_block(polled).as_slice(), POLLED_ROOM);
}

/// Replaces what is in `bytes` by all that stands before the polled block. There is room for it.
fn write_front(bytes: &mut Vec<u8>, region: Option<RecordView>)
    requires room { FIRMWARE_LENGTH ≤ vec_capacity bytes.old }
    requires region { IfSome region IsListedView }
    ensures items { bytes.new.items ≡ memory_front region }
    ensures len { vec_len bytes.new ≡ POLLED_BLOCK_START - FIRMWARE_START }
    ensures capacity { vec_capacity bytes.old ≤ vec_capacity bytes.new }
{
    bytes.clear();
    push_padded(bytes, &hest(), HEST_ROOM);
    push_padded(bytes, &bert(), BERT_ROOM);
    push_padded(bytes, pointer().as_slice(), POINTER_ROOM);
    push_padded(bytes, region_block(region).as_slice(), REGION_ROOM);
}

/// The polled block's address.
#[tactic(auto, unfolding(crate::specs::Memory::pointer_piece))]
fn pointer() -> ArrayVec<u8, 8>
    ensures { padded (BOOT_REGION_START - POLLED_POINTER) result.items ≡ pointer_piece }
{
    let mut pointer = ArrayVec::new();
    put_u64(&mut pointer, POLLED_BLOCK_ADDRESS, POLLED_BLOCK_START);
    pointer
}

/// The block of a fatal view, where there is one.
fn region_block(region: Option<RecordView>) -> ArrayVec<u8, 2048>
    requires { IfSome region IsListedView }
    ensures { result.items ≡ views_block (option_to_list region) }
{
    match region {
        None => views_block(&[]),
        Some(view) => views_block(&[view]),
    }
}

/// Appends bytes, and zeros up to so many. There is room for them.
fn push_padded(to: &mut Vec<u8>, bytes: &[u8], count: usize)
    requires shorter { length bytes.now ≤ count }
    requires room { vec_len to.old + count ≤ vec_capacity to.old }
    ensures items { to.new.items ≡ to.old.items ++ padded count bytes.now }
    ensures len { vec_len to.new ≡ vec_len to.old + count }
    ensures capacity { vec_capacity to.old ≤ vec_capacity to.new }
{
    let end = to.len() + count;
    to.extend_from_slice(bytes).unwrap();
    to.resize(end, 0).unwrap();
}

/// The same views.
fn copied(views: &[RecordView]) -> ArrayVec<RecordView, MOST_VIEWS>
    requires { length views.now ≤ MOST_VIEWS }
    ensures { result.items ≡ views.now }
{
    let mut copy = ArrayVec::new();
    for view in views {
        copy.push(*view);
    }
    copy
}
