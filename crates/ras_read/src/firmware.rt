//! The text of firmware's memory.

ghost use Rattle.std.specs.Prelude.{◌≡◌, ◌+◌, ◌<◌, ◌≤◌, ◌^◌, ◌++◌, length, IfOk, IfErr, OnOk};
ghost use Rattle.std.specs.List.{AllByRecursion};
ghost use Rattle.ras_bits.specs.declared.map.TheConstants.{FIRMWARE_LENGTH};
ghost use Rattle.byte_fields.specs.Fields.{bytes_at};
ghost use Rattle.acpi_tables.specs.Reading.{block_of};
ghost use Rattle.ras_read.specs.Sections.{IsInside};
ghost use Rattle.ras_read.specs.Firmware.{bert_line, block_lines, boot_part, firmware_lines, firmware_of, firmware_text, hest_line, length_kept, polled_part, table_at};
ghost use Rattle.ras_read.specs.Files.{IsRefusalOf};

use crate::refused::ReadRefused;
use crate::sections::push_sections;
use crate::values::{push_address, push_number};
use acpi_tables::{BertView, BlockView, HestView, TableRefused, read_bert, read_block, read_hest};
use ras_bits::{
    BERT_START, BOOT_REGION_LENGTH, BOOT_REGION_START, FIRMWARE_LENGTH, FIRMWARE_START,
    POLLED_BLOCK_LENGTH, POLLED_BLOCK_START, POLLED_POINTER,
};
use ras_numbers::hex_digits;
use std::alloc::{AllocError, Global};

// Where firmware's memory has what is read of it, from its first byte on, and how many bytes.
const HEST_OFFSET: usize = 0;

const HEST_ROOM: usize = (BERT_START - FIRMWARE_START) as usize;

const BERT_OFFSET: usize = (BERT_START - FIRMWARE_START) as usize;

const BERT_ROOM: usize = (POLLED_POINTER - BERT_START) as usize;

const BOOT_OFFSET: usize = (BOOT_REGION_START - FIRMWARE_START) as usize;

const BOOT_ROOM: usize = BOOT_REGION_LENGTH as usize;

const POLLED_OFFSET: usize = (POLLED_BLOCK_START - FIRMWARE_START) as usize;

const POLLED_ROOM: usize = POLLED_BLOCK_LENGTH as usize;

/// What firmware's memory says.
#[derive(Drop)]
pub(crate) struct FirmwareView {
    hest: HestView,
    bert: BertView,
    boot: BlockView,
    polled: BlockView,
}

/// The text of firmware's memory: a line for each table, and for each block a line and one for each of its sections.
pub(crate) fn firmware_text(alloc: Global, b: &[u8]) -> Result<Vec<u8>, ReadRefused>
    ensures text { IfOk result (λ v. firmware_text b.now ≡ Ok v.items) }
    ensures refused { IfErr result (IsRefusalOf (firmware_text b.now)) }
{
    let view = read_firmware(b)?;
    let mut out = Vec::new(alloc);
    push_firmware(&mut out, b, &view)?;
    Ok(out)
}

// Reads the tables and blocks, up to the first that is refused.
#[tactic(auto, unfolding(crate::specs::Firmware::firmware_of))]
fn read_firmware(b: &[u8]) -> Result<FirmwareView, ReadRefused>
    ensures exact { result ≡ firmware_of b.now }
    ensures count { OnOk result (length b.now ≡ FIRMWARE_LENGTH) }
    ensures boot { IfOk result (λ v. AllByRecursion (IsInside (boot_part b.now)) v.boot.entries.items) }
    ensures polled { IfOk result (λ v. AllByRecursion (IsInside (polled_part b.now)) v.polled.entries.items) }
{
    keep_length(b)?;
    let hest = table_at(HEST_OFFSET, read_hest(part(b, HEST_OFFSET, HEST_ROOM)))?;
    let bert = table_at(BERT_OFFSET, read_bert(part(b, BERT_OFFSET, BERT_ROOM)))?;
    let boot = block_at(BOOT_OFFSET, part(b, BOOT_OFFSET, BOOT_ROOM))?;
    let polled = block_at(POLLED_OFFSET, part(b, POLLED_OFFSET, POLLED_ROOM))?;
    Ok(FirmwareView {
        hest,
        bert,
        boot,
        polled,
    })
}

#[tactic(auto, unfolding(crate::specs::Firmware::length_kept))]
fn keep_length(b: &[u8]) -> Result<(), ReadRefused>
    ensures exact { result ≡ length_kept b.now }
    ensures count { OnOk result (length b.now ≡ FIRMWARE_LENGTH) }
{
    if b.len() == FIRMWARE_LENGTH as usize {
        Ok(())
    } else {
        Err(ReadRefused::Table {
            at: 0,
            why: TableRefused::Short,
        })
    }
}

// So many bytes from an offset on. They are there.
#[tactic(auto, using(crate::proofs::LineLemmas::range_at))]
fn part(b: &[u8], at: usize, count: usize) -> &[u8]
    requires { at + count ≤ length b.now }
    ensures bytes { result.now ≡ bytes_at count at b.now }
    ensures count { length result.now ≡ count }
{
    &b[at..at + count]
}

// What a reader answers for what is at an offset of firmware's memory.
fn table_at<T: Drop>(at: usize, read: Result<T, TableRefused>) -> Result<T, ReadRefused>
    requires { at < 2 ^ 32 }
    ensures { result ≡ table_at at read }
{
    match read {
        Ok(view) => Ok(view),
        Err(why) => Err(ReadRefused::Table { at: at as u32, why }),
    }
}

// The block `b`, which is at an offset of firmware's memory.
#[tactic(auto, using(crate::proofs::InsideLemmas::block_inside))]
fn block_at(at: usize, b: &[u8]) -> Result<BlockView, ReadRefused>
    requires offset { at < 2 ^ 32 }
    requires count { length b.now < 2 ^ 32 }
    ensures exact { result ≡ table_at at (block_of b.now) }
    ensures inside { IfOk result (λ v. AllByRecursion (IsInside b.now) v.entries.items) }
{
    match read_block(b) {
        Ok(view) => Ok(view),
        Err(why) => Err(ReadRefused::Table { at: at as u32, why }),
    }
}

#[tactic(auto, unfolding(crate::specs::Firmware::firmware_lines))]
fn push_firmware(out: &mut Vec<u8>, b: &[u8], view: &FirmwareView) -> Result<(), AllocError>
    requires count { length b.now ≡ FIRMWARE_LENGTH }
    requires boot { AllByRecursion (IsInside (boot_part b.now)) view.now.boot.entries.items }
    requires polled { AllByRecursion (IsInside (polled_part b.now)) view.now.polled.entries.items }
    ensures { OnOk result (out.new.items ≡ out.old.items ++ firmware_lines b.now view.now) }
{
    push_hest(out, view.hest)?;
    push_bert(out, view.bert)?;
    push_block(out, b"boot", part(b, BOOT_OFFSET, BOOT_ROOM), &view.boot)?;
    push_block(
        out,
        b"polled",
        part(b, POLLED_OFFSET, POLLED_ROOM),
        &view.polled,
    )
}

#[tactic(auto, unfolding(crate::specs::Firmware::hest_line))]
fn push_hest(out: &mut Vec<u8>, hest: HestView) -> Result<(), AllocError>
    ensures { OnOk result (out.new.items ≡ out.old.items ++ hest_line hest) }
{
    push_number(out, b"hest sources ", u64::from(hest.sources))?;
    out.extend_from_slice(b"\n")
}

fn push_bert(out: &mut Vec<u8>, bert: BertView) -> Result<(), AllocError>
    ensures { OnOk result (out.new.items ≡ out.old.items ++ bert_line bert) }
{
    push_number(out, b"bert length ", u64::from(bert.length))?;
    push_address(out, b" address ", bert.address)?;
    out.extend_from_slice(b"\n")
}

// The lines of a block in `b`, and of its sections.
#[tactic(auto, unfolding(crate::specs::Firmware::block_lines))]
fn push_block(out: &mut Vec<u8>, name: &[u8], b: &[u8], block: &BlockView) -> Result<(), AllocError>
    requires { AllByRecursion (IsInside b.now) block.now.entries.items }
    ensures { OnOk result (out.new.items ≡ out.old.items ++ block_lines name.now b.now block.now) }
{
    out.extend_from_slice(name)?;
    out.extend_from_slice(b" status 0x")?;
    out.extend_from_slice(&hex_digits::<8>(u64::from(block.status)))?;
    push_number(out, b" severity ", u64::from(block.severity))?;
    out.extend_from_slice(b"\n")?;
    push_sections(out, b, block.entries.as_slice())
}
