//! Values of sections, and how they are printed behind a label.

ghost use Rattle.std.specs.Prelude.{◌≡◌, ◌+◌, ◌<◌, ◌≤◌, ◌++◌, length, decimal, OnOk};
ghost use Rattle.ras_numbers.specs.Numbers.{address_text};
ghost use Rattle.ras_read.specs.Values.{address_shown, dash, decimal_shown, fru_shown, shown_byte, shown_text, valid_number};

use byte_fields::{Slot, u8_in, u64_in};
use itoa::Buffer;
use ras_bits::has_bit;
use std::alloc::AllocError;

// What stands for a value that isn't valid.
const DASH: &[u8; 1] = b"-";

/// The number in a slot of one byte of the section that begins at `start`, where its bit of the validation bits is set.
pub(crate) fn valid_byte(
    b: &[u8],
    start: usize,
    validation: u64,
    bit: u32,
    slot: Slot,
) -> Option<u64>
    requires bit { bit < 64 }
    requires width { slot.width ≡ 1 }
    requires there { start + slot.offset + 1 ≤ length b.now }
    ensures { result ≡ valid_number validation bit slot start b.now }
{
    if has_bit(validation, bit) {
        Some(u64::from(u8_in(b, start, slot)))
    } else {
        None
    }
}

/// The number in a slot of eight bytes of the section that begins at `start`, where its bit of the validation bits is set.
pub(crate) fn valid_word(
    b: &[u8],
    start: usize,
    validation: u64,
    bit: u32,
    slot: Slot,
) -> Option<u64>
    requires bit { bit < 64 }
    requires width { slot.width ≡ 8 }
    requires there { start + slot.offset + 8 ≤ length b.now }
    ensures { result ≡ valid_number validation bit slot start b.now }
{
    if has_bit(validation, bit) {
        Some(u64_in(b, start, slot))
    } else {
        None
    }
}

/// Appends a label and a number in decimal.
pub(crate) fn push_number(out: &mut Vec<u8>, label: &[u8], n: u64) -> Result<(), AllocError>
    ensures { OnOk result (out.new.items ≡ out.old.items ++ (label.now ++ decimal n)) }
{
    let mut buffer = Buffer::new();
    out.extend_from_slice(label)?;
    out.extend_from_slice(buffer.format(n).as_bytes())
}

/// Appends a label and an address.
pub(crate) fn push_address(out: &mut Vec<u8>, label: &[u8], n: u64) -> Result<(), AllocError>
    ensures { OnOk result (out.new.items ≡ out.old.items ++ (label.now ++ address_text n)) }
{
    out.extend_from_slice(label)?;
    out.extend_from_slice(&ras_numbers::address(n))
}

/// Appends a label and a number in decimal, where it is valid.
pub(crate) fn push_valid_number(
    out: &mut Vec<u8>,
    label: &[u8],
    value: Option<u64>,
) -> Result<(), AllocError>
    ensures { OnOk result (out.new.items ≡ out.old.items ++ (label.now ++ decimal_shown value)) }
{
    match value {
        Some(n) => push_number(out, label, n),
        None => push_dash(out, label),
    }
}

/// Appends a label and an address, where it is valid.
pub(crate) fn push_valid_address(
    out: &mut Vec<u8>,
    label: &[u8],
    value: Option<u64>,
) -> Result<(), AllocError>
    ensures { OnOk result (out.new.items ≡ out.old.items ++ (label.now ++ address_shown value)) }
{
    match value {
        Some(n) => push_address(out, label, n),
        None => push_dash(out, label),
    }
}

/// Appends a label and the text of a field-replaceable unit, where it is valid.
pub(crate) fn push_fru(
    out: &mut Vec<u8>,
    label: &[u8],
    fru: Option<[u8; 20]>,
) -> Result<(), AllocError>
    ensures { OnOk result (out.new.items ≡ out.old.items ++ (label.now ++ fru_shown fru)) }
{
    match fru {
        Some(text) => {
            out.extend_from_slice(label)?;
            push_shown(out, &text)
        }
        None => push_dash(out, label),
    }
}

fn push_dash(out: &mut Vec<u8>, label: &[u8]) -> Result<(), AllocError>
    ensures { OnOk result (out.new.items ≡ out.old.items ++ (label.now ++ dash)) }
{
    out.extend_from_slice(label)?;
    out.extend_from_slice(DASH)
}

// Appends a text that ends before its first zero.
fn push_shown(out: &mut Vec<u8>, text: &[u8]) -> Result<(), AllocError>
    ensures { OnOk result (out.new.items ≡ out.old.items ++ shown_text text.now) }
{
    for byte in text {
        if *byte == 0 {
            return Ok(());
        }
        out.extend_from_slice(&[shown_byte(*byte)])?;
    }
    Ok(())
}

// A byte of a text, as it is shown.
fn shown_byte(byte: u8) -> u8
    ensures { result ≡ shown_byte byte }
{
    if 32 <= byte && byte <= 126 {
        byte
    } else {
        b'.'
    }
}
