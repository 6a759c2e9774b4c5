//! Slots of a format that lies in a list of bytes.
//!
//! `start` is the offset of the format's first byte. The slot is there, and has the length that is read.

ghost use Rattle.std.specs.Prelude.{◌≡◌, ◌+◌, ◌≤◌, length};
ghost use Rattle.byte_fields.specs.Fields.{bytes_in, number_in};

use crate::slot::Slot;
use ras_bits::{u16_at, u32_at, u64_at};

/// The number in a slot of one byte.
#[tactic(auto, using(crate::proofs::AtOffset::one_byte))]
pub fn u8_in(b: &[u8], start: usize, slot: Slot) -> u8
    requires width { slot.width ≡ 1 }
    requires there { start + slot.offset + 1 ≤ length b.now }
    ensures { result ≡ number_in slot start b.now }
{
    b[start + slot.offset]
}

/// The number in a slot of two bytes.
pub fn u16_in(b: &[u8], start: usize, slot: Slot) -> u16
    requires width { slot.width ≡ 2 }
    requires there { start + slot.offset + 2 ≤ length b.now }
    ensures { result ≡ number_in slot start b.now }
{
    u16_at(b, start + slot.offset)
}

/// The number in a slot of four bytes.
pub fn u32_in(b: &[u8], start: usize, slot: Slot) -> u32
    requires width { slot.width ≡ 4 }
    requires there { start + slot.offset + 4 ≤ length b.now }
    ensures { result ≡ number_in slot start b.now }
{
    u32_at(b, start + slot.offset)
}

/// The number in a slot of eight bytes.
pub fn u64_in(b: &[u8], start: usize, slot: Slot) -> u64
    requires width { slot.width ≡ 8 }
    requires there { start + slot.offset + 8 ≤ length b.now }
    ensures { result ≡ number_in slot start b.now }
{
    u64_at(b, start + slot.offset)
}

/// The bytes in a slot.
#[tactic(auto, using(crate::proofs::AtOffset::range_at))]
pub fn array_in<const N: usize>(b: &[u8], start: usize, slot: Slot) -> [u8; N]
    requires width { slot.width ≡ N }
    requires there { start + slot.offset + N ≤ length b.now }
    ensures { result ≡ bytes_in slot start b.now }
{
    let at = start + slot.offset;
    let mut bytes = [0; N];
    bytes.copy_from_slice(&b[at..at + N]);
    bytes
}
