//! Slots of a format that is written from its first byte on.
//!
//! A slot lies behind what was written, has the length of what is put there, and ends where there is room. What lies
//! between is filled with zeros.

ghost use Rattle.std.specs.Prelude.{◌≡◌, ◌+◌, ◌-◌, ◌≤◌, ◌++◌, length};
ghost use Rattle.arrayvec.specs.ArrayVec.{array_vec_len};
ghost use Rattle.byte_fields.specs.Fields.{bytes_field, little, number_field, padded, with_slot, zeros};

use crate::slot::Slot;
use arrayvec::ArrayVec;
use byteorder::{ByteOrder, LittleEndian};

/// Puts a number of one byte at its slot.
#[tactic(auto, unfolding(crate::specs::Fields::little))]
pub fn put_u8<const N: usize>(out: &mut ArrayVec<u8, N>, slot: Slot, value: u8)
    requires width { slot.width ≡ 1 }
    requires order { array_vec_len out.old ≤ slot.offset }
    requires room { slot.offset + 1 ≤ N }
    ensures items { out.new.items ≡ with_slot out.old.items (number_field slot value) }
    ensures len { array_vec_len out.new ≡ slot.offset + 1 }
{
    pad_to(out, slot.offset);
    out.push(value);
}

/// Puts a number of two bytes at its slot, the lowest first.
pub fn put_u16<const N: usize>(out: &mut ArrayVec<u8, N>, slot: Slot, value: u16)
    requires width { slot.width ≡ 2 }
    requires order { array_vec_len out.old ≤ slot.offset }
    requires room { slot.offset + 2 ≤ N }
    ensures items { out.new.items ≡ with_slot out.old.items (number_field slot value) }
    ensures len { array_vec_len out.new ≡ slot.offset + 2 }
{
    pad_to(out, slot.offset);
    push_bytes(out, &u16_bytes(value));
}

/// Puts a number of four bytes at its slot, the lowest first.
pub fn put_u32<const N: usize>(out: &mut ArrayVec<u8, N>, slot: Slot, value: u32)
    requires width { slot.width ≡ 4 }
    requires order { array_vec_len out.old ≤ slot.offset }
    requires room { slot.offset + 4 ≤ N }
    ensures items { out.new.items ≡ with_slot out.old.items (number_field slot value) }
    ensures len { array_vec_len out.new ≡ slot.offset + 4 }
{
    pad_to(out, slot.offset);
    push_bytes(out, &u32_bytes(value));
}

/// Puts a number of eight bytes at its slot, the lowest first.
pub fn put_u64<const N: usize>(out: &mut ArrayVec<u8, N>, slot: Slot, value: u64)
    requires width { slot.width ≡ 8 }
    requires order { array_vec_len out.old ≤ slot.offset }
    requires room { slot.offset + 8 ≤ N }
    ensures items { out.new.items ≡ with_slot out.old.items (number_field slot value) }
    ensures len { array_vec_len out.new ≡ slot.offset + 8 }
{
    pad_to(out, slot.offset);
    push_bytes(out, &u64_bytes(value));
}

/// Puts bytes at their slot.
pub fn put_bytes<const N: usize>(out: &mut ArrayVec<u8, N>, slot: Slot, bytes: &[u8])
    requires width { slot.width ≡ length bytes.now }
    requires order { array_vec_len out.old ≤ slot.offset }
    requires room { slot.offset + length bytes.now ≤ N }
    ensures items { out.new.items ≡ with_slot out.old.items (bytes_field slot bytes.now) }
    ensures len { array_vec_len out.new ≡ slot.offset + length bytes.now }
{
    pad_to(out, slot.offset);
    push_bytes(out, bytes);
}

/// Appends zeros up to this length. What is there isn't longer.
#[tactic(auto, unfolding(crate::specs::Fields::padded))]
pub fn pad_to<const N: usize>(out: &mut ArrayVec<u8, N>, to: usize)
    requires shorter { array_vec_len out.old ≤ to }
    requires room { to ≤ N }
    ensures items { out.new.items ≡ padded to out.old.items }
    ensures len { array_vec_len out.new ≡ to }
{
    let count = to - out.len();
    push_zeros(out, count);
}

/// Appends the bytes. There is room for them.
pub fn push_bytes<const N: usize>(out: &mut ArrayVec<u8, N>, bytes: &[u8])
    requires { array_vec_len out.old + length bytes.now ≤ N }
    ensures items { out.new.items ≡ out.old.items ++ bytes.now }
    ensures len { array_vec_len out.new ≡ array_vec_len out.old + length bytes.now }
{
    out.try_extend_from_slice(bytes).unwrap();
}

#[tactic(auto, unfolding(crate::specs::Fields::zeros))]
fn push_zeros<const N: usize>(out: &mut ArrayVec<u8, N>, count: usize)
    requires { array_vec_len out.old + count ≤ N }
    ensures items { out.new.items ≡ out.old.items ++ zeros count }
    ensures len { array_vec_len out.new ≡ array_vec_len out.old + count }
{
    for _done in 0..count {
        out.push(0);
    }
}

#[tactic(auto, unfolding(crate::specs::Fields::little))]
fn u16_bytes(value: u16) -> [u8; 2]
    ensures { result ≡ little 2 value }
{
    let mut bytes = [0; 2];
    LittleEndian::write_u16(&mut bytes, value);
    bytes
}

#[tactic(auto, unfolding(crate::specs::Fields::little))]
fn u32_bytes(value: u32) -> [u8; 4]
    ensures { result ≡ little 4 value }
{
    let mut bytes = [0; 4];
    LittleEndian::write_u32(&mut bytes, value);
    bytes
}

#[tactic(auto, unfolding(crate::specs::Fields::little))]
fn u64_bytes(value: u64) -> [u8; 8]
    ensures { result ≡ little 8 value }
{
    let mut bytes = [0; 8];
    LittleEndian::write_u64(&mut bytes, value);
    bytes
}
