//! Formats that firmware and operating systems read, by slots: a slot is a named part of a format, with its offset and its
//! length. Writers put numbers and bytes at slots, readers read them there, and what isn't named is zero.
//!
//! Numbers are little-endian. No call of this crate takes memory.
#![tactic(auto)]

mod laws;
mod reading;
mod section;
mod slot;
mod writing;

pub use laws::fields_stand_at_their_slots;
pub use reading::{array_in, u8_in, u16_in, u32_in, u64_in};
pub use section::{FRU_TEXT_VALID, SectionSlots, section_in};
pub use slot::Slot;
pub use writing::{pad_to, push_bytes, put_bytes, put_u8, put_u16, put_u32, put_u64};
