//! Little-endian numbers in bytes.

ghost use Rattle.std.specs.Prelude.{◌≡◌, ◌+◌, ◌≤◌, length};
ghost use Rattle.ras_bits.specs.Fields.{number_at};

use byteorder::{ByteOrder, LittleEndian};

/// The little-endian number in the two bytes of `b` from offset `at` on. The bytes are there.
#[tactic(auto, unfolding(crate::specs::Fields::number_at))]
pub fn u16_at(b: &[u8], at: usize) -> u16
    requires { at + 2 ≤ length b.now }
    ensures { result ≡ number_at 2 at b.now }
{
    LittleEndian::read_u16(&b[at..])
}

/// The little-endian number in the four bytes of `b` from offset `at` on. The bytes are there.
#[tactic(auto, unfolding(crate::specs::Fields::number_at))]
pub fn u32_at(b: &[u8], at: usize) -> u32
    requires { at + 4 ≤ length b.now }
    ensures { result ≡ number_at 4 at b.now }
{
    LittleEndian::read_u32(&b[at..])
}

/// The little-endian number in the eight bytes of `b` from offset `at` on. The bytes are there.
#[tactic(auto, unfolding(crate::specs::Fields::number_at))]
pub fn u64_at(b: &[u8], at: usize) -> u64
    requires { at + 8 ≤ length b.now }
    ensures { result ≡ number_at 8 at b.now }
{
    LittleEndian::read_u64(&b[at..])
}
