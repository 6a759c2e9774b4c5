//! The immediates of the formats (unprivileged manual, "Immediate Encoding Variants").

ghost use Rattle.std.specs.Prelude.{◌≡◌, ◌<◌, ◌^◌};
ghost use Rattle.rv64_decode.specs.Fields.{AreFields};
ghost use Rattle.ras_bits.specs.Bits.{signed};
ghost use Rattle.rv64_decode.specs.Immediates.{unsigned, FitsBits, imm_i, imm_s, imm_b, imm_u, imm_j, offset_of_upper, upper_of_offset};

use crate::fields::Fields;

/// A number of 12 bits, read as two's complement.
pub fn signed_12(n: u16) -> i16
    requires { n < 2 ^ 12 }
    ensures { result ≡ signed 12 n }
{
    if n < 1 << 11 {
        n as i16
    } else {
        n as i16 - (1 << 12)
    }
}

/// A number of 13 bits, read as two's complement.
pub fn signed_13(n: u16) -> i16
    requires { n < 2 ^ 13 }
    ensures { result ≡ signed 13 n }
{
    if n < 1 << 12 {
        n as i16
    } else {
        n as i16 - (1 << 13)
    }
}

/// A number of 21 bits, read as two's complement.
pub fn signed_21(n: u32) -> i32
    requires { n < 2 ^ 21 }
    ensures { result ≡ signed 21 n }
{
    if n < 1 << 20 {
        n as i32
    } else {
        n as i32 - (1 << 21)
    }
}

/// The number of 12 bits that is read as `z`.
pub fn bits_12(z: i16) -> u16
    requires { FitsBits 12 z }
    ensures value { result ≡ unsigned 12 z }
    ensures small { result < 2 ^ 12 }
{
    if z < 0 {
        (z + (1 << 12)) as u16
    } else {
        z as u16
    }
}

/// The number of 13 bits that is read as `z`.
pub fn bits_13(z: i16) -> u16
    requires { FitsBits 13 z }
    ensures value { result ≡ unsigned 13 z }
    ensures small { result < 2 ^ 13 }
{
    if z < 0 {
        (z + (1 << 13)) as u16
    } else {
        z as u16
    }
}

/// The number of 21 bits that is read as `z`.
pub fn bits_21(z: i32) -> u32
    requires { FitsBits 21 z }
    ensures value { result ≡ unsigned 21 z }
    ensures small { result < 2 ^ 21 }
{
    if z < 0 {
        (z + (1 << 21)) as u32
    } else {
        z as u32
    }
}

impl Fields {
    /// Bits 31:20.
    pub fn imm_i(self) -> u16
        requires { AreFields self }
        ensures value { result ≡ imm_i self }
        ensures small { result < 2 ^ 12 }
    {
        ((self.funct7 as u16) << 5) + self.rs2 as u16
    }

    /// Bits 31:25 and 11:7.
    pub fn imm_s(self) -> u16
        requires { AreFields self }
        ensures value { result ≡ imm_s self }
        ensures small { result < 2 ^ 12 }
    {
        ((self.funct7 as u16) << 5) + self.rd as u16
    }

    /// A branch's offset, in bits 31:25 and 11:7.
    pub fn imm_b(self) -> u16
        requires { AreFields self }
        ensures value { result ≡ imm_b self }
        ensures small { result < 2 ^ 13 }
    {
        let (bit_12, bit_11) = (self.funct7 as u16 / 64, self.rd as u16 % 2);
        let (bits_10_5, bits_4_1) = (self.funct7 as u16 % 64, self.rd as u16 / 2);
        (bit_12 << 12) + (bit_11 << 11) + (bits_10_5 << 5) + (bits_4_1 << 1)
    }

    /// Bits 31:12.
    pub fn imm_u(self) -> u32
        requires { AreFields self }
        ensures value { result ≡ imm_u self }
        ensures small { result < 2 ^ 20 }
    {
        ((self.funct7 as u32) << 13)
            + ((self.rs2 as u32) << 8)
            + ((self.rs1 as u32) << 3)
            + self.funct3 as u32
    }

    /// JAL's offset, in bits 31:12.
    pub fn imm_j(self) -> u32
        requires { AreFields self }
        ensures value { result ≡ imm_j self }
        ensures small { result < 2 ^ 21 }
    {
        offset_from_upper(self.imm_u())
    }
}

/// JAL's offset, whose bits stand in the upper 20 in another order.
fn offset_from_upper(upper: u32) -> u32
    requires { upper < 2 ^ 20 }
    ensures value { result ≡ offset_of_upper upper }
    ensures small { result < 2 ^ 21 }
{
    ((upper >> 19) << 20)
        + ((upper & 0xFF) << 12)
        + (((upper >> 8) & 1) << 11)
        + (((upper >> 9) & 0x3FF) << 1)
}

/// The 20 bits in which JAL's offset stands.
pub fn upper_from_offset(offset: u32) -> u32
    requires { offset < 2 ^ 21 }
    ensures value { result ≡ upper_of_offset offset }
    ensures small { result < 2 ^ 20 }
{
    ((offset >> 20) << 19)
        + (((offset >> 1) & 0x3FF) << 9)
        + (((offset >> 11) & 1) << 8)
        + ((offset >> 12) & 0xFF)
}
