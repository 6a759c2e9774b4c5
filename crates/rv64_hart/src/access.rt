//! Words of RAM, and the bytes of them that loads and stores take (unprivileged manual, "Load and Store Instructions").

ghost use Rattle.std.specs.Prelude.{◌≡◌, true, Some, None, if◌then◌else◌};
ghost use Rattle.ras_bits.specs.Map.{is_ram, word_at};
ghost use Rattle.rv64_hart.specs.Access.{bytes_in, is_aligned, instruction_at, load_result, store_mask, store_value, first_bit, load_width, store_width};

use ras_bits::{get_field, is_ram, sext, word_at};
use rv64_decode::{LoadOp, StoreOp};

/// How many bytes an access takes: 1, 2, 4 or 8.
#[derive(Clone, Copy)]
pub(crate) enum Width {
    Byte,
    Halfword,
    Word,
    Doubleword,
}

impl Width {
    pub(crate) fn of_load(op: LoadOp) -> Width
        ensures { result ≡ load_width op }
    {
        match op {
            LoadOp::Lb | LoadOp::Lbu => Width::Byte,
            LoadOp::Lh | LoadOp::Lhu => Width::Halfword,
            LoadOp::Lw | LoadOp::Lwu => Width::Word,
            LoadOp::Ld => Width::Doubleword,
        }
    }

    pub(crate) fn of_store(op: StoreOp) -> Width
        ensures { result ≡ store_width op }
    {
        match op {
            StoreOp::Sb => Width::Byte,
            StoreOp::Sh => Width::Halfword,
            StoreOp::Sw => Width::Word,
            StoreOp::Sd => Width::Doubleword,
        }
    }

    /// How many bytes it has.
    pub(crate) fn bytes(self) -> u8
        ensures { result ≡ bytes_in self }
    {
        match self {
            Width::Byte => 1,
            Width::Halfword => 2,
            Width::Word => 4,
            Width::Doubleword => 8,
        }
    }

    /// Whether an address is a multiple of the width.
    pub(crate) fn divides(self, address: u64) -> bool
        ensures { result ≡ is_aligned self address }
    {
        match self {
            Width::Byte => true,
            Width::Halfword => address % 2 == 0,
            Width::Word => address % 4 == 0,
            Width::Doubleword => address % 8 == 0,
        }
    }
}

/// The word of an address, where it is in RAM.
pub(crate) fn ram_word(words: u32, address: u64) -> Option<u32>
    ensures { result ≡ (if is_ram words address then Some (word_at address) else None) }
{
    if is_ram(words, address) {
        Some(word_at(words, address))
    } else {
        None
    }
}

/// The instruction at the pc, in the word that holds it.
pub(crate) fn instruction_in(pc: u64, value: u64) -> u32
    ensures { result ≡ instruction_at pc value }
{
    if pc % 8 == 4 {
        (value >> 32) as u32
    } else {
        get_field(value, 0, 32) as u32
    }
}

/// What a load leaves in its register, of the word that holds its bytes.
pub(crate) fn loaded_value(op: LoadOp, value: u64, address: u64) -> u64
    requires { is_aligned (load_width op) address ≡ true }
    ensures { result ≡ load_result op value (first_bit address) }
{
    let lo = 8 * (address % 8) as u32;
    match op {
        LoadOp::Lb => sext(value >> lo, 8),
        LoadOp::Lh => sext(value >> lo, 16),
        LoadOp::Lw => sext(value >> lo, 32),
        LoadOp::Ld => value,
        LoadOp::Lbu => get_field(value, lo, 8),
        LoadOp::Lhu => get_field(value, lo, 16),
        LoadOp::Lwu => get_field(value, lo, 32),
    }
}

/// The bytes of its word that a store changes, one bit for each.
pub(crate) fn stored_mask(width: Width, address: u64) -> u8
    ensures { result ≡ store_mask width address }
{
    let bytes: u8 = match width {
        Width::Byte => 0x01,
        Width::Halfword => 0x03,
        Width::Word => 0x0F,
        Width::Doubleword => 0xFF,
    };
    bytes << (address % 8)
}

/// The value of a store, with its lowest byte at the address's byte.
pub(crate) fn stored_value(address: u64, value: u64) -> u64
    ensures { result ≡ store_value address value }
{
    value << (8 * (address % 8))
}
