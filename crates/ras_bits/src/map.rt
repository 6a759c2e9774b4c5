//! The physical address map, and the numbers that several layers share.
//!
//! From [`FIRMWARE_START`] on lies the memory that firmware writes for the operating system: the
//! tables HEST and BERT (ACPI, "ACPI Platform Error Interfaces"), the block of the polled error
//! source, and the boot error region.
//! From [`RAM_START`] on lies RAM, in words of 64 bits that are counted from 0.

ghost use Rattle.std.specs.Prelude.{◌≡◌, ◌+◌, ◌%◌, ◌≤◌, ◌<◌, ℕ, true};
ghost use Rattle.ras_bits.specs.Map.{word_address, word_at, is_ram};

/// The physical address of the first byte of RAM.
pub const RAM_START: u64 = 0x8000_0000;

/// The physical address of the first byte of firmware's memory, where HEST stands.
pub const FIRMWARE_START: u64 = 0x4000_0000;

/// How many bytes firmware's memory has.
pub const FIRMWARE_LENGTH: u32 = 0x4000;

/// The physical address of BERT.
pub const BERT_START: u64 = FIRMWARE_START + 0x100;

/// The physical address of the eight bytes that hold the polled block's address.
pub const POLLED_POINTER: u64 = FIRMWARE_START + 0x200;

/// The physical address of the boot error region.
pub const BOOT_REGION_START: u64 = FIRMWARE_START + 0x1000;

/// How many bytes the boot error region has.
pub const BOOT_REGION_LENGTH: u32 = 0x1000;

/// The physical address of the error status block of the polled error source.
pub const POLLED_BLOCK_START: u64 = FIRMWARE_START + 0x2000;

/// How many bytes the polled block has at most.
pub const POLLED_BLOCK_LENGTH: u32 = 0x800;

/// How many words a mebibyte of RAM has.
pub const WORDS_PER_MIB: u32 = 131_072;

/// The most words that a RAM has: 64 mebibytes.
pub const MOST_WORDS: u32 = 8_388_608;

/// The greatest budget of steps, and the greatest step that a script names.
pub const LAST_STEP: u64 = 1_000_000_000;

/// The physical address of the first byte of a word of RAM.
pub fn word_address(w: u32) -> u64
    ensures value { result ≡ word_address w }
    ensures back { word_at result ≡ w }
    ensures there { (words : ℕ) → w < words → is_ram words result ≡ true }
{
    RAM_START + 8 * u64::from(w)
}

/// Whether the byte at a physical address lies in a RAM of so many words.
pub fn is_ram(words: u32, address: u64) -> bool
    ensures { result ≡ is_ram words address }
{
    address >= RAM_START && address < word_address(words)
}

/// The word that the byte at a physical address lies in. The byte lies in a RAM of so many words.
pub fn word_at(words: u32, address: u64) -> u32
    requires { is_ram words address ≡ true }
    ensures word { result ≡ word_at address }
    ensures there { result < words }
    ensures from { word_address result ≤ address }
    ensures to { address < word_address result + 8 }
    ensures aligned { address % 8 ≡ 0 → word_address result ≡ address }
{
    ((address - RAM_START) / 8) as u32
}
