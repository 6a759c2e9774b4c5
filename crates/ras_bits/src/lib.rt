//! What every layer speaks of: the physical map, fields of bits, numbers in bytes, and a few shared types.
//!
//! No call of this crate takes memory.
#![tactic(auto)]

mod bits;
mod bytes;
mod map;
mod terms;

pub use bits::{get_field, has_bit, parity, put_field, sext};
pub use bytes::{u16_at, u32_at, u64_at};
pub use map::{
    BERT_START, BOOT_REGION_LENGTH, BOOT_REGION_START, FIRMWARE_LENGTH, FIRMWARE_START, LAST_STEP,
    MOST_WORDS, POLLED_BLOCK_LENGTH, POLLED_BLOCK_START, POLLED_POINTER, RAM_START, WORDS_PER_MIB,
    is_ram, word_address, word_at,
};
pub use terms::{Access, Mode, NoMemory, SectionAt};

#[cfg(test)]
mod tests {
    use super::*;

    #[test]
    fn fields_are_those_of_an_instruction_word(rt: HostRuntime) {
        // addi a0,zero,72: funct3 0, rd 10, immediate 72, opcode 0x13
        let word = 0x04800513;
        for (lo, len, want) in [
            (0, 7, 0x13),
            (7, 5, 10),
            (12, 3, 0),
            (20, 12, 72),
            (0, 64, word),
        ] {
            assert_eq!(rt; get_field(word, lo, len), want, "{len} bits from {lo}");
        }
        assert_eq!(rt; put_field(word, 20, 12, 0xFFF), 0xFFF00513);
        assert_eq!(rt; put_field(u64::MAX, 63, 1, 0), 0x7FFF_FFFF_FFFF_FFFF);
    }

    #[test]
    fn signs_are_extended_from_the_named_bit(rt: HostRuntime) {
        for (v, bits, want) in [
            (0x7FF, 12, 0x7FF),
            (0x800, 12, 0xFFFF_FFFF_FFFF_F800),
            (0x1_0000_0005, 32, 5),
            (0x8000_0000, 32, 0xFFFF_FFFF_8000_0000),
            (1, 1, u64::MAX),
            (u64::MAX, 64, u64::MAX),
        ] {
            assert_eq!(rt; sext(v, bits), want, "{v} of {bits} bits");
        }
    }

    #[test]
    fn parity_counts_the_set_bits(rt: HostRuntime) {
        for (v, want) in [
            (0, false),
            (1, true),
            (3, false),
            (0x8000_0000_0000_0001, false),
            (0x8000_0000_0000_0003, true),
        ] {
            assert_eq!(rt; parity(v), want, "{v}");
        }
    }

    #[test]
    fn numbers_are_read_with_the_lowest_byte_first(rt: HostRuntime) {
        let bytes = [0xFF, 0x01, 0x02, 0x03, 0x04, 0x05, 0x06, 0x07, 0x08];
        assert_eq!(rt; u16_at(&bytes, 0), 0x01FF);
        assert_eq!(rt; u32_at(&bytes, 1), 0x0403_0201);
        assert_eq!(rt; u64_at(&bytes, 1), 0x0807_0605_0403_0201);
    }

    #[test]
    fn the_map_has_these_addresses(rt: HostRuntime) {
        for (address, want) in [
            (FIRMWARE_START, 0x4000_0000),
            (BERT_START, 0x4000_0100),
            (POLLED_POINTER, 0x4000_0200),
            (BOOT_REGION_START, 0x4000_1000),
            (POLLED_BLOCK_START, 0x4000_2000),
            (RAM_START, 0x8000_0000),
            (LAST_STEP, 1_000_000_000),
        ] {
            assert_eq!(rt; address, want);
        }
        for (length, want) in [
            (FIRMWARE_LENGTH, 16_384),
            (BOOT_REGION_LENGTH, 4_096),
            (POLLED_BLOCK_LENGTH, 2_048),
            (WORDS_PER_MIB, 131_072),
            (MOST_WORDS, 8_388_608),
        ] {
            assert_eq!(rt; length, want);
        }
        assert_eq!(rt; word_address(MOST_WORDS), 0x8400_0000);
        assert!(rt; is_ram(MOST_WORDS, 0x83FF_FFFF));
        assert!(rt; !is_ram(MOST_WORDS, 0x7FFF_FFFF));
        assert_eq!(rt; word_at(MOST_WORDS, 0x83FF_FFFF), MOST_WORDS - 1);
    }
}
