//! The error-correcting code of the memory: 64 data bits and 8 check bits, by Hsiao's rule.
//!
//! A codeword has 72 bits: bits 0 to 63 are the data, bits 64 to 71 the check bits. Each bit has a
//! column of eight bits, all columns are distinct and of odd weight (M. Y. Hsiao, "A class of optimal
//! minimum odd-weight-column SEC-DED codes", 1970). So one flipped bit of a codeword is corrected, and
//! two are detected. No call of this crate takes memory.
#![tactic(auto)]

mod codeword;
mod columns;
mod laws;
mod tables;

pub use codeword::{Decoded, check_of, read_code, syndrome};
pub use columns::column;
pub use laws::columns_are_distinct_and_odd;
pub use tables::{check_entry, syndrome_entry};

#[cfg(test)]
mod tests {
    use super::*;

    #[test]
    fn check_bits_of_known_words(rt: HostRuntime) {
        let rows = [
            (0, 0x00),
            (1, 0x07),
            (2, 0x0B),
            (3, 0x0C),
            (0xFF, 0x06),
            (0xFF00_0000_0000_0000, 0xFF),
            (u64::MAX, 0x00),
        ];
        for (word, check) in rows {
            assert_eq!(rt; check_of(word), check, "{word:#x}");
            assert_eq!(rt; syndrome(word, check), 0, "{word:#x}");
        }
        assert_eq!(rt; column(55), 0xE0);
        assert_eq!(rt; column(63), 0x8F);
        assert_eq!(rt; column(71), 0x80);
    }

    #[test]
    fn one_flip_is_taken_back_and_two_are_bad(rt: HostRuntime) {
        assert_eq!(rt; read_code(3, 0x0C), Decoded::Clean(3));
        assert_eq!(rt; read_code(8, 0), Decoded::Fixed(0, 3));
        assert_eq!(rt; read_code(7, 0), Decoded::Fixed(7, 64));
        assert_eq!(rt; read_code(0x208, 0), Decoded::Bad);
    }

    #[test]
    fn table_entries(rt: HostRuntime) {
        assert_eq!(rt; check_entry(0, 0xFF), 0x06);
        assert_eq!(rt; check_entry(7, 0xFF), 0xFF);
        let rows = [
            (0x00, 72),
            (0x07, 0),
            (0x0B, 1),
            (0x1F, 56),
            (0x01, 64),
            (0x80, 71),
            (0x03, 73),
        ];
        for (s, entry) in rows {
            assert_eq!(rt; syndrome_entry(s), entry, "{s:#x}");
        }
    }

    #[test]
    fn entries_that_are_clean_fixed_and_bad(rt: HostRuntime) {
        let mut clean = 0u32;
        let mut fixed = 0u32;
        let mut bad = 0u32;
        for s in 0..=255u8 {
            match syndrome_entry(s) {
                72 => clean = clean.saturating_add(1),
                73 => bad = bad.saturating_add(1),
                _ => fixed = fixed.saturating_add(1),
            }
        }
        assert_eq!(rt; (clean, fixed, bad), (1, 72, 183));
    }
}
