//! Segments, written into the words of RAM.

ghost use Rattle.std.specs.Prelude.{◌≡◌, ◌≤◌, ◌<◌, ◌+◌, ◌*◌, ◌%◌, ◌^◌, ℕ, true, length, slice_index, take, drop};
ghost use Rattle.ras_bits.specs.declared.map.TheConstants.{RAM_START};
ghost use Rattle.elf_load.specs.Headers.{HasHeaders, is_load};
ghost use Rattle.elf_load.specs.Memory.{zero_memory, with_segment, file_memory, raw_memory, HoldsBytes, SegmentFits, SegmentsFit};
ghost use Rattle.elf_load.specs.Program.{image_words};
ghost use Rattle.elf_load.specs.Bytes.{with_byte, with_part, IsWordAt};

use crate::headers::{ProgramHeader, header_count, is_load, program_header};
use ras_bits::RAM_START;

// Writes the byte that lies so far behind the start of RAM.
fn put_byte(words: &mut [u64], at: usize, byte: u8)
    requires { at < 8 * length words.old }
    ensures { (memory : ℕ → ℕ) → HoldsBytes words.old memory → HoldsBytes words.new (with_byte (RAM_START + at) byte memory) }
{
    let mut bytes = words[at / 8].to_le_bytes();
    bytes[at % 8] = byte;
    words[at / 8] = u64::from_le_bytes(bytes);
}

// A byte of a part, 0 behind its end.
fn byte_of(part: &[u8], i: usize) -> u8
    ensures { result ≡ slice_index part.now i }
{
    if i < part.len() { part[i] } else { 0 }
}

// Writes the bytes of a part from one to another, a byte at a time.
fn write_bytes(words: &mut [u64], at: usize, part: &[u8], from: usize, to: usize)
    requires order { from ≤ to }
    requires room { at + to ≤ 8 * length words.old }
    ensures { (memory : ℕ → ℕ) → HoldsBytes words.old (with_part part.now (RAM_START + at) from memory)
        → HoldsBytes words.new (with_part part.now (RAM_START + at) to memory) }
{
    for i in from..to {
        let byte = byte_of(part, i);
        put_byte(words, at + i, byte);
    }
}

// The word that eight bytes of a part are, zeros behind its end.
fn part_word(part: &[u8], i: usize) -> u64
    requires { i + 8 < 2 ^ 64 }
    ensures { IsWordAt part.now i result }
{
    u64::from_le_bytes([
        byte_of(part, i),
        byte_of(part, i + 1),
        byte_of(part, i + 2),
        byte_of(part, i + 3),
        byte_of(part, i + 4),
        byte_of(part, i + 5),
        byte_of(part, i + 6),
        byte_of(part, i + 7),
    ])
}

// Writes the bytes of a part from one on, so many whole words.
fn write_words(words: &mut [u64], at: usize, part: &[u8], from: usize, count: usize)
    requires aligned { 0 < count → (at + from) % 8 ≡ 0 }
    requires room { at + from + 8 * count ≤ 8 * length words.old }
    ensures { (memory : ℕ → ℕ) → HoldsBytes words.old (with_part part.now (RAM_START + at) from memory)
        → HoldsBytes words.new (with_part part.now (RAM_START + at) (from + 8 * count) memory) }
{
    let first = (at + from) / 8;
    for k in 0..count {
        words[first + k] = part_word(part, from + 8 * k);
    }
}

// Writes so many bytes of a part, and zeros behind its end, from `at` bytes behind the start of RAM
// on: bytes up to the next word, whole words, and the bytes that are left.
fn write_part(words: &mut [u64], at: usize, part: &[u8], len: usize)
    requires { at + len ≤ 8 * length words.old }
    ensures { (memory : ℕ → ℕ) → HoldsBytes words.old memory → HoldsBytes words.new (with_part part.now (RAM_START + at) len memory) }
{
    let head = len.min((8 - at % 8) % 8);
    let count = (len - head) / 8;
    write_bytes(words, at, part, 0, head);
    write_words(words, at, part, head, count);
    write_bytes(words, at, part, head + 8 * count, len);
}

// The bytes of the file that a segment has.
fn file_part<'a>(b: &'a [u8], ram_words: u32, header: &ProgramHeader) -> &'a [u8]
    requires load { is_load header.now ≡ true }
    requires fits { SegmentFits b.now ram_words header.now }
    ensures { result.now ≡ take header.now.p_filesz (drop header.now.p_offset b.now) }
{
    if header.p_filesz == 0 {
        return &[];
    }
    let start = header.p_offset as usize;
    &b[start..start + header.p_filesz as usize]
}

#[tactic(auto, unfolding(crate::specs::Memory::with_segment))]
fn write_segment(words: &mut [u64], b: &[u8], ram_words: u32, header: &ProgramHeader)
    requires count { length words.old ≡ ram_words }
    requires fits { SegmentFits b.now ram_words header.now }
    ensures { (memory : ℕ → ℕ) → HoldsBytes words.old memory → HoldsBytes words.new (with_segment b.now header.now memory) }
{
    if !is_load(header) || header.p_memsz == 0 {
        return;
    }
    let part = file_part(b, ram_words, header);
    write_part(
        words,
        (header.p_paddr - RAM_START) as usize,
        part,
        header.p_memsz as usize,
    );
}

fn load_segments(words: &mut [u64], b: &[u8], ram_words: u32)
    requires count { length words.old ≡ ram_words }
    requires headers { HasHeaders b.now }
    requires segments { SegmentsFit b.now ram_words }
    requires zero { HoldsBytes words.old zero_memory }
    ensures { HoldsBytes words.new (file_memory b.now) }
{
    for k in 0..header_count(b) {
        write_segment(words, b, ram_words, &program_header(b, k));
    }
}

/// Loads the segments in the order of their headers.
pub fn write_segments(words: &mut [u64], b: &[u8], ram_words: u32)
    requires count { length words.old ≡ ram_words }
    requires headers { HasHeaders b.now }
    requires segments { SegmentsFit b.now ram_words }
    requires zero { HoldsBytes words.old zero_memory }
    ensures { words.new ≡ image_words (file_memory b.now) ram_words }
{
    load_segments(words, b, ram_words);
}

/// Loads raw bytes from the start of RAM on.
pub fn write_raw(words: &mut [u64], b: &[u8])
    requires fits { length b.now ≤ 8 * length words.old }
    requires zero { HoldsBytes words.old zero_memory }
    ensures { words.new ≡ image_words (raw_memory b.now) (length words.old) }
{
    write_part(words, 0, b, b.len());
}
