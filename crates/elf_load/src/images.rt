//! An image: the words of RAM and where they are entered.

ghost use Rattle.std.specs.Prelude.{◌≡◌, ◌<◌, ◌%◌, ◌^◌, true, false, length, IfOk};
ghost use Rattle.elf_load.specs.Program.{image_of, AnswersOrNoMemory};

use crate::headers::entry_address;
use crate::memory::{write_raw, write_segments};
use crate::refusals::ElfRefused;
use crate::rules::keep_all;
use ras_bits::RAM_START;
use std::alloc::Global;
use std::marker::Model;

/// A program as it lies in RAM before the first step.
#[derive(Drop)]
pub struct Image {
    words: Vec<u64>,
    entry: u64,
}

impl Model for Image {
    ghost use Rattle.std.specs.Prelude.{◌≡◌, ◌<◌, ◌%◌, ◌^◌, length};
    ghost use Rattle.elf_load.specs.Program.{Program};

    ghost Value = { Program };

    ghost view = { λ i. record { words = i.words.items; entry = i.entry } };

    ghost invariant = { λ i. (i.entry % 4 ≡ 0) × (length i.words.items < 2 ^ 32) };
}

impl Image {
    /// The image that an ELF-64 file is, for a RAM of `ram_words` words of 8 bytes: RAM is
    /// zero, and then each load header in order writes its `p_filesz` bytes of the file and
    /// zeros up to `p_memsz` from the physical address `p_paddr` on. It is entered at `e_entry`.
    ///
    /// A refusal is the first rule of `ElfRefused` that the file breaks; `NoMemory` is want of memory.
    #[tactic(auto, unfolding(crate::specs::Program::image_of), using(crate::proofs::WordLemmas::file_refused))]
    pub fn read(alloc: Global, b: &[u8], ram_words: u32) -> Result<Image, ElfRefused>
        ensures image { AnswersOrNoMemory (image_of false b.now ram_words) result }
        ensures room { IfOk result (λ image. length image.words ≡ ram_words) }
    {
        keep_all(b, ram_words)?;
        let mut words = vec![in alloc; 0u64; ram_words as usize]?;
        write_segments(&mut words, b, ram_words);
        Ok(Image {
            words,
            entry: entry_address(b),
        })
    }

    /// The image of raw bytes: they lie from the start of RAM on, with zeros behind them, and are entered
    /// there.
    ///
    /// `Outside(0)` exactly where they are longer than a RAM of `ram_words` words of 8 bytes;
    /// `NoMemory` is want of memory.
    #[tactic(auto, unfolding(crate::specs::Program::image_of))]
    pub fn raw(alloc: Global, b: &[u8], ram_words: u32) -> Result<Image, ElfRefused>
        ensures image { AnswersOrNoMemory (image_of true b.now ram_words) result }
        ensures room { IfOk result (λ image. length image.words ≡ ram_words) }
    {
        if b.len() as u64 > 8 * u64::from(ram_words) {
            return Err(ElfRefused::Outside(0));
        }
        let mut words = vec![in alloc; 0u64; ram_words as usize]?;
        write_raw(&mut words, b);
        Ok(Image {
            words,
            entry: RAM_START,
        })
    }

    /// The words of RAM, from its start on, fewer than 2^32.
    pub fn words(&self) -> &[u64]
        ensures words { result.now ≡ self.now.words }
        ensures room { length result.now < 2 ^ 32 }
    {
        &self.words
    }

    /// The physical address at which the program is entered, a multiple of 4.
    pub fn entry(&self) -> u64
        ensures entry { result ≡ self.now.entry }
        ensures aligned { result % 4 ≡ 0 }
    {
        self.entry
    }
}
