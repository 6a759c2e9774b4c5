//! Instructions that were decoded lately, so that a loop's words are decoded once.

ghost use Rattle.std.specs.Prelude.{◌≡◌};
ghost use Rattle.rv64_decode.specs.Decoding.{row};
ghost use Rattle.rv64_decode.specs.Encoding.{OperandsInRange};

use ras_bits::NoMemory;
use rv64_decode::{Instr, decode};
use std::alloc::Global;
use std::marker::Model;

/// How many words are kept: those of 4 KiB of code.
const MOST_DECODED: usize = 1024;

/// A word and its instruction.
#[derive(Drop)]
pub(crate) struct DecodedWord {
    word: u32,
    instr: Instr,
}

impl Model for DecodedWord {
    ghost use Rattle.std.specs.Prelude.{◌≡◌};
    ghost use Rattle.rv64_decode.specs.Decoding.{row};
    ghost use Rattle.rv64_decode.specs.Encoding.{OperandsInRange};

    ghost Value = { Unit {0} };

    ghost view = { λ d. record {} };

    ghost invariant = { λ d. (d.instr ≡ row d.word) × OperandsInRange d.instr };
}

/// As many words as are kept, all 0 at first. `NoMemory` comes for want of memory alone.
pub(crate) fn decoded_words(alloc: Global) -> Result<Vec<DecodedWord>, NoMemory> {
    let mut words = Vec::with_capacity(alloc, MOST_DECODED)?;
    for _ in 0..MOST_DECODED {
        words.push(DecodedWord {
            word: 0,
            instr: decode(0),
        })?;
    }
    Ok(words)
}

/// The instruction of a word, which was fetched at this pc. It is kept in the place of the pc, where there is room.
#[inline]
pub(crate) fn instruction_of(decoded: &mut [DecodedWord], pc: u64, word: u32) -> Instr
    ensures exact { result ≡ row word }
    ensures in_range { OperandsInRange result }
{
    let at = (pc / 4) as usize % MOST_DECODED;
    if at >= decoded.len() {
        return decode(word);
    }
    let kept = &mut decoded[at];
    if kept.word == word {
        return kept.instr;
    }
    let instr = decode(word);
    *kept = DecodedWord { word, instr };
    instr
}
