//! Random scripts.

ghost use Rattle.std.specs.Prelude.{◌<◌};

use ras_bits::NoMemory;
use std::alloc::Global;

/// A number by the number before it, which looks random (xorshift).
fn random_after(before: u64) -> u64 {
    let a = before ^ (before << 13);
    let b = a ^ (a >> 7);
    b ^ (b << 17)
}

/// A digit of a hexadecimal number, from the lowest on.
fn digit(number: u64, place: u32) -> u8
    requires { place < 8 }
{
    let digit = (number >> (4 * place)) % 16;
    if digit < 10 {
        b'0' + digit as u8
    } else {
        b'A' + (digit as u8 - 10)
    }
}

/// A word of a script's line, and a number of eight hexadecimal digits.
fn push(text: &mut Vec<u8>, word: &[u8], number: u64) -> Result<(), NoMemory> {
    text.extend_from_slice(word)?;
    text.extend_from_slice(b" 0x")?;
    for k in 0..8u32 {
        text.push(digit(number, 7 - k))?;
    }
    Ok(())
}

/// A flip of a word in one of the steps 1,000 to 2,499. Answers the last random number.
fn push_flip(text: &mut Vec<u8>, address: u64, random: u64) -> Result<u64, NoMemory> {
    let step = random_after(random);
    let bit = random_after(step);
    push(text, b"flip", 1_000 + (step >> 8) % 1_500)?;
    push(text, b"", address)?;
    push(text, b"", (bit >> 8) % 72)?;
    text.push(b'\n')?;
    Ok(bit)
}

/// Two flips of one of four words from 0x80010000 on. Answers the last random number.
fn push_flips(text: &mut Vec<u8>, random: u64) -> Result<u64, NoMemory> {
    let word = random_after(random);
    let address = 0x8001_0000 + 64 * 127 * ((word >> 8) % 4);
    let first = push_flip(text, address, word)?;
    push_flip(text, address, first)
}

/// An injection of an error of some class into a record of bank 0 or 1, in one of the steps up to 2,499.
fn push_injection(text: &mut Vec<u8>, random: u64) -> Result<(), NoMemory> {
    let step = random_after(random);
    let place = random_after(step);
    let delay = random_after(place);
    let class: &[u8] = match (place >> 16) % 3 {
        0 => b" ce",
        1 => b" ued",
        _ => b" uec",
    };
    push(text, b"inject", (step >> 8) % 2_500)?;
    push(text, b"", (place >> 8) % 2)?;
    push(text, b"", (place >> 12) % 2)?;
    push(text, class, 1 + (delay >> 8) % 90)?;
    text.extend_from_slice(b" 0x80010000\n")?;
    Ok(())
}

/// Two flips of each of two words and an injection.
pub(crate) fn faults_of(alloc: Global, seed: u64) -> Result<Vec<u8>, NoMemory> {
    let mut text = Vec::new(alloc);
    let random = push_flips(&mut text, random_after(seed ^ 0x2545_F491_4F6C_DD1D))?;
    let random = push_flips(&mut text, random)?;
    push_injection(&mut text, random)?;
    Ok(text)
}
