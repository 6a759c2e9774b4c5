//! The image and the script of a number.

ghost use Rattle.std.specs.Prelude.{◌≡◌, ◌+◌, ◌++◌, ◌*◌, ◌<◌, decimal, OnOk, IfOk};
ghost use Rattle.ras_gen.specs.Demo.{demo_image, demo_line, demo_script, state_after, flip_text};

use crate::draws::Draws;
use itoa::Buffer;
use ras_bits::{NoMemory, word_address};
use std::alloc::{AllocError, Global};

/// How many lines the script has.
pub const FLIPS: u64 = 64;

/// The steps in which bits are flipped are below this one: the program makes some more.
pub const STEPS: u64 = 28_000;

/// The first word that the program sweeps, at 0x80010000.
pub const FIRST_WORD: u32 = 0x2000;

/// How many words the program sweeps: twice the second cache.
pub const WORDS: u64 = 4_096;

/// How many bits a codeword has.
pub const BITS: u64 = 72;

const PROGRAM: [u32; 19] = [
    0x0001_0417, // auipc s0,0x10        the first word
    0x0000_84B7, // lui s1,0x8
    0x0084_84B3, // add s1,s1,s0         behind the last word
    0x0004_0293, // addi t0,s0,0
    0x0052_B023, // sd t0,0(t0)          each word gets its address
    0x0082_8293, // addi t0,t0,8
    0xFE92_9CE3, // bne t0,s1,-8
    0x0004_0293, // addi t0,s0,0
    0x0000_0313, // addi t1,zero,0
    0x0002_B383, // ld t2,0(t0)          all words are added
    0x0073_0333, // add t1,t1,t2
    0x0082_8293, // addi t0,t0,8
    0xFE92_9AE3, // bne t0,s1,-12
    0x00F3_7513, // andi a0,t1,15
    0x0415_0513, // addi a0,a0,65        a letter from A on
    0x0010_0893, // addi a7,zero,1
    0x0000_0073, // ecall
    0x0080_0893, // addi a7,zero,8
    0x0000_0073, // ecall
];

#[tactic(auto, unfolding(crate::specs::Demo::demo_image))]
fn image(alloc: Global) -> Result<Vec<u8>, AllocError>
    ensures { IfOk result (λ v. v.items ≡ demo_image) }
{
    let mut bytes = Vec::new(alloc);
    for word in PROGRAM {
        bytes.extend_from_slice(&word.to_le_bytes())?;
    }
    Ok(bytes)
}

fn push_number(out: &mut Vec<u8>, n: u64) -> Result<(), AllocError>
    ensures { OnOk result (out.new.items ≡ out.old.items ++ decimal n) }
{
    let mut buffer = Buffer::new();
    out.extend_from_slice(buffer.format(n).as_bytes())
}

fn push_flip(out: &mut Vec<u8>, step: u64, w: u32, bit: u64) -> Result<(), AllocError>
    ensures { OnOk result (out.new.items ≡ out.old.items ++ flip_text step w bit) }
{
    out.extend_from_slice(b"flip ")?;
    push_number(out, step)?;
    out.extend_from_slice(b" ")?;
    out.extend_from_slice(&ras_numbers::address(word_address(w)))?;
    out.extend_from_slice(b" ")?;
    push_number(out, bit)?;
    out.extend_from_slice(b"\n")
}

/// The image and the script of the workload of a number: raw bytes, and a text of 64 flips.
///
/// The program stores its own address into each of 4,096 words, which is twice the second cache, adds them up, prints
/// one letter and shuts down. The number is the seed of the flips. `NoMemory` comes for want of memory alone.
pub fn workload(alloc: Global, n: u64) -> Result<(Vec<u8>, Vec<u8>), NoMemory>
    ensures image { IfOk result (λ w. w.0.items ≡ demo_image) }
    ensures script { IfOk result (λ w. w.1.items ≡ demo_script n) }
{
    let image = image(alloc)?;
    let script = script(alloc, n)?;
    Ok((image, script))
}

#[tactic(auto, unfolding(crate::specs::Demo::demo_lines, crate::specs::Demo::demo_line, crate::specs::Demo::state_after))]
fn script(alloc: Global, n: u64) -> Result<Vec<u8>, NoMemory>
    ensures { IfOk result (λ v. v.items ≡ demo_script n) }
{
    let mut out = Vec::new(alloc);
    let mut draws = Draws { state: n };
    for line in 0..FLIPS {
        let step = draws.draw() % STEPS;
        let w = FIRST_WORD + (draws.draw() % WORDS) as u32;
        let bit = draws.draw() % BITS;
        push_flip(&mut out, step, w, bit)?;
    }
    Ok(out)
}
