//! Machines with 1 MiB of RAM, made, stepped and run.

ghost use Rattle.std.specs.Prelude.{◌≡◌, ◌≤◌, length, IfOk};
ghost use Rattle.fault_script.specs.Fits.{IsScriptFor};
ghost use Rattle.ras_machine.specs.Settings.{ram_words};

use elf_load::Image;
use fault_script::Script;
use ras_bits::{NoMemory, WORDS_PER_MIB};
use ras_machine::{Ending, Flat, Machine, Settings};
use std::alloc::Global;
use std::test::Fail;

/// Prints `H` and shuts down: li a0,72; li a7,1; ecall; li a7,8; ecall
pub(crate) const PRINT_H: [u32; 5] = [0x04800513, 0x00100893, 0x00000073, 0x00800893, 0x00000073];

/// A machine of one hart.
pub(crate) const USUAL: Settings = Settings {
    ram_mib: 1,
    harts: 1,
    poll: 1_000,
    patrol: 64,
    budget: 10_000_000,
};

/// The same, which makes no step.
pub(crate) const NO_STEPS: Settings = Settings { budget: 0, ..USUAL };

/// The bytes of instruction words, lowest byte first.
fn bytes_of(alloc: Global, words: &[u32]) -> Result<Vec<u8>, NoMemory> {
    let mut bytes = Vec::new(alloc);
    for word in words {
        bytes.extend_from_slice(&word.to_le_bytes())?;
    }
    Ok(bytes)
}

fn image_of(alloc: Global, program: &[u32]) -> Result<Image, Fail>
    ensures { IfOk result (λ image. length image.words ≡ ram_words USUAL) }
{
    let bytes = bytes_of(alloc, program)?;
    Ok(Image::raw(alloc, bytes.as_slice(), WORDS_PER_MIB)?)
}

/// A flat machine with a program, of so many harts.
pub(crate) fn flat_of(alloc: Global, program: &[u32], harts: u8) -> Result<Flat, Fail>
    requires some { 1 ≤ harts }
    requires few { harts ≤ 4 }
{
    let image = image_of(alloc, program)?;
    Ok(Flat::make(alloc, &image, 10_000_000, harts)?)
}

/// A run of the flat machine without input, in which the harts take turns by a schedule.
pub(crate) fn run_flat(flat: &mut Flat, schedule: &[u8]) -> Ending {
    flat.run_flat(&[], schedule)
}

/// A machine with a program.
pub(crate) fn machine_of(alloc: Global, program: &[u32]) -> Result<Machine, Fail> {
    let image = image_of(alloc, program)?;
    Ok(Machine::make(alloc, &image, &USUAL)?)
}

/// A machine with a program, which makes no step.
pub(crate) fn machine_at_end(alloc: Global, program: &[u32]) -> Result<Machine, Fail> {
    let image = image_of(alloc, program)?;
    Ok(Machine::make(alloc, &image, &NO_STEPS)?)
}

/// How many words the RAM has.
pub(crate) fn words_of(machine: &Machine) -> u32
    ensures { result ≡ ram_words machine.now.settings }
{
    WORDS_PER_MIB * machine.settings().ram_mib
}

/// A script for the machine's RAM.
fn script_for(alloc: Global, machine: &Machine, text: &[u8]) -> Result<Script, Fail>
    ensures { IfOk result (λ s. IsScriptFor (ram_words machine.now.settings) s.lines) }
{
    if text.len() > 4_096 {
        return Err(Fail::new("script"));
    }
    Ok(Script::read(alloc, text, words_of(machine))?)
}

/// One step under a script.
pub(crate) fn step(
    alloc: Global,
    machine: &mut Machine,
    text: &[u8],
) -> Result<Option<Ending>, Fail> {
    let script = script_for(alloc, machine, text)?;
    Ok(machine.step(&[], &[], &script))
}

/// A run under a script.
pub(crate) fn run(alloc: Global, machine: &mut Machine, text: &[u8]) -> Result<Ending, Fail> {
    let script = script_for(alloc, machine, text)?;
    Ok(machine.run(&[], &[], &script))
}
