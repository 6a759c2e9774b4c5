//! Machines with 1 MiB of RAM, and their runs.

ghost use Rattle.std.specs.Prelude.{◌≡◌, ◌≤◌, length, IfOk};
ghost use Rattle.ras_machine.specs.Settings.{IsInRange, ram_words};

use elf_load::Image;
use fault_script::Script;
use ras_bits::{NoMemory, WORDS_PER_MIB};
use ras_machine::{Ending, Flat, Machine, Settings};
use std::alloc::Global;
use std::test::Fail;

/// More steps than the programs make.
pub(crate) const BUDGET: u64 = 6_000;

/// The settings of a machine of one hart.
pub(crate) const ONE: Settings = Settings {
    ram_mib: 1,
    harts: 1,
    poll: 100,
    patrol: 64,
    budget: BUDGET,
};

/// The settings of a machine of two harts.
pub(crate) const TWO: Settings = Settings { harts: 2, ..ONE };

/// A program's image.
pub(crate) fn image_of(alloc: Global, program: &[u32]) -> Result<Image, Fail>
    ensures { IfOk result (λ image. length image.words ≡ ram_words ONE) }
{
    let mut bytes = Vec::new(alloc);
    for word in program {
        bytes.extend_from_slice(&word.to_le_bytes())?;
    }
    Ok(Image::raw(alloc, bytes.as_slice(), WORDS_PER_MIB)?)
}

/// The flat machine of an image with such a budget, after its run.
pub(crate) fn flat_after(
    alloc: Global,
    image: &Image,
    budget: u64,
    harts: u8,
    schedule: &[u8],
) -> Result<(Flat, Ending), NoMemory>
    requires some { 1 ≤ harts }
    requires few { harts ≤ 4 }
{
    let mut flat = Flat::make(alloc, image, budget, harts)?;
    let ending = flat.run_flat(&[], schedule);
    Ok((flat, ending))
}

/// How many harts there are.
#[derive(Clone, Copy)]
pub(crate) enum Harts {
    One,
    Two,
}

fn settings_of(harts: Harts) -> Settings
    ensures range { IsInRange result }
    ensures ram { ram_words result ≡ ram_words ONE }
{
    match harts {
        Harts::One => ONE,
        Harts::Two => TWO,
    }
}

/// The machine of an image with so many harts, after its run under a script.
pub(crate) fn machine_after(
    alloc: Global,
    image: &Image,
    harts: Harts,
    schedule: &[u8],
    text: &[u8],
) -> Result<(Machine, Ending), Fail>
    requires { length image.now.words ≡ ram_words ONE }
{
    if text.len() > 4_096 {
        return Err(Fail::new("script"));
    }
    let settings = settings_of(harts);
    let script = Script::read(alloc, text, WORDS_PER_MIB * settings.ram_mib)?;
    let mut machine = Machine::make(alloc, image, &settings)?;
    let ending = machine.run(&[], schedule, &script);
    Ok((machine, ending))
}
