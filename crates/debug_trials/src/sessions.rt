//! Sessions over machines with 1 MiB of RAM, and their replies.

ghost use Rattle.std.specs.Prelude.{◌≡◌, ◌≤◌, IfOk};
ghost use Rattle.fault_script.specs.Fits.{IsScriptFor};
ghost use Rattle.ras_machine.specs.Settings.{ram_words};

use elf_load::Image;
use fault_script::Script;
use ras_bits::{NoMemory, WORDS_PER_MIB};
use ras_debug::Session;
use ras_machine::{Machine, Settings};
use std::alloc::Global;
use std::test::Fail;

const USUAL: Settings = Settings {
    ram_mib: 1,
    harts: 1,
    poll: 1_000,
    patrol: 64,
    budget: 10_000_000,
};

/// The bytes of instruction words, lowest byte first.
fn bytes_of(alloc: Global, words: &[u32]) -> Result<Vec<u8>, NoMemory> {
    let mut bytes = Vec::new(alloc);
    for word in words {
        bytes.extend_from_slice(&word.to_le_bytes())?;
    }
    Ok(bytes)
}

fn machine_of(alloc: Global, program: &[u32], harts: u8) -> Result<Machine, Fail>
    requires some { 1 ≤ harts }
    requires few { harts ≤ 4 }
    ensures { IfOk result (λ m. ram_words m.settings ≡ ram_words USUAL) }
{
    let bytes = bytes_of(alloc, program)?;
    let image = Image::raw(alloc, bytes.as_slice(), WORDS_PER_MIB)?;
    Ok(Machine::make(alloc, &image, &Settings { harts, ..USUAL })?)
}

/// A script for the RAM of these machines. A reader takes texts below 2^32 bytes.
fn script_of(alloc: Global, text: &[u8]) -> Result<Script, Fail>
    ensures { IfOk result (λ s. IsScriptFor (ram_words USUAL) s.lines) }
{
    if text.len() > 4_096 {
        return Err(Fail::new("script"));
    }
    Ok(Script::read(alloc, text, WORDS_PER_MIB)?)
}

/// A session over a machine of so many harts with a program, without input, under a script.
pub(crate) fn session_of(
    alloc: Global,
    program: &[u32],
    harts: u8,
    text: &[u8],
) -> Result<Session, Fail>
    requires some { 1 ≤ harts }
    requires few { harts ≤ 4 }
{
    let machine = machine_of(alloc, program, harts)?;
    let script = script_of(alloc, text)?;
    let session = Session::make(alloc, machine, Vec::new(alloc), Vec::new(alloc), script)?;
    Ok(session)
}

/// The first of these lines whose reply isn't the one beside it.
pub(crate) fn first_unlike<'a>(
    session: &mut Session,
    lines: &[(&'a str, &str)],
) -> Option<&'a str> {
    for (line, reply) in lines {
        let _turn = session.answer(line.as_bytes());
        if session.reply() != reply.as_bytes() {
            return Some(*line);
        }
    }
    None
}
