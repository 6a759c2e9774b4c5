//! Runs of a machine with 1 MiB of RAM, and what they leave.

ghost use Rattle.std.specs.Prelude.{◌≡◌, ◌<◌, ◌^◌, length, IfSome};
ghost use Rattle.fault_script.specs.Fits.{IsScriptFor};
ghost use Rattle.ras_machine.specs.Settings.{IsInRange, ram_words};

use elf_load::Image;
use fault_script::Script;
use poison_mem::{Class, RecordView};
use ras_bits::{LAST_STEP, NoMemory, WORDS_PER_MIB};
use ras_machine::{Ending, MOST_HARTS, Machine, Settings, Stop};
use reri_bank::{CONTROL, STATUS};
use std::alloc::Global;
use std::test::Fail;

/// The settings of a machine for which nothing else is said, with 1 MiB of RAM.
pub(crate) const USUAL: Settings = Settings {
    ram_mib: 1,
    harts: 1,
    poll: 1_000,
    patrol: 64,
    budget: 10_000_000,
};

/// Prints `H` and shuts down: li a0,72; li a7,1; ecall; li a7,8; ecall
pub(crate) const PRINT_H: [u32; 5] = [0x04800513, 0x00100893, 0x00000073, 0x00800893, 0x00000073];

/// What a record shows: its bank and its number there, how many errors were corrected, whether corrected, deferred and
/// critical ones came, whether several of the worst class did, and the address that it keeps.
#[derive(Clone, Copy, PartialEq, Eq)]
pub(crate) struct Shown {
    pub(crate) bank: u8,
    pub(crate) rec: u8,
    pub(crate) corrected: u16,
    pub(crate) classes: (bool, bool, bool),
    pub(crate) several: bool,
    pub(crate) address: u64,
}

/// A word of memory was corrected.
pub(crate) const CORRECTED: Shown = Shown {
    bank: 0,
    rec: 0,
    corrected: 1,
    classes: (true, false, false),
    several: false,
    address: 0x8000_0000,
};

/// A word of memory was found bad.
pub(crate) const BAD: Shown = Shown {
    corrected: 0,
    classes: (false, true, false),
    ..CORRECTED
};

/// A hart consumed a word.
pub(crate) const CONSUMED: Shown = Shown {
    bank: 2,
    corrected: 0,
    classes: (false, false, true),
    ..CORRECTED
};

/// How a hart is left: started, at this pc, with these values in a0 and a7.
#[derive(Clone, Copy, PartialEq, Eq)]
pub(crate) struct Left {
    pub(crate) pc: u64,
    pub(crate) a0: u64,
    pub(crate) a7: u64,
}

/// A run of a program, with words of 8 bytes at offsets in RAM behind it, under a script and a schedule: how it stops, after
/// how many steps, what it prints, the records that it leaves and how many of them the polled block shows, info and pc of the
/// consumption that the harts' record keeps, the status register of record 0 of bank 0 where it is said, and the first harts.
#[derive(Clone, Copy)]
pub(crate) struct Run<'a> {
    pub(crate) program: &'a [u32],
    pub(crate) far: &'a [(usize, u64)],
    pub(crate) script: &'a [u8],
    pub(crate) schedule: &'a [u8],
    pub(crate) settings: Settings,
    pub(crate) stop: Stop,
    pub(crate) steps: u64,
    pub(crate) console: &'a [u8],
    pub(crate) records: &'a [Shown],
    pub(crate) polled: usize,
    pub(crate) consumption: Option<(u64, u64)>,
    pub(crate) status: Option<u64>,
    pub(crate) harts: &'a [Left],
}

/// A program that prints `H` and shuts down, without a script.
pub(crate) const PRINTS_H: Run = Run {
    program: &PRINT_H,
    far: &[],
    script: b"",
    schedule: &[],
    settings: USUAL,
    stop: Stop::Shutdown(0),
    steps: 5,
    console: b"H",
    records: &[],
    polled: 0,
    consumption: None,
    status: None,
    harts: &[],
};

/// What of a run isn't as it says.
#[derive(Clone, Copy, Debug, PartialEq, Eq)]
pub(crate) enum Unlike {
    Ending(Ending),
    Console,
    Records,
    Polled,
    Consumption,
    Status,
    Harts,
}

/// A machine after a run, and how it ended.
#[derive(Drop)]
struct Ran {
    machine: Machine,
    ending: Ending,
}

/// The bytes of instruction words, lowest byte first.
fn bytes_of(alloc: Global, words: &[u32]) -> Result<Vec<u8>, NoMemory> {
    let mut bytes = Vec::new(alloc);
    for word in words {
        bytes.extend_from_slice(&word.to_le_bytes())?;
    }
    Ok(bytes)
}

/// Zeros up to an offset of RAM, and a word behind them.
fn push_far(bytes: &mut Vec<u8>, offset: usize, word: u64) -> Result<(), NoMemory> {
    for _ in bytes.len()..offset {
        bytes.push(0)?;
    }
    bytes.extend_from_slice(&word.to_le_bytes())?;
    Ok(())
}

/// The bytes of a run's image.
fn image_bytes(alloc: Global, run: &Run) -> Result<Vec<u8>, NoMemory> {
    let mut bytes = bytes_of(alloc, run.program)?;
    for (offset, word) in run.far {
        push_far(&mut bytes, *offset, *word)?;
    }
    Ok(bytes)
}

/// Those settings, where they are in range.
fn in_range(s: &Settings) -> Option<Settings>
    ensures { IfSome result (λ settings. IsInRange settings) }
{
    let some = s.ram_mib == 1 && s.harts > 0 && s.poll != 1;
    let few = s.harts <= MOST_HARTS && s.budget <= LAST_STEP;
    if some && few && s.poll <= LAST_STEP && s.patrol <= LAST_STEP {
        Some(*s)
    } else {
        None
    }
}

fn run_made(
    alloc: Global,
    image: &Image,
    script: &Script,
    schedule: &[u8],
    settings: &Settings,
) -> Result<Ran, NoMemory>
    requires range { IsInRange settings.now }
    requires ram { length image.now.words ≡ ram_words settings.now }
    requires script { IsScriptFor (ram_words settings.now) script.now.lines }
{
    let mut machine = Machine::make(alloc, image, settings)?;
    let ending = machine.run(&[], schedule, script);
    Ok(Ran { machine, ending })
}

/// The machine after such a run.
fn run_anew(alloc: Global, run: &Run) -> Result<Ran, Fail> {
    let Some(settings) = in_range(&run.settings) else {
        return Err(Fail::new("settings"));
    };
    if run.script.len() > 4096 {
        return Err(Fail::new("script"));
    }
    let words = WORDS_PER_MIB * settings.ram_mib;
    let script = Script::read(alloc, run.script, words)?;
    let bytes = image_bytes(alloc, run)?;
    let image = Image::raw(alloc, bytes.as_slice(), words)?;
    Ok(run_made(alloc, &image, &script, run.schedule, &settings)?)
}

fn shown_by(v: &RecordView) -> Shown {
    Shown {
        bank: v.kept.bank,
        rec: v.kept.rec,
        corrected: v.cec,
        classes: (v.ce, v.ued, v.uec),
        several: v.mo,
        address: v.kept.addr,
    }
}

fn are_shown(views: &[RecordView], want: &[Shown]) -> bool {
    for (k, v) in views.iter().enumerate() {
        if want.get(k).copied() != Some(shown_by(v)) {
            return false;
        }
    }
    views.len() == want.len()
}

/// Info and pc of the consumption that the harts' record keeps.
fn consumption_in(machine: &Machine) -> Option<(u64, u64)> {
    match machine.banks().bank(2).kept(0) {
        Some(v) => {
            if v.kept.class == Class::Critical {
                Some((v.kept.info, v.kept.suppl))
            } else {
                None
            }
        }
        None => None,
    }
}

/// The status register is as it is said, where it is said.
fn has_status(machine: &Machine, status: Option<u64>) -> bool {
    status.is_none() || machine.banks().bank(0).read_reg(CONTROL + STATUS) == status
}

/// How hart `i` is left, where it is there and started.
fn left_of(machine: &Machine, i: u8) -> Option<Left> {
    if i >= machine.settings().harts || !machine.hart(i).started() {
        return None;
    }
    let hart = machine.hart(i);
    Some(Left {
        pc: hart.pc(),
        a0: hart.x(10),
        a7: hart.x(17),
    })
}

/// The first harts are left so.
fn are_left(machine: &Machine, want: &[Left]) -> bool {
    let mut i = 0u8;
    for left in want {
        if left_of(machine, i) != Some(*left) {
            return false;
        }
        i = i.saturating_add(1);
    }
    true
}

/// What of banks and harts first isn't as the run says.
fn first_unlike_within(machine: &Machine, run: &Run) -> Option<Unlike> {
    if consumption_in(machine) != run.consumption {
        Some(Unlike::Consumption)
    } else if !has_status(machine, run.status) {
        Some(Unlike::Status)
    } else if !are_left(machine, run.harts) {
        Some(Unlike::Harts)
    } else {
        None
    }
}

/// What first isn't as the run says.
fn first_unlike(ran: &Ran, run: &Run) -> Option<Unlike> {
    let machine = &ran.machine;
    if ran.ending.stop != run.stop || ran.ending.steps != run.steps {
        Some(Unlike::Ending(ran.ending))
    } else if machine.console() != run.console {
        Some(Unlike::Console)
    } else if !are_shown(machine.records().list(), run.records) {
        Some(Unlike::Records)
    } else if machine.firm().polled().len() != run.polled {
        Some(Unlike::Polled)
    } else {
        first_unlike_within(machine, run)
    }
}

fn unlike_run(alloc: Global, run: &Run) -> Result<Option<Unlike>, Fail> {
    Ok(first_unlike(&run_anew(alloc, run)?, run))
}

/// The number of the first run that isn't as it says, and what isn't.
pub(crate) fn first_unlike_of(
    alloc: Global,
    runs: &[Run],
) -> Result<Option<(usize, Unlike)>, Fail> {
    for (k, run) in runs.iter().enumerate() {
        match unlike_run(alloc, run)? {
            Some(unlike) => return Ok(Some((k, unlike))),
            None => {}
        }
    }
    Ok(None)
}
