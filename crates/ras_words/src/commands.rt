//! The words of a command line, of which the first is the command.

ghost use Rattle.std.specs.Prelude.{◌≡◌, ◌≢◌, ◌≤◌, IfOk, IfSome, None, Some, Err, option_map};
ghost use Rattle.clap_words.specs.Table.{texts_of};
ghost use Rattle.ras_bits.specs.declared.map.TheConstants.{LAST_STEP};
ghost use Rattle.ras_words.specs.Run.{poll_in, machine_given, run_given, run_after, compare_after};
ghost use Rattle.ras_words.specs.Run.{debug_given, debug_after};
ghost use Rattle.ras_words.specs.Commands.{command_of, demo_after, plain_number, read_after};
ghost use Rattle.ras_words.specs.Read.{command_in, debug_in, machine_in, run_in, AreInLimits, IsInLimits};

use crate::tables::{
    BUDGET, COMMANDS, COMPARE, DEBUG, DEMO, FILE, HARTS, IMAGE, INPUT, NUMBER, PATROL, POLL,
    RAM_MIB, RAW, READ, RECORDS, RUN, SCHEDULE, SCRIPT, TABLES,
};
use clap_words::{Given, WordsError, read_given};
use ras_numbers::number;
use std::alloc::Global;

/// What a command that runs the machine asks for.
#[derive(Clone, Copy, Debug, PartialEq)]
pub struct MachineWords<'a> {
    /// The name of the image's file.
    pub image: &'a str,
    /// Whether the image is raw bytes and no ELF file: `--raw`.
    pub raw: bool,
    /// The name of the script's file: `--script`.
    pub script: Option<&'a str>,
    /// The name of the input's file: `--input`.
    pub input: Option<&'a str>,
    /// The most steps, at most 1,000,000,000: `--budget`, or 10,000,000.
    pub budget: u64,
    /// The size of RAM in units of 2^20 bytes, 1 to 64: `--ram-mib`, or 16.
    pub ram_mib: u64,
    /// The steps from one drain of the error records to the next, 0 or 2 to 1,000,000,000: `--poll`, or 1,000.
    pub poll: u64,
    /// The steps from one patrol scrub to the next, at most 1,000,000,000: `--patrol`, or 64.
    pub patrol: u64,
    /// How many harts there are, 1 to 4: `--harts`, or 1.
    pub harts: u64,
    /// The name of the schedule's file: `--schedule`.
    pub schedule: Option<&'a str>,
}

/// What `run` asks for.
#[derive(Clone, Copy, Debug, PartialEq)]
pub struct RunWords<'a> {
    /// What is run.
    pub machine: MachineWords<'a>,
    /// The name of the file that the error records are written to: `--records`.
    pub records: Option<&'a str>,
    /// The name of the file that firmware's memory is written to: `--tables`.
    pub tables: Option<&'a str>,
}

/// What `debug` asks for.
#[derive(Clone, Copy, Debug, PartialEq)]
pub struct DebugWords<'a> {
    /// What is run.
    pub machine: MachineWords<'a>,
    /// The name of the file of the debugger's commands.
    pub commands: &'a str,
}

/// What a command line asks for.
#[derive(Clone, Copy, Debug, PartialEq)]
pub enum Command<'a> {
    /// `run`: a run of an image.
    Run(RunWords<'a>),
    /// `compare`: a run of an image beside that of the flat machine.
    Compare(MachineWords<'a>),
    /// `debug`: a debugger's session over the run of an image.
    Debug(DebugWords<'a>),
    /// `read`: the text of a file of error records or of firmware's memory, by the file's name.
    Read(&'a str),
    /// `demo`: the comparison of the demo workload of a number.
    Demo(u64),
}

// The steps from one drain to the next that were given.
fn poll_in(given: &Given<'_>) -> Option<u64>
    ensures poll { result ≡ poll_in given.now }
    ensures most { IfSome result (λ poll. poll ≤ LAST_STEP) }
    ensures other { IfSome result (λ poll. poll ≢ 1) }
{
    let poll = given.number(&POLL)?;
    if poll == 1 { None } else { Some(poll) }
}

// The run of the machine that was given, if each number is one within its limits.
fn machine_in<'a>(given: &Given<'a>) -> Option<MachineWords<'a>>
    ensures machine { option_map machine_in result ≡ machine_given given.now }
    ensures limits { IfSome result IsInLimits }
{
    let image = given.value_of(IMAGE)?;
    let budget = given.number(&BUDGET)?;
    let ram_mib = given.number(&RAM_MIB)?;
    let poll = poll_in(given)?;
    let patrol = given.number(&PATROL)?;
    let harts = given.number(&HARTS)?;
    Some(MachineWords {
        image,
        raw: given.has(RAW.name),
        script: given.value_of(SCRIPT.name),
        input: given.value_of(INPUT.name),
        budget,
        ram_mib,
        poll,
        patrol,
        harts,
        schedule: given.value_of(SCHEDULE.name),
    })
}

// The run that was given.
fn run_in<'a>(given: &Given<'a>) -> Option<RunWords<'a>>
    ensures run { option_map run_in result ≡ run_given given.now }
    ensures limits { IfSome result (λ run. IsInLimits run.machine) }
{
    let machine = machine_in(given)?;
    Some(RunWords {
        machine,
        records: given.value_of(RECORDS.name),
        tables: given.value_of(TABLES.name),
    })
}

// The session that was given.
fn debug_in<'a>(given: &Given<'a>) -> Option<DebugWords<'a>>
    ensures debug { option_map debug_in result ≡ debug_given given.now }
    ensures limits { IfSome result (λ debug. IsInLimits debug.machine) }
{
    let machine = machine_in(given)?;
    let commands = given.value_of(COMMANDS)?;
    Some(DebugWords { machine, commands })
}

// The number that was given as a plain word.
fn plain_number(given: &Given<'_>) -> Option<u64>
    ensures { result ≡ plain_number given.now }
{
    let text = given.value_of(NUMBER)?;
    number(text.as_bytes())
}

// The run that the words after `run` ask for.
fn run_after<'a>(alloc: Global, words: &'a [String]) -> Result<RunWords<'a>, WordsError>
    ensures taken { IfOk result
        (λ run. run_after (texts_of words.entry.now) ≡ Some (run_in run)) }
    ensures limits { IfOk result (λ run. IsInLimits run.machine) }
    ensures refused { result ≡ Err WordsError.Refused
        → run_after (texts_of words.entry.now) ≡ None }
{
    match read_given(alloc, &RUN, words) {
        Ok(given) => run_in(&given).ok_or(WordsError::Refused),
        Err(error) => Err(error),
    }
}

// The run of the machine that the words after `compare` ask for.
fn compare_after<'a>(alloc: Global, words: &'a [String]) -> Result<MachineWords<'a>, WordsError>
    ensures taken { IfOk result
        (λ machine. compare_after (texts_of words.entry.now) ≡ Some (machine_in machine)) }
    ensures limits { IfOk result IsInLimits }
    ensures refused { result ≡ Err WordsError.Refused
        → compare_after (texts_of words.entry.now) ≡ None }
{
    match read_given(alloc, &COMPARE, words) {
        Ok(given) => machine_in(&given).ok_or(WordsError::Refused),
        Err(error) => Err(error),
    }
}

// The session that the words after `debug` ask for.
fn debug_after<'a>(alloc: Global, words: &'a [String]) -> Result<DebugWords<'a>, WordsError>
    ensures taken { IfOk result
        (λ debug. debug_after (texts_of words.entry.now) ≡ Some (debug_in debug)) }
    ensures limits { IfOk result (λ debug. IsInLimits debug.machine) }
    ensures refused { result ≡ Err WordsError.Refused
        → debug_after (texts_of words.entry.now) ≡ None }
{
    match read_given(alloc, &DEBUG, words) {
        Ok(given) => debug_in(&given).ok_or(WordsError::Refused),
        Err(error) => Err(error),
    }
}

// The file that the words after `read` name.
fn read_after<'a>(alloc: Global, words: &'a [String]) -> Result<&'a str, WordsError>
    ensures taken { IfOk result (λ file. read_after (texts_of words.entry.now) ≡ Some file.now) }
    ensures refused { result ≡ Err WordsError.Refused
        → read_after (texts_of words.entry.now) ≡ None }
{
    match read_given(alloc, &READ, words) {
        Ok(given) => given.value_of(FILE).ok_or(WordsError::Refused),
        Err(error) => Err(error),
    }
}

// The number that the words after `demo` give.
fn demo_after(alloc: Global, words: &[String]) -> Result<u64, WordsError>
    ensures taken { IfOk result (λ number. demo_after (texts_of words.now) ≡ Some number) }
    ensures refused { result ≡ Err WordsError.Refused → demo_after (texts_of words.now) ≡ None }
{
    match read_given(alloc, &DEMO, words) {
        Ok(given) => plain_number(&given).ok_or(WordsError::Refused),
        Err(error) => Err(error),
    }
}

/// Reads the words of a command line, without the program's own name: the first is the command,
/// which is `run`, `compare`, `debug`, `read` or `demo`.
///
/// The plain words are an image for `run` and `compare`, an image and the file of commands for
/// `debug`, a file for `read`, and a number for `demo`. A word that begins with `--` names an option by
/// its whole name: for `run`, `compare` and `debug` `--raw`, `--script FILE`, `--input FILE`,
/// `--budget N`, `--ram-mib N`, `--poll N`, `--patrol N`, `--harts N` and `--schedule FILE`, for `run`
/// besides `--records FILE` and `--tables FILE`, and none for the others. The value follows the first
/// `=` in the word, or is the next word, which must not begin with `-` unless it is `-` alone. After
/// the word `--` each word is plain. Options and plain words come in any order. A number is decimal
/// digits, or `0x` and hexadecimal digits, within the limits of its option, or below 2^64 for `demo`.
///
/// Refused: no command or another one; an unknown option; another word that begins with `-` and is
/// longer; an option given twice; a missing or an empty value; a value for `--raw`; a missing,
/// surplus or empty plain word; a number that is none or out of its range.
pub fn read_words<'a>(alloc: Global, words: &'a [String]) -> Result<Command<'a>, WordsError>
    ensures taken { IfOk result
        (λ command. command_of (texts_of words.entry.now) ≡ Some (command_in command)) }
    ensures limits { IfOk result AreInLimits }
    ensures refused { result ≡ Err WordsError.Refused
        → command_of (texts_of words.entry.now) ≡ None }
{
    let Some((command, rest)) = words.split_first() else {
        return Err(WordsError::Refused);
    };
    let name = command.as_str();
    if name == "run" {
        Ok(Command::Run(run_after(alloc, rest)?))
    } else if name == "compare" {
        Ok(Command::Compare(compare_after(alloc, rest)?))
    } else if name == "debug" {
        Ok(Command::Debug(debug_after(alloc, rest)?))
    } else if name == "read" {
        Ok(Command::Read(read_after(alloc, rest)?))
    } else if name == "demo" {
        Ok(Command::Demo(demo_after(alloc, rest)?))
    } else {
        Err(WordsError::Refused)
    }
}
