//! What a run reads: its image, its script, its input and its schedule.

ghost use Rattle.std.specs.Prelude.{◌≡◌, ◌≤◌, ◌<◌, ◌^◌, Ok, option_map, length, IfOk, IfErr};
ghost use Rattle.std.specs.Prelude.{Result, Err as Error};
ghost use Rattle.elf_load.specs.declared.refusals.ElfRefused.{ElfRefused};
ghost use Rattle.elf_load.specs.Program.{Program, image_of, AnswersOrNoMemory};
ghost use Rattle.fault_script.specs.Fits.{IsScriptFor};
ghost use Rattle.ras_words.specs.Read.{machine_in, IsInLimits};
ghost use Rattle.ras_cli.specs.Inputs.{given_in};
ghost use Rattle.ras_cli.specs.Files.{limit_of};
ghost use Rattle.ras_cli.specs.Plan.{accepted_image, run_ram_words, file_plan, named_plan, image_in, image_plan};
ghost use Rattle.ras_cli.specs.Plan.{inputs_plan, script_in, script_plan};
ghost use Rattle.ras_cli.specs.Reaches.{Reaches, ReachesInputs, ReachesScript, Stops};

use crate::files::FileKind;
use crate::refusals::{image_refused, script_refused, too_long};
use crate::settings::run_ram_words;
use crate::status::{Exit, Status};
use crate::writes::refuse;
use elf_load::{ElfRefused, Image};
use fault_script::{Script, ScriptError};
use ras_host::{Got, Host, HostError};
use ras_words::MachineWords;
use std::alloc::Global;

/// What a run has read.
#[derive(Drop)]
pub struct Inputs {
    pub image: Image,
    pub script: Script,
    pub input: Vec<u8>,
    pub schedule: Vec<u8>,
}

/// Reads a file, which is refused by a line where it is longer than its limit.
pub fn read_file<H: Host>(
    alloc: Global,
    file: FileKind,
    name: &str,
    host: &mut H,
) -> Result<Vec<u8>, Status>
    ensures reached { IfOk result (λ bytes.
        Reaches (file_plan file name.now) (H.told host.old) (H.told host.new) bytes.items) }
    ensures fits { IfOk result (λ bytes. length bytes.items ≤ limit_of file) }
    ensures stopped { IfErr result (λ status.
        Stops (file_plan file name.now) (H.told host.old) (H.told host.new)
        (H.faults host.old) (H.faults host.new) status.code) }
    ensures later { H.faults host.old ≤ H.faults host.new }
{
    match host.read(alloc, name, file.limit()) {
        Ok(Got::Whole(bytes)) => Ok(bytes),
        Ok(Got::Longer) => Err(refuse(host, too_long(file).as_slice())),
        Err(HostError::Failed) => Err(Exit::HostFailed.status()),
        Err(HostError::NoMemory) => Err(Exit::NoMemory.status()),
    }
}

// Reads a file that an option names; without the option it is empty.
#[tactic(auto, using(crate::proofs::ReadsLemmas::unnamed_read))]
fn read_named<H: Host>(
    alloc: Global,
    file: FileKind,
    name: Option<&str>,
    host: &mut H,
) -> Result<Vec<u8>, Status>
    ensures reached { IfOk result (λ bytes.
        Reaches (named_plan file (option_map (λ n. n.now) name.entry))
        (H.told host.old) (H.told host.new) bytes.items) }
    ensures fits { IfOk result (λ bytes. length bytes.items ≤ limit_of file) }
    ensures stopped { IfErr result (λ status.
        Stops (named_plan file (option_map (λ n. n.now) name.entry))
        (H.told host.old) (H.told host.new) (H.faults host.old) (H.faults host.new) status.code) }
    ensures later { H.faults host.old ≤ H.faults host.new }
{
    match name {
        Some(name) => read_file(alloc, file, name, host),
        None => Ok(Vec::new(alloc)),
    }
}

// The image that bytes are.
fn image_in(alloc: Global, run: MachineWords<'_>, bytes: &[u8]) -> Result<Image, ElfRefused>
    requires { IsInLimits run }
    ensures image { AnswersOrNoMemory
        (image_of run.entry.raw bytes.now (run_ram_words (machine_in run.entry))) result }
    ensures room { IfOk result
        (λ image. length image.words ≡ run_ram_words (machine_in run.entry)) }
{
    if run.raw {
        Image::raw(alloc, bytes, run_ram_words(run))
    } else {
        Image::read(alloc, bytes, run_ram_words(run))
    }
}

// Writes the line for an image that is refused.
fn refuse_image<H: Host>(refusal: ElfRefused, host: &mut H) -> Status
    ensures stopped { (image : Result Program ElfRefused) → AnswersOrNoMemory image (Error refusal)
        → Stops (accepted_image image) (H.told host.old) (H.told host.new)
        (H.faults host.old) (H.faults host.new) result.code }
    ensures later { H.faults host.old ≤ H.faults host.new }
{
    match refusal {
        ElfRefused::NoMemory => Exit::NoMemory.status(),
        _ => refuse(host, image_refused(refusal).as_slice()),
    }
}

/// The image that bytes are, which is refused by a line.
pub fn accept_image<H: Host>(
    alloc: Global,
    run: MachineWords<'_>,
    bytes: &[u8],
    host: &mut H,
) -> Result<Image, Status>
    requires { IsInLimits run }
    ensures reached { IfOk result (λ image.
        Reaches (image_in (machine_in run.entry) bytes.now) (H.told host.old)
        (H.told host.new) image) }
    ensures room { IfOk result
        (λ image. length image.words ≡ run_ram_words (machine_in run.entry)) }
    ensures stopped { IfErr result (λ status.
        Stops (image_in (machine_in run.entry) bytes.now) (H.told host.old) (H.told host.new)
        (H.faults host.old) (H.faults host.new) status.code) }
    ensures later { H.faults host.old ≤ H.faults host.new }
{
    match image_in(alloc, run, bytes) {
        Ok(image) => Ok(image),
        Err(refusal) => Err(refuse_image(refusal, host)),
    }
}

// Reads the image of a run.
fn read_image<H: Host>(alloc: Global, run: MachineWords<'_>, host: &mut H) -> Result<Image, Status>
    requires { IsInLimits run }
    ensures reached { IfOk result (λ image.
        Reaches (image_plan (machine_in run.entry)) (H.told host.old) (H.told host.new) image) }
    ensures room { IfOk result
        (λ image. length image.words ≡ run_ram_words (machine_in run.entry)) }
    ensures stopped { IfErr result (λ status.
        Stops (image_plan (machine_in run.entry)) (H.told host.old) (H.told host.new)
        (H.faults host.old) (H.faults host.new) status.code) }
    ensures later { H.faults host.old ≤ H.faults host.new }
{
    match read_file(alloc, FileKind::Image, run.image, host) {
        Ok(bytes) => accept_image(alloc, run, bytes.as_slice(), host),
        Err(status) => Err(status),
    }
}

/// The script that a text is, which is refused by a line.
pub fn accept_script<H: Host>(
    alloc: Global,
    run: MachineWords<'_>,
    text: &[u8],
    host: &mut H,
) -> Result<Script, Status>
    requires limits { IsInLimits run }
    requires text { length text.now < 2 ^ 32 }
    ensures reached { IfOk result (λ script.
        ReachesScript (script_in (machine_in run.entry) text.now) (H.told host.old)
        (H.told host.new) script.lines) }
    ensures script { IfOk result
        (λ script. IsScriptFor (run_ram_words (machine_in run.entry)) script.lines) }
    ensures stopped { IfErr result (λ status.
        Stops (script_in (machine_in run.entry) text.now) (H.told host.old) (H.told host.new)
        (H.faults host.old) (H.faults host.new) status.code) }
    ensures later { H.faults host.old ≤ H.faults host.new }
{
    match Script::read(alloc, text, run_ram_words(run)) {
        Ok(script) => Ok(script),
        Err(ScriptError::NoMemory) => Err(Exit::NoMemory.status()),
        Err(ScriptError::Refused { line, why }) => {
            Err(refuse(host, script_refused(line, why).as_slice()))
        }
    }
}

// Reads the script of a run.
fn read_script<H: Host>(
    alloc: Global,
    run: MachineWords<'_>,
    host: &mut H,
) -> Result<Script, Status>
    requires { IsInLimits run }
    ensures reached { IfOk result (λ script.
        ReachesScript (script_plan (machine_in run.entry)) (H.told host.old)
        (H.told host.new) script.lines) }
    ensures script { IfOk result
        (λ script. IsScriptFor (run_ram_words (machine_in run.entry)) script.lines) }
    ensures stopped { IfErr result (λ status.
        Stops (script_plan (machine_in run.entry)) (H.told host.old) (H.told host.new)
        (H.faults host.old) (H.faults host.new) status.code) }
    ensures later { H.faults host.old ≤ H.faults host.new }
{
    match read_named(alloc, FileKind::Script, run.script, host) {
        Ok(text) => accept_script(alloc, run, text.as_slice(), host),
        Err(status) => Err(status),
    }
}

/// Reads the image, the script, the input and the schedule of a run, in this order. The first that
/// is longer than its limit, or is refused, has its line written, and the run ends with the status
/// that is answered.
pub fn read_inputs<H: Host>(
    alloc: Global,
    run: MachineWords<'_>,
    host: &mut H,
) -> Result<Inputs, Status>
    requires { IsInLimits run }
    ensures reached { IfOk result (λ inputs.
        ReachesInputs (inputs_plan (machine_in run.entry)) (H.told host.old) (H.told host.new)
        inputs.image inputs.script.lines
        (given_in inputs)) }
    ensures room { IfOk result (λ inputs.
        length inputs.image.words ≡ run_ram_words (machine_in run.entry)) }
    ensures script { IfOk result (λ inputs.
        IsScriptFor (run_ram_words (machine_in run.entry)) inputs.script.lines) }
    ensures stopped { IfErr result (λ status.
        Stops (inputs_plan (machine_in run.entry)) (H.told host.old) (H.told host.new)
        (H.faults host.old) (H.faults host.new) status.code) }
    ensures later { H.faults host.old ≤ H.faults host.new }
{
    let image = read_image(alloc, run, host)?;
    let script = read_script(alloc, run, host)?;
    let input = read_named(alloc, FileKind::Input, run.input, host)?;
    let schedule = read_named(alloc, FileKind::Schedule, run.schedule, host)?;
    Ok(Inputs {
        image,
        script,
        input,
        schedule,
    })
}
