//! The run of an image under a script.

ghost use Rattle.std.specs.Prelude.{◌≡◌, IfOk, List, length};
ghost use Rattle.fault_script.specs.Fits.{IsScriptFor};
ghost use Rattle.fault_script.specs.Steps.{InRisingSteps};
ghost use Rattle.fault_script.specs.declared.lines.ScriptLine.{ScriptLine};
ghost use Rattle.ras_machine.specs.Flat.{flat_of};
ghost use Rattle.ras_machine.specs.Machine.{faulty_run, ending_in};
ghost use Rattle.ras_machine.specs.Settings.{IsInRange, ram_words};
ghost use Rattle.ras_machine.specs.Ways.{EndsBy, KeepsToFlat};
ghost use Rattle.ras_report.specs.Reports.{report_of};
ghost use Rattle.ras_cli.specs.Inputs.{given_in};
ghost use Rattle.ras_cli.specs.Status.{code_of, IsDone};
ghost use Rattle.ras_cli.specs.Plan.{exit_of};

use crate::inputs::Inputs;
use crate::status::Exit;
use ras_bits::NoMemory;
use ras_machine::{Machine, Settings, Stop};
use ras_report::{Report, report};
use std::alloc::Global;

/// What a run leaves: the machine with its console, records and firmware's memory, how the program
/// is to end, and the report.
#[derive(Drop)]
pub struct Results {
    pub machine: Machine,
    pub exit: Exit,
    pub report: Report,
}

// How the program ends where a run stopped so.
fn exit_of(stop: Stop) -> Exit
    ensures exit { result ≡ exit_of stop }
    ensures done { IsDone (code_of result) }
{
    match stop {
        Stop::Shutdown(_) => Exit::Ended,
        Stop::Reboot(_) => Exit::Ended,
        Stop::Budget => Exit::Ended,
        Stop::ConsoleFull => Exit::Ended,
        Stop::Consumed { .. } => Exit::StoppedAtError,
        Stop::Injected { .. } => Exit::StoppedAtError,
    }
}

/// Runs an image under a script. All memory is taken before the run. `NoMemory` comes for want of
/// memory alone.
pub fn run_machine(alloc: Global, inputs: &Inputs, settings: &Settings) -> Result<Results, NoMemory>
    requires range { IsInRange settings.now }
    requires ram { length inputs.now.image.words ≡ ram_words settings.now }
    requires script { IsScriptFor (ram_words settings.now) inputs.now.script.lines }
    // It is the run of the image under the script as it was read.
    ensures ran { IfOk result
        (λ results. (lines : List ScriptLine) → InRisingSteps lines inputs.now.script.lines
        → results.machine ≡ faulty_run inputs.now.image settings.now
        (given_in inputs.now) lines) }
    ensures exit { IfOk result
        (λ results. results.exit ≡ exit_of (ending_in results.machine).stop) }
    ensures done { IfOk result (λ results. IsDone (code_of results.exit)) }
    ensures report { IfOk result (λ results. let m = results.machine.state in
        results.report.items
        ≡ report_of (ending_in results.machine) m.firmware.records m.beyond
        m.shared.harts settings.now.harts) }
    ensures keeps { IfOk result
        (λ results. (lines : List ScriptLine) → InRisingSteps lines inputs.now.script.lines
        → let faulty = faulty_run inputs.now.image settings.now
        (given_in inputs.now) lines in
        KeepsToFlat faulty.state.beyond lines
        (EndsBy (given_in inputs.now)
        (flat_of inputs.now.image settings.now) lines (ending_in faulty) faulty.state)) }
{
    let mut machine = Machine::make(alloc, &inputs.image, settings)?;
    let mut text = Report::new();
    let ending = machine.run(
        inputs.input.as_slice(),
        inputs.schedule.as_slice(),
        &inputs.script,
    );
    report(&machine, &ending, &mut text);
    Ok(Results {
        machine,
        exit: exit_of(ending.stop),
        report: text,
    })
}
