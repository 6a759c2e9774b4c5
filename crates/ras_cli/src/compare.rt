//! Comparisons: the run of an image under a script, beside that of the flat machine.

ghost use Rattle.std.specs.Prelude.{◌≡◌, ◌≢◌, ◌≤◌, List, IfOk, IfErr, IfSome, OnOk, OnErr, length};
ghost use Rattle.fault_script.specs.Fits.{IsScriptFor};
ghost use Rattle.fault_script.specs.Steps.{InRisingSteps};
ghost use Rattle.fault_script.specs.declared.lines.ScriptLine.{ScriptLine};
ghost use Rattle.ras_host.specs.Causes.{Rose};
ghost use Rattle.ras_host.specs.Told.{Performs};
ghost use Rattle.ras_machine.specs.Flat.{flat_of};
ghost use Rattle.ras_machine.specs.Machine.{faulty_run, ending_in};
ghost use Rattle.ras_machine.specs.Settings.{IsInRange, ram_words};
ghost use Rattle.ras_machine.specs.Ways.{EndsBy, KeepsToFlat};
ghost use Rattle.ras_cli.specs.Inputs.{given_in};
ghost use Rattle.ras_cli.specs.Both.{demo_in, planned_in, request_in, AreComparable};
ghost use Rattle.ras_cli.specs.Comparison.{ComparisonEnds};
ghost use Rattle.ras_cli.specs.Demonstrates.{Demonstrates};
ghost use Rattle.ras_cli.specs.declared.status.Exit.TheVariants as exits;
ghost use Rattle.ras_cli.specs.Status.{code_of, IsDone};
ghost use Rattle.ras_cli.specs.Plan.{carried_out};
ghost use Rattle.ras_cli.specs.ComparePlan.{compared, comparison_pieces, comparison_plan, verdict_exit};
ghost use Rattle.ras_cli.specs.Reaches.{ReachesInputs, Stops};
ghost use Rattle.ras_cli.specs.Follows.{Cuts, Follows, RunEnds};

use crate::demo::{demo_inputs, demo_machine};
use crate::inputs::{Inputs, read_inputs};
use crate::settings::settings_of;
use crate::status::{Exit, Status};
use crate::writes::end_written;
use ras_bits::NoMemory;
use ras_host::{Host, HostFault};
use ras_machine::{Flat, Machine, Settings};
use ras_report::{Report, Verdict, flat_report, report, verdict, verdict_line};
use ras_words::MachineWords;
use std::alloc::Global;

/// What a comparison leaves: the machine with its console, both reports, and the verdict.
#[derive(Drop)]
pub struct Comparison {
    pub machine: Machine,
    pub report: Report,
    pub flat_report: Report,
    pub verdict: Verdict,
}

// How the program ends with a verdict.
fn exit_of(verdict: Verdict) -> Exit
    ensures exit { result ≡ verdict_exit verdict }
    ensures done { IsDone (code_of result) }
{
    match verdict {
        Verdict::Same => Exit::Ended,
        Verdict::Uncorrected => Exit::StoppedAtError,
        Verdict::Silent => Exit::Silent,
    }
}

// Runs both machines on what was read. All memory is taken before the runs. `NoMemory` comes for
// want of memory alone.
fn run_both(alloc: Global, inputs: &Inputs, settings: &Settings) -> Result<Comparison, NoMemory>
    requires range { IsInRange settings.now }
    requires ram { length inputs.now.image.words ≡ ram_words settings.now }
    requires script { IsScriptFor (ram_words settings.now) inputs.now.script.lines }
    ensures planned { IfOk result
        (λ both. (lines : List ScriptLine) → InRisingSteps lines inputs.now.script.lines
        → planned_in both ≡ compared settings.now (record {
          image = inputs.now.image;
          lines = lines;
          given = given_in inputs.now;
        })) }
    ensures keeps { IfOk result
        (λ both. (lines : List ScriptLine) → InRisingSteps lines inputs.now.script.lines
        → let faulty = faulty_run inputs.now.image settings.now (given_in inputs.now) lines in
        KeepsToFlat faulty.state.beyond lines
        (EndsBy (given_in inputs.now)
        (flat_of inputs.now.image settings.now) lines (ending_in faulty) faulty.state)) }
{
    let mut flat = Flat::make(alloc, &inputs.image, settings.budget, settings.harts)?;
    let Ok(mut machine) = Machine::make(alloc, &inputs.image, settings) else {
        // By a call: a drop in place has this proof go through each part of a machine.
        drop(flat);
        return Err(NoMemory);
    };
    let mut text = Report::new();
    let mut flat_text = Report::new();
    let input = inputs.input.as_slice();
    let schedule = inputs.schedule.as_slice();
    let ending = machine.run(input, schedule, &inputs.script);
    let flat_ending = flat.run_flat(input, schedule);
    report(&machine, &ending, &mut text);
    flat_report(&flat, &flat_ending, &mut flat_text);
    let verdict = verdict(&machine, &ending, &flat, &flat_ending);
    drop(flat);
    Ok(Comparison {
        machine,
        report: text,
        flat_report: flat_text,
        verdict,
    })
}

// Writes the pieces of a comparison, each by one call of the host.
fn write_pieces<H: Host>(
    host: &mut H,
    console: &[u8],
    report: &[u8],
    flat_report: &[u8],
    line: &[u8],
) -> Result<(), HostFault>
    ensures made { OnOk result (Performs (H.told host.old) (H.told host.new)
        (comparison_pieces console.now report.now flat_report.now line.now)) }
    ensures cut { OnErr result (Cuts (H.told host.old) (H.told host.new)
        (comparison_pieces console.now report.now flat_report.now line.now)) }
    ensures later { H.faults host.old ≤ H.faults host.new }
    ensures failed { OnErr result (Rose (H.faults host.old) (H.faults host.new)) }
{
    host.out(console)?;
    host.err(report)?;
    host.err(flat_report)?;
    host.err(line)
}

// Writes what a comparison leaves, after which the program ends by its verdict.
fn write_comparison<H: Host>(host: &mut H, both: &Comparison) -> Status
    ensures follows { Follows (H.told host.old) (H.told host.new)
        (planned_in both.now) result.code }
    ensures ends { RunEnds (H.told host.old) (H.told host.new) (H.faults host.old)
        (H.faults host.new) result.code }
{
    let written = write_pieces(
        host,
        both.machine.console(),
        both.report.as_slice(),
        both.flat_report.as_slice(),
        verdict_line(both.verdict),
    );
    end_written(written, exit_of(both.verdict))
}

// Runs both machines on what was read, and writes what comes of it.
fn compare_inputs<H: Host>(
    alloc: Global,
    inputs: &Inputs,
    settings: &Settings,
    host: &mut H,
) -> Status
    requires range { IsInRange settings.now }
    requires ram { length inputs.now.image.words ≡ ram_words settings.now }
    requires script { IsScriptFor (ram_words settings.now) inputs.now.script.lines }
    ensures follows { (lines : List ScriptLine) → InRisingSteps lines inputs.now.script.lines
        → Follows (H.told host.old) (H.told host.new)
        (compared settings.now (record {
          image = inputs.now.image;
          lines = lines;
          given = given_in inputs.now;
        })) result.code }
    ensures keeps { (lines : List ScriptLine) → InRisingSteps lines inputs.now.script.lines
        → result.code ≢ code_of exits.NoMemory
        → let faulty = faulty_run inputs.now.image settings.now (given_in inputs.now) lines in
        KeepsToFlat faulty.state.beyond lines
        (EndsBy (given_in inputs.now)
        (flat_of inputs.now.image settings.now) lines (ending_in faulty) faulty.state) }
    ensures ends { RunEnds (H.told host.old) (H.told host.new) (H.faults host.old)
        (H.faults host.new) result.code }
{
    match run_both(alloc, inputs, settings) {
        Ok(both) => {
            let status = write_comparison(host, &both);
            // By a call: a drop in place has this proof go through each part of a machine.
            drop(both);
            status
        }
        Err(_) => Exit::NoMemory.status(),
    }
}

/// What is compared.
#[derive(Clone, Copy)]
pub enum Compared<'a> {
    /// The image and the files that words name, under their options.
    Files(MachineWords<'a>),
    /// The demo workload of a number.
    Demo(u64),
}

// The settings of both machines.
fn request_settings(what: Compared<'_>) -> Settings
    requires { AreComparable what }
    ensures settings { result ≡ (request_in what.entry).settings }
    ensures range { IsInRange result }
{
    match what {
        Compared::Files(run) => settings_of(run),
        Compared::Demo(_) => settings_of(demo_machine()),
    }
}

// Comes by what both machines run.
fn request_inputs<H: Host>(
    alloc: Global,
    what: Compared<'_>,
    host: &mut H,
) -> Result<Inputs, Status>
    requires { AreComparable what }
    ensures reached { IfOk result (λ inputs.
        ReachesInputs (request_in what.entry).inputs (H.told host.old) (H.told host.new)
        inputs.image inputs.script.lines (given_in inputs)) }
    ensures room { IfOk result (λ inputs.
        length inputs.image.words ≡ ram_words (request_in what.entry).settings) }
    ensures script { IfOk result (λ inputs.
        IsScriptFor (ram_words (request_in what.entry).settings) inputs.script.lines) }
    ensures stopped { IfErr result (λ status.
        Stops (request_in what.entry).inputs (H.told host.old) (H.told host.new)
        (H.faults host.old) (H.faults host.new) status.code) }
    ensures later { H.faults host.old ≤ H.faults host.new }
{
    match what {
        Compared::Files(run) => read_inputs(alloc, run, host),
        Compared::Demo(number) => demo_inputs(alloc, number, host),
    }
}

/// Comes by what both machines run, runs them, and writes what comes of it.
pub fn compare_command<H: Host>(alloc: Global, what: Compared<'_>, host: &mut H) -> Status
    requires { AreComparable what }
    ensures follows { IfSome (H.told host.old).files
        (λ files. Follows (H.told host.old) (H.told host.new)
        (carried_out (comparison_plan (request_in what.entry)) files) result.code) }
    ensures comparison { IfSome (H.told host.old).files
        (λ files. ComparisonEnds files (request_in what.entry) (H.told host.old) (H.told host.new)
        result.code) }
    ensures demo { IfSome (demo_in what.entry)
        (λ number. Demonstrates number (H.told host.old) (H.told host.new) result.code) }
    ensures ends { RunEnds (H.told host.old) (H.told host.new) (H.faults host.old)
        (H.faults host.new) result.code }
{
    match request_inputs(alloc, what, host) {
        Ok(inputs) => compare_inputs(alloc, &inputs, &request_settings(what), host),
        Err(status) => status,
    }
}
