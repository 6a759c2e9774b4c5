//! The top call of the program.

ghost use Rattle.std.specs.Prelude.{◌≡◌, ◌≢◌, ◌≤◌, ◌⊎◌, List, None, [], ◌∷◌, length, IfSome};
ghost use Rattle.fault_script.specs.Fits.{IsScriptFor};
ghost use Rattle.fault_script.specs.Steps.{InRisingSteps};
ghost use Rattle.fault_script.specs.declared.lines.ScriptLine.{ScriptLine};
ghost use Rattle.ras_host.specs.Causes.{Rose};
ghost use Rattle.ras_host.specs.Told.{Performs, Err};
ghost use Rattle.ras_machine.specs.Flat.{flat_of};
ghost use Rattle.ras_machine.specs.Machine.{faulty_run, ending_in};
ghost use Rattle.ras_machine.specs.Settings.{IsInRange, ram_words};
ghost use Rattle.ras_machine.specs.Ways.{EndsBy, KeepsToFlat};
ghost use Rattle.ras_words.specs.Commands.{asked_run, command_of, run_of};
ghost use Rattle.ras_words.specs.Read.{texts_of, command_in, run_in, AreInLimits, IsInLimits};
ghost use Rattle.ras_cli.specs.Inputs.{given_in};
ghost use Rattle.ras_cli.specs.declared.status.Exit.TheVariants.{Usage, Refused, HostFailed, NoMemory, Silent};
ghost use Rattle.ras_cli.specs.Status.{code_of};
ghost use Rattle.ras_cli.specs.Refusals.{usage};
ghost use Rattle.ras_cli.specs.Plan.{carried_out, run_plan, results_of};
ghost use Rattle.ras_cli.specs.Plans.{asked_comparison, command_plan, comparison_of, planned_by};
ghost use Rattle.ras_cli.specs.Follows.{Follows, MakesFront, OnlyReads, WritesLine, RunEnds};
ghost use Rattle.ras_cli.specs.Complete.{Completes};
ghost use Rattle.ras_cli.specs.Headline.{Headline};
ghost use Rattle.ras_cli.specs.Comparison.{ComparisonEnds};
ghost use Rattle.ras_cli.specs.Demonstrates.{asked_demo, demo_of, Demonstrates};

use crate::compare::{Compared, compare_command};
use crate::debugging::debug_command;
use crate::inputs::{Inputs, read_inputs};
use crate::machine::run_machine;
use crate::printing::print_command;
use crate::refusals::USAGE;
use crate::settings::settings_of;
use crate::status::{Exit, Status};
use crate::writes::{Outputs, write_last, write_results};
use ras_host::Host;
use ras_machine::Settings;
use ras_report::{FileBuf, records_file};
use ras_words::{Command, RunWords, WordsError, read_words};
use std::alloc::Global;

// Runs what was read, and writes what comes of it. All memory is taken before the run.
fn run_inputs<H: Host>(
    alloc: Global,
    run: RunWords<'_>,
    inputs: &Inputs,
    settings: &Settings,
    host: &mut H,
) -> Status
    requires range { IsInRange settings.now }
    requires ram { length inputs.now.image.words ≡ ram_words settings.now }
    requires script { IsScriptFor (ram_words settings.now) inputs.now.script.lines }
    requires harts { settings.now.harts ≡ run.machine.harts }
    ensures follows { (lines : List ScriptLine) → InRisingSteps lines inputs.now.script.lines
        → Follows (H.told host.old) (H.told host.new)
        (results_of (run_in run.entry)
        (faulty_run inputs.now.image settings.now
        (given_in inputs.now) lines)) result.code }
    ensures keeps { (lines : List ScriptLine) → InRisingSteps lines inputs.now.script.lines
        → result.code ≢ code_of NoMemory
        → let faulty = faulty_run inputs.now.image settings.now
        (given_in inputs.now) lines in
        KeepsToFlat faulty.state.beyond lines
        (EndsBy (given_in inputs.now)
        (flat_of inputs.now.image settings.now) lines (ending_in faulty) faulty.state) }
    ensures ends { RunEnds (H.told host.old) (H.told host.new) (H.faults host.old)
        (H.faults host.new) result.code }
{
    let Ok(mut file) = FileBuf::make(alloc) else {
        return Exit::NoMemory.status();
    };
    let Ok(results) = run_machine(alloc, inputs, settings) else {
        return Exit::NoMemory.status();
    };
    let outputs = Outputs {
        console: results.machine.console(),
        records: records_file(results.machine.records(), &mut file),
        tables: results.machine.firm().bytes(),
        report: results.report.as_slice(),
    };
    let status = write_results(host, run, results.exit, &outputs);
    // By a call: a drop in place has this proof go through each part of a machine.
    drop(results);
    status
}

// Reads what a run needs, runs it, and writes what comes of it.
fn run_command<H: Host>(alloc: Global, run: RunWords<'_>, host: &mut H) -> Status
    requires { IsInLimits run.machine }
    ensures follows { IfSome (H.told host.old).files
        (λ files. Follows (H.told host.old) (H.told host.new)
        (carried_out (run_plan (run_in run.entry)) files) result.code) }
    ensures headline { IfSome (H.told host.old).files
        (λ files.
        Headline files (run_in run.entry) (H.told host.old) (H.told host.new) result.code) }
    ensures ends { RunEnds (H.told host.old) (H.told host.new) (H.faults host.old)
        (H.faults host.new) result.code }
{
    match read_inputs(alloc, run.machine, host) {
        Ok(inputs) => run_inputs(alloc, run, &inputs, &settings_of(run.machine), host),
        Err(status) => status,
    }
}

// Does what a command asks for.
fn carry_out<H: Host>(alloc: Global, command: Command<'_>, host: &mut H) -> Status
    requires { AreInLimits command }
    ensures follows { IfSome (H.told host.old).files
        (λ files. Follows (H.told host.old) (H.told host.new)
        (carried_out (command_plan (command_in command.entry)) files) result.code) }
    ensures headline { IfSome (H.told host.old).files
        (λ files. IfSome (asked_run (command_in command.entry))
        (λ run. Headline files run (H.told host.old) (H.told host.new) result.code)) }
    ensures comparison { IfSome (H.told host.old).files
        (λ files. IfSome (asked_comparison (command_in command.entry))
        (λ request. ComparisonEnds files request (H.told host.old) (H.told host.new)
        result.code)) }
    ensures demo { IfSome (asked_demo (command_in command.entry))
        (λ number. Demonstrates number (H.told host.old) (H.told host.new) result.code) }
    ensures ends { RunEnds (H.told host.old) (H.told host.new) (H.faults host.old)
        (H.faults host.new) result.code }
{
    match command {
        Command::Run(run) => run_command(alloc, run, host),
        Command::Compare(run) => compare_command(alloc, Compared::Files(run), host),
        Command::Debug(debug) => debug_command(alloc, debug, host),
        Command::Read(file) => print_command(alloc, file, host),
        Command::Demo(number) => compare_command(alloc, Compared::Demo(number), host),
    }
}

/// Runs the program on the words after its name, over a host. The first word is the command.
///
/// - `run IMAGE` reads the image, the script, the input and the schedule in this order; without
///   `--script`, `--input` or `--schedule` that one is empty. It runs the image, and then writes
///   the console to standard output, the file of its error records, that of firmware's memory, and
///   its report to standard error. A file is made only where an option names it; where both options
///   name one file, the later one stands.
/// - `compare IMAGE` reads the same and runs the flat machine beside. It writes the console of the
///   run to standard output, and to standard error its report, that of the flat machine and the
///   verdict.
/// - `debug IMAGE COMMANDS` reads the same as `run` and then the commands. It makes a debugger's
///   session over the machine, and writes the reply to each line of the commands to standard
///   output, up to the empty one to `quit` or to their end.
/// - `demo NUMBER` is `compare --raw` with the image and the script of the workload of that number
///   and the default of each option. It reads nothing.
/// - `read FILE` writes the text of a file of error records, or of firmware's memory, to standard
///   output.
///
/// Each of these pieces is written by one call of the host, also where it is empty.
///
/// | status | when |
/// |---|---|
/// | 0 | all was written: of `run` the run stopped at no error, of `compare` and `demo` besides the verdict is `same`, of `debug` each line up to `quit` was answered, of `read` the file is printed |
/// | 1 | the words are not of this form, and the usage line was written |
/// | 2 | a file is longer than its limit, or the image, the script or the file of `read` is refused, and a line that says so was written |
/// | 3 | a call of the host failed; after it nothing is written |
/// | 4 | want of memory; nothing was written |
/// | 5 | of `run`, `compare` and `demo` the run stopped at a poisoned word or at an injected critical error, and all was written; the verdict is `uncorrected` |
/// | 6 | the verdict of `compare` or `demo` is `silent`: the run stopped at no error, and its console, its stop, its steps, its harts or the place in the input are not those of the flat machine; all was written |
///
/// The limits of files are those of `ras_words`: `IMAGE_LIMIT`, `SCRIPT_LIMIT`, `INPUT_LIMIT`,
/// `SCHEDULE_LIMIT`, `COMMANDS_LIMIT` and `PRINTED_LIMIT` bytes.
pub fn ras_main<H: Host>(alloc: Global, words: &[String], host: &mut H) -> Status
    ensures codes { result.code ≤ code_of Silent }

    // The status of refused words comes exactly where they ask for no command and the usage line
    // was written.
    ensures usage { result.code ≡ code_of Usage → (command_of (texts_of words.now) ≡ None)
        × Performs (H.told host.old) (H.told host.new) (Err usage ∷ []) }
    ensures refused { command_of (texts_of words.now) ≡ None → (result.code ≡ code_of Usage)
        ⊎ ((result.code ≡ code_of HostFailed) ⊎ (result.code ≡ code_of NoMemory)) }

    // Over a host that tells its files: the status and all that is written, by the plan; and the
    // calls that are made.
    ensures follows { IfSome (H.told host.old).files
        (λ files.
        Follows (H.told host.old) (H.told host.new)
        (planned_by (texts_of words.now) files) result.code) }
    ensures calls { IfSome (H.told host.old).files
        (λ files.
        MakesFront (H.told host.old) (H.told host.new) (planned_by (texts_of words.now) files)) }

    // There, a command whose files are accepted writes all of its outputs.
    ensures complete { IfSome (H.told host.old).files
        (λ files. IfSome (command_of (texts_of words.now)) (λ command. Completes files
        (command_plan command) (H.told host.old) (H.told host.new) result.code)) }

    // There, a run under faults ends as the flat machine's does, or it stops at a word that was
    // flipped twice or at a critical error that was injected.
    ensures headline { IfSome (H.told host.old).files (λ files. IfSome (run_of (texts_of words.now))
        (λ run. Headline files run (H.told host.old) (H.told host.new) result.code)) }

    // There, a comparison says that damage reached the program unseen only past a third flip.
    ensures comparison { IfSome (H.told host.old).files
        (λ files. IfSome (comparison_of (texts_of words.now))
        (λ request. ComparisonEnds files request (H.told host.old) (H.told host.new)
        result.code)) }

    // Over any host, the image and the script of the demo of any number are accepted: its outputs
    // are whole, and it ends as a comparison.
    ensures demo { IfSome (demo_of (texts_of words.now))
        (λ number. Demonstrates number (H.told host.old) (H.told host.new) result.code) }

    // Refused words or a refused file: one line was written, to standard error.
    ensures line { (result.code ≡ code_of Usage) ⊎ (result.code ≡ code_of Refused)
        → WritesLine (H.told host.old) (H.told host.new) }

    // Want of memory: nothing was written.
    ensures unwritten { result.code ≡ code_of NoMemory
        → OnlyReads (H.told host.old) (H.told host.new) }

    // The status of a failed call of the host comes only where a fault of it was counted.
    ensures later { H.faults host.old ≤ H.faults host.new }
    ensures cause { result.code ≡ code_of HostFailed
        → Rose (H.faults host.old) (H.faults host.new) }
{
    match read_words(alloc, words) {
        Ok(command) => carry_out(alloc, command, host),
        Err(WordsError::Refused) => write_last(host, Exit::Usage, USAGE),
        Err(WordsError::NoMemory) => Exit::NoMemory.status(),
    }
}
