//! The command `debug`: a session over the machine, with commands out of a file.

ghost use Rattle.std.specs.Prelude.{◌≡◌, ◌≤◌, List, IfOk, IfSome, OnOk, OnErr, length};
ghost use Rattle.fault_script.specs.Fits.{IsScriptFor};
ghost use Rattle.fault_script.specs.Steps.{InRisingSteps};
ghost use Rattle.fault_script.specs.declared.lines.ScriptLine.{ScriptLine};
ghost use Rattle.ras_debug.specs.Session.{session_of};
ghost use Rattle.ras_host.specs.Causes.{Rose};
ghost use Rattle.ras_machine.specs.Machine.{machine_made};
ghost use Rattle.ras_machine.specs.Settings.{IsInRange, ram_words};
ghost use Rattle.ras_words.specs.Read.{debug_in, IsInLimits};
ghost use Rattle.ras_cli.specs.Plan.{carried_out};
ghost use Rattle.ras_cli.specs.DebugPlan.{debug_plan, debugged, session_pieces};
ghost use Rattle.ras_cli.specs.Inputs.{given_in};
ghost use Rattle.ras_cli.specs.Behind.{CutsBehind, FollowsBehind, PerformsBehind};
ghost use Rattle.ras_cli.specs.Follows.{Follows, RunEnds};

use crate::files::FileKind;
use crate::inputs::{Inputs, read_file, read_inputs};
use crate::settings::settings_of;
use crate::status::{Exit, Status};
use crate::writes::end_written;
use fault_script::cut_line;
use ras_bits::NoMemory;
use ras_debug::{Session, Turn};
use ras_host::{Host, HostFault};
use ras_machine::{Machine, Settings};
use ras_words::DebugWords;
use std::alloc::Global;

// A session over the machine of what was read. All memory of a session is taken here. `NoMemory`
// comes for want of memory alone.
fn open_session(alloc: Global, inputs: Inputs, settings: &Settings) -> Result<Session, NoMemory>
    requires range { IsInRange settings.now }
    requires ram { length inputs.image.words ≡ ram_words settings.now }
    requires script { IsScriptFor (ram_words settings.now) inputs.script.lines }
    ensures { IfOk result (λ session. session ≡
        session_of (machine_made inputs.image settings.now) (given_in inputs) inputs.script.lines) }
{
    let Inputs {
        image,
        script,
        input,
        schedule,
    } = inputs;
    let machine = Machine::make(alloc, &image, settings)?;
    Session::make(alloc, machine, input, schedule, script)
}

// Writes the replies of a session to the lines of a text, each by one call of the host, up to the
// one to the line that ends it.
fn write_replies<H: Host>(host: &mut H, session: &mut Session, text: &[u8]) -> Result<(), HostFault>
    ensures made { OnOk result (PerformsBehind (H.told host.old) (H.told host.new)
        (session_pieces text.now session.old)) }
    ensures cut { OnErr result (CutsBehind (H.told host.old) (H.told host.new)
        (session_pieces text.now session.old)) }
    ensures later { H.faults host.old ≤ H.faults host.new }
    ensures failed { OnErr result (Rose (H.faults host.old) (H.faults host.new)) }
{
    let mut rest = text;
    while !rest.is_empty() {
        let (line, behind) = cut_line(rest);
        let turn = session.answer(line);
        host.out(session.reply())?;
        match turn {
            Turn::More => rest = behind,
            Turn::Quit => return Ok(()),
        }
    }
    Ok(())
}

// Answers the lines of a text by a session over the machine of what was read.
fn debug_inputs<H: Host>(
    alloc: Global,
    inputs: Inputs,
    settings: &Settings,
    text: &[u8],
    host: &mut H,
) -> Status
    requires range { IsInRange settings.now }
    requires ram { length inputs.image.words ≡ ram_words settings.now }
    requires script { IsScriptFor (ram_words settings.now) inputs.script.lines }
    ensures follows { (lines : List ScriptLine) → InRisingSteps lines inputs.script.lines
        → FollowsBehind (H.told host.old) (H.told host.new)
        (debugged settings.now (record {
          image = inputs.image;
          lines = lines;
          given = given_in inputs;
        }) text.now) result.code }
    ensures ends { RunEnds (H.told host.old) (H.told host.new) (H.faults host.old)
        (H.faults host.new) result.code }
{
    match open_session(alloc, inputs, settings) {
        Ok(mut session) => {
            let written = write_replies(host, &mut session, text);
            // By a call: a drop in place has this proof go through each part of a machine.
            drop(session);
            end_written(written, Exit::Ended)
        }
        Err(_) => Exit::NoMemory.status(),
    }
}

/// Reads what a run needs and then the commands, and writes the replies to their lines.
pub fn debug_command<H: Host>(alloc: Global, debug: DebugWords<'_>, host: &mut H) -> Status
    requires { IsInLimits debug.machine }
    ensures follows { IfSome (H.told host.old).files
        (λ files. Follows (H.told host.old) (H.told host.new)
        (carried_out (debug_plan (debug_in debug.entry)) files) result.code) }
    ensures ends { RunEnds (H.told host.old) (H.told host.new) (H.faults host.old)
        (H.faults host.new) result.code }
{
    let inputs = match read_inputs(alloc, debug.machine, host) {
        Ok(inputs) => inputs,
        Err(status) => return status,
    };
    match read_file(alloc, FileKind::Commands, debug.commands, host) {
        Ok(text) => {
            let settings = settings_of(debug.machine);
            debug_inputs(alloc, inputs, &settings, text.as_slice(), host)
        }
        Err(status) => {
            // By a call: a drop in place has this proof go through each part of what was read.
            drop(inputs);
            status
        }
    }
}
