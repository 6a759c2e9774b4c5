//! What the program writes at its end.

ghost use Rattle.std.specs.Prelude.{◌≡◌, ◌≢◌, ◌≤◌, ℕ, List, option_map, OnOk, OnErr};
ghost use Rattle.ras_host.specs.Causes.{Rose};
ghost use Rattle.ras_host.specs.Told.{HostAction, Outside, Performs};
ghost use Rattle.ras_words.specs.Read.{run_in};
ghost use Rattle.ras_cli.specs.declared.status.Exit.TheVariants.{Refused, HostFailed, NoMemory};
ghost use Rattle.ras_cli.specs.Status.{code_of, IsDone, IsOrFailed, IsRefusal};
ghost use Rattle.ras_cli.specs.Plan.{line_written, named_file};
ghost use Rattle.ras_cli.specs.Writes.{pieces_in};
ghost use Rattle.ras_cli.specs.Reaches.{Made};
ghost use Rattle.ras_cli.specs.Follows.{Cuts, Follows, RunEnds};

use crate::status::{Exit, Status};
use ras_host::{Host, HostFault};
use ras_words::RunWords;

/// Writes a last line to standard error, after which the program ends so.
pub fn write_last<H: Host>(host: &mut H, exit: Exit, line: &[u8]) -> Status
    requires failed { code_of exit ≢ code_of HostFailed }
    requires memory { code_of exit ≢ code_of NoMemory }
    ensures follows { Follows (H.told host.old) (H.told host.new)
        (line_written exit line.now) result.code }
    ensures code { IsOrFailed exit result.code }
    ensures later { H.faults host.old ≤ H.faults host.new }
    ensures cause { result.code ≡ code_of HostFailed
        → Rose (H.faults host.old) (H.faults host.new) }
{
    match host.err(line) {
        Ok(()) => exit.status(),
        Err(_) => Exit::HostFailed.status(),
    }
}

/// Writes the line that says why a run is refused, after which it ends so.
pub fn refuse<H: Host>(host: &mut H, line: &[u8]) -> Status
    ensures follows { Follows (H.told host.old) (H.told host.new)
        (line_written Refused line.now) result.code }
    ensures refusal { IsRefusal result.code }
    ensures ends { RunEnds (H.told host.old) (H.told host.new)
        (H.faults host.old) (H.faults host.new) result.code }
    ensures later { H.faults host.old ≤ H.faults host.new }
{
    write_last(host, Exit::Refused, line)
}

/// Ends the program after its outputs were written, or a call of the host failed at one.
pub fn end_written(written: Result<(), HostFault>, exit: Exit) -> Status
    requires { IsDone (code_of exit) }
    ensures follows { (before after : Outside) (actions : List HostAction)
        → OnOk written (Performs before after actions) → OnErr written (Cuts before after actions)
        → Follows before after (record {
          code = code_of exit;
          actions = actions;
        }) result.code }
    ensures ends { (before after : Outside) (faults now : ℕ) → faults ≤ now
        → OnErr written (Rose faults now) → RunEnds before after faults now result.code }
{
    match written {
        Ok(()) => exit.status(),
        Err(_) => Exit::HostFailed.status(),
    }
}

/// The bytes that a run writes.
#[derive(Clone, Copy)]
pub struct Outputs<'a> {
    pub console: &'a [u8],
    pub records: &'a [u8],
    pub tables: &'a [u8],
    pub report: &'a [u8],
}

// Makes a file where an option names it.
fn create_named<H: Host>(host: &mut H, name: Option<&str>, bytes: &[u8]) -> Result<(), HostFault>
    ensures made { OnOk result (Made (H.told host.old) (H.told host.new)
        (named_file (option_map (λ n. n.now) name.entry) bytes.now)) }
    ensures cut { OnErr result (Cuts (H.told host.old) (H.told host.new)
        (named_file (option_map (λ n. n.now) name.entry) bytes.now)) }
    ensures later { H.faults host.old ≤ H.faults host.new }
    ensures failed { OnErr result (Rose (H.faults host.old) (H.faults host.new)) }
{
    match name {
        Some(name) => host.create(name, bytes),
        None => Ok(()),
    }
}

// Writes the outputs of a run, each by one call of the host.
fn write_pieces<H: Host>(
    host: &mut H,
    run: RunWords<'_>,
    outputs: &Outputs<'_>,
) -> Result<(), HostFault>
    ensures made { OnOk result (Performs (H.told host.old) (H.told host.new)
        (pieces_in (run_in run.entry) outputs.now)) }
    ensures cut { OnErr result (Cuts (H.told host.old) (H.told host.new)
        (pieces_in (run_in run.entry) outputs.now)) }
    ensures later { H.faults host.old ≤ H.faults host.new }
    ensures failed { OnErr result (Rose (H.faults host.old) (H.faults host.new)) }
{
    host.out(outputs.console)?;
    create_named(host, run.records, outputs.records)?;
    create_named(host, run.tables, outputs.tables)?;
    host.err(outputs.report)
}

/// Writes the outputs of a run, after which the program ends so: the console, the files that it
/// names, and the report.
pub fn write_results<H: Host>(
    host: &mut H,
    run: RunWords<'_>,
    exit: Exit,
    outputs: &Outputs<'_>,
) -> Status
    requires { IsDone (code_of exit) }
    ensures follows { Follows (H.told host.old) (H.told host.new)
        (record {
          code = code_of exit;
          actions = pieces_in
              (run_in run.entry) outputs.now;
        }) result.code }
    ensures ends { RunEnds (H.told host.old) (H.told host.new)
        (H.faults host.old) (H.faults host.new) result.code }
{
    let written = write_pieces(host, run, outputs);
    end_written(written, exit)
}
