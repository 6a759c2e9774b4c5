//! What `demo` runs: the image and the script of a workload.

ghost use Rattle.std.specs.Prelude.{◌≡◌, ◌≤◌, ◌<◌, ◌^◌, IfOk, IfErr, length};
ghost use Rattle.fault_script.specs.Fits.{IsScriptFor};
ghost use Rattle.ras_words.specs.Read.{machine_in, IsInLimits};
ghost use Rattle.ras_cli.specs.Inputs.{given_in};
ghost use Rattle.ras_cli.specs.Plan.{run_ram_words};
ghost use Rattle.ras_cli.specs.DemoPlan.{demo_inputs, demo_machine, inputs_of};
ghost use Rattle.ras_cli.specs.Reaches.{ReachesInputs, Stops};

use crate::inputs::{Inputs, accept_image, accept_script};
use crate::status::{Exit, Status};
use ras_gen::workload;
use ras_host::Host;
use ras_words::{
    DEFAULT_BUDGET, DEFAULT_HARTS, DEFAULT_PATROL, DEFAULT_POLL, DEFAULT_RAM_MIB, MachineWords,
};
use std::alloc::Global;

/// What `--raw` alone asks for. No file is named.
pub fn demo_machine() -> MachineWords<'static>
    ensures machine { machine_in result ≡ demo_machine }
    ensures limits { IsInLimits result }
{
    MachineWords {
        image: "",
        raw: true,
        script: None,
        input: None,
        budget: DEFAULT_BUDGET,
        ram_mib: DEFAULT_RAM_MIB,
        poll: DEFAULT_POLL,
        patrol: DEFAULT_PATROL,
        harts: DEFAULT_HARTS,
        schedule: None,
    }
}

// Reads an image and a script that are at hand; input and schedule are empty.
fn inputs_of<H: Host>(
    alloc: Global,
    run: MachineWords<'_>,
    image: &[u8],
    script: &[u8],
    host: &mut H,
) -> Result<Inputs, Status>
    requires limits { IsInLimits run }
    requires text { length script.now < 2 ^ 32 }
    ensures reached { IfOk result (λ inputs.
        ReachesInputs (inputs_of (machine_in run.entry) image.now script.now)
        (H.told host.old) (H.told host.new) inputs.image inputs.script.lines (given_in inputs)) }
    ensures room { IfOk result
        (λ inputs. length inputs.image.words ≡ run_ram_words (machine_in run.entry)) }
    ensures script { IfOk result
        (λ inputs. IsScriptFor (run_ram_words (machine_in run.entry)) inputs.script.lines) }
    ensures stopped { IfErr result (λ status.
        Stops (inputs_of (machine_in run.entry) image.now script.now)
        (H.told host.old) (H.told host.new)
        (H.faults host.old) (H.faults host.new) status.code) }
    ensures later { H.faults host.old ≤ H.faults host.new }
{
    let image = accept_image(alloc, run, image, host)?;
    let script = accept_script(alloc, run, script, host)?;
    Ok(Inputs {
        image,
        script,
        input: Vec::new(alloc),
        schedule: Vec::new(alloc),
    })
}

/// Makes the image and the script of the workload of a number, and reads them; input and schedule are
/// empty.
#[tactic(auto, using(crate::proofs::DemoLemmas::script_is_short))]
pub fn demo_inputs<H: Host>(alloc: Global, number: u64, host: &mut H) -> Result<Inputs, Status>
    ensures reached { IfOk result (λ inputs.
        ReachesInputs (demo_inputs number) (H.told host.old) (H.told host.new)
        inputs.image inputs.script.lines (given_in inputs)) }
    ensures room { IfOk result
        (λ inputs. length inputs.image.words ≡ run_ram_words demo_machine) }
    ensures script { IfOk result
        (λ inputs. IsScriptFor (run_ram_words demo_machine) inputs.script.lines) }
    ensures stopped { IfErr result (λ status.
        Stops (demo_inputs number) (H.told host.old) (H.told host.new)
        (H.faults host.old) (H.faults host.new) status.code) }
    ensures later { H.faults host.old ≤ H.faults host.new }
{
    match workload(alloc, number) {
        Ok((image, script)) => {
            inputs_of(
                alloc,
                demo_machine(),
                image.as_slice(),
                script.as_slice(),
                host,
            )
        }
        Err(_) => Err(Exit::NoMemory.status()),
    }
}
