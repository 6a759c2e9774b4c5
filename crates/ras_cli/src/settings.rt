//! What a run asks the machine for.

ghost use Rattle.std.specs.Prelude.{◌≡◌, ◌≤◌};
ghost use Rattle.ras_machine.specs.Settings.{IsInRange};
ghost use Rattle.ras_words.specs.Read.{machine_in, IsInLimits};
ghost use Rattle.ras_cli.specs.Plan.{settings_of, run_ram_words};

use ras_bits::WORDS_PER_MIB;
use ras_machine::Settings;
use ras_words::MachineWords;

/// The settings that a run asks for.
#[tactic(auto, using(crate::proofs::Small::is_poll))]
pub fn settings_of(run: MachineWords<'_>) -> Settings
    requires { IsInLimits run }
    ensures settings { result ≡ settings_of (machine_in run.entry) }
    ensures range { IsInRange result }
{
    Settings {
        ram_mib: run.ram_mib as u32,
        harts: run.harts as u8,
        poll: run.poll,
        patrol: run.patrol,
        budget: run.budget,
    }
}

/// How many words of 8 bytes the RAM of a run has.
pub fn run_ram_words(run: MachineWords<'_>) -> u32
    requires { IsInLimits run }
    ensures { result ≡ run_ram_words (machine_in run.entry) }
{
    WORDS_PER_MIB * run.ram_mib as u32
}
