//! A count-down of the staged injections, as calls of the banks.

ghost use Rattle.std.specs.Prelude.{◌≡◌};
ghost use Rattle.reri_inject.specs.Inject.{each_counted};
ghost use Rattle.ras_firmware.specs.Firmware.{firmware_run};
ghost use Rattle.ras_firmware.specs.declared.firmware.Firmware.{Firmware};
ghost use Rattle.ras_machine.specs.CountDowns.{with_banks, count_calls};

/// A count-down of the staged injections is stagings and logs, so what holds over any list of calls
/// of the banks holds over count-downs too.
#[tactic(auto, using(crate::proofs::CountDownCalls::run_count))]
pub fn count_downs_are_calls()
    ensures { (f : Firmware)
        → firmware_run f (count_calls f.banks) ≡ with_banks f (each_counted f.banks) }
{}
