//! What holds of every step.

ghost use Rattle.std.specs.Prelude.{◌≡◌, ◌≤◌, ◌<◌, ℕ, List, [], length, take, drop, slice_index};
ghost use Rattle.ras_bits.specs.declared.map.TheConstants.{RAM_START};
ghost use Rattle.std.specs.List.{push};
ghost use Rattle.poison_mem.specs.Asking.{Asking};
ghost use Rattle.poison_mem.specs.Bus.{logged_all};
ghost use Rattle.rv64_hart.specs.ConsoleCalls.{bytes_written, bytes_read};
ghost use Rattle.rv64_hart.specs.Outcome.{Outcome};
ghost use Rattle.rv64_hart.specs.Program.{IsTouched};
ghost use Rattle.rv64_hart.specs.RamBytes.{answered_by, WritesRam, FillsRam};
ghost use Rattle.rv64_hart.specs.State.{ArchitecturalState};
ghost use Rattle.rv64_hart.specs.Step.{Scene, scene, step_of, stepped_with_log};

use poison_mem::{Bus, EventLog};

/// A step over any log is the step over a list of events, which are then logged in order.
pub fn steps_go_by_their_events<B: Bus, G: EventLog>()
    ensures { (m : Asking Outcome) (s : Scene B G) →
        step_of B.meaning G.logged m s
        ≡ stepped_with_log (logged_all G.logged s.log)
        (step_of B.meaning push m (scene s.hart s.place s.console s.bus [])) }
{}

/// Where RAM answers its asks, a console write writes the bytes of RAM from its address on.
pub fn console_writes_are_bytes_of_ram()
    ensures { (ram : List ℕ) (h : ArchitecturalState) (address n : ℕ) → RAM_START ≤ address →
        WritesRam ram address n (answered_by ram (bytes_written h address n)) }
{}

/// Where RAM has room for `n` bytes from an address on, a console read fills it from there with the bytes of the input from its place
/// on, at most `n`, and all other bytes of RAM stay.
pub fn console_reads_fill_ram()
    ensures { (ram input : List ℕ) (h : ArchitecturalState) (place address n : ℕ) → IsTouched (length ram) address n →
        ((i : ℕ) → slice_index input i < 256) →
        FillsRam ram address (take n (drop place input))
        (answered_by ram (bytes_read h (drop place input) address n)) }
{}
