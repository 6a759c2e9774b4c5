//! A machine as it was made.

ghost use Rattle.std.specs.Prelude.{◌≡◌, ◌<◌, ◌%◌, ℕ, List, [], length, slice_index};
ghost use Rattle.elf_load.specs.Program.{Program};
ghost use Rattle.fault_script.specs.Fits.{IsScriptFor};
ghost use Rattle.fault_script.specs.declared.lines.ScriptLine.{ScriptLine};
ghost use Rattle.mem_stack.specs.Stack.{stack_meaning, loaded_stack};
ghost use Rattle.mem_stack.specs.StackStands.{StackStands};
ghost use Rattle.ras_firmware.specs.Firmware.{new_firmware};
ghost use Rattle.rv64_hart.specs.Harts.{hart_at, first_harts};
ghost use Rattle.ras_machine.specs.Machine.{machine_made};
ghost use Rattle.ras_machine.specs.Schedule.{Given};
ghost use Rattle.ras_machine.specs.Settings.{ram_words};
ghost use Rattle.ras_machine.specs.TwoRuns.{StaysInStep};

use crate::machine::Machine;
use elf_load::Image;
use mem_stack::Stack;
use poison_mem::{Bus, FlipBus};
use ras_firmware::{Drain, Firmware};
use reri_bank::Banks;
use rv64_hart::{Console, Hart, Harts};

/// Empties both caches, and loads these words, as many as there are.
fn reload(stack: &mut Stack, words: &[u64])
    requires count { length words.now ≡ stack_meaning.words stack.old }
    requires lines { length words.now % 8 ≡ 0 }
    ensures loaded { stack.new ≡ loaded_stack words.now }

    // It stands for these words, whatever flips are told of them.
    ensures stands { (q : ℕ → ℕ) → StackStands stack.new (slice_index words.now) q }
{
    stack.forget_all();
    let count = stack.words();
    for w in 0..count {
        stack.load(w, words[w as usize]);
    }
}

/// Hart `i` of a machine that is entered at an address, a multiple of 4.
fn first_hart(i: u8, entry: u64) -> Hart
    requires { entry % 4 ≡ 0 }
    ensures hart { (n : ℕ) → i < n → result ≡ hart_at (first_harts n entry) i }
    ensures number { result.number ≡ i }
{
    let mut hart = Hart::new(u64::from(i), entry);
    if i == 0 {
        hart.start(entry, 0);
    }
    hart
}

/// Makes all harts as they are first, with an entry that is a multiple of 4.
fn restart(harts: &mut Harts<Stack>, entry: u64)
    requires { entry % 4 ≡ 0 }
    ensures { harts.new
        ≡ record harts.old { harts = first_harts (length harts.old.harts) entry } }
{
    for i in 0..harts.count() {
        harts.set_hart(i, first_hart(i, entry));
    }
}

/// Makes the error side new, and the console empty.
fn renew(firmware: &mut Firmware, console: &mut Console)
    ensures firmware { firmware.new ≡ new_firmware }
    ensures console { console.new ≡ [] }
{
    firmware.banks = Banks::new();
    firmware.drain = Drain::new();
    firmware.records.reset_to(&[], 0);
    firmware.memory.reset_to(&[]);
    console.reset();
}

impl Machine {
    /// Makes the machine what `Machine::make` makes of an image and these settings. It takes no
    /// memory.
    ///
    /// The image has as many words as the machine's RAM.
    pub fn reset(&mut self, image: &Image)
        requires ram { length image.now.words ≡ ram_words self.old.settings }
        ensures made { self.new ≡ machine_made image.now self.old.settings }
        ensures two_runs { (given : Given) (script : List ScriptLine)
            → IsScriptFor (ram_words self.old.settings) script
            → StaysInStep image.now given script self.new }
    {
        let settings = self.settings();
        reload(self.state.shared.memory_mut(), image.words());
        restart(&mut self.state.shared, image.entry());
        renew(&mut self.state.firmware, &mut self.state.console);
        self.set_run(&settings, 0, 0, 0, None);
    }
}
