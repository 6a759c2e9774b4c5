//! The machine whose memory takes faults.

ghost use Rattle.std.specs.Prelude.{◌≡◌, ◌+◌, ◌≤◌, ◌<◌, List, ℕ, Some, None, length, IfOk, IfSome};
ghost use Rattle.fault_script.specs.Fits.{IsScriptFor};
ghost use Rattle.fault_script.specs.declared.lines.ScriptLine.{ScriptLine};
ghost use Rattle.ras_machine.specs.Schedule.{Given, given_by};

use crate::ending::Ending;
use crate::first_line::first_line_of;
use crate::loading::stack_of;
use crate::schedule::Turns;
use crate::settings::Settings;
use crate::state::MachineState;
use elf_load::Image;
use fault_script::{Script, ScriptLine};
use mem_stack::Stack;
use ras_bits::NoMemory;
use ras_firmware::Firmware;
use rv64_hart::{Console, Harts};
use scrubber::{Interval, Patrol};
use std::alloc::Global;
use std::marker::Model;

/// The machine: one to four harts on two caches over codewords that take the faults of a script,
/// with a budget of steps.
///
/// A step logs the injections that are due, does the script's lines of that step in their order,
/// scrubs the patrol's word where it is due, drains the error records, and then the hart whose turn
/// it is makes its step. The run ends where the budget is spent, where a record keeps a critical
/// error, where the program stops, where the console would be overfilled, and where the hart reads
/// a poisoned word.
#[derive(Drop)]
pub struct Machine {
    pub(crate) state: MachineState<Stack>,
    pub(crate) settings: Settings,
    pub(crate) ended: Option<Ending>,
}

impl Model for Machine {
    ghost use Rattle.std.specs.Prelude.{◌≡◌, ◌≤◌, length, IfSome};
    ghost use Rattle.mem_stack.specs.Stack.{stack_meaning};
    ghost use Rattle.ras_machine.specs.Settings.{IsInRange, ram_words};
    ghost use Rattle.ras_machine.specs.Machine.{StackMachine};

    ghost Value = { StackMachine };

    ghost view = { λ a. record { state = a.state; settings = a.settings; ended = a.ended } };

    ghost invariant = { λ a. IsInRange a.settings
        × (a.state.steps ≤ a.settings.budget)
        × (stack_meaning.words a.state.shared.memory ≡ ram_words a.settings)
        × (a.state.patrol.words ≡ ram_words a.settings)
        × (length a.state.shared.harts ≡ a.settings.harts)
        × (a.state.poll ≡ a.settings.poll)
        × (a.state.patrol.every ≡ a.settings.patrol)
        × IfSome a.ended (λ ending. ending.steps ≤ a.settings.budget) };
}

impl Machine {
    ghost use Rattle.elf_load.specs.Program.{Program};
    ghost use Rattle.ras_machine.specs.Accounted.{run_calls, IsOnRun, EmitsEachOnce};
    ghost use Rattle.ras_machine.specs.Ends.{fatal_of};
    ghost use Rattle.ras_machine.specs.Settings.{IsInRange, ram_words};
    ghost use Rattle.ras_machine.specs.FirstLine.{IsFirstLineOf};
    ghost use Rattle.ras_machine.specs.Flat.{flat_of};
    ghost use Rattle.ras_machine.specs.Machine.{machine_made, machine_stepped, machine_run};
    ghost use Rattle.ras_machine.specs.Ways.{EndsBy, KeepsToFlat};
    ghost use Rattle.ras_machine.specs.TwoRuns.{StaysInStep, KeepsInStep};
    ghost use Rattle.ras_machine.specs.Undisturbed.{AreCalm, IsUndisturbed};

    /// A machine whose RAM has the words of an image, which hart 0 enters; the other harts are
    /// stopped. RAM, caches, console, records and firmware's memory are taken here.
    ///
    /// The settings are in range, and the image has as many words as they say. `NoMemory` comes for
    /// want of memory alone.
    pub fn make(alloc: Global, image: &Image, s: &Settings) -> Result<Machine, NoMemory>
        requires range { IsInRange s.now }
        requires ram { length image.now.words ≡ ram_words s.now }
        ensures made { IfOk result (λ m. m ≡ machine_made image.now s.now) }
        ensures two_runs { IfOk result (λ m. (given : Given) (script : List ScriptLine)
            → IsScriptFor (ram_words s.now) script → StaysInStep image.now given script m) }
    {
        let stack = stack_of(alloc, image.words())?;
        let shared = Harts::make(alloc, stack, s.harts, image.entry())?;

        // By calls: drops in place have this proof go through each part of what is let go.
        let Ok(firmware) = Firmware::make(alloc) else {
            drop(shared);
            return Err(NoMemory);
        };
        let Ok(console) = Console::make(alloc) else {
            drop(shared);
            drop(firmware);
            return Err(NoMemory);
        };
        Ok(Machine {
            state: MachineState {
                shared,
                turns: Turns::new(),
                place: 0,
                beyond: None,
                firmware,
                poll: Interval::new(s.poll),
                patrol: Patrol::new(s.patrol, image.words().len() as u32),
                console,
                steps: 0,
            },
            settings: *s,
            ended: None,
        })
    }

    /// Makes one step, and answers the ending that it brings: None exactly where the step was
    /// completed and the run goes on. A machine that has ended answers its ending again, and
    /// changes nothing.
    ///
    /// The lines of the step are those of this call's script, which was read for this RAM.
    pub fn step(&mut self, input: &[u8], schedule: &[u8], script: &Script) -> Option<Ending>
        requires { IsScriptFor (ram_words self.old.settings) script.now.lines }
        ensures after { let given = given_by input.now schedule.now in
            self.new ≡ machine_stepped given script.now.lines self.old }
        ensures ending { result ≡ self.new.ended }
        ensures steps { IfSome result (λ ending. ending.steps ≤ self.old.settings.budget) }
        ensures two_runs { let given = given_by input.now schedule.now in
            KeepsInStep given script.now.lines self.old self.new }
    {
        self.step_once(input, schedule, script.lines())
    }

    fn step_once(&mut self, input: &[u8], schedule: &[u8], lines: &[ScriptLine]) -> Option<Ending>
        requires { IsScriptFor (ram_words self.old.settings) lines.now }
        ensures after { let given = given_by input.now schedule.now in
            self.new ≡ machine_stepped given lines.now self.old }
        ensures ending { result ≡ self.new.ended }
        ensures steps { IfSome result (λ ending. ending.steps ≤ self.old.settings.budget) }
    {
        if let Some(ending) = self.ended {
            return Some(ending);
        }
        let mut at = first_line_of(lines, self.state.steps);
        self.go_on(input, schedule, lines, &mut at);
        self.ended
    }

    // Makes a step of a machine that hasn't ended.
    fn go_on(&mut self, input: &[u8], schedule: &[u8], lines: &[ScriptLine], at: &mut usize)
        requires script { IsScriptFor (ram_words self.old.settings) lines.now }
        requires going { self.old.ended ≡ None }
        requires first { IsFirstLineOf self.old.state.steps lines.now at.old }
        ensures after { let given = given_by input.now schedule.now in
            self.new ≡ machine_stepped given lines.now self.old }
        ensures completed { self.new.ended ≡ None
            → self.new.state.steps ≡ self.old.state.steps + 1 }
        ensures first { self.new.ended ≡ None
            → IsFirstLineOf self.new.state.steps lines.now at.new }
        ensures settings { self.new.settings ≡ self.old.settings }
    {
        self.state.step(&self.settings, input, schedule, lines, at, &mut self.ended);
    }

    /// Makes steps up to the ending. A machine that has ended answers its ending again, and changes
    /// nothing.
    ///
    /// The lines of each step are those of this call's script, which was read for this RAM.
    pub fn run(&mut self, input: &[u8], schedule: &[u8], script: &Script) -> Ending
        requires { IsScriptFor (ram_words self.old.settings) script.now.lines }
        ensures after { let given = given_by input.now schedule.now in
            self.new ≡ machine_run given script.now.lines self.old }
        ensures ending { self.new.ended ≡ Some result }
        ensures steps { result.steps ≤ self.old.settings.budget }
        ensures two_runs { let given = given_by input.now schedule.now in
            KeepsInStep given script.now.lines self.old self.new }

        // No event is lost or doubled between the error banks and the records that firmware emits.
        ensures accounted { let given = given_by input.now schedule.now in (image : Program)
            → IsOnRun image given script.now.lines self.old
            → EmitsEachOnce (run_calls image self.old.settings given script.now.lines)
            (fatal_of result.stop) self.new.state.firmware }

        // How it ends: as the flat machine of the image, at a word that was flipped twice, or at an
        // injected fatal error.
        ensures keeps { let given = given_by input.now schedule.now in (image : Program)
            → StaysInStep image given script.now.lines self.old
            → KeepsToFlat self.new.state.beyond script.now.lines
            (EndsBy given (flat_of image self.old.settings) script.now.lines result
            self.new.state) }
    {
        // They are in range.
        let _in_range = self.settings();
        self.run_on(input, schedule, script.lines())
    }

    fn run_on(&mut self, input: &[u8], schedule: &[u8], lines: &[ScriptLine]) -> Ending
        requires { IsScriptFor (ram_words self.old.settings) lines.now }
        ensures after { let given = given_by input.now schedule.now in
            self.new ≡ machine_run given lines.now self.old }
        ensures ending { self.new.ended ≡ Some result }
        ensures steps { result.steps ≤ self.old.settings.budget }
    {
        let mut at = first_line_of(lines, self.state.steps);
        loop {
            match self.ended {
                Some(ending) => return ending,
                None => {
                    self.go_on(input, schedule, lines, &mut at);
                    self.go_on_undisturbed(input, schedule, lines, at);
                }
            }
        }
    }

    // Makes the steps in which nothing but a hart acts, up to the first in which something else
    // may. `at` is the number of the first line of this step or a later one, and stays so.
    fn go_on_undisturbed(&mut self, input: &[u8], schedule: &[u8], lines: &[ScriptLine], at: usize)
        requires script { IsScriptFor (ram_words self.old.settings) lines.now }
        requires first { self.old.ended ≡ None → IsFirstLineOf self.old.state.steps lines.now at }
        ensures left { let given = given_by input.now schedule.now in
            machine_run given lines.now self.old ≡ machine_run given lines.now self.new }
        ensures settings { self.new.settings ≡ self.old.settings }
        ensures first { self.new.ended ≡ None → IsFirstLineOf self.new.state.steps lines.now at }
        ensures on { self.new.ended ≡ None → self.old.ended ≡ None }
        ensures low { self.new.ended ≡ None → self.old.state.steps ≤ self.new.state.steps }
    {
        if self.ended.is_some() {
            return;
        }
        let until = self
            .state
            .undisturbed_until(self.settings.budget, lines, at);
        while self.ended.is_none() && self.state.steps < until {
            self.step_undisturbed(input, schedule);
        }
    }

    // Makes a step in which nothing but a hart acts.
    fn step_undisturbed(&mut self, input: &[u8], schedule: &[u8])
        requires going { self.old.ended ≡ None }
        requires low { self.old.state.steps < self.old.settings.budget }
        ensures after { let given = given_by input.now schedule.now in (lines : List ScriptLine)
            → IsUndisturbed self.old.settings.budget lines self.old.state.poll
            self.old.state.patrol self.old.state.steps
            → AreCalm self.old.state.firmware.banks
            → self.new ≡ machine_stepped given lines self.old }
        ensures calm { AreCalm self.old.state.firmware.banks → self.new.ended ≡ None
            → AreCalm self.new.state.firmware.banks }
        ensures completed { self.new.ended ≡ None
            → self.new.state.steps ≡ self.old.state.steps + 1 }
        ensures poll { self.new.state.poll ≡ self.old.state.poll }
        ensures patrol { self.new.state.patrol ≡ self.old.state.patrol }
        ensures settings { self.new.settings ≡ self.old.settings }
    {
        self.state
            .step_undisturbed(input, schedule, &mut self.ended);
    }
}
