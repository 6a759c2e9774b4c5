//! What the machine keeps between two steps, and its steps.

ghost use Rattle.std.specs.Prelude.{◌≡◌, ◌+◌, ◌<◌, ◌≤◌, ◌^◌, Some, None, length};
ghost use Rattle.fault_script.specs.Fits.{FitsRamAct, IsScriptFor};
ghost use Rattle.fault_script.specs.Steps.{at_step};
ghost use Rattle.ras_machine.specs.FirstLine.{IsFirstLineOf};
ghost use Rattle.ras_machine.specs.Schedule.{given_by};

use crate::ending::{Ending, Stop, fatal_of, stopped};
use crate::schedule::Turns;
use crate::settings::Settings;
use fault_script::{Act, ScriptLine};
use poison_mem::{Event, EventLog, FlipBus, RecordId};
use ras_bits::word_address;
use ras_firmware::Firmware;
use reri_inject::{count_down, stage};
use rv64_hart::{Console, Harts, TurnEnd};
use scrubber::{Interval, Patrol};

/// The harts with the memory that takes faults, whose turn it is, how many bytes of the input they
/// took, the first third flip of a word (its step and its word), the error side, the drain's
/// interval, the patrol, the console, and how many steps are completed.
#[derive(Drop)]
pub(crate) struct MachineState<B> {
    pub(crate) shared: Harts<B>,
    pub(crate) turns: Turns,
    pub(crate) place: u64,
    pub(crate) beyond: Option<(u64, u32)>,
    pub(crate) firmware: Firmware,
    pub(crate) poll: Interval,
    pub(crate) patrol: Patrol,
    pub(crate) console: Console,
    pub(crate) steps: u64,
}

impl<B: FlipBus> MachineState<B> {
    ghost use Rattle.ras_machine.specs.Actions.{words_in, injections_due, act_done, lines_acted};
    ghost use Rattle.ras_machine.specs.Actions.{patrolled, prepared, drained, hart_acted};
    ghost use Rattle.ras_machine.specs.Actions.{machine_step, at_stop, left_by, step_ending};

    /// Begins a step: events get its number, and injections that are due are logged.
    fn begin(&mut self)
        ensures { self.new ≡ (injections_due self.old).after }
    {
        self.firmware.begin_step(self.steps);
        count_down(&mut self.firmware.banks);
    }

    /// Does an act of the script.
    fn act(&mut self, act: Act)
        requires { FitsRamAct (words_in B.meaning self.old) act }
        ensures after { self.new ≡ (act_done B.flips act self.old).after }
        ensures words { words_in B.meaning self.new ≡ words_in B.meaning self.old }
        ensures harts { length self.new.shared.harts ≡ length self.old.shared.harts }
        ensures poll { self.new.poll ≡ self.old.poll }
        ensures patrol { self.new.patrol ≡ self.old.patrol }
    {
        match act {
            Act::Flip { w, bit } => {
                let third = self.shared.memory_mut().strike(w, bit);
                if third && self.beyond.is_none() {
                    self.beyond = Some((self.steps, w));
                }
            }
            Act::Scrub { w } => self.shared.memory_mut().scrub(w, &mut self.firmware.banks),
            Act::Inject {
                bank,
                rec,
                class,
                delay,
                addr,
            } => stage(&mut self.firmware.banks, bank, rec, class, delay, addr),
            Act::Control { bank, rec, value } => match RecordId::named(bank, rec) {
                Some(id) => self.firmware.write_control(id, u32::from(value)),
                None => {}
            },
        }
    }

    /// Does the acts of this step's lines, of which the first has the number `at`. That of the next
    /// step's is then in `at`.
    fn act_all(&mut self, lines: &[ScriptLine], at: &mut usize)
        requires script { IsScriptFor (words_in B.meaning self.old) lines.now }
        requires first { IsFirstLineOf self.old.steps lines.now at.old }
        ensures after { let now = at_step self.old.steps lines.now in
            self.new ≡ (lines_acted B.flips now self.old).after }
        ensures next { IsFirstLineOf (self.old.steps + 1) lines.now at.new }
        ensures words { words_in B.meaning self.new ≡ words_in B.meaning self.old }
        ensures harts { length self.new.shared.harts ≡ length self.old.shared.harts }
        ensures poll { self.new.poll ≡ self.old.poll }
        ensures patrol { self.new.patrol ≡ self.old.patrol }
        ensures steps { self.new.steps ≡ self.old.steps }
    {
        let n = self.steps;
        let mut next = *at;
        while next < lines.len() && lines[next].step == n {
            self.act(lines[next].act);
            next += 1;
        }
        *at = next;
    }

    /// Scrubs the word of the patrol, where it is due.
    fn patrol_word(&mut self)
        requires { self.old.patrol.words ≡ words_in B.meaning self.old }
        ensures after { self.new ≡ (patrolled B.flips self.old).after }
        ensures words { words_in B.meaning self.new ≡ words_in B.meaning self.old }
        ensures harts { length self.new.shared.harts ≡ length self.old.shared.harts }
        ensures poll { self.new.poll ≡ self.old.poll }
        ensures patrol { self.new.patrol.words ≡ self.old.patrol.words }
        ensures every { self.new.patrol.every ≡ self.old.patrol.every }
        ensures steps { self.new.steps ≡ self.old.steps }
    {
        match self.patrol.due_in_turn(self.steps) {
            Some(w) => {
                // It is a word of RAM, which the patrol knows.
                let _within = self.patrol.place();
                self.shared.memory_mut().scrub(w, &mut self.firmware.banks);
                self.patrol.done();
            }
            None => {}
        }
    }

    /// Does what the drain has to do in this step.
    fn drain(&mut self)
        ensures { self.new ≡ (drained self.old).after }
    {
        match self.poll.left(self.steps) {
            2 => self.firmware.mark(),
            1 => self.firmware.clear(),
            _ => {}
        }
    }

    /// Ends the run: every valid record is emitted, and a fatal one is shown in the boot error
    /// region.
    fn stop(&mut self, stop: Stop, ending: &mut Option<Ending>)
        ensures after { self.new ≡ at_stop (Some stop) self.old }
        ensures ending { ending.new ≡ Some (record { stop = stop; steps = self.old.steps }) }
        ensures shared { self.new.shared ≡ self.old.shared }
        ensures poll { self.new.poll ≡ self.old.poll }
        ensures patrol { self.new.patrol ≡ self.old.patrol }
        ensures steps { self.new.steps ≡ self.old.steps }
    {
        self.firmware.stop(fatal_of(stop));
        *ending = Some(Ending {
            stop,
            steps: self.steps,
        });
    }

    /// Makes the step of the hart whose turn it is. The ending that it brings, where it brings one,
    /// is then in `ending`. Nothing is written there in a step that goes on, since an ending that
    /// isn't there would be copied in each step.
    pub(crate) fn step_hart(&mut self, input: &[u8], schedule: &[u8], ending: &mut Option<Ending>)
        requires fits { self.old.steps + 1 < 2 ^ 64 }
        requires none { ending.old ≡ None }
        ensures after { let given = given_by input.now schedule.now in
            self.new ≡ left_by (hart_acted B.meaning given self.old) }
        ensures ending { let given = given_by input.now schedule.now in
            ending.new ≡ step_ending (hart_acted B.meaning given self.old) }
        ensures low { self.new.steps ≤ self.old.steps + 1 }
        ensures completed { ending.new ≡ None → self.new.steps ≡ self.old.steps + 1 }
        ensures words { words_in B.meaning self.new ≡ words_in B.meaning self.old }
        ensures harts { length self.new.shared.harts ≡ length self.old.shared.harts }
        ensures poll { self.new.poll ≡ self.old.poll }
        ensures patrol { self.new.patrol ≡ self.old.patrol }
    {
        let n = self.steps;
        let i = self.turns.pick(schedule, self.shared.count(), n);
        let pc = self.shared.hart(i).pc();
        let answer = self.shared.step(
            i,
            &mut self.firmware.banks,
            n,
            input,
            &mut self.place,
            &mut self.console,
        );
        match answer {
            TurnEnd::Went(_) => self.steps = n + 1,
            TurnEnd::Stop(stop) => {
                let stopped = stopped(stop, n);
                self.steps = stopped.steps;
                self.stop(stopped.stop, ending);
            }
            TurnEnd::Poisoned { w, use_kind } => {
                let event = Event::consumption(use_kind, i, word_address(w), pc);
                self.firmware.banks.log(event);
                self.stop(Stop::Consumed { w, use_kind, pc }, ending);
            }
        }
    }

    /// What of a step comes before its hart's turn: due injections, the script's lines, and the
    /// patrol.
    fn prepare(&mut self, lines: &[ScriptLine], at: &mut usize)
        requires script { IsScriptFor (words_in B.meaning self.old) lines.now }
        requires first { IsFirstLineOf self.old.steps lines.now at.old }
        requires patrol { self.old.patrol.words ≡ words_in B.meaning self.old }
        ensures after { self.new ≡ prepared B.flips lines.now self.old }
        ensures next { IsFirstLineOf (self.old.steps + 1) lines.now at.new }
        ensures words { words_in B.meaning self.new ≡ words_in B.meaning self.old }
        ensures harts { length self.new.shared.harts ≡ length self.old.shared.harts }
        ensures poll { self.new.poll ≡ self.old.poll }
        ensures patrol { self.new.patrol.words ≡ self.old.patrol.words }
        ensures every { self.new.patrol.every ≡ self.old.patrol.every }
        ensures steps { self.new.steps ≡ self.old.steps }
    {
        self.begin();
        self.act_all(lines, at);
        self.patrol_word();
    }

    /// Makes a step. The ending that it brings, where it brings one, is then in `ending`. `at` is
    /// the number of this step's first line, and becomes that of the next step's where the run goes
    /// on.
    pub(crate) fn step(
        &mut self,
        settings: &Settings,
        input: &[u8],
        schedule: &[u8],
        lines: &[ScriptLine],
        at: &mut usize,
        ending: &mut Option<Ending>,
    )
        requires budget { self.old.steps ≤ settings.now.budget }
        requires script { IsScriptFor (words_in B.meaning self.old) lines.now }
        requires first { IsFirstLineOf self.old.steps lines.now at.old }
        requires none { ending.old ≡ None }
        requires patrol { self.old.patrol.words ≡ words_in B.meaning self.old }
        ensures after { let given = given_by input.now schedule.now in self.new
            ≡ left_by (machine_step B.meaning B.flips settings.now given lines.now self.old) }
        ensures ending { let given = given_by input.now schedule.now in ending.new
            ≡ step_ending (machine_step B.meaning B.flips settings.now given lines.now self.old) }
        ensures low { self.new.steps ≤ settings.now.budget }
        ensures completed { ending.new ≡ None → self.new.steps ≡ self.old.steps + 1 }
        ensures first { ending.new ≡ None → IsFirstLineOf self.new.steps lines.now at.new }
        ensures words { words_in B.meaning self.new ≡ words_in B.meaning self.old }
        ensures harts { length self.new.shared.harts ≡ length self.old.shared.harts }
        ensures poll { self.new.poll ≡ self.old.poll }
        ensures patrol { self.new.patrol.words ≡ self.old.patrol.words }
        ensures every { self.new.patrol.every ≡ self.old.patrol.every }
    {
        if self.steps == settings.budget {
            self.stop(Stop::Budget, ending);
            return;
        }
        self.prepare(lines, at);
        match self.firmware.banks.first_critical() {
            Some((bank, rec)) => self.stop(Stop::Injected { bank, rec }, ending),
            None => {
                self.drain();
                self.step_hart(input, schedule, ending);
            }
        }
    }
}
