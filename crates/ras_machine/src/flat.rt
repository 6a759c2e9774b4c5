//! The flat machine.

ghost use Rattle.std.specs.Prelude.{◌≡◌, ◌+◌, ◌<◌, ◌≤◌, ◌^◌, length, IfSome};
ghost use Rattle.ras_machine.specs.Ends.{ending_by, IsUnpoisoned};
ghost use Rattle.ras_machine.specs.Flat.{flat_step, flat_run};
ghost use Rattle.ras_machine.specs.Schedule.{given_by};

use crate::ending::{Ending, Stop, stopped};
use crate::loading::memory_of;
use crate::schedule::Turns;
use elf_load::Image;
use poison_mem::{FlatMem, NoLog};
use ras_bits::NoMemory;
use rv64_hart::{Console, Hart, Harts, TurnEnd};
use std::alloc::Global;
use std::marker::Model;

/// What the flat machine keeps between two steps: its harts over plain memory, whose turn it is,
/// how many bytes of the input they took, and the console.
#[derive(Drop)]
struct FlatParts {
    harts: Harts<FlatMem>,
    turns: Turns,
    place: u64,
    console: Console,
}

impl Model for FlatParts {
    ghost use Rattle.ras_machine.specs.Flat.{FlatState};

    ghost Value = { FlatState };

    ghost view = { λ a. record {
      harts = a.harts.harts;
      place = a.place;
      ram = a.harts.memory;
      console = a.console;
    } };
}

/// The ending that step `n` brings, where it brings one. It met no poison.
fn ending_by(answer: TurnEnd, n: u64) -> Option<Ending>
    requires fits { n + 1 < 2 ^ 64 }
    requires unpoisoned { IsUnpoisoned answer }
    ensures ending { result ≡ ending_by answer n }
    ensures steps { IfSome result (λ ending. ending.steps ≤ n + 1) }
{
    match answer {
        TurnEnd::Went(_) => None,
        TurnEnd::Stop(stop) => Some(stopped(stop, n)),
        TurnEnd::Poisoned { .. } => unreachable!(),
    }
}

impl FlatParts {
    /// Makes step `n`, and answers the ending that it brings, if it does.
    fn advance(&mut self, n: u64, input: &[u8], schedule: &[u8]) -> Option<Ending>
        requires { n + 1 < 2 ^ 64 }
        ensures step { flat_step (given_by input.now schedule.now) n self.old
            ≡ record { after = self.new; ending = result } }
        ensures harts { length self.new.harts ≡ length self.old.harts }
        ensures steps { IfSome result (λ ending. ending.steps ≤ n + 1) }
    {
        let i = self.turns.pick(schedule, self.harts.count(), n);
        let answer = self.harts.step(i, &mut NoLog, n, input, &mut self.place, &mut self.console);
        ending_by(answer, n)
    }

    /// Makes steps up to an ending.
    fn run(&mut self, budget: u64, input: &[u8], schedule: &[u8]) -> Ending
        ensures run { flat_run (given_by input.now schedule.now) budget 0 self.old
            ≡ record { after = self.new; ending = result } }
        ensures harts { length self.new.harts ≡ length self.old.harts }
        ensures steps { result.steps ≤ budget }
    {
        for n in 0..budget {
            match self.advance(n, input, schedule) {
                Some(ending) => return ending,
                None => {}
            }
        }
        Ending {
            stop: Stop::Budget,
            steps: budget,
        }
    }
}

/// The flat machine: one to four harts on plain memory, with a budget of steps.
#[derive(Drop)]
pub struct Flat {
    parts: FlatParts,
    budget: u64,
    ended: Option<Ending>,
}

impl Model for Flat {
    ghost use Rattle.std.specs.Prelude.{◌≤◌, IfSome};
    ghost use Rattle.ras_machine.specs.Flat.{FlatMachine};

    ghost Value = { FlatMachine };

    ghost view = { λ a. record {
      state = a.parts;
      budget = a.budget;
      ended = a.ended;
    } };

    ghost invariant = { λ a. IfSome a.ended (λ ending. ending.steps ≤ a.budget) };
}

impl Flat {
    ghost use Rattle.std.specs.Prelude.{◌≡◌, ◌<◌, ◌≤◌, Some, IfOk, length};
    ghost use Rattle.ras_machine.specs.declared.settings.TheConstants.{MOST_HARTS};
    ghost use Rattle.rv64_hart.specs.Harts.{hart_at};
    ghost use Rattle.ras_machine.specs.Flat.{flat_made, flat_ran};

    /// A machine of so many harts, from 1 to [`MOST_HARTS`](crate::MOST_HARTS), whose RAM has the
    /// words of an image, which hart 0 enters; the others are stopped. RAM and console are taken
    /// here.
    ///
    /// `NoMemory` comes for want of memory alone.
    pub fn make(alloc: Global, image: &Image, budget: u64, harts: u8) -> Result<Flat, NoMemory>
        requires some { 1 ≤ harts }
        requires few { harts ≤ MOST_HARTS }
        ensures { IfOk result (λ flat. flat ≡ flat_made image.now budget harts) }
    {
        let memory = memory_of(alloc, image.words())?;
        let harts = Harts::make(alloc, memory, harts, image.entry())?;
        let Ok(console) = Console::make(alloc) else {
            // By a call: a drop in place has this proof go through each part of the harts.
            drop(harts);
            return Err(NoMemory);
        };
        Ok(Flat {
            parts: FlatParts {
                harts,
                turns: Turns::new(),
                place: 0,
                console,
            },
            budget,
            ended: None,
        })
    }

    /// Runs the machine to its ending. A machine that has ended answers its ending again, and
    /// changes nothing.
    pub fn run_flat(&mut self, input: &[u8], schedule: &[u8]) -> Ending
        ensures after { self.new ≡ flat_ran (given_by input.now schedule.now) self.old }
        ensures ending { self.new.ended ≡ Some result }
        ensures steps { result.steps ≤ self.old.budget }
    {
        if let Some(ending) = self.ended {
            return ending;
        }
        let ending = self.parts.run(self.budget, input, schedule);
        self.ended = Some(ending);
        ending
    }

    /// The bytes that the program has written.
    pub fn console(&self) -> &[u8]
        ensures { result.now ≡ self.now.state.console }
    {
        self.parts.console.bytes()
    }

    /// How many harts there are, from 1 to [`MOST_HARTS`](crate::MOST_HARTS).
    pub fn harts(&self) -> u8
        ensures count { result ≡ length self.now.state.harts }
        ensures some { 1 ≤ result }
        ensures few { result ≤ MOST_HARTS }
    {
        self.parts.harts.count()
    }

    /// Hart `i`.
    pub fn hart(&self, i: u8) -> &Hart
        requires { i < length self.now.state.harts }
        ensures { result.now ≡ hart_at self.now.state.harts i }
    {
        self.parts.harts.hart(i)
    }

    /// How many bytes of the input its harts took.
    pub(crate) fn place(&self) -> u64
        ensures { result ≡ self.now.state.place }
    {
        self.parts.place
    }
}
