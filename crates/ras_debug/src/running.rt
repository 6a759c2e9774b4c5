//! A machine with what its run is given.

ghost use Rattle.std.specs.Prelude.{◌≡◌, ◌≤◌, [], length};
ghost use Rattle.fault_script.specs.Fits.{IsScriptFor};
ghost use Rattle.ras_machine.specs.Schedule.{given_by};
ghost use Rattle.ras_machine.specs.Settings.{ram_words};
ghost use Rattle.ras_debug.specs.Running.{advanced, is_among, is_held, next_pc, at_line, run_on, standing_of, stepped, stop_line};

use crate::reply::Reply;
use arrayvec::ArrayVec;
use fault_script::Script;
use ras_machine::{Ending, Machine, pick};
use ras_report::stop_text;
use std::marker::Model;

/// The machine, its input and schedule, and its script, which was read for its RAM.
#[derive(Drop)]
pub(crate) struct Running {
    machine: Machine,
    input: Vec<u8>,
    schedule: Vec<u8>,
    script: Script,
}

impl Model for Running {
    ghost use Rattle.fault_script.specs.Fits.{IsScriptFor};
    ghost use Rattle.ras_machine.specs.Settings.{ram_words};
    ghost use Rattle.ras_machine.specs.Schedule.{given_by};
    ghost use Rattle.ras_debug.specs.Running.{RunState};

    ghost Value = { RunState };

    ghost view = { λ r. record {
      machine = r.machine;
      given = given_by r.input.items r.schedule.items;
      script = r.script.lines;
    } };

    ghost invariant = { λ r. IsScriptFor (ram_words r.machine.settings) r.script.lines };
}

/// Whether an address is one of the breakpoints.
pub(crate) fn is_among(breakpoints: &[u64], address: u64) -> bool
    ensures { result ≡ is_among breakpoints.now address }
{
    breakpoints.contains(&address)
}

impl Running {
    pub(crate) fn new(
        machine: Machine,
        input: Vec<u8>,
        schedule: Vec<u8>,
        script: Script,
    ) -> Running
        requires { IsScriptFor (ram_words machine.settings) script.lines }
        ensures { let given = given_by input.items schedule.items in
            result ≡ record { machine = machine; given = given; script = script.lines } }
    {
        Running {
            machine,
            input,
            schedule,
            script,
        }
    }

    pub(crate) fn machine(&self) -> &Machine
        ensures { result.now ≡ self.now.machine }
    {
        &self.machine
    }

    /// The pc of the hart that makes the next step.
    pub(crate) fn next_pc(&self) -> u64
        ensures { result ≡ next_pc self.now }
    {
        let harts = self.machine.settings().harts;
        let i = pick(self.schedule.as_slice(), harts, self.machine.steps());
        self.machine.hart(i).pc()
    }

    // Makes a step, and answers the ending that the machine then has.
    #[tactic(auto, using(crate::proofs::Steps::settings_kept))]
    fn step(&mut self) -> Option<Ending>
        ensures after { self.new ≡ stepped self.old }
        ensures ending { result ≡ self.new.machine.ended }
        ensures settings { self.new.machine.settings ≡ self.old.machine.settings }
    {
        self.machine.step(
            self.input.as_slice(),
            self.schedule.as_slice(),
            &self.script,
        )
    }

    /// Makes so many steps, at least one, and answers the ending that the machine then has.
    pub(crate) fn advance(&mut self, n: u64) -> Option<Ending>
        requires { 1 ≤ n }
        ensures after { self.new ≡ advanced n self.old }
        ensures ending { result ≡ self.new.machine.ended }
        ensures settings { self.new.machine.settings ≡ self.old.machine.settings }
    {
        let mut ending = self.step();
        for _done in 1..n {
            match ending {
                Some(found) => return Some(found),
                None => ending = self.step(),
            }
        }
        ending
    }

    // Whether a run holds here, where the machine has this ending or none.
    fn is_held(&self, breakpoints: &[u64], ending: Option<Ending>) -> bool
        requires { ending ≡ self.now.machine.ended }
        ensures { result ≡ is_held breakpoints.now self.now }
    {
        match ending {
            Some(_) => true,
            None => is_among(breakpoints, self.next_pc()),
        }
    }

    /// Makes a step, goes on to a breakpoint or to the ending, and answers the ending that the
    /// machine then has.
    #[tactic(auto, using(crate::proofs::Steps::held_here, crate::proofs::Steps::held_next, crate::proofs::Steps::held_over))]
    pub(crate) fn run_on(&mut self, breakpoints: &[u64]) -> Option<Ending>
        ensures after { self.new ≡ run_on breakpoints.now self.old }
        ensures ending { result ≡ self.new.machine.ended }
        ensures settings { self.new.machine.settings ≡ self.old.machine.settings }
    {
        let left = self
            .machine
            .settings()
            .budget
            .saturating_sub(self.machine.steps());
        let mut found = self.step();
        for _done in 0..left {
            if self.is_held(breakpoints, found) {
                return found;
            }
            found = self.step();
        }
        found
    }

    /// Appends where the machine stands, or how it ended.
    pub(crate) fn push_standing(&self, reply: &mut Reply, lead: &[u8], ending: Option<Ending>)
        requires empty { reply.old ≡ [] }
        requires lead { length lead.now ≤ 16 }
        requires ending { ending ≡ self.now.machine.ended }
        ensures { reply.new ≡ standing_of lead.now self.now }
    {
        match ending {
            Some(ending) => push_stop(reply, &ending),
            None => push_at(reply, lead, self.machine.steps(), self.next_pc()),
        }
    }
}

// Appends how a machine ended.
fn push_stop(reply: &mut Reply, ending: &Ending)
    requires { reply.old ≡ [] }
    ensures { reply.new ≡ stop_line ending.now }
{
    let mut stop = ArrayVec::<u8, 96>::new();
    stop_text(&ending.stop, &mut stop);
    reply.push(b"stop ");
    reply.push(stop.as_slice());
    reply.push(b" steps ");
    reply.push_number(ending.steps);
    reply.push(b"\n");
}

// Appends where a machine stands.
fn push_at(reply: &mut Reply, lead: &[u8], steps: u64, pc: u64)
    requires empty { reply.old ≡ [] }
    requires lead { length lead.now ≤ 16 }
    ensures { reply.new ≡ at_line lead.now steps pc }
{
    reply.push(lead);
    reply.push_number(steps);
    reply.push(b" pc ");
    reply.push_address(pc);
    reply.push(b"\n");
}
