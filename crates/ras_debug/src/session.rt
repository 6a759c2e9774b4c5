//! A session.

ghost use Rattle.std.specs.Prelude.{◌≡◌, ◌≤◌, [], IfOk};
ghost use Rattle.fault_script.specs.Fits.{IsScriptFor};
ghost use Rattle.ras_machine.specs.Schedule.{given_by};
ghost use Rattle.ras_machine.specs.Settings.{ram_words};
ghost use Rattle.ras_debug.specs.Asked.{CanAnswer};
ghost use Rattle.ras_debug.specs.declared.requests.Request.TheVariants as requests;
ghost use Rattle.ras_debug.specs.Session.{answered, breakpoint_set, refused, requested, session_of, turn_at, turn_of_request};

use crate::commands::Why;
use crate::inspecting::{push_bank, push_instructions, push_poison, push_words, ram_words};
use crate::reply::Reply;
use crate::requests::{Request, read_request};
use crate::running::{Running, is_among};
use arrayvec::ArrayVec;
use fault_script::Script;
use ras_bits::NoMemory;
use ras_machine::Machine;
use ras_report::{Report, registers};
use std::alloc::Global;
use std::marker::Model;

/// The most breakpoints.
pub(crate) const MOST_BREAKPOINTS: usize = 16;

/// Whether a session goes on.
#[derive(Clone, Copy, Debug, PartialEq, Eq)]
pub enum Turn {
    /// It goes on with the next line.
    More,
    /// The line was `quit`.
    Quit,
}

/// A debugger's session over a machine: lines and their replies.
///
/// A line is words between spaces and tabs. A carriage return at its end is passed over. An empty
/// line, and one whose first word begins with `#`, has an empty reply.
///
/// | line | what it does, and its reply |
/// |---|---|
/// | `step N` | makes N steps, 1 to 1,000,000,000: `at S pc P`, or `stop STOP steps S` |
/// | `run` | makes a step, and more up to the first pc with a breakpoint: `break at S pc P`, or `stop STOP steps S` |
/// | `break A` | sets a breakpoint, one of at most 16: `break A set`; where it is set already it stays |
/// | `regs` | the lines of the report with the registers of all harts |
/// | `mem A N` | N lines `A V` or `A poison`, one for each word of 8 bytes from A on, as a read would see it |
/// | `poison` | `A` for each of the first 256 words that a read would find poisoned, then `total K` of all |
/// | `bank B` | `rec R control V status V addr V info V suppl V time V` for each record of an error bank |
/// | `list A N` | N lines `A 0xWWWWWWWW TEXT` or `A poison`, one for each instruction from A on |
/// | `quit` | nothing, and the session ends |
///
/// S is the number of completed steps, P the pc of the hart that makes the next one, and STOP the
/// text of [`ras_report::stop_text`]. A machine that has ended stays as it is: `step` and `run`
/// answer its stop again. A, P and V are printed as `0x` and 16 hexadecimal digits, S, K and R in
/// decimal; each line of a reply ends with a line feed. In lines, numbers are decimal digits, or
/// `0x` and hexadecimal digits.
///
/// A line that is refused has the reply `refused: WHY`, with the first of these causes, where
/// fields are tested from left to right, and changes nothing else.
///
/// | WHY | cause |
/// |---|---|
/// | `bytes` | a byte is neither printable ASCII, a space nor a tab, also behind `#` |
/// | `word` | the first word is no command |
/// | `count` | the command has another number of words |
/// | `number` | a field is no number below 2^64 |
/// | `address` | A is no multiple of 8 (`mem`) or 4 (`break`, `list`), or isn't in RAM (`mem`, `list`) |
/// | `range` | N of `step` is outside its bounds, N of `mem` and `list` isn't 1 to 256 or passes the end of RAM, B is above 2 |
/// | `full` | there are 16 breakpoints, and A is none of them |
#[derive(Drop)]
pub struct Session {
    running: Running,
    breakpoints: ArrayVec<u64, MOST_BREAKPOINTS>,
    reply: Reply,
}

impl Model for Session {
    ghost use Rattle.ras_debug.specs.Session.{SessionState};

    ghost Value = { SessionState };

    ghost view = { λ s. record {
      run = s.running;
      breakpoints = s.breakpoints.items;
      reply = s.reply;
    } };
}

impl Session {
    /// A session over a machine, with the input, the schedule and the script of its run, which was
    /// read for the machine's RAM. The room for replies is taken here.
    ///
    /// `NoMemory` comes for want of memory alone; all were then dropped.
    pub fn make(
        alloc: Global,
        m: Machine,
        input: Vec<u8>,
        schedule: Vec<u8>,
        script: Script,
    ) -> Result<Session, NoMemory>
        requires { IsScriptFor (ram_words m.settings) script.lines }
        ensures { let given = given_by input.items schedule.items in
            IfOk result (λ s. s ≡ session_of m given script.lines) }
    {
        let running = Running::new(m, input, schedule, script);
        match Reply::make(alloc) {
            Ok(reply) => Ok(Session {
                running,
                breakpoints: ArrayVec::new(),
                reply,
            }),
            Err(want) => {
                // By a call: a drop in place has this proof go through each part of a machine.
                drop(running);
                Err(want)
            }
        }
    }

    /// Does what a line asks for, and says whether the session goes on. The reply is then
    /// [`Session::reply`]. A line that is refused changes nothing else.
    #[tactic(auto, using(crate::proofs::Sessions::emptied))]
    pub fn answer(&mut self, line: &[u8]) -> Turn
        ensures after { self.new ≡ answered line.now self.old }
        ensures turn { result ≡ turn_at line.now self.old }
    {
        self.reply.clear();
        match read_request(line, ram_words(self.running.machine())) {
            Ok(asked) => self.request(asked),
            Err(why) => {
                self.refuse(why);
                Turn::More
            }
        }
    }

    // Writes the reply of a refused line.
    fn refuse(&mut self, why: Why)
        requires { self.old.reply ≡ [] }
        ensures { self.new ≡ refused why self.old }
    {
        self.reply.push(b"refused: ");
        self.reply.push(why.text());
        self.reply.push(b"\n");
    }

    // Does what is asked for.
    #[tactic(auto, using(crate::proofs::Sessions::unasked))]
    fn request(&mut self, asked: Request) -> Turn
        requires empty { self.old.reply ≡ [] }
        requires fits { CanAnswer (ram_words self.old.run.machine.settings) asked }
        ensures after { self.new ≡ requested asked self.old }
        ensures turn { result ≡ turn_of_request asked }
    {
        match asked {
            Request::Nothing => {}
            Request::Step(n) => self.step(n),
            Request::Run => self.run(),
            Request::Break(address) => self.set_break(address),
            Request::Regs => self.show_registers(),
            Request::Mem { w, n } => push_words(&mut self.reply, self.running.machine(), w, n),
            Request::Poison => push_poison(&mut self.reply, self.running.machine()),
            Request::Bank(b) => push_bank(&mut self.reply, self.running.machine(), b),
            Request::List { address, n } => {
                push_instructions(&mut self.reply, self.running.machine(), address, n)
            }
            Request::Quit => return Turn::Quit,
        }
        Turn::More
    }

    fn step(&mut self, n: u64)
        requires empty { self.old.reply ≡ [] }
        requires some { 1 ≤ n }
        ensures { self.new ≡ requested (requests.Step n) self.old }
    {
        let ending = self.running.advance(n);
        self.running.push_standing(&mut self.reply, b"at ", ending);
    }

    fn run(&mut self)
        requires { self.old.reply ≡ [] }
        ensures { self.new ≡ requested requests.Run self.old }
    {
        let ending = self.running.run_on(self.breakpoints.as_slice());
        self.running
            .push_standing(&mut self.reply, b"break at ", ending);
    }

    fn show_registers(&mut self)
        requires { self.old.reply ≡ [] }
        ensures { self.new ≡ requested requests.Regs self.old }
    {
        let mut text = Report::new();
        registers(self.running.machine(), &mut text);
        self.reply.push(text.as_slice());
    }

    fn set_break(&mut self, address: u64)
        requires { self.old.reply ≡ [] }
        ensures { self.new ≡ breakpoint_set address self.old }
    {
        if !is_among(self.breakpoints.as_slice(), address) {
            if self.breakpoints.is_full() {
                return self.refuse(Why::Full);
            }
            self.breakpoints.push(address);
        }
        self.reply.push(b"break ");
        self.reply.push_address(address);
        self.reply.push(b" set\n");
    }

    /// The text of the last reply; nothing before the first line.
    pub fn reply(&self) -> &[u8]
        ensures { result.now ≡ self.now.reply }
    {
        self.reply.written()
    }
}
