//! Calls to the firmware (SBI specification).

ghost use Rattle.std.specs.Prelude.{◌≡◌, ◌≤◌, [], length};
ghost use Rattle.sbi_calls.specs.Call.{IsServed};
ghost use Rattle.sbi_calls.specs.Reset.{reset_stop};
ghost use Rattle.rv64_hart.specs.Answers.{answered, refused, answered_legacy};
ghost use Rattle.rv64_hart.specs.Around.{around_of};
ghost use Rattle.rv64_hart.specs.Firmware.{byte_asked, served, firmware_called};
ghost use Rattle.rv64_hart.specs.Outcome.{taking};
ghost use Rattle.rv64_hart.specs.Program.{IsTold, ResetEnds};
ghost use Rattle.rv64_hart.specs.Step.{scene, stepped, step_of};

use crate::around::Around;
use crate::console::Console;
use crate::ends::{Effect, TurnEnd};
use crate::hart::Hart;
use poison_mem::{Bus, EventLog};
use sbi_calls::{GuestStop, SbiCall, SbiError, base_answer, probe_answer, reset_of, span};

impl Hart {
    /// Answers a call with a value, and goes on behind it.
    pub(crate) fn answer(&mut self, value: u64)
        ensures { self.new ≡ answered self.old value }
    {
        self.skip();
        self.set_x(10, 0);
        self.set_x(11, value);
    }

    /// Answers a call with an error, and goes on behind it.
    pub(crate) fn refuse(&mut self, error: SbiError)
        ensures { self.new ≡ refused self.old error }
    {
        self.skip();
        self.set_x(10, error.code());
        self.set_x(11, 0);
    }

    /// Answers a legacy call with a value, and goes on behind it.
    fn answer_legacy(&mut self, value: u64)
        ensures { self.new ≡ answered_legacy self.old value }
    {
        self.skip();
        self.set_x(10, value);
    }

    /// Answers the next byte of the input, or -1 at its end, and how many bytes are taken.
    fn take_byte(&mut self, input: &[u8]) -> u64
        ensures answer { byte_asked self.old input.now ≡ taking self.new result [] }
        ensures taken { result ≤ length input.now }
    {
        match input {
            [] => {
                self.answer_legacy(u64::MAX);
                0
            }
            [byte, ..] => {
                self.answer_legacy(u64::from(*byte));
                1
            }
        }
    }

    /// A system reset: the machine stops, or the call is refused.
    fn answer_reset(&mut self, kind: u64, reason: u64) -> TurnEnd
        ensures { ResetEnds (reset_stop kind reason) self.old self.new result }
    {
        match reset_of(kind, reason) {
            Some(stop) => {
                self.skip();
                TurnEnd::Stop(stop)
            }
            None => {
                self.refuse(SbiError::InvalidParam);
                TurnEnd::Went(Effect::Nothing)
            }
        }
    }

    /// Serves the call that the registers ask for.
    #[tactic(auto, unfolding(crate::specs::Firmware::firmware_called))]
    pub(crate) fn call_firmware<B: Bus, G: EventLog>(
        &mut self,
        around: Around<'_>,
        place: &mut u64,
        bus: &mut B,
        log: &mut G,
        con: &mut Console,
    ) -> TurnEnd
        requires { IsTold (B.meaning.words bus.old) place.old (around_of around) }
        ensures { step_of B.meaning G.logged (firmware_called (around_of around.entry) self.old)
            (scene self.old place.old con.old bus.old log.old)
            ≡ stepped result (scene self.new place.new con.new bus.new log.new) }
    {
        let call = SbiCall::of(self.registers());
        self.serve(around, call, place, bus, log, con)
    }

    /// Serves a call.
    #[tactic(auto, unfolding(crate::specs::Firmware::served, crate::specs::Step::finished))]
    fn serve<B: Bus, G: EventLog>(
        &mut self,
        around: Around<'_>,
        call: SbiCall,
        place: &mut u64,
        bus: &mut B,
        log: &mut G,
        con: &mut Console,
    ) -> TurnEnd
        requires told { IsTold (B.meaning.words bus.old) place.old (around_of around) }
        requires call { IsServed call }
        ensures { step_of B.meaning G.logged (served (around_of around.entry) self.old call)
            (scene self.old place.old con.old bus.old log.old)
            ≡ stepped result (scene self.new place.new con.new bus.new log.new) }
    {
        match call {
            SbiCall::Base(function) => self.answer(base_answer(function)),
            SbiCall::Probe(extension) => self.answer(probe_answer(extension)),
            SbiCall::SetTimer(time) => {
                self.set_timer(time);
                self.answer(0);
            }
            SbiCall::LegacyTimer(time) => {
                self.set_timer(time);
                self.answer_legacy(0);
            }
            SbiCall::HartStart { id, entry, opaque } => {
                return TurnEnd::Went(self.start_peer(around, id, entry, opaque));
            }
            SbiCall::HartStop => {
                self.answer(0);
                return TurnEnd::Went(Effect::StopSelf);
            }
            SbiCall::HartStatus(id) => self.answer_status(around, id),
            SbiCall::SendIpi { mask, base } => {
                return TurnEnd::Went(self.send_interrupts(around, mask, base));
            }
            SbiCall::Unknown => self.refuse(SbiError::NotSupported),
            SbiCall::LegacyShutdown => {
                self.skip();
                return TurnEnd::Stop(GuestStop::Shutdown(0));
            }
            SbiCall::Reset { kind, reason } => return self.answer_reset(kind, reason),
            SbiCall::Getchar => *place += self.take_byte(around.input),
            SbiCall::Putchar(byte) => {
                if !con.write(&[byte]) {
                    return TurnEnd::Stop(GuestStop::ConsoleFull);
                }
                self.answer_legacy(0);
            }
            SbiCall::ConByte(byte) => {
                if !con.write(&[byte]) {
                    return TurnEnd::Stop(GuestStop::ConsoleFull);
                }
                self.answer(0);
            }
            SbiCall::ConWrite { n, lo, hi } => match span(n, lo, hi, around.words) {
                Some((address, n)) => {
                    return self.write_span(around.words, address, n, bus, log, con);
                }
                None => self.refuse(SbiError::InvalidParam),
            },
            SbiCall::ConRead { n, lo, hi } => match span(n, lo, hi, around.words) {
                Some((address, n)) => {
                    *place += self.read_span(around.words, address, n, around.input, bus, log);
                }
                None => self.refuse(SbiError::InvalidParam),
            },
        }
        TurnEnd::Went(Effect::Nothing)
    }
}
