//! Calls to the firmware that name other harts (SBI specification, chapters "HSM" and "IPI").

ghost use Rattle.std.specs.Prelude.{◌≡◌, ◌≤◌};
ghost use Rattle.rv64_hart.specs.Around.{around_of};
ghost use Rattle.rv64_hart.specs.HartCalls.{start_asked, status_asked, interrupts_asked};
ghost use Rattle.rv64_hart.specs.Outcome.{went, acting};

use crate::around::Around;
use crate::ends::Effect;
use crate::hart::Hart;
use ras_bits::is_ram;
use sbi_calls::{SbiError, selected_harts, status_answer};

impl Hart {
    /// Starts hart `id` at an address. It is refused where there is no such hart, then where it is started, then where
    /// no instruction can be at the address.
    #[tactic(auto, unfolding(crate::specs::HartCalls::start_asked))]
    pub(crate) fn start_peer(
        &mut self,
        around: Around<'_>,
        id: u64,
        entry: u64,
        opaque: u64,
    ) -> Effect
        requires { around.peers.harts ≤ 4 }
        ensures { start_asked (around_of around.entry) self.old id entry opaque ≡ acting self.new result }
    {
        if !around.peers.has(id) {
            self.refuse(SbiError::InvalidParam);
            return Effect::Nothing;
        }
        let hart = id as u8;
        if around.peers.is_started(hart) {
            self.refuse(SbiError::AlreadyAvailable);
            Effect::Nothing
        } else if is_ram(around.words, entry) && entry % 4 == 0 {
            self.answer(0);
            Effect::Start {
                hart,
                entry,
                opaque,
            }
        } else {
            self.refuse(SbiError::InvalidAddress);
            Effect::Nothing
        }
    }

    /// Answers whether hart `id` is started.
    #[tactic(auto, unfolding(crate::specs::HartCalls::status_asked))]
    pub(crate) fn answer_status(&mut self, around: Around<'_>, id: u64)
        requires { around.peers.harts ≤ 4 }
        ensures { status_asked (around_of around.entry) self.old id ≡ went self.new }
    {
        if around.peers.has(id) {
            self.answer(status_answer(around.peers.is_started(id as u8)));
        } else {
            self.refuse(SbiError::InvalidParam);
        }
    }

    /// Sends an interrupt to the started ones of the harts of a mask and a base.
    pub(crate) fn send_interrupts(&mut self, around: Around<'_>, mask: u64, base: u64) -> Effect
        requires { around.peers.harts ≤ 4 }
        ensures { interrupts_asked (around_of around.entry) self.old mask base ≡ acting self.new result }
    {
        match selected_harts(mask, base, around.peers.harts) {
            Some(harts) => {
                self.answer(0);
                Effect::Ipi(around.peers.started & harts)
            }
            None => {
                self.refuse(SbiError::InvalidParam);
                Effect::Nothing
            }
        }
    }
}
