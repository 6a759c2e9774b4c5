//! Why a run stopped.

ghost use Rattle.std.specs.Prelude.{◌≡◌, ◌+◌, ◌≤◌, ◌++◌, length};
ghost use Rattle.arrayvec.specs.ArrayVec.{array_vec_len};
ghost use Rattle.ras_report.specs.Stops.{stop_text, use_text};

use crate::text::{push, push_address, push_number, push_short};
use arrayvec::ArrayVec;
use poison_mem::UseKind;
use ras_bits::word_address;
use ras_machine::Stop;

// What a poisoned word was asked for.
fn use_text(use_kind: UseKind) -> &'static [u8]
    ensures text { result.now ≡ use_text use_kind }
    ensures short { length result.now ≤ 5 }
{
    match use_kind {
        UseKind::Fetch => b"fetch",
        UseKind::Walk => b"walk",
        UseKind::Load => b"load",
        UseKind::Amo => b"amo",
        UseKind::Sbi => b"sbi",
    }
}

/// Appends why a run stopped.
pub(crate) fn push_stop<const N: usize>(text: &mut ArrayVec<u8, N>, stop: Stop)
    requires { array_vec_len text.old + 60 ≤ N }
    ensures items { text.new.items ≡ text.old.items ++ stop_text stop }
    ensures len { array_vec_len text.new ≤ array_vec_len text.old + 60 }
{
    match stop {
        Stop::Shutdown(reason) => {
            push(text, b"shutdown:");
            push_number(text, u64::from(reason));
        }
        Stop::Reboot(kind) => {
            push(text, b"reboot:");
            push_number(text, u64::from(kind));
        }
        Stop::Budget => push(text, b"budget"),
        Stop::ConsoleFull => push(text, b"console-full"),
        Stop::Consumed { w, use_kind, pc } => {
            push(text, b"consumed:");
            push_address(text, word_address(w));
            push(text, b":");
            push(text, use_text(use_kind));
            push(text, b":");
            push_address(text, pc);
        }
        Stop::Injected { bank, rec } => {
            push(text, b"injected:");
            push_short(text, bank);
            push(text, b".");
            push_short(text, rec);
        }
    }
}

/// Replaces the contents of `out` by the text of a stop: `shutdown:REASON`, `reboot:KIND`,
/// `budget`, `console-full`, `consumed:ADDRESS:USE:PC` or `injected:BANK.REC`. Each fits.
pub fn stop_text(s: &Stop, out: &mut ArrayVec<u8, 96>)
    ensures { out.new.items ≡ stop_text s.now }
{
    out.clear();
    push_stop(out, *s);
}
