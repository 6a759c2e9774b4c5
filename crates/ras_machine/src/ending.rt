//! How a run ends.

ghost use Rattle.std.specs.Prelude.{◌≡◌, ◌+◌, ◌<◌, ◌≤◌, ◌^◌};
ghost use Rattle.ras_machine.specs.Ends.{guest_ending, fatal_of};

use poison_mem::{RecordId, UseKind};
use sbi_calls::GuestStop;

/// Why a run stops.
#[derive(Clone, Copy, Debug, PartialEq, Eq)]
pub enum Stop {
    /// The program asked for the machine to be shut down, for this reason.
    Shutdown(u32),
    /// The program asked for a reboot of this kind.
    Reboot(u32),
    /// The run has made as many steps as its budget.
    Budget,
    /// The next step would bring the console over 1,048,576 bytes.
    ConsoleFull,
    /// The next step asked for word `w`, for this use, and the word is poison. The step began at
    /// this pc.
    Consumed { w: u32, use_kind: UseKind, pc: u64 },
    /// Record `rec` of bank `bank` keeps a critical error. It is the first that does.
    Injected { bank: u8, rec: u8 },
}

/// The end of a run: why it stopped, and how many steps it completed.
///
/// A step that shuts the machine down or reboots it is completed. One that would overfill the
/// console isn't.
#[derive(Clone, Copy, Debug, PartialEq, Eq)]
pub struct Ending {
    pub stop: Stop,
    pub steps: u64,
}

/// The ending of a run that its program stops in step `n`.
pub(crate) fn stopped(stop: GuestStop, n: u64) -> Ending
    requires { n + 1 < 2 ^ 64 }
    ensures ending { result ≡ guest_ending stop n }
    ensures steps { result.steps ≤ n + 1 }
{
    match stop {
        GuestStop::Shutdown(reason) => Ending {
            stop: Stop::Shutdown(reason),
            steps: n + 1,
        },
        GuestStop::Reboot(kind) => Ending {
            stop: Stop::Reboot(kind),
            steps: n + 1,
        },
        GuestStop::ConsoleFull => Ending {
            stop: Stop::ConsoleFull,
            steps: n,
        },
    }
}

/// The bank and the number of the record with the fatal error that a stop is for.
pub(crate) fn fatal_of(stop: Stop) -> Option<(u8, u8)>
    ensures { result ≡ fatal_of stop }
{
    match stop {
        Stop::Consumed { .. } => Some((RecordId::Hart.bank(), RecordId::Hart.record())),
        Stop::Injected { bank, rec } => Some((bank, rec)),
        Stop::Shutdown(_) => None,
        Stop::Reboot(_) => None,
        Stop::Budget => None,
        Stop::ConsoleFull => None,
    }
}
