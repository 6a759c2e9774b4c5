//! How a guest ends a run.

/// A stop that comes from the guest.
#[derive(Clone, Copy, Debug, PartialEq, Eq)]
pub enum GuestStop {
    /// A shutdown, with its reset reason: 0 none, 1 system failure.
    Shutdown(u32),
    /// A reboot, with its reset type: 1 cold, 2 warm.
    Reboot(u32),
    /// The console has no room for the bytes of the step.
    ConsoleFull,
}
