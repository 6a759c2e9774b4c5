//! The harts of a machine, as each of them is told of them.

ghost use Rattle.std.specs.Prelude.{◌≡◌, ◌<◌, nat_lt};
ghost use Rattle.ras_bits.specs.Bits.{has_bit};

use ras_bits::has_bit;

/// How many harts a machine has, 1 to 4, and which of them are started: bit i of `started` for hart i.
#[derive(Clone, Copy, Debug, PartialEq, Eq)]
pub struct Peers {
    pub harts: u8,
    pub started: u8,
}

impl Peers {
    /// Whether there is a hart of this number, of which all 64 bits count.
    pub(crate) fn has(self, id: u64) -> bool
        ensures { result ≡ nat_lt id self.harts }
    {
        id < u64::from(self.harts)
    }

    /// Whether a hart is started.
    pub(crate) fn is_started(self, id: u8) -> bool
        requires { id < 8 }
        ensures { result ≡ has_bit self.started id }
    {
        has_bit(u64::from(self.started), u32::from(id))
    }
}
