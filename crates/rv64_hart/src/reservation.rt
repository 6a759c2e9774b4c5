//! The reservation that LR makes and SC needs (unprivileged manual, "Load-Reserved/Store-Conditional Instructions").

ghost use Rattle.std.specs.Prelude.{◌≡◌, ◌==◌, ◌&&◌, IfSome, true};
ghost use Rattle.rv64_hart.specs.Access.{bytes_in};
ghost use Rattle.rv64_hart.specs.HartState.{width_from, reservation_at};
ghost use Rattle.rv64_hart.specs.Reservation.{is_reservation};
ghost use Rattle.rv64_hart.specs.State.{lies_in};

use crate::access::Width;
use ras_bits::word_address;

/// What is reserved.
#[derive(Clone, Copy)]
pub(crate) struct Reservation {
    /// The physical address.
    pub(crate) address: u64,
    pub(crate) width: Width,
}

impl Reservation {
    /// The reservation of so many bytes at a physical address, where it is one: of 4 or 8 bytes, at a multiple of them.
    pub(crate) fn of(address: u64, bytes: u8) -> Option<Reservation>
        ensures value { result ≡ reservation_at address (width_from bytes) }
        ensures one { IfSome result (λ r. is_reservation r ≡ true) }
    {
        let width = match bytes {
            4 => Width::Word,
            8 => Width::Doubleword,
            _ => return None,
        };
        if width.divides(address) {
            Some(Reservation { address, width })
        } else {
            None
        }
    }

    /// Whether it is of this physical address and width.
    pub(crate) fn is_of(self, physical: u64, width: Width) -> bool
        ensures { result ≡ ((self.address == physical) && (bytes_in self.width == bytes_in width)) }
    {
        self.address == physical && self.width.bytes() == width.bytes()
    }

    /// Whether it lies in word `w` of RAM.
    pub(crate) fn lies_in(self, w: u32) -> bool
        ensures { result ≡ lies_in self w }
    {
        let base = word_address(w);
        base <= self.address && self.address < base + 8
    }
}
