//! The bits of sstatus.

ghost use Rattle.std.specs.Prelude.{◌≡◌, ◌+◌, ◌*◌, ◌^◌, bit_and};
ghost use Rattle.rv64_csr.specs.Table.{csr_row};
ghost use Rattle.rv64_csr.specs.declared.table.Register.TheVariants.{Sstatus};
ghost use Rattle.rv64_csr.specs.Status.{sstatus_of, status_from};

use ras_bits::{Mode, has_bit};

/// What sstatus holds. UXL always reads 2, the 64-bit U mode.
#[derive(Clone, Copy)]
pub struct SupervisorStatus {
    /// SIE: S mode takes interrupts.
    pub sie: bool,
    /// SPIE: SIE before the trap.
    pub spie: bool,
    /// SPP: the mode before the trap.
    pub spp: Mode,
    /// SUM: S mode may load and store in pages of U mode.
    pub sum: bool,
    /// MXR: loads may read executable pages.
    pub mxr: bool,
}

impl SupervisorStatus {
    /// The register as it reads.
    pub fn number(self) -> u64
        ensures { result ≡ sstatus_of self }
    {
        let spp = match self.spp {
            Mode::User => 0,
            Mode::Supervisor => 1,
        };
        ((self.sie as u64) << 1)
            + ((self.spie as u64) << 5)
            + (spp << 8)
            + ((self.sum as u64) << 18)
            + ((self.mxr as u64) << 19)
            + (2 << 32)
    }

    /// The register after a write of these bits.
    pub fn of(bits: u64) -> SupervisorStatus
        ensures value { result ≡ status_from bits }
        ensures kept { sstatus_of (status_from bits) ≡ bit_and bits (csr_row Sstatus).writable + 2 * 2 ^ 32 }
    {
        SupervisorStatus {
            sie: has_bit(bits, 1),
            spie: has_bit(bits, 5),
            spp: if has_bit(bits, 8) {
                Mode::Supervisor
            } else {
                Mode::User
            },
            sum: has_bit(bits, 18),
            mxr: has_bit(bits, 19),
        }
    }
}
