//! The register file.

ghost use Rattle.std.specs.Prelude.{◌≡◌, ◌+◌, ◌/◌, ◌%◌, ◌^◌, ◌⊎◌};
ghost use Rattle.rv64_csr.specs.Csrs.{CsrFile, reset_file, sip_of, register_value, register_written, has_known_mode, read_of, write_of, trap_vector, entered, returned, pending_of, is_waiting};
ghost use Rattle.rv64_csr.specs.Table.{HasWritableBitsAlone};
ghost use Rattle.rv64_csr.specs.Parts.{parts_of, file_from, is_held};

use crate::interrupt::Interrupt;
use crate::parts::CsrParts;
use crate::status::SupervisorStatus;
use crate::table::Register;
use ras_bits::{Mode, has_bit};
use std::marker::Model;

/// The supervisor's registers, the timer, and the number of retired instructions.
#[derive(Drop)]
pub struct Csrs {
    status: SupervisorStatus,
    sie: u64,
    stvec: u64,
    scounteren: u64,
    sscratch: u64,
    sepc: u64,
    scause: u64,
    stval: u64,
    ssip: bool,
    satp: u64,
    timer: u64,
    retired: u64,
}

impl Model for Csrs {
    ghost use Rattle.rv64_csr.specs.Csrs.{CsrFile, IsFileHeld};

    ghost Value = { CsrFile };

    ghost view = { λ a. record { status = a.status; sie = a.sie; stvec = a.stvec; scounteren = a.scounteren; sscratch = a.sscratch; sepc = a.sepc; scause = a.scause; stval = a.stval; ssip = a.ssip; satp = a.satp; timer = a.timer; retired = a.retired } };

    ghost invariant = { λ a. IsFileHeld a.sie a.stvec a.scounteren a.sepc a.satp };
}

impl Csrs {
    /// The registers of a new hart: all zero but for UXL, and the timer at the greatest number.
    pub fn new() -> Csrs
        ensures { result ≡ reset_file }
    {
        Csrs {
            status: SupervisorStatus {
                sie: false,
                spie: false,
                spp: Mode::User,
                sum: false,
                mxr: false,
            },
            sie: 0,
            stvec: 0,
            scounteren: 0,
            sscratch: 0,
            sepc: 0,
            scause: 0,
            stval: 0,
            ssip: false,
            satp: 0,
            timer: u64::MAX,
            retired: 0,
        }
    }

    /// What the register of this number reads in step `now`.
    ///
    /// `None` exactly where there is no such register, or it isn't permitted in `mode`: those of S mode
    /// aren't in U mode, and the counters are there as scounteren says.
    pub fn read(&self, num: u16, mode: Mode, now: u64) -> Option<u64>
        ensures { result ≡ read_of self.now num mode now }
    {
        match Register::at(num) {
            None => None,
            Some(register) => {
                if register.row().permission.is_open_to(mode, self.scounteren) {
                    Some(self.register_value(now, register))
                } else {
                    None
                }
            }
        }
    }

    /// What a register reads in step `now`.
    fn register_value(&self, now: u64, register: Register) -> u64
        ensures { result ≡ register_value self.now now register }
    {
        match register {
            Register::Sstatus => self.status.number(),
            Register::Sie => self.sie,
            Register::Stvec => self.stvec,
            Register::Scounteren => self.scounteren,
            Register::Sscratch => self.sscratch,
            Register::Sepc => self.sepc,
            Register::Scause => self.scause,
            Register::Stval => self.stval,
            Register::Sip => self.sip(now),
            Register::Satp => self.satp,
            Register::Cycle | Register::Time => now,
            Register::Instret => self.retired,
        }
    }

    /// sip in step `now`: SSIP as it was written, and STIP where `now` is at least the timer.
    fn sip(&self, now: u64) -> u64
        ensures { result ≡ sip_of self.now now }
    {
        ((self.ssip as u64) << 1) + (((self.timer <= now) as u64) << 5)
    }

    /// Writes the register of this number: its writable bits are taken from `v`. A value of satp whose
    /// MODE is neither 0 nor 8 changes nothing.
    ///
    /// False exactly where there is no such register, it isn't permitted in `mode`, or it is read-only,
    /// and then nothing changes.
    #[tactic(auto, using(crate::proofs::Masks::and_twice))]
    pub fn write(&mut self, num: u16, mode: Mode, v: u64) -> bool
        ensures { write_of self.old num mode v ≡ record { answer = result; after = self.new } }
    {
        match Register::at(num) {
            None => false,
            Some(register) => {
                let row = register.row();
                if row.permission.is_open_to(mode, self.scounteren)
                    && !row.permission.is_read_only()
                {
                    self.store(register, v & row.writable);
                    true
                } else {
                    false
                }
            }
        }
    }

    /// Puts writable bits into a register.
    fn store(&mut self, register: Register, v: u64)
        requires { HasWritableBitsAlone register v }
        ensures { self.new ≡ register_written self.old register v }
    {
        match register {
            Register::Sstatus => self.status = SupervisorStatus::of(v),
            Register::Sie => self.sie = v,
            Register::Stvec => self.stvec = v,
            Register::Scounteren => self.scounteren = v,
            Register::Sscratch => self.sscratch = v,
            Register::Sepc => self.sepc = v,
            Register::Scause => self.scause = v,
            Register::Stval => self.stval = v,
            Register::Sip => self.ssip = has_bit(v, 1),
            Register::Satp => {
                if has_known_mode(v) {
                    self.satp = v;
                }
            }
            Register::Cycle | Register::Time | Register::Instret => {}
        }
    }

    /// Enters a trap from the instruction at `pc` in `mode`, and answers the new pc, in S mode.
    ///
    /// `cause` goes to scause, and has bit 63 set for an interrupt. `tval` goes to stval. sepc becomes
    /// `pc` with bits 1:0 clear, SPIE becomes SIE, SIE 0 and SPP `mode`. The new pc is the base of stvec,
    /// and where stvec is vectored and the cause an interrupt of number n, that base + 4 * n.
    #[tactic(auto, using(crate::proofs::Masks::and_twice))]
    pub fn enter(&mut self, cause: u64, tval: u64, pc: u64, mode: Mode) -> u64
        ensures pc { result ≡ trap_vector self.old.stvec cause }
        ensures aligned { result % 4 ≡ 0 }
        ensures after { self.new ≡ entered self.old cause tval pc mode }
    {
        self.status.spie = self.status.sie;
        self.status.sie = false;
        self.status.spp = mode;
        self.sepc = pc & Register::Sepc.row().writable;
        self.scause = cause;
        self.stval = tval;
        trap_vector(self.stvec, cause)
    }

    /// Returns from a trap (SRET), and answers the mode of SPP and the pc of sepc to go on with. SIE
    /// becomes SPIE, SPIE 1 and SPP U mode.
    pub fn sret(&mut self) -> (Mode, u64)
        ensures mode { result.0 ≡ self.old.status.spp }
        ensures pc { result.1 ≡ self.old.sepc }
        ensures aligned { result.1 % 4 ≡ 0 }
        ensures after { self.new ≡ returned self.old }
    {
        let mode = self.status.spp;
        self.status.sie = self.status.spie;
        self.status.spie = true;
        self.status.spp = Mode::User;
        (mode, self.sepc)
    }

    /// The cause of the interrupt that is taken in step `now`, with bit 63 set.
    ///
    /// `None` exactly where none is taken: no interrupt has its bits in sie and sip set, or `mode` is S
    /// and SIE is clear. The order is external, software, timer.
    pub fn pending(&self, now: u64, mode: Mode) -> Option<u64>
        ensures { result ≡ pending_of self.now now mode }
    {
        let takes_interrupts = match mode {
            Mode::User => true,
            Mode::Supervisor => self.status.sie,
        };
        if !takes_interrupts {
            None
        } else if self.is_waiting(now, Interrupt::External) {
            Some(Interrupt::External.cause())
        } else if self.is_waiting(now, Interrupt::Software) {
            Some(Interrupt::Software.cause())
        } else if self.is_waiting(now, Interrupt::Timer) {
            Some(Interrupt::Timer.cause())
        } else {
            None
        }
    }

    /// Whether an interrupt's bits in sie and sip are set.
    fn is_waiting(&self, now: u64, interrupt: Interrupt) -> bool
        ensures { result ≡ is_waiting self.now now interrupt }
    {
        has_bit(self.sie, interrupt.number()) && has_bit(self.sip(now), interrupt.number())
    }

    /// Sets the step from which on STIP is set.
    pub fn set_timer(&mut self, v: u64)
        ensures { self.new ≡ record self.old { timer = v } }
    {
        self.timer = v;
    }

    /// Counts an instruction that retired, modulo 2^64.
    pub fn retire(&mut self)
        ensures { self.new ≡ record self.old { retired = (self.old.retired + 1) % 2 ^ 64 } }
    {
        self.retired = self.retired.wrapping_add(1);
    }

    /// satp. Its MODE is Bare (0) or Sv39 (8).
    pub fn satp(&self) -> u64
        ensures value { result ≡ self.now.satp }
        ensures mode { (result / 2 ^ 60 ≡ 0) ⊎ (result / 2 ^ 60 ≡ 8) }
    {
        self.satp
    }

    /// SUM of sstatus.
    pub fn sum(&self) -> bool
        ensures { result ≡ self.now.status.sum }
    {
        self.status.sum
    }

    /// MXR of sstatus.
    pub fn mxr(&self) -> bool
        ensures { result ≡ self.now.status.mxr }
    {
        self.status.mxr
    }

    /// The registers as numbers, from which `from_parts` makes the same register file.
    pub fn parts(&self) -> CsrParts
        ensures value { result ≡ parts_of self.now }
        ensures back { file_from result ≡ Some self.now }
    {
        CsrParts {
            sstatus: self.status.number(),
            sie: self.sie,
            stvec: self.stvec,
            scounteren: self.scounteren,
            sscratch: self.sscratch,
            sepc: self.sepc,
            scause: self.scause,
            stval: self.stval,
            ssip: (self.ssip as u64) * 2,
            satp: self.satp,
            timer: self.timer,
            retired: self.retired,
        }
    }

    /// The register file of these numbers.
    ///
    /// `None` exactly where a field has a value that its register can't hold.
    #[tactic(auto, unfolding(crate::specs::Parts::file_from))]
    pub fn from_parts(p: &CsrParts) -> Option<Csrs>
        ensures { result ≡ file_from p.now }
    {
        if !is_held(p) {
            return None;
        }
        Some(Csrs {
            status: SupervisorStatus::of(p.sstatus),
            sie: p.sie,
            stvec: p.stvec,
            scounteren: p.scounteren,
            sscratch: p.sscratch,
            sepc: p.sepc,
            scause: p.scause,
            stval: p.stval,
            ssip: has_bit(p.ssip, 1),
            satp: p.satp,
            timer: p.timer,
            retired: p.retired,
        })
    }
}

/// Whether each field has a value that its register can hold.
fn is_held(p: &CsrParts) -> bool
    ensures { result ≡ is_held p.now }
{
    SupervisorStatus::of(p.sstatus).number() == p.sstatus
        && Register::Sie.holds(p.sie)
        && Register::Stvec.holds(p.stvec)
        && Register::Scounteren.holds(p.scounteren)
        && Register::Sepc.holds(p.sepc)
        && (has_bit(p.ssip, 1) as u64) * 2 == p.ssip
        && has_known_mode(p.satp)
}

/// Whether MODE of this value of satp is 0, Bare, or 8, Sv39.
fn has_known_mode(v: u64) -> bool
    ensures { result ≡ has_known_mode v }
{
    let mode = v >> 60;
    mode == 0 || mode == 8
}

/// Where a trap of this cause goes. Of the interrupt's number the bits below 2^62 count, since four times
/// the others is a multiple of 2^64.
fn trap_vector(stvec: u64, cause: u64) -> u64
    ensures { result ≡ trap_vector stvec cause }
{
    let base = stvec / 4 * 4;
    if has_bit(stvec, 0) && has_bit(cause, 63) {
        base.wrapping_add(4 * (cause % (1 << 62)))
    } else {
        base
    }
}
