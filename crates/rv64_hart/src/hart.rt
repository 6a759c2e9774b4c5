//! What a hart keeps between two steps.

ghost use Rattle.std.specs.Prelude.{◌≡◌, ◌↔◌, ◌<◌, ◌%◌, Some, None, IsTrue, true};
ghost use Rattle.rv64_csr.specs.Csrs.{write_of};
ghost use Rattle.rv64_hart.specs.Firmware.{with_timer};
ghost use Rattle.rv64_hart.specs.HartState.{held_of, state_of, hart_from};
ghost use Rattle.rv64_hart.specs.Operations.{is_reserved};
ghost use Rattle.rv64_hart.specs.Reservation.{is_reservation};
ghost use Rattle.rv64_hart.specs.State.{reset, started_at, stopped, interrupted, saw_store, register, with_register, with_pc, next_pc, retired, computed, passed};
ghost use Rattle.rv64_hart.specs.System.{trap_left};
ghost use Rattle.rv64_hart.specs.Traps.{trapped};

use crate::access::Width;
use crate::reservation::Reservation;
use ras_bits::Mode;
use rv64_csr::{CsrParts, Csrs};
use std::marker::Model;

/// A hart: its number, whether it is started, its pc, the registers x0 to x31, its mode, its supervisor registers, and its
/// reservation.
///
/// The pc is a multiple of 4, x0 is 0, and a reservation is of a word or a doubleword, at a multiple of its width.
#[derive(Drop)]
pub struct Hart {
    number: u64,
    started: bool,
    pc: u64,
    registers: [u64; 32],
    mode: Mode,
    csrs: Csrs,
    reservation: Option<Reservation>,
}

impl Model for Hart {
    ghost use Rattle.std.specs.Prelude.{◌≡◌, ◌%◌, slice_index, IfSome, true};
    ghost use Rattle.rv64_hart.specs.State.{ArchitecturalState};
    ghost use Rattle.rv64_hart.specs.Reservation.{is_reservation};

    ghost Value = { ArchitecturalState };

    ghost view = { λ a. record { number = a.number; started = a.started; pc = a.pc; registers = a.registers; mode = a.mode; csrs = a.csrs; reservation = a.reservation } };

    ghost invariant = { λ a. (a.pc % 4 ≡ 0) × (slice_index a.registers 0 ≡ 0) × (IfSome a.reservation (λ r. is_reservation r ≡ true)) };
}

/// A hart as plain numbers.
#[derive(Clone, Copy)]
pub struct HartState {
    pub id: u64,
    pub started: bool,
    pub pc: u64,
    pub x: [u64; 32],
    pub mode: Mode,
    pub csr: CsrParts,
    /// The reservation: its physical address, and how many bytes it has, 4 or 8.
    pub held: Option<(u64, u8)>,
}

impl Hart {
    /// Hart `id`, which is stopped, with this pc, a multiple of 4: in S mode, with its number in x10 (a0), 0 in all other
    /// registers x, and supervisor registers as `Csrs::new` has them (SBI, "Hart State Management Extension"). It holds no
    /// reservation.
    pub fn new(id: u64, entry: u64) -> Hart
        requires { entry % 4 ≡ 0 }
        ensures { result ≡ reset id entry }
    {
        let mut registers = [0; 32];
        registers[10] = id;
        Hart {
            number: id,
            started: false,
            pc: entry,
            registers,
            mode: Mode::Supervisor,
            csrs: Csrs::new(),
            reservation: None,
        }
    }

    /// Starts the hart at an address, a multiple of 4: it is as `Hart::new` makes it, but for x11 (a1), which gets `opaque`.
    pub fn start(&mut self, entry: u64, opaque: u64)
        requires { entry % 4 ≡ 0 }
        ensures { self.new ≡ started_at self.old.number entry opaque }
    {
        *self = Hart::new(self.number, entry);
        self.registers[11] = opaque;
        self.started = true;
    }

    /// Stops the hart. Nothing else changes.
    pub fn stop(&mut self)
        ensures { self.new ≡ stopped self.old }
    {
        self.started = false;
    }

    /// Whether the hart is started. A stopped one makes idle turns.
    pub fn started(&self) -> bool
        ensures { result ≡ self.now.started }
    {
        self.started
    }

    /// Makes a software interrupt pending: SSIP in sip is set, and nothing else changes.
    pub fn ipi(&mut self)
        ensures { self.new ≡ interrupted self.old }
    {
        self.csrs.write(0x144, Mode::Supervisor, 2);
    }

    /// Another hart has stored into word `w` of RAM: a reservation that lies in it is cleared.
    pub fn saw_store(&mut self, w: u32)
        ensures { self.new ≡ saw_store w self.old }
    {
        match self.reservation {
            Some(reservation) => {
                if reservation.lies_in(w) {
                    self.reservation = None;
                }
            }
            None => {}
        }
    }

    /// The hart's number.
    pub(crate) fn number(&self) -> u64
        ensures { result ≡ self.now.number }
    {
        self.number
    }

    /// The address of the instruction that the next step fetches. It is a multiple of 4.
    pub fn pc(&self) -> u64
        ensures pc { result ≡ self.now.pc }
        ensures aligned { result % 4 ≡ 0 }
    {
        self.pc
    }

    /// Register x`i`, with `i` below 32. Register x0 is 0.
    pub fn x(&self, i: u8) -> u64
        requires { i < 32 }
        ensures register { result ≡ register self.now i }
        ensures zero { i ≡ 0 → result ≡ 0 }
    {
        self.registers[i as usize]
    }

    /// The privilege mode.
    pub fn mode(&self) -> Mode
        ensures { result ≡ self.now.mode }
    {
        self.mode
    }

    /// The supervisor registers.
    pub fn csrs(&self) -> &Csrs
        ensures { result.now ≡ self.now.csrs }
    {
        &self.csrs
    }

    /// The registers x0 to x31.
    pub(crate) fn registers(&self) -> &[u64; 32]
        ensures { result.now ≡ self.now.registers }
    {
        &self.registers
    }

    /// Sets a register. A write to x0 changes nothing.
    pub(crate) fn set_x(&mut self, i: u8, value: u64)
        requires { i < 32 }
        ensures { self.new ≡ with_register self.old i value }
    {
        if i != 0 {
            self.registers[i as usize] = value;
        }
    }

    pub(crate) fn set_pc(&mut self, pc: u64)
        requires { pc % 4 ≡ 0 }
        ensures { self.new ≡ with_pc self.old pc }
    {
        self.pc = pc;
    }

    /// Goes on to the next instruction.
    pub(crate) fn skip(&mut self)
        ensures { self.new ≡ next_pc self.old }
    {
        self.pc = self.pc.wrapping_add(4);
    }

    /// Counts an instruction that retired.
    pub(crate) fn retire(&mut self)
        ensures { self.new ≡ retired self.old }
    {
        self.csrs.retire();
    }

    /// Retires an instruction, and goes on to the next one.
    pub(crate) fn pass(&mut self)
        ensures { self.new ≡ passed self.old }
    {
        self.retire();
        self.skip();
    }

    /// Retires an instruction that leaves a result in a register, and goes on to the next one.
    pub(crate) fn compute(&mut self, rd: u8, value: u64)
        requires { rd < 32 }
        ensures { self.new ≡ computed self.old rd value }
    {
        self.pass();
        self.set_x(rd, value);
    }

    /// Enters a trap for this cause, with this value in stval.
    pub(crate) fn trap(&mut self, cause: u64, tval: u64)
        ensures { self.new ≡ trapped self.old cause tval }
    {
        self.pc = self.csrs.enter(cause, tval, self.pc, self.mode);
        self.mode = Mode::Supervisor;
    }

    /// Goes back to the mode and the pc from before a trap.
    pub(crate) fn leave_trap(&mut self)
        ensures { self.new ≡ trap_left self.old }
    {
        let (mode, pc) = self.csrs.sret();
        self.mode = mode;
        self.pc = pc;
    }

    /// Writes a supervisor register. False, and nothing changes, exactly where it is absent, not permitted or read-only.
    pub(crate) fn write_csr(&mut self, number: u16, value: u64) -> bool
        ensures answer { result ≡ (write_of self.old.csrs number self.old.mode value).answer }
        ensures after { self.new ≡ record self.old { csrs = (write_of self.old.csrs number self.old.mode value).after } }
    {
        self.csrs.write(number, self.mode, value)
    }

    pub(crate) fn set_timer(&mut self, time: u64)
        ensures { self.new ≡ with_timer self.old time }
    {
        self.csrs.set_timer(time);
    }

    /// Reserves a word or doubleword at a physical address, a multiple of its width.
    pub(crate) fn reserve(&mut self, physical: u64, width: Width)
        requires { is_reservation (record { address = physical; width = width }) ≡ true }
        ensures { self.new ≡ record self.old { reservation = Some (record { address = physical; width = width }) } }
    {
        self.reservation = Some(Reservation {
            address: physical,
            width,
        });
    }

    /// Whether this physical address is reserved in this width. No reservation is left.
    pub(crate) fn take_reservation(&mut self, physical: u64, width: Width) -> bool
        ensures reserved { result ≡ is_reserved self.old.reservation physical width }
        ensures after { self.new ≡ record self.old { reservation = None } }
    {
        let is_reserved = match self.reservation {
            Some(reservation) => reservation.is_of(physical, width),
            None => false,
        };
        self.reservation = None;
        is_reserved
    }

    /// The reservation: its physical address, and how many bytes it has.
    fn held(&self) -> Option<(u64, u8)>
        ensures { result ≡ held_of self.now.reservation }
    {
        match self.reservation {
            Some(reservation) => Some((reservation.address, reservation.width.bytes())),
            None => None,
        }
    }

    /// Whether another hart is equal to this one in every part.
    pub fn same(&self, o: &Hart) -> bool
        ensures { IsTrue result ↔ (self.now ≡ o.now) }
    {
        self.number == o.number
            && self.started == o.started
            && self.pc == o.pc
            && self.registers == o.registers
            && self.mode == o.mode
            && self.csrs.parts() == o.csrs.parts()
            && self.held() == o.held()
    }

    /// The hart as plain numbers, from which `from_state` makes the same hart.
    pub fn state(&self) -> HartState
        ensures value { result ≡ state_of self.now }
        ensures back { hart_from result ≡ Some self.now }
    {
        HartState {
            id: self.number,
            started: self.started,
            pc: self.pc,
            x: self.registers,
            mode: self.mode,
            csr: self.csrs.parts(),
            held: self.held(),
        }
    }

    /// The hart of these numbers.
    ///
    /// `None` exactly where x0 isn't 0, the pc isn't a multiple of 4, a supervisor register can't hold its number, or the
    /// reservation's width isn't 4 or 8 or doesn't divide its address.
    #[tactic(auto, unfolding(crate::specs::HartState::hart_from))]
    pub fn from_state(s: &HartState) -> Option<Hart>
        ensures { result ≡ hart_from s.now }
    {
        if s.x[0] != 0 || s.pc % 4 != 0 {
            return None;
        }
        let csrs = Csrs::from_parts(&s.csr)?;
        let reservation = match s.held {
            Some((address, bytes)) => Some(Reservation::of(address, bytes)?),
            None => None,
        };
        Some(Hart {
            number: s.id,
            started: s.started,
            pc: s.pc,
            registers: s.x,
            mode: s.mode,
            csrs,
            reservation,
        })
    }
}
