//! What a machine shows of its state.

ghost use Rattle.std.specs.Prelude.{◌≡◌, ◌<◌, ◌≤◌, length, IfSome};
ghost use Rattle.mem_stack.specs.Stack.{stack_meaning, stack_flips};
ghost use Rattle.ras_machine.specs.Settings.{IsInRange, ram_words};
ghost use Rattle.rv64_hart.specs.Harts.{hart_at};

use crate::ending::Ending;
use crate::machine::Machine;
use crate::settings::Settings;
use mem_stack::Stack;
use poison_mem::{Cell, CellState, FlipBus};
use ras_firmware::{Drain, FirmMemory, Records};
use reri_bank::Banks;
use rv64_hart::Hart;

impl Machine {
    /// Its settings.
    pub fn settings(&self) -> Settings
        ensures settings { result ≡ self.now.settings }
        ensures range { IsInRange result }
    {
        self.settings
    }

    /// How many steps are completed.
    pub fn steps(&self) -> u64
        ensures steps { result ≡ self.now.state.steps }
        ensures low { result ≤ self.now.settings.budget }
    {
        self.state.steps
    }

    /// The bytes that the program has written.
    pub fn console(&self) -> &[u8]
        ensures { result.now ≡ self.now.state.console }
    {
        self.state.console.bytes()
    }

    /// How many harts there are.
    pub(crate) fn harts(&self) -> u8
        ensures settings { result ≡ self.now.settings.harts }
        ensures all { result ≡ length self.now.state.shared.harts }
    {
        self.settings.harts
    }

    /// Hart `i`.
    pub fn hart(&self, i: u8) -> &Hart
        requires { i < self.now.settings.harts }
        ensures { result.now ≡ hart_at self.now.state.shared.harts i }
    {
        self.state.shared.hart(i)
    }

    /// The cell that a read of word `w` of RAM would give, without effect.
    pub fn view(&self, w: u32) -> Cell
        requires { w < ram_words self.now.settings }
        ensures { result ≡ stack_flips.view self.now.state.shared.memory w }
    {
        self.state.shared.memory().view(w)
    }

    /// Word `w` of RAM as the memory keeps it.
    pub fn cell_state(&self, w: u32) -> CellState
        requires { w < ram_words self.now.settings }
        ensures { result ≡ stack_flips.cells.cell self.now.state.shared.memory w }
    {
        self.state.shared.memory().cell_state(w)
    }

    /// The step and word of the first third flip: the first flip of an unmarked word that had taken
    /// two since it was written.
    pub fn beyond(&self) -> Option<(u64, u32)>
        ensures { result ≡ self.now.state.beyond }
    {
        self.state.beyond
    }

    /// The records that firmware has emitted, the first 4,096 of them, and the number of the
    /// others.
    pub fn records(&self) -> &Records
        ensures { result.now ≡ self.now.state.firmware.records }
    {
        &self.state.firmware.records
    }

    /// The memory that firmware writes for an operating system: tables, polled block and boot error
    /// region.
    pub fn firm(&self) -> &FirmMemory
        ensures { result.now ≡ self.now.state.firmware.memory }
    {
        &self.state.firmware.memory
    }

    /// The error banks.
    pub fn banks(&self) -> &Banks
        ensures { result.now ≡ self.now.state.firmware.banks }
    {
        &self.state.firmware.banks
    }

    /// How many bytes of the input its harts took.
    pub fn place(&self) -> u64
        ensures { result ≡ self.now.state.place }
    {
        self.state.place
    }

    /// The word of RAM that the patrol scrubs next.
    pub fn patrol_place(&self) -> u32
        ensures next { result ≡ self.now.state.patrol.next }
        ensures within { result < ram_words self.now.settings }
    {
        self.state.patrol.place()
    }

    /// Both caches, over the memory.
    pub fn stack(&self) -> &Stack
        ensures stack { result.now ≡ self.now.state.shared.memory }
        ensures words { stack_meaning.words result.now ≡ ram_words self.now.settings }
    {
        self.state.shared.memory()
    }

    /// What firmware has noted of the records in the first step of the drain.
    pub fn drain(&self) -> &Drain
        ensures { result.now ≡ self.now.state.firmware.drain }
    {
        &self.state.firmware.drain
    }

    /// How the run ended: None exactly where it hasn't.
    pub fn ended(&self) -> Option<Ending>
        ensures ended { result ≡ self.now.ended }
        ensures steps { IfSome result (λ ending. ending.steps ≤ self.now.settings.budget) }
    {
        self.ended
    }
}
