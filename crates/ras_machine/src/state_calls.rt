//! Calls that set parts of a machine, by which it takes over a state from elsewhere, as from a
//! snapshot. No step makes them.
//!
//! Each keeps all parts that it doesn't name, refuses nothing and takes no memory.

ghost use Rattle.std.specs.Prelude.{◌≡◌, ◌<◌, ◌≤◌, ℕ, length, slice_set, IfSome};
ghost use Rattle.std.specs.List.{AllByRecursion};
ghost use Rattle.mem_stack.specs.Stack.{stack_flips};
ghost use Rattle.mem_stack.specs.StackEntries.{IsCacheLevel, first_entries, second_entries, FirstHasRoomFor, SecondHasRoomFor, forgotten};
ghost use Rattle.poison_mem.specs.RecordId.{all_records};
ghost use Rattle.poison_mem.specs.RecordView.{IsListedView};
ghost use Rattle.reri_bank.specs.Banks.{records_of};
ghost use Rattle.reri_bank.specs.State.{IsRecordHeld};
ghost use Rattle.ras_firmware.specs.Records.{IsKept};
ghost use Rattle.rv64_hart.specs.declared.console.TheConstants.{CONSOLE_ROOM};
ghost use Rattle.ras_machine.specs.Settings.{IsInRange, ram_words};
ghost use Rattle.ras_machine.specs.StateCalls.{with_run, with_harts, with_memory, with_firmware, with_console, record_set, emitted_set, GoesWith};

use crate::machine::Machine;
use crate::settings::Settings;
use poison_mem::{Bus, CellState, FlipBus, Held, RecordView};
use reri_bank::RecState;
use rv64_hart::Hart;
use scrubber::{Interval, Patrol};

impl Machine {
    /// Sets the settings, the number of completed steps, the word that the patrol scrubs next, how
    /// many bytes of the input the harts took, and the step and word of the first third flip. The
    /// machine hasn't ended then.
    ///
    /// The settings are in range, with the RAM and the number of harts that the machine has. There
    /// are no more steps than the budget, and both words are in RAM.
    pub fn set_run(
        &mut self,
        s: &Settings,
        n: u64,
        patrol_place: u32,
        place: u64,
        beyond: Option<(u64, u32)>,
    )
        requires range { IsInRange s.now }
        requires ram { s.now.ram_mib ≡ self.old.settings.ram_mib }
        requires harts { s.now.harts ≡ self.old.settings.harts }
        requires steps { n ≤ s.now.budget }
        requires patrol { patrol_place < ram_words s.now }
        requires beyond { IfSome beyond (λ found. found.1 < ram_words s.now) }
        ensures { self.new ≡ with_run s.now n patrol_place place beyond self.old }
    {
        let words = self.state.shared.memory().words();
        self.state.poll = Interval::new(s.poll);
        self.state.patrol = Patrol::new(s.patrol, words);
        self.state.patrol.set_place(patrol_place);
        self.state.place = place;
        self.state.beyond = beyond;
        self.state.steps = n;
        self.settings = *s;
        self.ended = None;
    }

    /// Sets hart `i`. There is one of this number, and it is the number of `h`.
    pub fn set_hart(&mut self, i: u8, h: Hart)
        requires there { i < self.old.settings.harts }
        requires number { h.number ≡ i }
        ensures { self.new ≡ with_harts (slice_set self.old.state.shared.harts i h) self.old }
    {
        self.state.shared.set_hart(i, h);
    }

    /// Empties both caches, and writes nothing back. What was stored and not yet written back is
    /// lost.
    pub fn forget_all(&mut self)
        ensures { self.new ≡ with_memory (forgotten self.old.state.shared.memory) self.old }
    {
        self.state.shared.memory_mut().forget_all();
    }

    /// Appends an entry to the list of its set of the first cache at level 1, of the second at
    /// level 2: it is the least recently used there. The line is in RAM and not held by that cache,
    /// and the set has a way left.
    pub fn place_last(&mut self, level: u8, h: &Held)
        requires level { IsCacheLevel level }
        requires first { level ≡ 1 → FirstHasRoomFor self.old.state.shared.memory h.now }
        requires second { level ≡ 2 → SecondHasRoomFor self.old.state.shared.memory h.now }
        ensures first { level ≡ 1 → self.new
            ≡ with_memory (first_entries.place_last self.old.state.shared.memory h.now) self.old }
        ensures second { level ≡ 2 → let memory = self.old.state.shared.memory in self.new
            ≡ with_memory (record memory { below = second_entries.place_last memory.below h.now })
            self.old }
    {
        self.state.shared.memory_mut().place_last(level, h);
    }

    /// Sets word `w` of RAM as the memory keeps it. The word is in RAM, and its count is at most 3.
    pub fn set_cell(&mut self, w: u32, s: &CellState)
        requires word { w < ram_words self.old.settings }
        requires counted { s.now.count ≤ 3 }
        ensures { let memory = self.old.state.shared.memory in
            self.new ≡ with_memory (stack_flips.cells.set_cell memory w s.now) self.old }
    {
        self.state.shared.memory_mut().set_cell(w, s);
    }

    /// Sets record `rec` of bank `b`, and firmware's note of it.
    ///
    /// The bank and the record exist, and the state is one that `Banks::set_rec_state` takes. A
    /// note is sound, names this record and comes only with a kept view; where `rdip` is set, it
    /// equals the kept view.
    pub fn set_record(&mut self, b: u8, rec: u8, s: &RecState, note: Option<RecordView>)
        requires bank { b < 3 }
        requires rec { rec < records_of b }
        requires held { IsRecordHeld b rec s.now }
        requires note { GoesWith b rec s.now note }
        ensures { self.new
            ≡ with_firmware (record_set b rec s.now note self.old.state.firmware) self.old }
    {
        self.state.firmware.banks.set_rec_state(b, rec, s);
        self.state.firmware.drain.set_note(b, rec, note);
    }

    /// Sets the emitted views, how many others were dropped, and the views of the polled block. The
    /// boot error region is empty then.
    ///
    /// At most 4,096 views are emitted, and none is dropped where there are fewer. At most five are
    /// polled, as many as there are records. Each view is sound and names a record that exists.
    pub fn set_emitted(&mut self, v: &[RecordView], dropped: u64, polled: &[RecordView])
        requires kept { IsKept (record { views = v.now; left_out = dropped }) }
        requires few { length polled.now ≤ length all_records }
        requires listed { AllByRecursion IsListedView polled.now }
        ensures { let f = self.old.state.firmware in
            self.new ≡ with_firmware (emitted_set v.now dropped polled.now f) self.old }
    {
        self.state.firmware.records.reset_to(v, dropped);
        self.state.firmware.memory.reset_to(polled);
    }

    /// Sets the bytes that the program has written, at most [`rv64_hart::CONSOLE_ROOM`].
    pub fn set_console(&mut self, b: &[u8])
        requires { length b.now ≤ CONSOLE_ROOM }
        ensures { self.new ≡ with_console b.now self.old }
    {
        self.state.console.reset();
        self.state.console.push(b);
    }
}
