//! The error side of a machine.

ghost use Rattle.std.specs.Prelude.{◌≡◌, ℕ, IfOk};
ghost use Rattle.poison_mem.specs.declared.record_id.RecordId.{RecordId};
ghost use Rattle.ras_firmware.specs.Firmware.{SetNow, WriteControl, MarkAll, ClearAll, new_firmware, firmware_after, firmware_run, firmware_stopped, drain_calls};

use crate::drain::{Drain, control_offset, finish};
use crate::memory::FirmMemory;
use crate::records::Records;
use poison_mem::RecordId;
use ras_bits::NoMemory;
use reri_bank::Banks;
use std::alloc::Global;

/// The error banks, the drain, the emitted records and firmware's memory.
///
/// A caller logs events and stages injections in `banks`; the other parts change by the calls below alone, and when a state is
/// taken over from a snapshot.
#[derive(Drop)]
pub struct Firmware {
    /// The error banks.
    pub banks: Banks,
    /// What is noted between the two steps of the drain.
    pub drain: Drain,
    /// The records that were emitted.
    pub records: Records,
    /// The tables and blocks that an operating system reads.
    pub memory: FirmMemory,
}

impl Firmware {
    /// New banks, no notes, no records, and an empty polled block and boot error region.
    pub fn make(alloc: Global) -> Result<Firmware, NoMemory>
        ensures { IfOk result (λ f. f ≡ new_firmware) }
    {
        Ok(Firmware {
            banks: Banks::new(),
            drain: Drain::new(),
            records: Records::make(alloc)?,
            memory: FirmMemory::make(alloc)?,
        })
    }

    /// Sets the step that is put into events.
    pub fn begin_step(&mut self, n: u64)
        ensures { self.new ≡ firmware_after self.old (SetNow n) }
    {
        self.banks.set_now(n);
    }

    /// Writes the lower half of a record's control register.
    pub fn write_control(&mut self, id: RecordId, value: u32)
        ensures { self.new ≡ firmware_after self.old (WriteControl id value) }
    {
        let offset = control_offset(id.record());
        self.banks.write_reg(id.bank(), offset, u64::from(value));
    }

    /// Notes the valid signalled records: the first step of the drain.
    pub fn mark(&mut self)
        ensures { self.new ≡ firmware_after self.old MarkAll }
    {
        self.drain.mark(&mut self.banks);
    }

    /// Emits and empties the noted records in which no event came since: the second step of the drain.
    pub fn clear(&mut self)
        ensures { self.new ≡ firmware_after self.old ClearAll }
    {
        self.drain
            .clear(&mut self.banks, &mut self.records, &mut self.memory);
    }

    /// Does what the drain has to do in step `n`: with an interval, a mark in the step before the last of each, and a clear in
    /// its last. Without one, which is 0, it does nothing.
    pub fn drain(&mut self, n: u64, interval: u64)
        ensures { self.new ≡ firmware_run self.old (drain_calls n interval) }
    {
        if interval == 0 {
            return;
        }
        let left = interval - n % interval;
        if left == 2 {
            self.mark();
        } else if left == 1 {
            self.clear();
        }
    }

    /// Ends the run: every valid record is emitted, and the boot error region shows the fatal one, where a bank and a record
    /// name one.
    pub fn stop(&mut self, fatal: Option<(u8, u8)>)
        ensures { self.new ≡ firmware_stopped fatal self.old }
    {
        finish(&self.banks, &mut self.records, &mut self.memory, fatal);
    }
}
