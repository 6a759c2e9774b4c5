//! The records that the firmware has emitted.

ghost use Rattle.std.specs.Prelude.{◌≡◌, ◌≤◌, ◌<◌, ℕ, length, IfOk};
ghost use Rattle.std.specs.List.{AllByRecursion};
ghost use Rattle.poison_mem.specs.RecordView.{IsListedView};
ghost use Rattle.ras_firmware.specs.Records.{IsKept, with_view, with_all, no_records};

use poison_mem::RecordView;
use ras_bits::NoMemory;
use std::alloc::Global;
use std::marker::Model;

/// How many records are kept at most.
pub(crate) const MOST_RECORDS: usize = 4096;

/// The first 4,096 views that were emitted, and the number of the others, which stays at 2^64 - 1.
#[derive(Drop)]
pub struct Records {
    views: Vec<RecordView>,
    dropped: u64,
}

impl Model for Records {
    ghost use Rattle.std.specs.Prelude.{◌≤◌, vec_capacity};
    ghost use Rattle.ras_firmware.specs.Records.{KeptState, IsKept};
    ghost use Rattle.ras_firmware.specs.declared.records.TheConstants.{MOST_RECORDS};

    ghost Value = { KeptState };

    ghost view = { λ r. record { views = r.views.items; left_out = r.dropped } };

    ghost invariant = { λ r. (MOST_RECORDS ≤ vec_capacity r.views)
        × IsKept (record { views = r.views.items; left_out = r.dropped }) };
}

impl Records {
    /// Room for 4,096 records; none is kept or dropped.
    pub fn make(alloc: Global) -> Result<Records, NoMemory>
        ensures { IfOk result (λ r. r ≡ no_records) }
    {
        let views = Vec::with_capacity(alloc, MOST_RECORDS)?;
        Ok(Records { views, dropped: 0 })
    }

    /// The views that are kept, in the order in which they were emitted.
    pub fn list(&self) -> &[RecordView]
        ensures views { result.now ≡ self.now.views }
        ensures kept { IsKept self.now }
    {
        // The number dropped is read for the second clause alone.
        let _ = &self.dropped;
        self.views.as_slice()
    }

    /// How many views were dropped, past 4,096.
    pub fn dropped(&self) -> u64
        ensures { result ≡ self.now.left_out }
    {
        self.dropped
    }

    /// Sets the kept views and the number dropped.
    ///
    /// There are at most 4,096 views, each is sound and names a record that exists, and where there are fewer none was
    /// dropped.
    pub fn reset_to(&mut self, v: &[RecordView], dropped: u64)
        requires { IsKept (record { views = v.now; left_out = dropped }) }
        ensures { self.new ≡ record { views = v.now; left_out = dropped } }
    {
        self.views.clear();
        for view in v.iter() {
            self.views.push_reserved(*view);
        }
        self.dropped = dropped;
    }

    /// Emits a view: it is kept while there is room, and else counted.
    pub(crate) fn emit(&mut self, view: RecordView)
        requires { IsListedView view }
        ensures { self.new ≡ with_view self.old view }
    {
        if self.views.len() < MOST_RECORDS {
            self.views.push_reserved(view);
        } else {
            self.dropped = self.dropped.saturating_add(1);
        }
    }

    /// Emits views, in order.
    pub(crate) fn emit_all(&mut self, views: &[RecordView])
        requires { AllByRecursion IsListedView views.now }
        ensures { self.new ≡ with_all self.old views.now }
    {
        for view in views {
            self.emit(*view);
        }
    }
}
