//! A walk that keeps its progress in the tables.

ghost use Rattle.sv39_walk.specs.Steps.{StandsAfter, walk_step};
ghost use Rattle.sv39_walk.specs.declared.request.Request.{Request};
ghost use Rattle.std.specs.Prelude.{ℕ, List, [], ◌∷◌, ◌++◌, ◌≡◌, ◌≤◌, ◌<◌, ◌/◌, ◌^◌, ◌⊎◌, IsTrue};
ghost use Rattle.sv39_walk.specs.Walking.{walk, meaning_of, page_fault, is_canonical, entry_address, after_entry, next_of, IsNeed, AsksInNeed, needs, NeedsAtMost};
ghost use Rattle.sv39_walk.specs.Progress.{left_of, left_from, is_progress, left_after};

use crate::entry::{EntryMeaning, PAGE_BYTES, PageTableEntry};
use crate::progress::Progress;
use crate::request::Request;
use crate::step::WalkStep;
use ras_bits::{Access, Mode, get_field};
use std::marker::Model;

/// The translation of one access, entry by entry.
///
/// `next` tells what the walk wants, and while that is an entry, `give` goes on with it. After at most
/// three entries the walk has ended.
#[derive(Drop)]
pub struct Walk {
    request: Request,
    progress: Progress,
}

impl Model for Walk {
    ghost use Rattle.std.specs.Prelude.{IsTrue};
    ghost use Rattle.sv39_walk.specs.Progress.{Standing, is_progress};

    ghost Value = { Standing };

    ghost view = { λ a. record { request = a.request; progress = a.progress } };

    ghost invariant = { λ a. IsTrue (is_progress a.progress) };
}

impl Walk {
    /// The walk of an access of this kind to the virtual address `va`, made in `mode`, before its first
    /// entry. `satp` is the register's value, and `sum` and `mxr` are the bits of sstatus.
    ///
    /// Bits 63:60 of `satp` (MODE) are 0, Bare, or 8, Sv39. With Bare the walk has ended with `va`. With
    /// Sv39 the first table is at PPN * 4096, at level 2, and an address whose bits 63:39 aren't all equal
    /// to bit 38 is a page fault at once.
    #[tactic(auto, unfolding(crate::specs::Walking::walk))]
    pub fn start(satp: u64, va: u64, kind: Access, mode: Mode, sum: bool, mxr: bool) -> Walk
        requires mode { (satp / 2 ^ 60 ≡ 0) ⊎ (satp / 2 ^ 60 ≡ 8) }
        ensures walk { left_of result ≡ walk satp (record { va = va; kind = kind; mode = mode; sum = sum; mxr = mxr }) }
        ensures stands { StandsAfter satp (record { va = va; kind = kind; mode = mode; sum = sum; mxr = mxr }) [] result }
        ensures most { needs (left_of result) ≤ 3 }
        ensures at_most_three { NeedsAtMost 3 (walk satp (record { va = va; kind = kind; mode = mode; sum = sum; mxr = mxr })) }
    {
        let request = Request {
            va,
            kind,
            mode,
            sum,
            mxr,
        };
        let progress = if get_field(satp, 60, 4) == 0 {
            Progress::Done(va)
        } else if is_canonical_address(va) {
            Progress::Table {
                level: 2,
                table: get_field(satp, 0, 44) * PAGE_BYTES,
            }
        } else {
            Progress::Fault
        };
        Walk { request, progress }
    }

    /// The physical address of the entry that the walk needs, or how it ended: with the translated
    /// address, or with a page fault of the access.
    #[tactic(auto, unfolding(crate::specs::Walking::walk_from))]
    pub fn next(&self) -> WalkStep
        ensures next { result ≡ next_of (left_of self.now) }
        ensures need { AsksInNeed result (left_of self.now) }
        ensures by_entries { (satp : ℕ) (request : Request) (entries : List ℕ)
            → StandsAfter satp request entries self.now → result ≡ walk_step satp request entries }
    {
        match self.progress {
            Progress::Table { level, table } => WalkStep::Need(address_of_entry(
                table,
                level,
                self.request.va,
            )),
            Progress::Done(address) => WalkStep::Done(address),
            Progress::Fault => WalkStep::Fault(fault_cause(self.request.kind)),
        }
    }

    /// Goes on with the entry that `next` needs.
    #[tactic(auto, unfolding(crate::specs::Walking::walk_from))]
    pub fn give(&mut self, pte: u64)
        requires { IsNeed (left_of self.old) }
        ensures goes_on { left_of self.new ≡ after_entry (left_of self.old) pte }
        ensures stands { (satp : ℕ) (request : Request) (entries : List ℕ)
            → StandsAfter satp request entries self.old → StandsAfter satp request (entries ++ pte ∷ []) self.new }
        ensures nearer { needs (left_of self.new) < needs (left_of self.old) }
    {
        if let Progress::Table { level, .. } = self.progress {
            self.progress = progress_after(self.request, level, PageTableEntry(pte));
        }
    }
}

/// Where an entry of this level leads: to the next table, to the translated address, or to a page fault.
#[tactic(auto, unfolding(crate::specs::Walking::walk_from))]
fn progress_after(request: Request, level: u8, entry: PageTableEntry) -> Progress
    requires { level ≤ 2 }
    ensures is_progress { IsTrue (is_progress result) }
    ensures left { left_from request result ≡ left_after request level (meaning_of request level entry.0) }
{
    match entry.meaning(level, request) {
        EntryMeaning::PageFault => Progress::Fault,
        EntryMeaning::NextTable(_) if level == 0 => Progress::Fault,
        EntryMeaning::NextTable(table) => Progress::Table {
            level: level - 1,
            table,
        },
        EntryMeaning::Translated(address) => Progress::Done(address),
    }
}

/// Whether bits 63:39 are all equal to bit 38.
fn is_canonical_address(va: u64) -> bool
    ensures { result ≡ is_canonical va }
{
    let high = va >> 38;
    high == 0 || high == (1 << 26) - 1
}

/// The address of the entry for `va` in the table at `table`, by the nine bits of `va` for this level.
fn address_of_entry(table: u64, level: u8, va: u64) -> u64
    requires table { table < 2 ^ 56 }
    requires level { level ≤ 2 }
    ensures { result ≡ entry_address table level va }
{
    (table + 8 * get_field(va, 12 + 9 * level as u32, 9)) % (1 << 56)
}

/// The code of the access's page fault.
fn fault_cause(kind: Access) -> u64
    ensures { result ≡ page_fault kind }
{
    match kind {
        Access::Fetch => 12,
        Access::Load => 13,
        Access::Store => 15,
    }
}
