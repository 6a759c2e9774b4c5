//! Room in a set: what a full set evicts, and the events of what is written back.

ghost use Rattle.std.specs.Prelude.{◌≡◌, ◌+◌, ◌*◌, ◌<◌, true};
ghost use Rattle.poison_mem.specs.Level.{InRange};
ghost use Rattle.poison_mem.specs.Bus.{logged_all};
ghost use Rattle.poison_cache.specs.Recent.{line_list};
ghost use Rattle.poison_cache.specs.Cache.{AreInRange, evicted_as, room_in, poison_events, cell_event};

use crate::sets::Sets;
use poison_mem::{Cell, Event, EventKind, EventLog, Held, LineMem};
use ras_bits::RAM_START;
use std::marker::Model;

/// Where a cache logs: a bank, and a record of it.
#[derive(Clone, Copy)]
pub(crate) struct LogTo {
    pub(crate) bank: u8,
    pub(crate) rec: u8,
}

impl Model for LogTo {
    ghost use Rattle.poison_cache.specs.LogTo.{LogTo};

    ghost Value = { LogTo };

    ghost view = { λ l. record { bank = l.bank; rec = l.rec } };

    ghost inverse = { λ l. record { bank = l.bank; rec = l.rec } };
}

/// The event of a poisoned word of a line that is written back; none for a good one.
fn log_cell<G: EventLog>(log_to: LogTo, line: u32, i: u8, cell: Cell, g: &mut G)
    requires { i < 8 }
    ensures { g.new ≡ logged_all G.logged g.old (cell_event log_to (8 * line + i) cell) }
{
    match cell {
        Cell::Good(_) => (),
        Cell::Poison => g.log(Event::new(
            EventKind::PoisonWrittenBack,
            log_to.bank,
            log_to.rec,
            RAM_START + 8 * (8 * u64::from(line) + u64::from(i)),
        )),
    }
}

/// One event for each poisoned word of a line that is written back, in rising order.
#[tactic(auto, using(crate::proofs::Logging::one_more_logged))]
fn log_poison<G: EventLog>(log_to: LogTo, held: &Held, g: &mut G)
    ensures { g.new ≡
        logged_all G.logged g.old (poison_events log_to held.now.line held.now.cells 8) }
{
    for i in 0..8u8 {
        log_cell(log_to, held.line, i, held.cells.cell(i), g);
    }
}

/// Writes an entry back, after its events.
#[tactic(auto, using(crate::proofs::Logging::logged_both))]
fn write_back<M: LineMem, G: EventLog>(log_to: LogTo, victim: &Held, below: &mut M, g: &mut G)
    requires { InRange M.level below.old victim.now.line }
    ensures after { below.new ≡ (evicted_as true M.level log_to victim.now below.old).after }
    ensures events { g.new ≡
        logged_all G.logged g.old (evicted_as true M.level log_to victim.now below.old).events }
    ensures words { M.level.words below.new ≡ M.level.words below.old }
{
    log_poison(log_to, victim, g);
    below.put_line(victim.line, &victim.cells, g);
}

/// As `make_room`, for a set whose victim is to be written back. It stands apart, since it moves a whole line.
#[inline(never)]
fn evict<M: LineMem, G: EventLog, const SETS: usize, const WAYS: usize>(
    log_to: LogTo,
    sets: &Sets<SETS, WAYS>,
    below: &mut M,
    l: u32,
    g: &mut G,
)
    requires range { AreInRange M.level below.old (line_list SETS sets.now l) }
    ensures below { below.new ≡
        (room_in M.level log_to WAYS (line_list SETS sets.now l) below.old).below }
    ensures events { g.new ≡
        logged_all G.logged g.old
        (room_in M.level log_to WAYS (line_list SETS sets.now l) below.old).events }
    ensures words { M.level.words below.new ≡ M.level.words below.old }
{
    match sets.dirty_victim(l) {
        Some(victim) => write_back(log_to, &victim, below, g),
        None => (),
    }
}

/// Room for one more entry in the set of a line: a full set evicts its last, which is written back where it is dirty.
pub(crate) fn make_room<M: LineMem, G: EventLog, const SETS: usize, const WAYS: usize>(
    log_to: LogTo,
    sets: &Sets<SETS, WAYS>,
    below: &mut M,
    l: u32,
    g: &mut G,
)
    requires range { AreInRange M.level below.old (line_list SETS sets.now l) }
    ensures below { below.new ≡
        (room_in M.level log_to WAYS (line_list SETS sets.now l) below.old).below }
    ensures events { g.new ≡
        logged_all G.logged g.old
        (room_in M.level log_to WAYS (line_list SETS sets.now l) below.old).events }
    ensures words { M.level.words below.new ≡ M.level.words below.old }
{
    if sets.has_dirty_victim(l) {
        evict(log_to, sets, below, l, g);
    }
}
