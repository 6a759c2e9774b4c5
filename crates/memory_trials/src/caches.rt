//! What an evicted line leaves below one cache and below two.

ghost use Rattle.std.specs.Prelude.{◌≡◌, ◌≤◌};

use crate::helpers::{ZEROS, line_of, told};
use ecc_memory::EccMemory;
use poison_cache::Cache;
use poison_mem::{Cell, FlipMem, LineMem, ShortLog};
use std::alloc::Global;
use std::process::Abort;
use std::test::Fail;

/// One cache of two lines.
type One = Cache<EccMemory, 1, 2>;

/// The same over a cache of two sets of one line.
type Two = Cache<Cache<EccMemory, 2, 1>, 1, 2>;

/// One cache over 64 words.
fn one(alloc: Global) -> Result<One, Fail> {
    let memory = EccMemory::make(alloc, 64)?;
    Ok(One::make(alloc, memory, 1, 0)?)
}

/// Two caches over 64 words.
fn two(alloc: Global) -> Result<Two, Fail> {
    let below = Cache::make(alloc, EccMemory::make(alloc, 64)?, 1, 1)?;
    Ok(Two::make(alloc, below, 1, 0)?)
}

/// The event of a word that was read with two flips.
const BAD_READ: (u8, u8, u8, bool, u64, u64) = (0, 0, 2, false, 0x8000_0000, 0);

/// Flips two bits of word 0, stores into a word of its line, and reads two other lines, so that this one is evicted.
fn evict_first<M: FlipMem, const SETS: usize, const WAYS: usize>(
    cache: &mut Cache<M, SETS, WAYS>,
    w: u32,
    v: u64,
    log: &mut ShortLog,
)
    requires words { 64 ≤ M.level.words cache.old.below }
    requires first { w ≤ 1 }
    ensures { M.level.words cache.new.below ≡ M.level.words cache.old.below }
{
    cache.strike(0, 3);
    cache.strike(0, 9);
    cache.store(w, v, 0xFF, log);
    cache.read_line(1, log);
    cache.read_line(2, log);
}

/// Word 0 is stored whole: below it is good again, and no event tells that it was written back.
fn assert_mended<M: FlipMem, const SETS: usize, const WAYS: usize>(
    rt: &impl Abort,
    cache: &mut Cache<M, SETS, WAYS>,
) {
    let mut log = ShortLog::new();
    assert!(rt; cache.words() >= 64);
    evict_first(cache, 0, 0x48, &mut log);
    let below = cache.cell_state(0);
    assert_eq!(rt; (below.value, below.mark, below.count), (0x48, false, 0));
    let mended = line_of(Cell::Good(0x48), Cell::Good(0));
    assert_eq!(rt; cache.read_line(0, &mut log), mended);
    assert_eq!(rt; log.events().len(), 1);
    assert_eq!(rt; told(log.events()[0]), BAD_READ);
}

#[test]
fn a_whole_store_mends_a_word(rt: HostRuntime) -> Result<(), Fail> {
    assert_mended(&rt, &mut one(rt.alloc())?);
    assert_mended(&rt, &mut two(rt.alloc())?);
    Ok(())
}

/// Word 1 is stored, and word 0 stays poison: each cache tells, from the first one down, that it wrote it back.
fn assert_poison_below<M: FlipMem, const SETS: usize, const WAYS: usize>(
    rt: &impl Abort,
    cache: &mut Cache<M, SETS, WAYS>,
    records: &[u8],
) {
    let mut log = ShortLog::new();
    assert!(rt; cache.words() >= 64);
    evict_first(cache, 1, 5, &mut log);
    let mut events = log.events().iter();
    assert_eq!(rt; events.next().copied().map(told), Some(BAD_READ));
    for rec in records {
        let written = (1, *rec, 3, false, 0x8000_0000, 0);
        assert_eq!(rt; events.next().copied().map(told), Some(written));
    }
    assert_eq!(rt; events.next().copied().map(told), None);
    assert!(rt; cache.cell_state(0).mark);
    assert_eq!(rt; cache.peek(0), line_of(Cell::Poison, Cell::Good(5)));
    assert_eq!(rt; cache.peek(7), ZEROS);
}

#[test]
fn a_poisoned_word_is_written_back_with_an_event(rt: HostRuntime) -> Result<(), Fail> {
    assert_poison_below(&rt, &mut one(rt.alloc())?, &[0]);
    assert_poison_below(&rt, &mut two(rt.alloc())?, &[0, 1]);
    Ok(())
}
