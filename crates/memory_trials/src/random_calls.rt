//! Random calls on a small cache beside plain lists.

ghost use Rattle.std.specs.Prelude.{◌<◌, ◌≤◌, length};

use crate::plain::{Call, Plain, RandomCall};
use ecc_memory::EccMemory;
use poison_cache::Cache;
use poison_mem::{CacheState, Line, LineMem, ShortLog};
use std::process::Abort;
use std::test::Fail;

/// A cache of two sets of three lines.
type Small = Cache<EccMemory, 2, 3>;

/// Makes a call. Answers the cells of its line with what the call shows of them.
fn make(cache: &mut Small, call: &RandomCall, before: Line, log: &mut ShortLog) -> Line
    requires words { 64 ≤ length cache.old.below }
    requires line { call.now.line < 8 }
    requires cell { call.now.cell < 8 }
{
    let w = 8 * call.line + u32::from(call.cell);
    let mut shown = before;
    match call.call {
        Call::ReadWord => shown.set(call.cell, cache.read_word(w, log)),
        Call::ReadLine => shown = cache.read_line(call.line, log),
        Call::Store => cache.store(w, call.value, 0xFF, log),
        Call::HalfStore => cache.store(w, call.value, 0x0F, log),
        Call::PutPoison => cache.put_line(call.line, &call.written(before), log),
        Call::Peek => shown = cache.peek(call.line),
        Call::ForgetAll => cache.forget_all(),
    }
    shown
}

/// Makes a call on the cache and on the lists. Answers with how many events.
fn make_both(
    rt: &impl Abort,
    cache: &mut Small,
    plain: &mut Plain,
    call: &RandomCall,
) -> Result<usize, Fail>
    requires line { call.now.line < 8 }
    requires cell { call.now.cell < 8 }
{
    let mut log = ShortLog::new();
    assert!(rt; cache.words() >= 64);
    let before = plain.cells(call.line);
    assert_eq!(rt; make(cache, call, before, &mut log), before);
    let events = plain.make(call)?;
    assert_eq!(rt; log.events().len(), events);
    Ok(events)
}

/// The cache holds what the lists hold.
fn assert_alike(rt: &impl Abort, cache: &Small, plain: &Plain) {
    for k in 0..4u32 {
        assert_eq!(rt; cache.held(0, k), plain.even.get(k as usize).copied());
        assert_eq!(rt; cache.held(1, k), plain.odd.get(k as usize).copied());
    }
}

/// The next number of a sequence that looks random (xorshift).
fn next_random(seed: u64) -> u64 {
    let a = seed ^ (seed << 13);
    let b = a ^ (a >> 7);
    b ^ (b << 17)
}

#[test]
fn random_calls_leave_what_plain_lists_do(rt: HostRuntime) -> Result<(), Fail> {
    let memory = EccMemory::make(rt.alloc(), 64)?;
    let mut cache = Small::make(rt.alloc(), memory, 1, 0)?;
    let mut plain = Plain::new(rt.alloc());
    let mut random = 0x2545_F491_4F6C_DD1D;
    let mut events = 0usize;
    for _ in 0..10_000u32 {
        random = next_random(random);
        let call = RandomCall::of(random);
        events = events.saturating_add(make_both(&rt, &mut cache, &mut plain, &call)?);
        assert_alike(&rt, &cache, &plain);
    }
    assert!(rt; events > 1_000, "{events}");
    Ok(())
}
