//! Walks through page tables, by rows from the manual.

use ras_bits::{Access, Mode};
use sv39_walk::{Walk, WalkStep};

const USER: Mode = Mode::User;

const SUPERVISOR: Mode = Mode::Supervisor;

/// satp for Sv39, with the first table at 0x80001000.
const FIRST_TABLE: u64 = (8 << 60) | 0x80001;

/// Entry 1 of the first table, entry 2 of the second, entry 3 of the third, and byte 0x678.
const ADDRESS: u64 = 0x4040_3678;

/// Points to a table at 0x80002000.
const POINTER: u64 = 0x2000_0801;

/// Points to a table at 0x80003000.
const SECOND_POINTER: u64 = 0x2000_0C01;

/// A leaf for the page at 0x80123000, without its bits 7:0.
const PAGE: u64 = 0x2004_8C00;

/// What a walk wants after these entries.
fn walked(start: Walk, entries: &[u64]) -> WalkStep {
    let mut walk = start;
    for &entry in entries {
        match walk.next() {
            WalkStep::Need(_) => walk.give(entry),
            WalkStep::Done(address) => return WalkStep::Done(address),
            WalkStep::Fault(cause) => return WalkStep::Fault(cause),
        }
    }
    walk.next()
}

/// A load from S mode: its address, the entries that the walk is given, and what it wants then.
#[derive(Clone, Copy)]
struct Loads<'a> {
    address: u64,
    entries: &'a [u64],
    wants: WalkStep,
}

#[test]
fn entries_and_leaves_of_each_level(rt: HostRuntime) {
    let fault = WalkStep::Fault(13);
    let rows = [
        Loads {
            address: ADDRESS,
            entries: &[],
            wants: WalkStep::Need(0x8000_1008),
        },
        Loads {
            address: ADDRESS,
            entries: &[POINTER],
            wants: WalkStep::Need(0x8000_2010),
        },
        Loads {
            address: ADDRESS,
            entries: &[POINTER, SECOND_POINTER],
            wants: WalkStep::Need(0x8000_3018),
        },
        Loads {
            address: ADDRESS,
            entries: &[POINTER, SECOND_POINTER, PAGE + 0xCF],
            wants: WalkStep::Done(0x8012_3678),
        },
        Loads {
            address: ADDRESS, // 2 MiB at 0x80200000
            entries: &[POINTER, 0x2008_00CF],
            wants: WalkStep::Done(0x8020_3678),
        },
        Loads {
            address: ADDRESS, // 1 GiB at 0x80000000
            entries: &[0x2000_00CF],
            wants: WalkStep::Done(0x8040_3678),
        },
        Loads {
            address: 0xFFFF_FFC0_0000_0000,
            entries: &[],
            wants: WalkStep::Need(0x8000_1800),
        },
        Loads {
            address: 0x40_0000_0000, // not canonical
            entries: &[],
            wants: fault,
        },
        Loads {
            address: ADDRESS, // A in a pointer
            entries: &[POINTER, SECOND_POINTER | 0x40],
            wants: fault,
        },
        Loads {
            address: ADDRESS, // a pointer at level 0
            entries: &[POINTER, SECOND_POINTER, PAGE + 0x01],
            wants: fault,
        },
        Loads {
            address: ADDRESS, // a superpage that isn't aligned
            entries: &[POINTER, 0x2008_04CF],
            wants: fault,
        },
    ];
    for Loads {
        address,
        entries,
        wants,
    } in rows {
        let walk = Walk::start(FIRST_TABLE, address, Access::Load, SUPERVISOR, false, false);
        assert_eq!(rt; walked(walk, entries), wants, "{address:#x} {entries:?}");
    }
    let bare = Walk::start(0, ADDRESS, Access::Load, USER, false, false);
    assert_eq!(rt; walked(bare, &[]), WalkStep::Done(ADDRESS));
}

/// An access, the low bits of its leaf, and the code of its page fault, where there is one.
#[derive(Clone, Copy)]
struct Leaf {
    kind: Access,
    mode: Mode,
    sum: bool,
    mxr: bool,
    bits: u64,
    fault: Option<u64>,
}

#[test]
fn faults_at_a_leaf(rt: HostRuntime) {
    let load = Leaf {
        kind: Access::Load,
        mode: SUPERVISOR,
        sum: false,
        mxr: false,
        bits: 0xCF,
        fault: Some(13),
    };
    let rows = [
        Leaf {
            bits: 0xCE, // V clear
            ..load
        },
        Leaf {
            kind: Access::Fetch,
            bits: 0xCD, // W without R
            fault: Some(12),
            ..load
        },
        Leaf {
            kind: Access::Store,
            bits: 0xCF + (1 << 63), // a reserved bit
            fault: Some(15),
            ..load
        },
        Leaf {
            kind: Access::Fetch,
            bits: 0xC7, // X clear
            fault: Some(12),
            ..load
        },
        Leaf {
            bits: 0xC9, // R clear
            ..load
        },
        Leaf {
            mxr: true,
            bits: 0xC9,
            fault: None,
            ..load
        },
        Leaf {
            kind: Access::Store,
            mxr: true,
            bits: 0xCB, // W clear
            fault: Some(15),
            ..load
        },
        Leaf {
            mode: USER,
            sum: true, // U clear
            ..load
        },
        Leaf {
            kind: Access::Fetch,
            sum: true,
            bits: 0xDF, // U set
            fault: Some(12),
            ..load
        },
        Leaf {
            sum: true,
            bits: 0xDF,
            fault: None,
            ..load
        },
        Leaf {
            bits: 0x8F, // A clear
            ..load
        },
        Leaf {
            kind: Access::Store,
            bits: 0x4F, // D clear
            fault: Some(15),
            ..load
        },
        Leaf {
            bits: 0x34F, // D clear and the bits for software set, which don't count
            fault: None,
            ..load
        },
    ];
    for row in rows {
        let walk = Walk::start(FIRST_TABLE, ADDRESS, row.kind, row.mode, row.sum, row.mxr);
        let wants = match row.fault {
            Some(cause) => WalkStep::Fault(cause),
            None => WalkStep::Done(0x8012_3678),
        };
        let got = walked(walk, &[POINTER, SECOND_POINTER, PAGE | row.bits]);
        assert_eq!(rt; got, wants, "{:?} {:#x}", row.kind, row.bits);
    }
}
