//! Accesses of one hart through page tables, by hand from the manual.

use crate::hart_guest::{DATA, Guest, WENT, WORD_8};
use ras_bits::{NoMemory, RAM_START};
use rv64_hart::Console;
use std::alloc::Global;
use std::test::Fail;

/// Sets sstatus and satp, and loads a1, from word 8 on, whose address stands in a0 at first.
const TO_PAGES: [u32; 5] = [
    0x0005_3303, // ld t1,0(a0)
    0x0085_3583, // ld a1,8(a0)
    0x1003_1073, // csrrw zero,sstatus,t1
    0x0105_3303, // ld t1,16(a0)
    0x1803_1073, // csrrw zero,satp,t1
];

/// A hart that does `word` in its sixth step, with page tables. RAM has four pages: one with the program, `DATA` in word 16,
/// and `addi t2,zero,7` in word 17, and then one page table of each level.
fn with_pages(alloc: Global, sstatus: u64, address: u64, word: u32) -> Result<Guest, NoMemory> {
    let mut guest = Guest::make(alloc, 2048, &TO_PAGES, WORD_8)?;
    let first = guest.word(2);
    guest.put(2, first | (u64::from(word) << 32));
    guest.put(8, sstatus);
    guest.put(9, address);
    guest.put(10, 0x8000_0000_0008_0001);
    guest.put(16, DATA);
    guest.put(17, 0x0070_0393); // addi t2,zero,7
    // Level 2: from 0 on the next table, 1 GiB at the start of RAM from 2 GiB on, from 3 GiB on a table outside RAM, and
    // from 4 GiB on 1 GiB outside RAM.
    guest.put(512, 0x2000_0801);
    guest.put(514, 0x2000_00CF);
    guest.put(515, 0x0000_0001);
    guest.put(516, 0x0000_00CF);
    // Level 1: from 0 on the next table, and from 2 MiB on 2 MiB at the start of RAM.
    guest.put(1024, 0x2000_0C01);
    guest.put(1025, 0x2000_00CF);
    // Level 0: the first page of RAM with all rights, none, for U mode, to execute alone, and to read alone.
    guest.put(1536, 0x2000_00CF);
    guest.put(1538, 0x2000_00DF);
    guest.put(1539, 0x2000_0049);
    guest.put(1540, 0x2000_0043);
    Ok(guest)
}

/// An instruction, sstatus, the address in a1, and then scause, t0 and word 16.
#[derive(Clone, Copy)]
struct Paged {
    word: u32,
    sstatus: u64,
    address: u64,
    cause: u64,
    t0: u64,
    stored: u64,
}

#[test]
fn loads_and_stores_through_page_tables(rt: HostRuntime) -> Result<(), Fail> {
    let (load, store) = (0x0005_B283, 0x0005_B023); // ld t0,0(a1); sd zero,0(a1)
    let (reserve, conditional) = (0x1005_B2AF, 0x18A5_B2AF); // lr.d t0,(a1); sc.d t0,a0,(a1)
    let atomic = 0x0805_B2AF; // amoswap.d t0,zero,(a1)
    let rows = [
        Paged {
            word: load,
            sstatus: 0,
            address: 0x80,
            cause: 0,
            t0: DATA,
            stored: DATA,
        },
        Paged {
            word: store,
            sstatus: 0,
            address: 0x20_0080,
            cause: 0,
            t0: 0,
            stored: 0,
        },
        Paged {
            word: load,
            sstatus: 0x4_0000,
            address: 0x2080,
            cause: 0,
            t0: DATA,
            stored: DATA,
        },
        Paged {
            word: load,
            sstatus: 0,
            address: 0x1080,
            cause: 13,
            t0: 0,
            stored: DATA,
        },
        Paged {
            word: reserve,
            sstatus: 0,
            address: 0x1080,
            cause: 13,
            t0: 0,
            stored: DATA,
        },
        Paged {
            word: store,
            sstatus: 0,
            address: 0x4080,
            cause: 15,
            t0: 0,
            stored: DATA,
        },
        Paged {
            word: conditional,
            sstatus: 0,
            address: 0x4080,
            cause: 15,
            t0: 0,
            stored: DATA,
        },
        Paged {
            word: atomic,
            sstatus: 0,
            address: 0x4080,
            cause: 15,
            t0: 0,
            stored: DATA,
        },
        Paged {
            word: load,
            sstatus: 0,
            address: 0x1084,
            cause: 4,
            t0: 0,
            stored: DATA,
        },
        Paged {
            word: load,
            sstatus: 0,
            address: 0xC000_0080,
            cause: 5,
            t0: 0,
            stored: DATA,
        },
        Paged {
            word: store,
            sstatus: 0,
            address: 0x1_0000_0080,
            cause: 7,
            t0: 0,
            stored: DATA,
        },
    ];
    let mut console = Console::make(rt.alloc())?;
    for row in rows {
        let mut guest = with_pages(rt.alloc(), row.sstatus, row.address, row.word)?;
        let shown = [u64::from(row.word), row.address];
        assert_eq!(rt; guest.run(6, &mut console), WENT, "{shown:?}");
        let trap = if row.cause == 0 {
            [RAM_START + 0x18, 0, 0, 0]
        } else {
            [0, row.cause, row.address, RAM_START + 0x14]
        };
        assert_eq!(rt; guest.trap(), trap, "{shown:?}");
        let got = [guest.hart.x(5), guest.word(16)];
        assert_eq!(rt; got, [row.t0, row.stored], "{shown:?}");
    }
    Ok(())
}

/// Where the sixth step jumps, and scause and t2 after the seventh.
#[derive(Clone, Copy)]
struct Fetched {
    address: u64,
    cause: u64,
    t2: u64,
}

#[test]
fn fetches_through_page_tables(rt: HostRuntime) -> Result<(), Fail> {
    let rows = [
        Fetched {
            address: 0x3088,
            cause: 0,
            t2: 7,
        },
        Fetched {
            address: 0x4088,
            cause: 12,
            t2: 0,
        },
        Fetched {
            address: 0xC000_0088, // its page table lies outside RAM
            cause: 1,
            t2: 0,
        },
        Fetched {
            address: 0x1_0000_0088, // its page lies outside RAM
            cause: 1,
            t2: 0,
        },
    ];
    let mut console = Console::make(rt.alloc())?;
    for Fetched { address, cause, t2 } in rows {
        let jump = 0x0005_8067; // jalr zero,0(a1)
        let mut guest = with_pages(rt.alloc(), 0, address, jump)?;
        guest.run(7, &mut console);
        let trap = if cause == 0 {
            [address.wrapping_add(4), 0, 0, 0]
        } else {
            [0, cause, address, address]
        };
        assert_eq!(rt; guest.trap(), trap, "{address:#x}");
        assert_eq!(rt; guest.hart.x(7), t2, "{address:#x}");
    }
    Ok(())
}
