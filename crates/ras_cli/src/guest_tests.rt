//! Guests that need the whole hart, over a host in memory, with bytes worked out by hand.

use crate::helpers::{called, host_of, image_of};
use ras_bits::NoMemory;
use ras_host::MemoryHost;
use std::alloc::Global;
use std::test::Fail;

/// Reads a byte of the input and writes it: li a7,2; ecall; li a7,1; ecall; li a7,8; ecall
const ECHO: [u32; 6] = [
    0x00200893, 0x00000073, 0x00100893, 0x00000073, 0x00800893, 0x00000073,
];

/// Writes 16 bytes from 0x80000040 on by the debug console extension, and shuts down.
const WRITE: [u32; 8] = [
    0x00000597, 0x04058593, 0x01000513, 0x444248B7, 0x34E88893, 0x00000073, 0x00800893, 0x00000073,
];

/// Sets satp to the table at 0x80001000, and then jumps to itself.
const PAGED: [u32; 7] = [
    0x00800293, 0x03C29293, 0x00080337, 0x00130313, 0x0062E2B3, 0x18029073, 0x0000006F,
];

/// Adds nothing to the doubleword at 0x80000040: auipc t0,0; addi t0,t0,64; amoadd.d a0,zero,(t0)
const ADD: [u32; 3] = [0x00000297, 0x04028293, 0x0002B52F];

/// Loads two instructions, stores them over two of its own words, and runs them.
const REWRITE: [u32; 12] = [
    0x00000297, 0x0282B503, 0x00A2B823, 0x00000013, 0x00000000, 0x00000000, 0x00000073, 0x00800893,
    0x00000073, 0x00000000, 0x04800513, 0x00100893,
];

/// Asks for a system reset of type 1: li a0,1; li a1,0; li a6,0; lui a7,0x53525; addi a7,a7,0x354; ecall
const REBOOT: [u32; 6] = [
    0x00100513, 0x00000593, 0x00000813, 0x535258B7, 0x35488893, 0x00000073,
];

/// Writes 4,096 bytes from 0x80000004 on by the debug console extension, again and again: lui a0,1; auipc a1,0; li a2,0;
/// lui a7,0x44424; addi a7,a7,0x34E; ecall; j -24
const FILL: [u32; 7] = [
    0x00001537, 0x00000597, 0x00000613, 0x444248B7, 0x34E88893, 0x00000073, 0xFE9FF06F,
];

/// The bytes of a raw image: words at its start, and words of 64 bits behind zeros at offsets.
fn image_with(alloc: Global, words: &[u32], far: &[(usize, u64)]) -> Result<Vec<u8>, NoMemory> {
    let mut image = image_of(alloc, words)?;
    for (offset, word) in far {
        for _ in image.len()..*offset {
            image.push(0)?;
        }
        image.extend_from_slice(&word.to_le_bytes())?;
    }
    Ok(image)
}

#[test]
fn runs_guests(rt: HostRuntime) -> Result<(), Fail> {
    let alloc = rt.alloc();
    let leaf: &[(usize, u64)] = &[(0x1010, 0x200000CF)];
    let circle: &[(usize, u64)] = &[(0x1000, 0x20000401), (0x1010, 0x20000401)];
    let rows: [(
        &str,
        &[u32],
        &[(usize, u64)],
        &str,
        &[u8],
        &str,
        u8,
        &[u8],
        &str,
    ); 11] = [
        (
            "a byte of the input",
            &ECHO,
            &[],
            "",
            b"k",
            "100",
            0,
            b"k",
            "stop=shutdown:0 steps=6 records=0 dropped=0 beyond=none\nregs pc=0x0000000080000018 x17=0x0000000000000008\n",
        ),
        (
            "the input's end",
            &ECHO,
            &[],
            "",
            b"",
            "100",
            0,
            &[0xFF],
            "stop=shutdown:0 steps=6 records=0 dropped=0 beyond=none\nregs pc=0x0000000080000018 x17=0x0000000000000008\n",
        ),
        (
            "a trap to an address outside RAM",
            &[0],
            &[],
            "",
            b"",
            "3",
            0,
            b"",
            "stop=budget steps=3 records=0 dropped=0 beyond=none\nregs pc=0x0000000000000000\n",
        ),
        (
            "a console write",
            &WRITE,
            &[],
            "",
            b"",
            "100",
            0,
            &[0; 16],
            "stop=shutdown:0 steps=8 records=0 dropped=0 beyond=none\nregs pc=0x0000000080000020 x11=0x0000000000000010 x17=0x0000000000000008\n",
        ),
        (
            "a console write that meets poison",
            &WRITE,
            &[],
            "flip 0 0x80000048 3\nflip 0 0x80000048 9\n",
            b"",
            "100",
            5,
            b"",
            "stop=consumed:0x0000000080000048:sbi:0x0000000080000014 steps=5 records=2 dropped=0 beyond=none\nregs pc=0x0000000080000014 x10=0x0000000000000010 x11=0x0000000080000040 x17=0x000000004442434e\n",
        ),
        (
            "a reboot",
            &REBOOT,
            &[],
            "",
            b"",
            "100",
            0,
            b"",
            "stop=reboot:1 steps=6 records=0 dropped=0 beyond=none\nregs pc=0x0000000080000018 x10=0x0000000000000001 x17=0x0000000053525354\n",
        ),
        (
            "a page of one gigabyte",
            &PAGED,
            leaf,
            "",
            b"",
            "100",
            0,
            b"",
            "stop=budget steps=100 records=0 dropped=0 beyond=none\nregs pc=0x0000000080000018 x5=0x8000000000080001 x6=0x0000000000080001\n",
        ),
        (
            "a poisoned page-table entry",
            &PAGED,
            leaf,
            "flip 0 0x80001010 3\nflip 0 0x80001010 9\n",
            b"",
            "100",
            5,
            b"",
            "stop=consumed:0x0000000080001010:walk:0x0000000080000018 steps=6 records=2 dropped=0 beyond=none\nregs pc=0x0000000080000018 x5=0x8000000000080001 x6=0x0000000000080001\n",
        ),
        (
            "a table that points to itself",
            &PAGED,
            circle,
            "",
            b"",
            "10",
            0,
            b"",
            "stop=budget steps=10 records=0 dropped=0 beyond=none\nregs pc=0x0000000000000000 x5=0x8000000000080001 x6=0x0000000000080001\n",
        ),
        (
            "an atomic operation on a poisoned word",
            &ADD,
            &[],
            "flip 0 0x80000040 3\nflip 0 0x80000040 9\n",
            b"",
            "100",
            5,
            b"",
            "stop=consumed:0x0000000080000040:amo:0x0000000080000008 steps=2 records=2 dropped=0 beyond=none\nregs pc=0x0000000080000008 x5=0x0000000080000040\n",
        ),
        (
            "code that rewrites itself",
            &REWRITE,
            &[],
            "",
            b"",
            "100",
            0,
            b"H",
            "stop=shutdown:0 steps=9 records=0 dropped=0 beyond=none\nregs pc=0x0000000080000024 x5=0x0000000080000000 x17=0x0000000000000008\n",
        ),
    ];
    for (name, words, far, script, input, budget, code, out, err) in rows {
        let image = image_with(alloc, words, far)?;
        let files: [(&str, &[u8]); 3] = [
            ("image", image.as_slice()),
            ("script", script.as_bytes()),
            ("input", input),
        ];
        let mut host = host_of(alloc, &files)?;
        let line = format!(in alloc;
            "run image --raw --script script --input input --budget {budget} --ram-mib 1"
        )?;
        assert_eq!(rt; called(alloc, line.as_str(), &mut host)?, code, "{name}");
        assert!(rt; host.written_out() == out, "{name}");
        assert!(rt; host.written_err() == err.as_bytes(), "{name}");
    }
    Ok(())
}

// Each write takes seven steps, and 256 of them fill the console.
#[test]
fn stops_where_the_console_is_full(rt: HostRuntime) -> Result<(), Fail> {
    let alloc = rt.alloc();
    let mut host = MemoryHost::make(alloc, 1_050_000)?;
    host.add_file("image", image_of(alloc, &FILL)?.as_slice())?;
    assert_eq!(rt; called(alloc, "run image --raw --ram-mib 1", &mut host)?, 0);
    assert_eq!(rt; host.written_out().len(), 1_048_576);
    assert!(rt;
        host.written_err()
            == b"stop=console-full steps=1797 records=0 dropped=0 beyond=none\nregs pc=0x0000000080000014 x10=0x0000000000001000 x11=0x0000000080000004 x17=0x000000004442434e\n".as_slice()
    );
    Ok(())
}
