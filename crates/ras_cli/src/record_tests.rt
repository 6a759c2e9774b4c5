//! The files of records and of firmware's memory, with bytes worked out by hand from the standards.

use crate::helpers::{called, image_of};
use ras_bits::NoMemory;
use ras_host::MemoryHost;
use std::alloc::Global;
use std::test::Fail;

/// Puts `H` on the console and shuts down.
const HELLO: [u32; 5] = [0x04800513, 0x00100893, 0x00000073, 0x00800893, 0x00000073];

/// Jumps to itself.
const LOOP: [u32; 1] = [0x0000006F];

/// Stores `H` as the whole word at 0x80000040, loads it again and puts it on the console.
const STORE: [u32; 8] = [
    0x00000297, 0x04800513, 0x04A2B023, 0x0402B503, 0x00100893, 0x00000073, 0x00800893, 0x00000073,
];

/// Starts hart 1 at 0x80000028, where it puts `H` on the console and shuts down, and jumps to itself.
const HARTS: [u32; 15] = [
    0x00000597, 0x02858593, 0x00100513, 0x00000813, 0x004858B7, 0x34D88893, 0x00000073, 0x0000006F,
    0x00000000, 0x00000000, 0x04800513, 0x00100893, 0x00000073, 0x00800893, 0x00000073,
];

/// Bytes that are to stand at an offset of a file.
type Part = (usize, &'static [u8]);

/// A run, and what it is to leave.
#[derive(Clone, Copy)]
struct Row {
    image: &'static [u32],
    script: &'static str,
    options: &'static str,
    code: u8,
    out: &'static str,
    first_line: &'static str,
    /// The length of the records file, and bytes of it.
    length: usize,
    records: &'static [Part],
    /// Bytes of firmware's memory.
    tables: &'static [Part],
}

// The bytes stand where they are to stand.
fn holds(file: &[u8], parts: &[Part]) -> bool {
    for (offset, bytes) in parts {
        if file.len() < *offset || !file[*offset..].starts_with(bytes) {
            return false;
        }
    }
    true
}

// A host with an image and a script.
fn host_of_row(alloc: Global, row: &Row) -> Result<MemoryHost, NoMemory> {
    let mut host = MemoryHost::make(alloc, 32_768)?;
    host.add_file("image", image_of(alloc, row.image)?.as_slice())?;
    host.add_file("script", row.script.as_bytes())?;
    Ok(host)
}

// An error of memory: signature, severity, persistence, FRU text, validation, address and type. Then a consumption, and the boot
// error region: status, data length, severity, section type, FRU text, validation, error type and operation, processor id, target and IP.
const CONSUMED: Row = Row {
    image: &HELLO,
    script: "flip 0 0x80000008 3\nflip 0 0x80000008 9\n",
    options: "",
    code: 5,
    out: "",
    first_line: "stop=consumed:0x0000000080000008:fetch:0x0000000080000008 steps=2 records=2 dropped=0 beyond=none\n",
    length: 672,
    records: &[
        (0, b"CPER"),
        (12, &[0, 0, 0, 0]),
        (96, &[1, 0, 0, 0, 0, 0, 0, 0]),
        (108, &[0, 0, 0, 0, 0, 0, 0, 0]),
        (180, b"b0r0 c00000 s010 m0\0"),
        (216, &[8, 0, 0, 0x80, 0, 0, 0, 0]),
        (272, &[3]),
        (280, b"CPER"),
        (292, &[1, 0, 0, 0]),
        (300, &[0x88, 1, 0, 0]),
        (376, &[2, 0, 0, 0, 0, 0, 0, 0]),
        (388, &[2, 0, 0, 0, 0, 0, 0, 0]),
        (460, b"b2r0 c00000 s001 m0\0"),
    ],
    tables: &[
        (0, b"HEST"),
        (0x100, b"BERT"),
        (0x200, &[0, 0x20, 0, 0x40, 0, 0, 0, 0]),
        (0x1000, &[0x11, 0, 0, 0]),
        (0x100C, &[8, 1, 0, 0, 1, 0, 0, 0]),
        (
            0x1014,
            &[
                0xAD, 0xCC, 0x76, 0x98, 0xB4, 0x47, 0xDB, 0x4B, 0xB6, 0x5E, 0x16, 0xF1, 0x93, 0xC4,
                0xF3, 0xDB,
            ],
        ),
        (0x1040, b"b2r0 c00000 s001 m0\0"),
        (0x105C, &[0x0C, 0x13, 0, 0]),
        (0x1066, &[8, 3]),
        (0x10F4, &[0, 0, 0, 0, 0, 0, 0, 0]),
        (0x10FC, &[8, 0, 0, 0x80, 0, 0, 0, 0]),
        (0x1114, &[8, 0, 0, 0x80, 0, 0, 0, 0]),
        (0x111C, &[0, 0, 0, 0]),
        (0x2000, &[0; 20]),
    ],
};

const ROWS: [Row; 11] = [
    // A corrected error, emitted at the stop.
    Row {
        image: &HELLO,
        script: "flip 0 0x80000000 3\n",
        options: "",
        code: 0,
        out: "H",
        first_line: "stop=shutdown:0 steps=5 records=1 dropped=0 beyond=none\n",
        length: 280,
        records: &[
            (12, &[2, 0, 0, 0]),
            (20, &[0x18, 1, 0, 0]),
            (108, &[0, 0, 0, 0, 0, 0, 0, 0]),
            (180, b"b0r0 c00001 s100 m0\0"),
            (200, &[2, 0x40, 0, 0, 0, 0, 0, 0]),
            (216, &[0, 0, 0, 0x80, 0, 0, 0, 0]),
            (272, &[2, 0, 0, 0, 0, 0, 0, 0]),
        ],
        tables: &[(0x1000, &[0; 20]), (0x2000, &[0; 20])],
    },
    CONSUMED,
    // A consumption by another hart.
    Row {
        image: &HARTS,
        script: "flip 0 0x80000028 3\nflip 0 0x80000028 9\n",
        options: " --harts 2",
        code: 5,
        out: "",
        first_line: "stop=consumed:0x0000000080000028:fetch:0x0000000080000028 steps=13 records=2 dropped=0 beyond=none\n",
        length: 672,
        records: &[],
        tables: &[
            (0x1066, &[8, 3]),
            (0x10F4, &[1, 0, 0, 0, 0, 0, 0, 0]),
            (0x10FC, &[0x28, 0, 0, 0x80, 0, 0, 0, 0]),
            (0x1114, &[0x28, 0, 0, 0x80, 0, 0, 0, 0]),
        ],
    },
    // A bad word that a whole store took the place of.
    Row {
        image: &STORE,
        script: "flip 0 0x80000040 3\nflip 0 0x80000040 9\n",
        options: "",
        code: 0,
        out: "H",
        first_line: "stop=shutdown:0 steps=8 records=1 dropped=0 beyond=none\n",
        length: 280,
        records: &[
            (108, &[2, 0, 0, 0, 0, 0, 0, 0]),
            (180, b"b0r0 c00000 s010 m0\0"),
        ],
        tables: &[(0x1000, &[0; 20])],
    },
    // An injected critical error.
    Row {
        image: &LOOP,
        script: "inject 2 0 0 uec 3 0x80000100\n",
        options: "",
        code: 5,
        out: "",
        first_line: "stop=injected:0.0 steps=5 records=1 dropped=0 beyond=none\n",
        length: 280,
        records: &[(12, &[1, 0, 0, 0]), (108, &[5, 0, 0, 0, 0, 0, 0, 0])],
        tables: &[
            (0x1000, &[0x11, 0, 0, 0]),
            (0x100C, &[0x98, 0, 0, 0, 1, 0, 0, 0]),
            (0x1040, b"b0r0 c00000 s001 m0\0"),
            (0x106C, &[0, 1, 0, 0x80, 0, 0, 0, 0]),
            (0x10A4, &[3, 0, 0, 0, 0, 0, 0, 0, 0]),
        ],
    },
    Row {
        image: &HELLO,
        script: "inject 1 0 0 uec 3 0x80000100\n",
        options: "",
        code: 5,
        out: "H",
        first_line: "stop=injected:0.0 steps=4 records=1 dropped=0 beyond=none\n",
        length: 280,
        records: &[],
        tables: &[(0x1000, &[0x11, 0, 0, 0])],
    },
    // A deferred error takes a record from a corrected one, and keeps it.
    Row {
        image: &LOOP,
        script: "inject 0 0 0 ce 1 0x80000100\ninject 1 0 0 ued 1 0x80000108\ninject 2 0 0 ce 1 0x80000110\n",
        options: " --poll 0 --budget 5",
        code: 0,
        out: "",
        first_line: "stop=budget steps=5 records=1 dropped=0 beyond=none\n",
        length: 280,
        records: &[
            (180, b"b0r0 c00002 s110 m0\0"),
            (216, &[8, 1, 0, 0x80, 0, 0, 0, 0]),
        ],
        tables: &[(0x1000, &[0; 20]), (0x2000, &[0; 20])],
    },
    // An event between the two steps of a drain: the record stays, and the next drain emits both.
    Row {
        image: &LOOP,
        script: "flip 0 0x80000000 3\ninject 0 0 0 ce 3 0x80000100\n",
        options: " --poll 4 --budget 8",
        code: 0,
        out: "",
        first_line: "stop=budget steps=8 records=1 dropped=0 beyond=none\n",
        length: 280,
        records: &[
            (180, b"b0r0 c00002 s100 m1\0"),
            (216, &[0, 0, 0, 0x80, 0, 0, 0, 0]),
        ],
        tables: &[
            (0x2000, &[0x12, 0, 0, 0]),
            (0x2010, &[2, 0, 0, 0]),
            (0x2040, b"b0r0 c00002 s100 m1\0"),
        ],
    },
    // A patrol scrubs the word of the first flip before the second one comes.
    Row {
        image: &LOOP,
        script: "flip 10 0x80000320 1\nflip 101 0x80000320 2\nscrub 102 0x80000320\n",
        options: " --poll 0 --patrol 1 --budget 200",
        code: 0,
        out: "",
        first_line: "stop=budget steps=200 records=1 dropped=0 beyond=none\n",
        length: 280,
        records: &[(180, b"b0r1 c00002 s100 m1\0"), (272, &[13])],
        tables: &[],
    },
    // A record that doesn't log.
    Row {
        image: &HELLO,
        script: "control 0 0 0 0\nflip 0 0x80000000 3\n",
        options: "",
        code: 0,
        out: "H",
        first_line: "stop=shutdown:0 steps=5 records=0 dropped=0 beyond=none\n",
        length: 0,
        records: &[],
        tables: &[],
    },
    // A record that logs and isn't signalled: the drain leaves it to the stop.
    Row {
        image: &LOOP,
        script: "control 0 0 0 3\nflip 0 0x80000000 3\n",
        options: " --poll 4 --budget 8",
        code: 0,
        out: "",
        first_line: "stop=budget steps=8 records=1 dropped=0 beyond=none\n",
        length: 280,
        records: &[],
        tables: &[(0x2000, &[0; 20])],
    },
];

#[test]
fn leaves_records_and_tables(rt: HostRuntime) -> Result<(), Fail> {
    let alloc = rt.alloc();
    for row in ROWS {
        let mut host = host_of_row(alloc, &row)?;
        let line = format!(in alloc;
            "run image --raw --script script --records r --tables t --ram-mib 1{}",
            row.options
        )?;
        let name = row.script;
        assert_eq!(rt;
            called(alloc, line.as_str(), &mut host)?,
            row.code,
            "{name}"
        );
        assert!(rt; host.written_out() == row.out.as_bytes(), "{name}");
        assert!(rt;
            host.written_err().starts_with(row.first_line.as_bytes()),
            "{name}"
        );
        let records = host.created("r").unwrap_or(b"none");
        assert_eq!(rt; records.len(), row.length, "{name}");
        assert!(rt; holds(records, row.records), "{name}");
        let tables = host.created("t").unwrap_or(b"none");
        assert_eq!(rt; tables.len(), 16_384, "{name}");
        assert!(rt; holds(tables, row.tables), "{name}");
    }
    Ok(())
}

// The calls are the reads of image, script, input and schedule, the write of the console, the two files, and the report.
#[test]
fn stops_at_the_call_that_fails(rt: HostRuntime) -> Result<(), Fail> {
    let alloc = rt.alloc();
    for call in 0..9 {
        let mut host = host_of_row(alloc, &ROWS[0])?;
        host.add_file("input", b"")?;
        host.fail_at(call)?;
        let line =
            "run image --raw --script script --input input --schedule input --records r --tables t --ram-mib 1";
        let code = called(alloc, line, &mut host)?;
        assert_eq!(rt; code, if call < 8 { 3 } else { 0 }, "{call}");
        assert_eq!(rt; host.calls(), if call < 8 { call + 1 } else { 8 }, "{call}");
        assert_eq!(rt; host.written_out().is_empty(), call <= 4, "{call}");
        assert_eq!(rt; host.created("r").is_some(), call > 5, "{call}");
        assert_eq!(rt; host.created("t").is_some(), call > 6, "{call}");
        assert_eq!(rt; host.written_err().is_empty(), call <= 7, "{call}");
    }
    Ok(())
}

// Without an option its file isn't made. Of two files of one name the later one stands.
#[test]
fn makes_the_files_that_are_named(rt: HostRuntime) -> Result<(), Fail> {
    let alloc = rt.alloc();
    for (options, records, tables) in [
        ("", None, None),
        (" --records r", Some(280), None),
        (" --tables t", None, Some(16_384)),
        (" --records t --tables t", None, Some(16_384)),
    ] {
        let mut host = host_of_row(alloc, &ROWS[0])?;
        let line = format!(in alloc; "run image --raw --script script --ram-mib 1{options}")?;
        assert_eq!(rt; called(alloc, line.as_str(), &mut host)?, 0, "{options}");
        assert!(rt;
            host.created("r").map(|file| file.len()) == records,
            "{options}"
        );
        assert!(rt;
            host.created("t").map(|file| file.len()) == tables,
            "{options}"
        );
    }
    Ok(())
}
