//! Files that are refused by their rules, and an executable as a linker makes it.

use crate::helpers::{called, host_of};
use ras_bits::NoMemory;
use std::alloc::Global;
use std::test::Fail;

/// Sets sp, writes three bytes from 0x80001000 on by the debug console extension, and shuts down by a system reset.
const WRITE: [u32; 15] = [
    0x00002117, 0x00001597, 0xFFC58593, 0x00300513, 0x00000613, 0x00000813, 0x444248B7, 0x34E88893,
    0x00000073, 0x00000513, 0x00000593, 0x00000813, 0x535258B7, 0x35488893, 0x00000073,
];

/// A program header: its type, the offset and length of its part of the file, and its address and length in memory.
#[derive(Clone, Copy)]
struct Segment {
    kind: u32,
    offset: u64,
    address: u64,
    file: u64,
    memory: u64,
}

/// A segment of 60 bytes at the start of RAM, which begins at offset 400 of the file.
const CODE: Segment = Segment {
    kind: 1,
    offset: 400,
    address: 0x8000_0000,
    file: 60,
    memory: 60,
};

/// What differs between the files of the tests.
#[derive(Clone, Copy)]
struct Header {
    kind: u16,
    flags: u32,
}

const HEADER: Header = Header { kind: 2, flags: 0 };

/// The ELF file with this header and these segments, and then zeros, the code and a text from offset 400 on.
fn elf_of(alloc: Global, header: Header, segments: &[Segment]) -> Result<Vec<u8>, NoMemory> {
    let mut file = Vec::new(alloc);
    file.extend_from_slice(&[0x7F, 0x45, 0x4C, 0x46, 2, 1, 1, 0])?;
    file.extend_from_slice(&[0; 8])?;
    file.extend_from_slice(&header.kind.to_le_bytes())?;
    file.extend_from_slice(&243u16.to_le_bytes())?;
    file.extend_from_slice(&1u32.to_le_bytes())?;
    file.extend_from_slice(&0x8000_0000u64.to_le_bytes())?;
    file.extend_from_slice(&64u64.to_le_bytes())?;
    file.extend_from_slice(&0u64.to_le_bytes())?;
    file.extend_from_slice(&header.flags.to_le_bytes())?;
    file.extend_from_slice(&[
        64,
        0,
        56,
        0,
        (segments.len() % 256) as u8,
        0,
        0,
        0,
        0,
        0,
        0,
        0,
    ])?;
    for segment in segments {
        file.extend_from_slice(&segment.kind.to_le_bytes())?;
        file.extend_from_slice(&7u32.to_le_bytes())?;
        file.extend_from_slice(&segment.offset.to_le_bytes())?;
        file.extend_from_slice(&segment.address.to_le_bytes())?;
        file.extend_from_slice(&segment.address.to_le_bytes())?;
        file.extend_from_slice(&segment.file.to_le_bytes())?;
        file.extend_from_slice(&segment.memory.to_le_bytes())?;
        file.extend_from_slice(&8u64.to_le_bytes())?;
    }
    for _ in file.len()..400 {
        file.push(0)?;
    }
    for word in WRITE {
        file.extend_from_slice(&word.to_le_bytes())?;
    }
    file.extend_from_slice(b"ok\n\0")?;
    Ok(file)
}

/// The first 100 bytes of a file, which end inside its first program header.
fn cut(file: &[u8]) -> &[u8] {
    if file.len() < 100 { file } else { &file[..100] }
}

#[test]
fn refuses_executables_by_the_first_rule_they_break(rt: HostRuntime) -> Result<(), Fail> {
    let alloc = rt.alloc();
    let other = Segment { kind: 4, ..CODE };
    let past = Segment {
        address: 0x800F_FFFF,
        file: 0,
        memory: 2,
        ..CODE
    };
    let rows: [(Header, &[Segment], &str); 4] = [
        (Header { kind: 3, ..HEADER }, &[CODE], "exectype"),
        (Header { flags: 2, ..HEADER }, &[CODE], "hardfloat"),
        (
            HEADER,
            &[
                other,
                Segment {
                    offset: 460,
                    ..CODE
                },
            ],
            "filepart segment 1",
        ),
        (HEADER, &[CODE, other, past], "outside segment 2"),
    ];
    for (header, segments, name) in rows {
        let file = elf_of(alloc, header, segments)?;
        let mut host = host_of(alloc, &[("image", file.as_slice())])?;
        let wanted = format!(in alloc; "ras: image refused: {name}\n")?;
        assert_eq!(rt;
            called(alloc, "run image --ram-mib 1", &mut host)?,
            2,
            "{name}"
        );
        assert!(rt; host.written_out().is_empty(), "{name}");
        assert!(rt; host.written_err() == wanted.as_bytes(), "{name}");
    }
    Ok(())
}

#[test]
fn takes_an_executable_as_a_linker_makes_it(rt: HostRuntime) -> Result<(), Fail> {
    let alloc = rt.alloc();
    let attributes = Segment {
        kind: 0x7000_0003,
        file: 4,
        memory: 0,
        ..CODE
    };
    let data = Segment {
        offset: 460,
        address: 0x8000_1000,
        file: 4,
        memory: 64,
        ..CODE
    };
    let dynamic = Segment { kind: 4, ..CODE };
    let stack = Segment {
        kind: 0x6474_E551,
        file: 0,
        memory: 0,
        ..CODE
    };
    let file = elf_of(alloc, HEADER, &[attributes, CODE, data, dynamic, stack])?;
    let mut host = host_of(alloc, &[("image", file.as_slice())])?;
    assert_eq!(rt; called(alloc, "run image --ram-mib 1", &mut host)?, 0);
    assert!(rt; host.written_out() == b"ok\n".as_slice());
    assert!(rt;
        host.written_err().starts_with(
            b"stop=shutdown:0 steps=15 records=0 dropped=0 beyond=none\nregs "
        )
    );
    let mut host = host_of(alloc, &[("image", cut(file.as_slice()))])?;
    assert_eq!(rt; called(alloc, "run image --ram-mib 1", &mut host)?, 2);
    assert!(rt; host.written_err() == b"ras: image refused: headers\n".as_slice());
    Ok(())
}
