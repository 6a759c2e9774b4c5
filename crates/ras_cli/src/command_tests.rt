//! The commands `debug`, `read` and `demo` over a host in memory, with texts worked out by hand.

use crate::helpers::{called, host_of, image_of};
use ras_bits::NoMemory;
use ras_gen::workload;
use ras_host::MemoryHost;
use std::alloc::Global;
use std::test::Fail;

// Puts `H` on the console and shuts down.
const HELLO: [u32; 5] = [0x04800513, 0x00100893, 0x00000073, 0x00800893, 0x00000073];

// The first so many bytes of a file of one record, whose record and memory section say that they are 7 bytes shorter
// where they are 273: so they were before the section had its last fields.
fn front(alloc: Global, file: &[u8], length: usize) -> Result<Vec<u8>, NoMemory> {
    let mut bytes = Vec::new(alloc);
    for (at, byte) in file.iter().enumerate() {
        if at < length {
            bytes.push(match (length, at) {
                (273, 20) => 0x11,
                (273, 132) => 0x49,
                _ => *byte,
            })?;
        }
    }
    Ok(bytes)
}

// A host with the file of the one record of a run, the same cut and as it was, and that of firmware's memory.
fn host_of_records(alloc: Global) -> Result<MemoryHost, NoMemory> {
    let mut run = MemoryHost::make(alloc, 32_768)?;
    run.add_file("hello", image_of(alloc, &HELLO)?.as_slice())?;
    run.add_file("once", b"flip 0 0x80000000 3\n")?;
    called(
        alloc,
        "run hello --raw --script once --ram-mib 1 --records r --tables t",
        &mut run,
    )?;
    let records = run.created("r").unwrap_or(&[]);
    let mut host = host_of(
        alloc,
        &[("empty", b""), ("other", b"cper"), ("whole", records)],
    )?;
    host.add_file("older", front(alloc, records, 273)?.as_slice())?;
    host.add_file("cut", front(alloc, records, 100)?.as_slice())?;
    host.add_file("tables", run.created("t").unwrap_or(&[]))?;
    Ok(host)
}

#[test]
fn answers_the_lines_of_a_file(rt: HostRuntime) -> Result<(), Fail> {
    let shown =
        "at 2 pc 0x0000000080000008\nregs pc=0x0000000080000008 x10=0x0000000000000048 x17=0x0000000000000001\n";
    for (commands, out) in [
        ("step 2\nregs\nquit\n", shown),
        ("step 2\nregs", shown),
        ("step 2\n\nregs\nquit\nregs\n", shown),
        ("quit\nregs\n", ""),
        ("", ""),
    ] {
        let mut host = host_of(rt.alloc(), &[("c", commands.as_bytes())])?;
        host.add_file("hello", image_of(rt.alloc(), &HELLO)?.as_slice())?;
        let code = called(rt.alloc(), "debug hello c --raw --ram-mib 1", &mut host)?;
        assert_eq!(rt; code, 0, "{commands}");
        assert!(rt; host.written_out() == out.as_bytes(), "{commands}");
        assert!(rt; host.written_err() == b"".as_slice(), "{commands}");
    }
    Ok(())
}

#[test]
fn prints_what_a_run_left(rt: HostRuntime) -> Result<(), Fail> {
    for (line, code, out, err) in [
        ("read empty", 0, "", ""),
        (
            "read whole",
            0,
            "record 1 severity 2 at 0 length 280 sections 1\n  memory address 0x0000000080000000 kind 2 fru b0r0 c00001 s100 m0\n",
            "",
        ),
        (
            "read older",
            0,
            "record 1 severity 2 at 0 length 273 sections 1\n  memory address 0x0000000080000000 kind 2 fru b0r0 c00001 s100 m0\n",
            "",
        ),
        (
            "read tables",
            0,
            "hest sources 1\nbert length 4096 address 0x0000000040001000\nboot status 0x00000000 severity 0\npolled status 0x00000000 severity 0\n",
            "",
        ),
        ("read cut", 2, "", "ras: file refused at 0: short\n"),
        ("read other", 2, "", "ras: file refused at 0: kind\n"),
        ("read missing", 3, "", ""),
    ] {
        let mut host = host_of_records(rt.alloc())?;
        assert_eq!(rt; called(rt.alloc(), line, &mut host)?, code, "{line}");
        assert!(rt; host.written_out() == out.as_bytes(), "{line}");
        assert!(rt; host.written_err() == err.as_bytes(), "{line}");
    }
    Ok(())
}

#[test]
fn runs_the_demo(rt: HostRuntime) -> Result<(), Fail> {
    let alloc = rt.alloc();
    let (image, script) = workload(alloc, 0)?;
    let mut plain = host_of(alloc, &[("demo", image.as_slice())])?;
    assert_eq!(rt; called(alloc, "run demo --raw", &mut plain)?, 0);
    assert!(rt; plain.written_out() == b"A".as_slice());
    assert!(rt;
        plain
            .written_err()
            .starts_with(b"stop=shutdown:0 steps=28684 records=0 ")
    );
    let mut compared = host_of(
        alloc,
        &[("demo", image.as_slice()), ("flips", script.as_slice())],
    )?;
    let code = called(alloc, "compare --raw demo --script flips", &mut compared)?;
    for _ in 0..2 {
        let mut host = host_of(alloc, &[])?;
        assert_eq!(rt; called(alloc, "demo 0", &mut host)?, code);
        assert!(rt; host.written_out() == compared.written_out());
        assert!(rt; host.written_err() == compared.written_err());
    }
    Ok(())
}
