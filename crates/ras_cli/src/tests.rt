//! The top call over a host in memory, with bytes worked out by hand.

use crate::files::FileKind;
use crate::helpers::{called, host_of, image_of};
use crate::refusals::too_long;
use ras_bits::NoMemory;
use ras_host::{MemoryHost, SteadyHost};
use std::alloc::Global;
use std::test::Fail;

// Puts `H` on the console and shuts down.
const HELLO: [u32; 5] = [0x04800513, 0x00100893, 0x00000073, 0x00800893, 0x00000073];

// Jumps to itself.
const LOOP: [u32; 1] = [0x0000006F];

// Puts the byte of the word at 0x80000040 on the console.
const LOAD: [u32; 6] = [
    0x00000297, 0x0402B503, 0x00100893, 0x00000073, 0x00800893, 0x00000073,
];

// Stores `H` as the whole word at 0x80000040, loads it again and puts it on the console.
const STORE: [u32; 8] = [
    0x00000297, 0x04800513, 0x04A2B023, 0x0402B503, 0x00100893, 0x00000073, 0x00800893, 0x00000073,
];

// The same with a store of one byte.
const STORE_BYTE: [u32; 8] = [
    0x00000297, 0x04800513, 0x04A28023, 0x0402B503, 0x00100893, 0x00000073, 0x00800893, 0x00000073,
];

// Starts hart 1 at 0x80000028, where it puts `H` on the console and shuts down, and jumps to itself.
const HARTS: [u32; 15] = [
    0x00000597, 0x02858593, 0x00100513, 0x00000813, 0x004858B7, 0x34D88893, 0x00000073, 0x0000006F,
    0x00000000, 0x00000000, 0x04800513, 0x00100893, 0x00000073, 0x00800893, 0x00000073,
];

const USAGE: &str =
    "usage: ras run|compare IMAGE [options] | ras debug IMAGE COMMANDS [options] | ras read FILE | ras demo NUMBER\n";

const FILES: [(&str, &[u32]); 6] = [
    ("harts", &HARTS),
    ("hello", &HELLO),
    ("loop", &LOOP),
    ("load", &LOAD),
    ("store", &STORE),
    ("store_byte", &STORE_BYTE),
];

const SCRIPTS: [(&str, &str); 15] = [
    ("first", "\0"),
    ("empty", ""),
    ("once", "flip 0 0x80000000 3\n"),
    ("twice", "flip 0 0x80000008 3\nflip 0 0x80000008 9\n"),
    ("later", "flip 1 0x80000008 3\nflip 1 0x80000008 9\n"),
    ("undone", "flip 0 0x80000000 3\nflip 0 0x80000000 3\n"),
    ("late", "inject 0 0 0 ce 0 0x80000000\n"),
    ("banks", "inject 0 2 0 ce 1 0x80000000\n"),
    ("classes", "inject 0 0 0 uc 1 0x80000000\n"),
    (
        "thrice",
        "flip 0 0x80000040 0\nflip 0 0x80000040 1\nflip 0 0x80000040 2\n",
    ),
    ("healed", "flip 0 0x80000040 3\nflip 0 0x80000040 9\n"),
    ("wrong", "# a comment\nstrike 0 0 0\n"),
    ("half", "flip 0 0x80000004 1\n"),
    ("blanks", "\n# blanks\n\tflip\t0  0x80000000\t 3\r\n\r"),
    ("past", "flip 0 0x80000000 72"),
];

// A host with the images and the scripts.
fn host_of_all(alloc: Global) -> Result<MemoryHost, NoMemory> {
    let mut host = host_of(alloc, &[])?;
    for (name, words) in FILES {
        host.add_file(name, image_of(alloc, words)?.as_slice())?;
    }
    for (name, text) in SCRIPTS {
        host.add_file(name, text.as_bytes())?;
    }
    Ok(host)
}

#[test]
fn runs_images(rt: HostRuntime) -> Result<(), Fail> {
    for (line, code, out, err) in [
        (
            "run --budget=0x10 --script=empty --raw --ram-mib 1 -- hello",
            0,
            "H",
            "stop=shutdown:0 steps=5 records=0 dropped=0 beyond=none\nregs pc=0x0000000080000014 x17=0x0000000000000008\n",
        ),
        (
            "run hello --raw --budget 0 --ram-mib 1",
            0,
            "",
            "stop=budget steps=0 records=0 dropped=0 beyond=none\nregs pc=0x0000000080000000\n",
        ),
        (
            "run hello --raw --budget 3 --ram-mib 1",
            0,
            "H",
            "stop=budget steps=3 records=0 dropped=0 beyond=none\nregs pc=0x000000008000000c x17=0x0000000000000001\n",
        ),
        (
            "run loop --raw --budget 7 --input empty --ram-mib 1",
            0,
            "",
            "stop=budget steps=7 records=0 dropped=0 beyond=none\nregs pc=0x0000000080000000\n",
        ),
        (
            "run hello --raw --script once --ram-mib 1",
            0,
            "H",
            "stop=shutdown:0 steps=5 records=1 dropped=0 beyond=none\n",
        ),
        (
            "run hello --raw --script twice --ram-mib 1",
            5,
            "",
            "stop=consumed:0x0000000080000008:fetch:0x0000000080000008 steps=2 records=2 dropped=0 beyond=none\n",
        ),
        (
            "run hello --raw --script later --ram-mib 1",
            0,
            "H",
            "stop=shutdown:0 steps=5 records=0 dropped=0 beyond=none\n",
        ),
        (
            "run hello --raw --script undone --ram-mib 1",
            0,
            "H",
            "stop=shutdown:0 steps=5 records=0 dropped=0 beyond=none\n",
        ),
        (
            "run load --raw --script thrice --ram-mib 1",
            0,
            "\x07",
            "stop=shutdown:0 steps=6 records=1 dropped=0 beyond=0:0x0000000080000040\n",
        ),
        (
            "run load --raw --ram-mib 1",
            0,
            "\0",
            "stop=shutdown:0 steps=6 ",
        ),
        (
            "run store --raw --script healed --ram-mib 1",
            0,
            "H",
            "stop=shutdown:0 steps=8 records=1 dropped=0 beyond=none\n",
        ),
        (
            "run store_byte --raw --script healed --ram-mib 1",
            5,
            "",
            "stop=consumed:0x0000000080000040:load:0x000000008000000c steps=3 records=2 dropped=0 beyond=none\n",
        ),
        (
            "run harts --raw --harts 2 --ram-mib 1",
            0,
            "H",
            "stop=shutdown:0 steps=22 records=0 dropped=0 beyond=none\nregs pc=0x000000008000001c x17=0x000000000048534d\nhart 1 started pc=0x000000008000003c x17=0x0000000000000008\n",
        ),
        (
            "run harts --raw --harts 2 --budget 50 --schedule first --ram-mib 1",
            0,
            "",
            "stop=budget steps=50 records=0 dropped=0 beyond=none\nregs pc=0x000000008000001c x17=0x000000000048534d\nhart 1 started pc=0x0000000080000028 x10=0x0000000000000001\n",
        ),
        (
            "run harts --raw --budget 9 --ram-mib 1",
            0,
            "",
            "stop=budget steps=9 records=0 dropped=0 beyond=none\nregs pc=0x000000008000001c x10=0xfffffffffffffffd x17=0x000000000048534d\n",
        ),
        ("run hello --raw --schedule missing --ram-mib 1", 3, "", ""),
        ("run missing --raw --ram-mib 1", 3, "", ""),
        ("run hello --raw --script missing --ram-mib 1", 3, "", ""),
        ("run hello --raw --input missing --ram-mib 1", 3, "", ""),
    ] {
        let mut host = host_of_all(rt.alloc())?;
        assert_eq!(rt; called(rt.alloc(), line, &mut host)?, code, "{line}");
        assert!(rt; host.written_out() == out.as_bytes(), "{line}");
        assert!(rt; host.written_err().starts_with(err.as_bytes()), "{line}");
    }
    Ok(())
}

#[test]
fn compares_with_the_flat_machine(rt: HostRuntime) -> Result<(), Fail> {
    for (line, code, out, err) in [
        (
            "compare load --raw --script thrice --ram-mib 1",
            6,
            "\x07",
            "stop=shutdown:0 steps=6 records=1 dropped=0 beyond=0:0x0000000080000040\nregs pc=0x0000000080000018 x5=0x0000000080000000 x17=0x0000000000000008\nflat stop=shutdown:0 steps=6\nflat regs pc=0x0000000080000018 x5=0x0000000080000000 x17=0x0000000000000008\nverdict silent\n",
        ),
        (
            "compare hello --raw --script once --ram-mib 1",
            0,
            "H",
            "stop=shutdown:0 steps=5 records=1 dropped=0 beyond=none\nregs pc=0x0000000080000014 x17=0x0000000000000008\nflat stop=shutdown:0 steps=5\nflat regs pc=0x0000000080000014 x17=0x0000000000000008\nverdict same\n",
        ),
        (
            "compare hello --raw --script twice --ram-mib 1",
            5,
            "",
            "stop=consumed:0x0000000080000008:fetch:0x0000000080000008 steps=2 records=2 dropped=0 beyond=none\nregs pc=0x0000000080000008 x10=0x0000000000000048 x17=0x0000000000000001\nflat stop=shutdown:0 steps=5\nflat regs pc=0x0000000080000014 x17=0x0000000000000008\nverdict uncorrected\n",
        ),
        (
            "compare harts --raw --harts 2 --ram-mib 1",
            0,
            "H",
            "stop=shutdown:0 steps=22 records=0 dropped=0 beyond=none\nregs pc=0x000000008000001c x17=0x000000000048534d\nhart 1 started pc=0x000000008000003c x17=0x0000000000000008\nflat stop=shutdown:0 steps=22\nflat regs pc=0x000000008000001c x17=0x000000000048534d\nflat hart 1 started pc=0x000000008000003c x17=0x0000000000000008\nverdict same\n",
        ),
        (
            "compare hello --raw --script missing --ram-mib 1",
            3,
            "",
            "",
        ),
    ] {
        let mut host = host_of_all(rt.alloc())?;
        assert_eq!(rt; called(rt.alloc(), line, &mut host)?, code, "{line}");
        assert!(rt; host.written_out() == out.as_bytes(), "{line}");
        assert!(rt; host.written_err() == err.as_bytes(), "{line}");
    }
    Ok(())
}

// The default of 16 MiB, and the most.
#[test]
fn runs_with_much_ram(rt: HostRuntime) -> Result<(), Fail> {
    for line in [
        "run hello --raw",
        "run hello --raw --ram-mib 64 --budget 1000000000 --input empty --script empty",
    ] {
        let mut host = host_of_all(rt.alloc())?;
        assert_eq!(rt; called(rt.alloc(), line, &mut host)?, 0, "{line}");
        assert!(rt; host.written_out() == b"H".as_slice(), "{line}");
    }
    Ok(())
}

#[test]
fn runs_over_a_host_that_never_fails(rt: HostRuntime) -> Result<(), Fail> {
    let alloc = rt.alloc();
    let mut host = SteadyHost::make(alloc, 4096)?;
    host.add_file("harts", image_of(alloc, &HARTS)?.as_slice())?;
    let line = "run harts --raw --harts 2 --ram-mib 1";
    assert_eq!(rt; called(alloc, line, &mut host)?, 0);
    assert!(rt; host.written_out() == b"H".as_slice());
    assert!(rt;
        host.written_err()
            == b"stop=shutdown:0 steps=22 records=0 dropped=0 beyond=none\nregs pc=0x000000008000001c x17=0x000000000048534d\nhart 1 started pc=0x000000008000003c x17=0x0000000000000008\n".as_slice()
    );
    Ok(())
}

#[test]
fn refuses(rt: HostRuntime) -> Result<(), Fail> {
    for (line, code, err) in [
        ("run", 1, USAGE),
        ("walk hello", 1, USAGE),
        ("run hello --poll 1", 1, USAGE),
        ("run hello --harts 5", 1, USAGE),
        ("run hello 100", 1, USAGE),
        ("compare hello --records r", 1, USAGE),
        ("compare", 1, USAGE),
        ("read", 1, USAGE),
        ("read hello --raw", 1, USAGE),
        ("demo 0x", 1, USAGE),
        ("demo 18446744073709551616", 1, USAGE),
        ("run empty --ram-mib 1", 2, "ras: image refused: short\n"),
        (
            "run once --raw --script hello --ram-mib 1",
            2,
            "ras: script refused: line 1: bytes\n",
        ),
        (
            "run hello --raw --script half --ram-mib 1",
            2,
            "ras: script refused: line 1: address\n",
        ),
        (
            "run hello --raw --script past --ram-mib 1",
            2,
            "ras: script refused: line 1: bit\n",
        ),
        (
            "run hello --raw --script banks --ram-mib 1",
            2,
            "ras: script refused: line 1: bank\n",
        ),
        (
            "run hello --raw --script classes --ram-mib 1",
            2,
            "ras: script refused: line 1: class\n",
        ),
        (
            "run hello --raw --script late --ram-mib 1",
            2,
            "ras: script refused: line 1: delay\n",
        ),
        (
            "run hello --raw --script wrong --ram-mib 1",
            2,
            "ras: script refused: line 2: word\n",
        ),
    ] {
        let mut host = host_of_all(rt.alloc())?;
        assert_eq!(rt; called(rt.alloc(), line, &mut host)?, code, "{line}");
        assert!(rt; host.written_out().is_empty(), "{line}");
        assert!(rt; host.written_err() == err.as_bytes(), "{line}");
    }
    Ok(())
}

#[test]
fn refuses_long_files(rt: HostRuntime) -> Result<(), Fail> {
    let alloc = rt.alloc();
    for (line, length, err) in [
        (
            "run long --raw --ram-mib 1",
            1_048_577,
            "ras: image refused: outside segment 0\n",
        ),
        (
            "run hello --raw --input long --ram-mib 1",
            16_777_217,
            "ras: input too long: limit 16777216\n",
        ),
        (
            "debug hello long --raw --ram-mib 1",
            1_048_577,
            "ras: commands too long: limit 1048576\n",
        ),
        (
            "run hello --raw --script long --ram-mib 1",
            4_194_305,
            "ras: script too long: limit 4194304\n",
        ),
    ] {
        let mut host = host_of_all(alloc)?;
        let long = vec![in alloc; 0u8; length]?;
        host.add_file("long", long.as_slice())?;
        assert_eq!(rt; called(alloc, line, &mut host)?, 2, "{line}");
        assert!(rt; host.written_out().is_empty(), "{line}");
        assert!(rt; host.written_err() == err.as_bytes(), "{line}");
    }
    Ok(())
}

#[test]
fn names_the_limits_of_files(rt: HostRuntime) {
    for (file, line) in [
        (FileKind::Image, "ras: image too long: limit 83886080\n"),
        (FileKind::Script, "ras: script too long: limit 4194304\n"),
        (FileKind::Input, "ras: input too long: limit 16777216\n"),
        (
            FileKind::Schedule,
            "ras: schedule too long: limit 16777216\n",
        ),
        (
            FileKind::Commands,
            "ras: commands too long: limit 1048576\n",
        ),
        (FileKind::Printed, "ras: file too long: limit 16777216\n"),
    ] {
        assert!(rt; too_long(file).as_slice() == line.as_bytes(), "{line}");
    }
}
