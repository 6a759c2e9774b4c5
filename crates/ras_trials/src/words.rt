//! Words of the command line, the limits, and numbers in text.

use ras_numbers::{address, hex_digits, number};
use ras_words::{
    COMMANDS_LIMIT, Command, DEFAULT_BUDGET, DEFAULT_HARTS, DEFAULT_PATROL, DEFAULT_POLL,
    DEFAULT_RAM_MIB, DebugWords, IMAGE_LIMIT, INPUT_LIMIT, LEAST_RAM_MIB, MOST_HARTS, MOST_RAM_MIB,
    MachineWords, PRINTED_LIMIT, RunWords, SCHEDULE_LIMIT, SCRIPT_LIMIT, WordsError, read_words,
};
use std::alloc::{AllocError, Global};

// What `run a.elf` asks for.
const BARE: MachineWords<'static> = MachineWords {
    image: "a.elf",
    raw: false,
    script: None,
    input: None,
    budget: 10_000_000,
    ram_mib: 16,
    poll: 1_000,
    patrol: 64,
    harts: 1,
    schedule: None,
};

// A run that writes no file.
fn plain(machine: MachineWords<'_>) -> RunWords<'_> {
    RunWords {
        machine,
        records: None,
        tables: None,
    }
}

// The words of a line, separated by single spaces: two spaces have an empty word between them.
fn words_of(alloc: Global, line: &str) -> Result<Vec<String>, AllocError> {
    let mut words = Vec::new(alloc);
    for word in line.split(' ') {
        words.push(String::from_str(alloc, word)?)?;
    }
    Ok(words)
}

fn image(name: &str) -> RunWords<'_> {
    plain(MachineWords {
        image: name,
        ..BARE
    })
}

fn script(name: &str) -> RunWords<'_> {
    plain(MachineWords {
        script: Some(name),
        ..BARE
    })
}

fn budget(steps: u64) -> RunWords<'static> {
    plain(MachineWords {
        budget: steps,
        ..BARE
    })
}

fn intervals(poll: u64, patrol: u64) -> RunWords<'static> {
    plain(MachineWords {
        poll,
        patrol,
        ..BARE
    })
}

#[test]
fn the_limits(rt: HostRuntime) {
    for (limit, want) in [
        (IMAGE_LIMIT, 83_886_080),
        (SCRIPT_LIMIT, 4_194_304),
        (INPUT_LIMIT, 16_777_216),
        (DEFAULT_BUDGET, 10_000_000),
        (LEAST_RAM_MIB, 1),
        (MOST_RAM_MIB, 64),
        (DEFAULT_RAM_MIB, 16),
        (SCHEDULE_LIMIT, 16_777_216),
        (COMMANDS_LIMIT, 1_048_576),
        (PRINTED_LIMIT, 16_777_216),
        (DEFAULT_HARTS, 1),
        (MOST_HARTS, 4),
        (DEFAULT_POLL, 1_000),
        (DEFAULT_PATROL, 64),
    ] {
        assert_eq!(rt; limit, want);
    }
}

#[test]
fn words_that_are_taken(rt: HostRuntime) -> Result<(), AllocError> {
    let raw = plain(MachineWords { raw: true, ..BARE });
    let all = RunWords {
        machine: MachineWords {
            raw: true,
            script: Some("s"),
            input: Some("i"),
            budget: 7,
            ram_mib: 64,
            poll: 2,
            patrol: 1,
            harts: 4,
            schedule: Some("o"),
            ..BARE
        },
        records: Some("r"),
        tables: Some("t"),
    };
    for (line, wanted) in [
        ("run a.elf", plain(BARE)),
        ("run -", image("-")),
        ("run --raw a.elf", raw),
        ("run --script s a.elf", script("s")),
        ("run a.elf --script -", script("-")),
        ("run a.elf --script=-x", script("-x")),
        ("run a.elf --script=a=b", script("a=b")),
        ("run a.elf --script==", script("=")),
        ("run a.elf --budget 0", budget(0)),
        ("run a.elf --budget=1000000000", budget(1_000_000_000)),
        ("run a.elf --budget 0x1F", budget(31)),
        ("run a.elf --poll 0 --patrol 0", intervals(0, 0)),
        (
            "run a.elf --poll 1000000000 --patrol 1000000000",
            intervals(1_000_000_000, 1_000_000_000),
        ),
        (
            "run --harts=4 --schedule o --tables t --input=i --ram-mib 64 --poll 2 --budget=7 --script s --records=r --patrol=1 --raw -- a.elf",
            all,
        ),
        ("run a.elf --", plain(BARE)),
        ("run -- --raw", image("--raw")),
        ("run -- --", image("--")),
        ("run run", image("run")),
        ("run a=b", image("a=b")),
    ] {
        let words = words_of(rt.alloc(), line)?;
        assert!(rt;
            read_words(rt.alloc(), words.as_slice()) == Ok(Command::Run(wanted)),
            "{line}"
        );
    }
    Ok(())
}

#[test]
fn words_of_the_other_commands(rt: HostRuntime) -> Result<(), AllocError> {
    let raw = MachineWords { raw: true, ..BARE };
    let debug = DebugWords {
        machine: raw,
        commands: "c",
    };
    for (line, wanted) in [
        ("compare a.elf", Command::Compare(BARE)),
        ("compare --raw a.elf", Command::Compare(raw)),
        ("debug a.elf --raw c", Command::Debug(debug)),
        ("debug --raw -- a.elf c", Command::Debug(debug)),
        ("read f", Command::Read("f")),
        ("demo 0x10", Command::Demo(16)),
    ] {
        let words = words_of(rt.alloc(), line)?;
        assert!(rt;
            read_words(rt.alloc(), words.as_slice()) == Ok(wanted),
            "{line}"
        );
    }
    Ok(())
}

#[test]
fn words_that_are_refused(rt: HostRuntime) -> Result<(), AllocError> {
    for line in [
        "",
        "run",
        "walk a.elf",
        "Run a.elf",
        "--raw run a.elf",
        "run ",
        "run a.elf b.elf",
        "run -- a.elf --raw",
        "run --raw --raw a.elf",
        "run a.elf --script=s --script s",
        "run --raw= a.elf",
        "run --scr s a.elf",
        "run --=s a.elf",
        "run a.elf --help",
        "--version",
        "run a.elf -h",
        "run a.elf -1",
        "run a.elf --script",
        "run a.elf --script=",
        "run a.elf --script ",
        "run a.elf --script -x",
        "run --script -- a.elf",
        "run a.elf --budget -1",
        "run a.elf --budget 1000000001",
        "run a.elf --budget 18446744073709551616",
        "run a.elf --ram-mib 0",
        "run a.elf --ram-mib 65",
        "run a.elf --poll 1",
        "run a.elf --poll 1000000001",
        "run a.elf --patrol 1000000001",
        "run a.elf --records",
        "run a.elf --tables=t --tables=t",
        "run a.elf --harts 0",
        "run a.elf --harts 5",
        "run a.elf --schedule",
        "compare a.elf --records r",
        "debug a.elf",
        "debug a.elf c d",
        "debug a.elf c --tables t",
        "read f --raw",
        "demo x",
    ] {
        let words = words_of(rt.alloc(), line)?;
        assert!(rt;
            read_words(rt.alloc(), words.as_slice()) == Err(WordsError::Refused),
            "{line}"
        );
    }
    assert!(rt; read_words(rt.alloc(), &[]) == Err(WordsError::Refused));
    Ok(())
}

#[test]
fn numbers_in_text(rt: HostRuntime) {
    for (text, value) in [
        ("0", Some(0)),
        ("007", Some(7)),
        ("18446744073709551615", Some(u64::MAX)),
        ("00000000000000000000018446744073709551615", Some(u64::MAX)),
        ("0x1f", Some(31)),
        ("0xfFfFfFfFfFfFfFfF", Some(u64::MAX)),
        ("0x00000000000000000000A", Some(10)),
        ("", None),
        ("0x", None),
        ("0X1", None),
        ("+1", None),
        (" 1", None),
        ("1_0", None),
        ("12a", None),
        ("0x0x1", None),
        ("18446744073709551616", None),
        ("0x10000000000000000", None),
    ] {
        assert_eq!(rt; number(text.as_bytes()), value, "{text}");
    }
}

#[test]
fn numbers_as_text(rt: HostRuntime) {
    assert_eq!(rt; address(2_147_483_648), *b"0x0000000080000000");
    assert_eq!(rt; address(u64::MAX), *b"0xffffffffffffffff");
    assert_eq!(rt; hex_digits::<8>(10_485_907), *b"00a00093");
    assert_eq!(rt; hex_digits::<2>(511), *b"ff");
}
