//! Images and scripts: files as the standard and the linker make them, and lines as people write them.

ghost use Rattle.std.specs.Prelude.{◌<◌, ◌^◌, length};

use elf_load::{ElfRefused, Image};
use fault_script::{Act, Script, ScriptError, ScriptLine, Why};
use std::alloc::{AllocError, Global};

// A RAM of 512 words ends before 0x80001000.
const RAM_WORDS: u32 = 512;

// The program that writes `H` and shuts down: li a0,72; li a7,1; ecall; li a7,8; ecall.
const PROGRAM: [u8; 20] = [
    0x13, 0x05, 0x80, 0x04, 0x93, 0x08, 0x10, 0x00, 0x73, 0x00, 0x00, 0x00, 0x93, 0x08, 0x80, 0x00,
    0x73, 0x00, 0x00, 0x00,
];

fn put(file: &mut Vec<u8>, at: usize, number: u64, len: usize) {
    for (i, byte) in number.to_le_bytes().into_iter().enumerate() {
        if i < len && at < file.len() && i < file.len() - at {
            file[at + i] = byte;
        }
    }
}

// A file header, entered at the start of RAM, with so many program headers behind it and the program
// behind them.
fn file(alloc: Global, headers: u16) -> Result<Vec<u8>, AllocError> {
    let mut file = vec![in alloc; 0u8; 64 + 56 * usize::from(headers)]?;
    put(&mut file, 0, 0x464C_457F, 4);
    put(&mut file, 4, 2, 1);
    put(&mut file, 5, 1, 1);
    put(&mut file, 16, 2, 2);
    put(&mut file, 18, 243, 2);
    put(&mut file, 24, 0x8000_0000, 8);
    put(&mut file, 32, 64, 8);
    put(&mut file, 54, 56, 2);
    put(&mut file, 56, u64::from(headers), 2);
    file.extend_from_slice(&PROGRAM)?;
    Ok(file)
}

// Program header `k` loads `filesz` bytes from `offset` on at `paddr`, and zeros up to `memsz`.
fn load(file: &mut Vec<u8>, k: usize, offset: u64, paddr: u64, filesz: u64, memsz: u64)
    requires { k < 65536 }
{
    let at = 64 + 56 * k;
    put(file, at, 1, 4);
    put(file, at + 8, offset, 8);
    put(file, at + 16, 0x4000_0000, 8);
    put(file, at + 24, paddr, 8);
    put(file, at + 32, filesz, 8);
    put(file, at + 40, memsz, 8);
}

// The file of 140 bytes: one load header, and the program at 120.
fn small_file(alloc: Global) -> Result<Vec<u8>, AllocError> {
    let mut file = file(alloc, 1)?;
    load(&mut file, 0, 120, 0x8000_0000, 20, 20);
    Ok(file)
}

fn image_refusal(alloc: Global, b: &[u8]) -> Option<ElfRefused> {
    match Image::read(alloc, b, RAM_WORDS) {
        Ok(_) => None,
        Err(refused) => Some(refused),
    }
}

#[test]
fn a_file_that_is_cut(rt: HostRuntime) -> Result<(), AllocError> {
    let file = small_file(rt.alloc())?;
    for (len, expected) in [
        (0, Some(ElfRefused::Short)),
        (63, Some(ElfRefused::Short)),
        (64, Some(ElfRefused::Headers)),
        (119, Some(ElfRefused::Headers)),
        (120, Some(ElfRefused::FilePart(0))),
        (139, Some(ElfRefused::FilePart(0))),
        (140, None),
    ] {
        assert!(rt; len <= file.len());
        assert!(rt;
            image_refusal(rt.alloc(), &file[..len]) == expected,
            "{len}"
        );
    }
    Ok(())
}

// The fields of an ELF-64 file by their offsets, each with a value that is refused.
#[test]
fn a_twisted_file(rt: HostRuntime) -> Result<(), AllocError> {
    for (at, number, len, expected) in [
        (0, 0x464C_457E, 4, ElfRefused::Magic),
        (4, 1, 1, ElfRefused::Class),
        (5, 2, 1, ElfRefused::Class),
        (16, 3, 2, ElfRefused::ExecType),
        (18, 62, 2, ElfRefused::Machine),
        (48, 1, 4, ElfRefused::Compressed),
        (48, 4, 4, ElfRefused::HardFloat),
        (48, 8, 4, ElfRefused::Reduced),
        (32, u64::MAX, 8, ElfRefused::Headers),
        (54, 64, 2, ElfRefused::Headers),
        (64, 2, 4, ElfRefused::NoLoad),
        (72, u64::MAX - 7, 8, ElfRefused::FilePart(0)),
        (104, 19, 8, ElfRefused::Sizes(0)),
        (104, 4097, 8, ElfRefused::Outside(0)),
        (88, 0x7FFF_FFFF, 8, ElfRefused::Outside(0)),
        (24, 0x8000_0002, 8, ElfRefused::Entry),
        (24, 0x8000_1000, 8, ElfRefused::Entry),
    ] {
        let mut file = small_file(rt.alloc())?;
        put(&mut file, at, number, len);
        assert!(rt;
            image_refusal(rt.alloc(), &file) == Some(expected),
            "{at} {number}"
        );
    }
    Ok(())
}

#[test]
fn rules_before_headers(rt: HostRuntime) -> Result<(), AllocError> {
    for (headers, expected) in [(64, None), (65, Some(ElfRefused::TooMany))] {
        let mut file = file(rt.alloc(), headers)?;
        load(&mut file, 63, 64, 0x8000_0000, 4, 4);
        assert!(rt; image_refusal(rt.alloc(), &file) == expected, "{headers}");
    }
    let mut file = file(rt.alloc(), 3)?;
    load(&mut file, 0, 232, 0x8000_0000, 20, 19);
    load(&mut file, 1, 0, 0x8000_0000, 0, 0);
    load(&mut file, 2, 232, 0x8000_0FF0, 16, 17);
    assert!(rt; image_refusal(rt.alloc(), &file) == Some(ElfRefused::Sizes(0)));
    load(&mut file, 0, 232, 0x8000_0000, 20, 20);
    assert!(rt; image_refusal(rt.alloc(), &file) == Some(ElfRefused::Outside(2)));
    load(&mut file, 1, 240, 0x8000_0000, 20, 19);
    assert!(rt; image_refusal(rt.alloc(), &file) == Some(ElfRefused::FilePart(1)));
    Ok(())
}

// The headers that gcc and ld make for rv64ima and lp64: attributes of RISC-V, code, data with zeros
// behind them, a note and the stack; only two are loaded.
#[test]
fn a_file_as_gcc_links_it(rt: HostRuntime) -> Result<(), AllocError> {
    let mut file = file(rt.alloc(), 5)?;
    load(&mut file, 0, 1_000_000, 0, 71, 0);
    load(&mut file, 1, 344, 0x8000_0000, 20, 20);
    load(&mut file, 2, 344, 0x8000_0020, 8, 24);
    load(&mut file, 3, 344, 0, 20, 20);
    load(&mut file, 4, 0, 0, 0, 0);
    put(&mut file, 64, 0x7000_0003, 4);
    put(&mut file, 64 + 3 * 56, 4, 4);
    put(&mut file, 64 + 4 * 56, 0x6474_E551, 4);
    put(&mut file, 48, 0x10, 4);
    match Image::read(rt.alloc(), &file, RAM_WORDS) {
        Ok(image) => {
            let words = image.words();
            assert_eq!(rt; words.len(), 512);
            assert_eq!(rt; words[0], 0x0010_0893_0480_0513);
            assert_eq!(rt; words[3], 0);
            assert_eq!(rt; words[4], 0x0010_0893_0480_0513);
            assert_eq!(rt; words[5], 0);
        }
        Err(refused) => panic!(rt; "{refused}"),
    }
    Ok(())
}

#[test]
fn a_later_header_wins(rt: HostRuntime) -> Result<(), AllocError> {
    let mut file = file(rt.alloc(), 3)?;
    load(&mut file, 0, 232, 0x8000_0000, 20, 20);
    load(&mut file, 1, 236, 0x8000_0006, 4, 8);
    load(&mut file, 2, 0, 0x8000_0FFF, 1, 1);
    put(&mut file, 24, 0x8000_0004, 8);
    match Image::read(rt.alloc(), &file, RAM_WORDS) {
        Ok(image) => {
            let words = image.words();
            assert_eq!(rt; words.len(), 512);
            assert_eq!(rt; words[0], 0x0893_0893_0480_0513);
            assert_eq!(rt; words[1], 0x0080_0000_0000_0010);
            assert_eq!(rt; words[2], 0x73);
            assert_eq!(rt; words[511], 0x7F00_0000_0000_0000);
            assert_eq!(rt; image.entry(), 0x8000_0004);
        }
        Err(refused) => panic!(rt; "{refused}"),
    }
    Ok(())
}

#[test]
fn a_raw_image(rt: HostRuntime) {
    match Image::raw(rt.alloc(), &PROGRAM, 3) {
        Ok(image) => {
            assert_eq!(rt;
                image.words(),
                [0x0010_0893_0480_0513, 0x0080_0893_0000_0073, 0x73].as_slice()
            );
            assert_eq!(rt; image.entry(), 0x8000_0000);
        }
        Err(refused) => panic!(rt; "{refused}"),
    }
    for (len, expected) in [(16, None), (17, Some(ElfRefused::Outside(0)))] {
        assert!(rt; len <= PROGRAM.len());
        let refused = Image::raw(rt.alloc(), &PROGRAM[..len], 2).err();
        assert!(rt; refused == expected, "{len}");
    }
}

fn script_refusal(alloc: Global, text: &[u8]) -> Option<ScriptError>
    requires { length text.now < 2 ^ 32 }
{
    match Script::read(alloc, text, RAM_WORDS) {
        Ok(_) => None,
        Err(error) => Some(error),
    }
}

#[test]
fn the_first_failing_line(rt: HostRuntime) {
    for (text, line, why) in [
        ("flip 0 0x80000000 3\n# a comment\0\n", 2, Why::Bytes),
        ("flip\r 0 0x80000000 3", 1, Why::Bytes),
        ("jump 0 0x80000000 3", 1, Why::Word),
        ("flip", 1, Why::Count),
        ("scrub 0 0x80000000 3", 1, Why::Count),
        ("flip 18446744073709551616 0x80000000 3", 1, Why::Number),
        ("flip 0 0x80000000 -3", 1, Why::Number),
        ("flip 0 0x80000004 1", 1, Why::Address),
        ("flip 0 0x80001000 1", 1, Why::Address),
        ("scrub 0 0x7ffffff8", 1, Why::Address),
        ("flip 0 0x80000000 72", 1, Why::Bit),
        ("flip 1000000001 0x80000004 72", 1, Why::Step),
        ("inject 0 2 0 ce 1 0x80000000", 1, Why::Bank),
        ("inject 0 0 2 no 0 0x80000004", 1, Why::Bank),
        ("inject 0 1 1 no 0 0x80000004", 1, Why::Class),
        ("inject 0 1 1 ued 0 0x80000004", 1, Why::Delay),
        ("inject 0 1 1 uec 65536 0x80000000", 1, Why::Delay),
        ("inject 0 1 1 uec 65535 0x80000004", 1, Why::Address),
        ("control 0 2 0 256", 1, Why::Bank),
        ("control 0 1 1 256", 1, Why::Number),
        ("\n\r\n#flip\n\tflip 0 0x80000ff8 99\njump", 4, Why::Bit),
    ] {
        assert!(rt; text.len() < 4096);
        assert!(rt;
            script_refusal(rt.alloc(), text.as_bytes()) == Some(ScriptError::Refused { line, why }),
            "{text}"
        );
    }
}

fn scrubs(alloc: Global, count: u32) -> Result<Vec<u8>, AllocError> {
    let mut text = Vec::new(alloc);
    for _ in 0..count {
        text.extend_from_slice(b"scrub 0 0x80000000\n")?;
    }
    Ok(text)
}

// The line that is refused tells that 65,536 lines were taken before it.
#[test]
fn no_more_than_65536_lines(rt: HostRuntime) -> Result<(), AllocError> {
    let too_many = ScriptError::Refused {
        line: 65_537,
        why: Why::TooMany,
    };
    let text = scrubs(rt.alloc(), 65_537)?;
    assert!(rt; text.len() < 4_000_000);
    assert!(rt; script_refusal(rt.alloc(), &text) == Some(too_many));
    Ok(())
}

#[test]
fn lines_by_step(rt: HostRuntime) {
    let text =
        "scrub 5 0x80000000\r\nflip\t2 0x80000008 71\n\n# flips\nflip 5 2147483664 2\nflip 1000000000 0x80000FF8 0";
    match Script::read(rt.alloc(), text.as_bytes(), RAM_WORDS) {
        Ok(script) => {
            let lines = script.lines();
            assert_eq!(rt; lines.len(), 4);
            for (k, step, act) in [
                (0, 2, Act::Flip { w: 1, bit: 71 }),
                (1, 5, Act::Scrub { w: 0 }),
                (2, 5, Act::Flip { w: 2, bit: 2 }),
                (3, 1_000_000_000, Act::Flip { w: 511, bit: 0 }),
            ] {
                assert!(rt; k < lines.len());
                assert!(rt; lines[k] == ScriptLine { step, act }, "{k}");
            }
        }
        Err(error) => panic!(rt; "{error}"),
    }
}

#[test]
fn a_copy_with_room(rt: HostRuntime) {
    let early = ScriptLine {
        step: 1,
        act: Act::Scrub { w: 1 },
    };
    match Script::read(rt.alloc(), b"flip 2 0x80000000 3", RAM_WORDS) {
        Ok(script) => match script.copy(rt.alloc(), 1) {
            Ok(mut copy) => {
                assert!(rt; copy.lines() == script.lines());
                assert!(rt; copy.lines().len() == 1);
                copy.insert(early);
                assert_eq!(rt; copy.lines().len(), 2);
                assert!(rt; copy.lines().first() == Some(&early));
            }
            Err(_) => panic!(rt; "no memory"),
        },
        Err(error) => panic!(rt; "{error}"),
    }
}

#[test]
fn the_canonical_text(rt: HostRuntime) {
    for (text, written) in [
        (" flip  0 0x80000000 3", "flip 0 0x0000000080000000 3\n"),
        ("#\n", ""),
        ("scrub 007 0x80000fF8", "scrub 7 0x0000000080000ff8\n"),
        (
            "inject 2 0 1 uec 0x10 2147483904",
            "inject 2 0 1 uec 16 0x0000000080000100\n",
        ),
        ("control 0 1 0 0x57", "control 0 1 0 87\n"),
    ] {
        assert!(rt; text.len() < 4096);
        match Script::read(rt.alloc(), text.as_bytes(), RAM_WORDS) {
            Ok(script) => match script.write(rt.alloc()) {
                Ok(bytes) => assert_eq!(rt; bytes.as_slice(), written.as_bytes(), "{text}"),
                Err(_) => panic!(rt; "out of memory"),
            },
            Err(error) => panic!(rt; "{error}"),
        }
    }
}
