//! Firmware calls of one hart over plain words, by hand.

use crate::hart_guest::{
    ARGUMENTS, AT_CALL, BASE, BEHIND_CALL, CALLS, Call, DEBUG_CONSOLE, GETCHAR, Guest,
    INVALID_PARAM, NOT_SUPPORTED, ONES, PUTCHAR, SYSTEM_RESET, WENT,
};
use ras_bits::RAM_START;
use rv64_hart::{Console, TurnEnd};
use sbi_calls::GuestStop;
use std::test::Fail;

/// A call, how its step ends, and a0 and a1 afterwards.
#[derive(Clone, Copy)]
struct Answered {
    call: Call,
    end: TurnEnd,
    a0: u64,
    a1: u64,
}

#[test]
fn each_kind_of_answer_by_hand(rt: HostRuntime) -> Result<(), Fail> {
    let rows = [
        Answered {
            call: Call {
                extension: BASE,
                function: 1,
                arguments: [9, 9, 9],
            },
            end: WENT,
            a0: 0,
            a1: 0x5241,
        },
        Answered {
            call: Call {
                extension: BASE,
                function: 7,
                arguments: [9, 9, 9],
            },
            end: WENT,
            a0: NOT_SUPPORTED,
            a1: 0,
        },
        Answered {
            call: Call {
                extension: SYSTEM_RESET,
                function: 0,
                arguments: [3, 0, 9],
            },
            end: WENT,
            a0: INVALID_PARAM,
            a1: 0,
        },
        Answered {
            call: Call {
                extension: PUTCHAR,
                function: 7,
                arguments: [0x148, 9, 9],
            },
            end: WENT,
            a0: 0,
            a1: 9,
        },
        Answered {
            call: Call {
                extension: SYSTEM_RESET,
                function: 0,
                arguments: [1, 1, 9],
            },
            end: TurnEnd::Stop(GuestStop::Reboot(1)),
            a0: 1,
            a1: 1,
        },
    ];
    let mut console = Console::make(rt.alloc())?;
    let mut guest = Guest::make(rt.alloc(), 16, &CALLS, ARGUMENTS)?;
    let mut retired: u64 = 0;
    for Answered { call, end, a0, a1 } in rows {
        assert_eq!(rt; guest.call(call, &[], &mut console), end, "{call:?}");
        assert_eq!(rt; guest.registers(), [0, 0, a0, a1], "{call:?}");
        assert_eq!(rt; guest.hart.pc(), BEHIND_CALL, "{call:?}");
        // The six instructions before the call retired, and the call didn't.
        retired = retired.wrapping_add(6);
        assert_eq!(rt; guest.status(), [0, retired], "{call:?}");
    }
    assert_eq!(rt; console.bytes(), b"H".as_slice());
    Ok(())
}

#[test]
fn a_console_write_of_parts_of_words(rt: HostRuntime) -> Result<(), Fail> {
    let mut console = Console::make(rt.alloc())?;
    let mut guest = Guest::make(rt.alloc(), 32, &CALLS, ARGUMENTS)?;
    guest.put(16, u64::from_le_bytes(*b"ABCDEFGH"));
    guest.put(17, u64::from_le_bytes(*b"IJKLMNOP"));
    guest.put(18, u64::from_le_bytes(*b"QRSTUVWX"));
    let call = Call {
        extension: DEBUG_CONSOLE,
        function: 0,
        arguments: [13, RAM_START + 0x86, 0],
    };
    assert_eq!(rt; guest.call(call, &[], &mut console), WENT);
    assert_eq!(rt; guest.registers(), [0, 0, 0, 13]);
    assert_eq!(rt; console.bytes(), b"GHIJKLMNOPQRS".as_slice());
    Ok(())
}

/// A console read or a getchar, a0 and a1 afterwards, and then words 16 and 17.
#[derive(Clone, Copy)]
struct Taken {
    call: Call,
    a0: u64,
    a1: u64,
    words: [u64; 2],
}

// The calls are made one after the other with one input, and RAM has 32 words.
#[test]
fn console_reads_take_the_input_in_order(rt: HostRuntime) -> Result<(), Fail> {
    let (at, before) = (RAM_START + 0x80, 0x1111_1111_1111_1111);
    let two = 0x6261_1111_1111_1111;
    let three = 0x1111_1111_1165_6463;
    let four = 0x1111_1111_6765_6463;
    let seven = 0x6A69_6811_6765_6463;
    let getchar = Call {
        extension: GETCHAR,
        function: 0,
        arguments: [0, 9, 0],
    };
    let rows = [
        Taken {
            call: console_read([1, at, 1]),
            a0: INVALID_PARAM,
            a1: 0,
            words: [before, before],
        },
        Taken {
            call: console_read([0, 5, 0]),
            a0: 0,
            a1: 0,
            words: [before, before],
        },
        Taken {
            call: console_read([5, at + 6, 0]),
            a0: 0,
            a1: 5,
            words: [two, three],
        },
        Taken {
            call: console_read([1, at + 0x80, 0]),
            a0: INVALID_PARAM,
            a1: 0,
            words: [two, three],
        },
        Taken {
            call: console_read([9, at + 0x78, 0]),
            a0: INVALID_PARAM,
            a1: 0,
            words: [two, three],
        },
        Taken {
            call: getchar,
            a0: 0x66,
            a1: 9,
            words: [two, three],
        },
        Taken {
            call: console_read([1, at + 11, 0]),
            a0: 0,
            a1: 1,
            words: [two, four],
        },
        Taken {
            call: console_read([100, at + 13, 0]),
            a0: 0,
            a1: 3,
            words: [two, seven],
        },
        Taken {
            call: console_read([4, at, 0]),
            a0: 0,
            a1: 0,
            words: [two, seven],
        },
        Taken {
            call: getchar,
            a0: ONES,
            a1: 9,
            words: [two, seven],
        },
    ];
    let mut console = Console::make(rt.alloc())?;
    let mut guest = Guest::make(rt.alloc(), 32, &CALLS, ARGUMENTS)?;
    guest.put(16, before);
    guest.put(17, before);
    for Taken {
        call,
        a0,
        a1,
        words,
    } in rows {
        let end = guest.call(call, b"abcdefghij", &mut console);
        assert_eq!(rt; end, WENT, "{call:?}");
        assert_eq!(rt; guest.registers(), [0, 0, a0, a1], "{call:?}");
        assert_eq!(rt; [guest.word(16), guest.word(17)], words, "{call:?}");
        assert_eq!(rt; guest.word(18), 0, "{call:?}");
    }
    assert_eq!(rt; console.room(), 1_048_576);
    Ok(())
}

/// A call that reads bytes of the input into memory: their number, and the low and the high word of their address.
fn console_read(arguments: [u64; 3]) -> Call {
    Call {
        extension: DEBUG_CONSOLE,
        function: 1,
        arguments,
    }
}

/// A call that writes bytes: of memory from the start of RAM on, or the one in its first argument. Its end, and how many
/// bytes fit afterwards.
#[derive(Clone, Copy)]
struct Written {
    extension: u64,
    function: u64,
    argument: u64,
    end: TurnEnd,
    room: usize,
}

// At first two bytes fit. RAM has 1,024 words.
#[test]
fn the_console_is_full_at_the_byte_that_does_not_fit(rt: HostRuntime) -> Result<(), Fail> {
    let full = TurnEnd::Stop(GuestStop::ConsoleFull);
    let rows = [
        Written {
            extension: DEBUG_CONSOLE,
            function: 0,
            argument: 3,
            end: full,
            room: 2,
        },
        Written {
            extension: DEBUG_CONSOLE,
            function: 0,
            argument: 5000,
            end: full,
            room: 2,
        },
        Written {
            extension: DEBUG_CONSOLE,
            function: 0,
            argument: 1,
            end: WENT,
            room: 1,
        },
        Written {
            extension: DEBUG_CONSOLE,
            function: 0,
            argument: 2,
            end: full,
            room: 1,
        },
        Written {
            extension: PUTCHAR,
            function: 0,
            argument: 0x41,
            end: WENT,
            room: 0,
        },
        Written {
            extension: PUTCHAR,
            function: 0,
            argument: 0x42,
            end: full,
            room: 0,
        },
        Written {
            extension: DEBUG_CONSOLE,
            function: 2,
            argument: 0x42,
            end: full,
            room: 0,
        },
        Written {
            extension: DEBUG_CONSOLE,
            function: 0,
            argument: 1,
            end: full,
            room: 0,
        },
        Written {
            extension: DEBUG_CONSOLE,
            function: 0,
            argument: 0,
            end: WENT,
            room: 0,
        },
    ];
    let mut console = Console::make(rt.alloc())?;
    let mut guest = Guest::make(rt.alloc(), 1024, &CALLS, ARGUMENTS)?;
    // As many bytes are taken as one call writes at most.
    let most = Call {
        extension: DEBUG_CONSOLE,
        function: 0,
        arguments: [5000, RAM_START + 3, 0],
    };
    guest.call(most, &[], &mut console);
    assert_eq!(rt; guest.registers(), [0, 0, 0, 4096]);
    assert_eq!(rt; console.room(), 1_044_480);
    let bytes = [0x2E; 4096];
    for _ in 0..255 {
        let n = if console.room() > 4096 { 4096 } else { 4094 };
        if console.room() >= n {
            console.push(&bytes[..n]);
        }
    }
    for row in rows {
        let mut guest = Guest::make(rt.alloc(), 1024, &CALLS, ARGUMENTS)?;
        let call = Call {
            extension: row.extension,
            function: row.function,
            arguments: [row.argument, RAM_START, 0],
        };
        let end = guest.call(call, &[], &mut console);
        assert_eq!(rt; end, row.end, "{call:?}");
        assert_eq!(rt; console.room(), row.room, "{call:?}");
        if end == full {
            assert_eq!(rt; guest.hart.pc(), AT_CALL, "{call:?}");
            let registers = [0, 0, row.argument, RAM_START];
            assert_eq!(rt; guest.registers(), registers, "{call:?}");
        }
    }
    Ok(())
}
