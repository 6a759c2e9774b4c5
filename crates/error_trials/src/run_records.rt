//! What a run leaves behind, byte for byte.

use crate::runs::{Happening, Like, Run, first_unlike};
use poison_mem::{Class, UseKind};
use ras_report::FileBuf;
use std::test::Fail;

#[test]
fn words_that_memory_corrects_or_finds_bad_leave_these_records(
    rt: HostRuntime,
) -> Result<(), Fail> {
    let mut buffer = FileBuf::make(rt.alloc())?;
    for run in [
        // a corrected word
        Run {
            interval: 0,
            steps: 5,
            happenings: &[(0, Happening::Corrected(0, 0x8000_0000))],
            records: &[Like::Memory],
            file_but: &[],
            region: Like::Nothing,
            region_but: &[],
            polled: Like::Nothing,
            polled_but: &[],
        },
        // a bad word, read in step 2 and healed: `b0r0 c00000 s010 m0`
        Run {
            interval: 0,
            steps: 8,
            happenings: &[(2, Happening::Bad(0x8000_0040))],
            records: &[Like::Memory],
            file_but: &[
                (12, 0x00),
                (108, 0x02),
                (176, 0x00),
                (190, 0x30),
                (193, 0x30),
                (194, 0x31),
                (216, 0x40),
                (272, 0x03),
            ],
            region: Like::Nothing,
            region_but: &[],
            polled: Like::Nothing,
            polled_but: &[],
        },
        // a word that the patrol corrects in step 100, and then a scrub: `b0r1 c00002 s100 m1`
        Run {
            interval: 0,
            steps: 200,
            happenings: &[
                (100, Happening::Corrected(1, 0x8000_0320)),
                (102, Happening::Corrected(1, 0x8000_0320)),
            ],
            records: &[Like::Memory],
            file_but: &[
                (108, 0x64),
                (183, 0x31),
                (190, 0x32),
                (198, 0x31),
                (216, 0x20),
                (217, 0x03),
                (272, 0x0D),
            ],
            region: Like::Nothing,
            region_but: &[],
            polled: Like::Nothing,
            polled_but: &[],
        },
        // logging is off
        Run {
            interval: 0,
            steps: 5,
            happenings: &[
                (0, Happening::Control(0)),
                (0, Happening::Corrected(0, 0x8000_0000)),
            ],
            records: &[],
            file_but: &[],
            region: Like::Nothing,
            region_but: &[],
            polled: Like::Nothing,
            polled_but: &[],
        },
        // corrected errors aren't signalled, so the record waits for the stop
        Run {
            interval: 4,
            steps: 8,
            happenings: &[
                (0, Happening::Control(3)),
                (0, Happening::Corrected(0, 0x8000_0000)),
            ],
            records: &[Like::Memory],
            file_but: &[],
            region: Like::Nothing,
            region_but: &[],
            polled: Like::Nothing,
            polled_but: &[],
        },
    ] {
        assert_eq!(rt;
            first_unlike(&rt, &mut buffer, &run)?,
            None,
            "{} steps",
            run.steps
        );
    }
    Ok(())
}

#[test]
fn injections_leave_these_records_and_blocks(rt: HostRuntime) -> Result<(), Fail> {
    let mut buffer = FileBuf::make(rt.alloc())?;
    for run in [
        // a fatal error, in step 5: `b0r0 c00000 s001 m0`
        Run {
            interval: 0,
            steps: 6,
            happenings: &[(2, Happening::Staged(Class::Critical, 3, 0x8000_0100))],
            records: &[Like::Memory],
            file_but: &[
                (12, 0x01),
                (108, 0x05),
                (176, 0x01),
                (190, 0x30),
                (193, 0x30),
                (195, 0x31),
                (217, 0x01),
                (272, 0x03),
            ],
            region: Like::Memory,
            region_but: &[],
            polled: Like::Nothing,
            polled_but: &[],
        },
        // the same, in step 4
        Run {
            interval: 0,
            steps: 5,
            happenings: &[(1, Happening::Staged(Class::Critical, 3, 0x8000_0100))],
            records: &[Like::Memory],
            file_but: &[
                (12, 0x01),
                (108, 0x04),
                (176, 0x01),
                (190, 0x30),
                (193, 0x30),
                (195, 0x31),
                (217, 0x01),
                (272, 0x03),
            ],
            region: Like::Memory,
            region_but: &[],
            polled: Like::Nothing,
            polled_but: &[],
        },
        // two corrected errors and a deferred one: `b0r0 c00002 s110 m0`
        Run {
            interval: 0,
            steps: 5,
            happenings: &[
                (0, Happening::Staged(Class::Corrected, 1, 0x8000_0100)),
                (1, Happening::Staged(Class::Deferred, 1, 0x8000_0108)),
                (2, Happening::Staged(Class::Corrected, 1, 0x8000_0110)),
            ],
            records: &[Like::Memory],
            file_but: &[
                (12, 0x00),
                (108, 0x02),
                (176, 0x00),
                (190, 0x32),
                (194, 0x31),
                (216, 0x08),
                (217, 0x01),
                (272, 0x03),
            ],
            region: Like::Nothing,
            region_but: &[],
            polled: Like::Nothing,
            polled_but: &[],
        },
        // one that comes between a mark and its clear: `b0r0 c00002 s100 m1`, emitted by the next clear
        Run {
            interval: 4,
            steps: 8,
            happenings: &[
                (0, Happening::Corrected(0, 0x8000_0000)),
                (0, Happening::Staged(Class::Corrected, 3, 0x8000_0100)),
            ],
            records: &[Like::Memory],
            file_but: &[(190, 0x32), (198, 0x31)],
            region: Like::Nothing,
            region_but: &[],
            polled: Like::Memory,
            polled_but: &[
                (0, 0x12),
                (16, 0x02),
                (36, 0x02),
                (74, 0x32),
                (77, 0x31),
                (79, 0x30),
                (82, 0x31),
                (109, 0x00),
                (164, 0x02),
            ],
        },
    ] {
        assert_eq!(rt;
            first_unlike(&rt, &mut buffer, &run)?,
            None,
            "{} steps",
            run.steps
        );
    }
    Ok(())
}

#[test]
fn consumptions_leave_these_records_and_blocks(rt: HostRuntime) -> Result<(), Fail> {
    let mut buffer = FileBuf::make(rt.alloc())?;
    for run in [
        // by a fetch, in step 2
        Run {
            interval: 0,
            steps: 3,
            happenings: &[
                (0, Happening::Bad(0x8000_0008)),
                (
                    2,
                    Happening::Consumed(UseKind::Fetch, 0, 0x8000_0008, 0x8000_0008),
                ),
            ],
            records: &[Like::Memory, Like::Hart],
            file_but: &[
                (12, 0x00),
                (108, 0x00),
                (176, 0x00),
                (190, 0x30),
                (193, 0x30),
                (194, 0x31),
                (216, 0x08),
                (272, 0x03),
                (388, 0x02),
                (491, 0x03),
                (640, 0x08),
                (664, 0x08),
            ],
            region: Like::Hart,
            region_but: &[],
            polled: Like::Nothing,
            polled_but: &[],
        },
        // by a firmware call, in step 5
        Run {
            interval: 0,
            steps: 6,
            happenings: &[
                (5, Happening::Bad(0x8000_0048)),
                (
                    5,
                    Happening::Consumed(UseKind::Sbi, 0, 0x8000_0048, 0x8000_0014),
                ),
            ],
            records: &[Like::Memory, Like::Hart],
            file_but: &[
                (12, 0x00),
                (108, 0x05),
                (176, 0x00),
                (190, 0x30),
                (193, 0x30),
                (194, 0x31),
                (216, 0x48),
                (272, 0x03),
            ],
            region: Like::Hart,
            region_but: &[(103, 0x01), (252, 0x48), (276, 0x14)],
            polled: Like::Nothing,
            polled_but: &[],
        },
        // by a fetch of hart 1, in step 13
        Run {
            interval: 0,
            steps: 14,
            happenings: &[
                (0, Happening::Bad(0x8000_0028)),
                (
                    13,
                    Happening::Consumed(UseKind::Fetch, 1, 0x8000_0028, 0x8000_0028),
                ),
            ],
            records: &[Like::Memory, Like::Hart],
            file_but: &[
                (12, 0x00),
                (108, 0x00),
                (176, 0x00),
                (190, 0x30),
                (193, 0x30),
                (194, 0x31),
                (216, 0x28),
                (272, 0x03),
                (388, 0x0D),
                (491, 0x03),
                (632, 0x01),
                (640, 0x28),
                (664, 0x28),
            ],
            region: Like::Hart,
            region_but: &[(244, 0x01), (252, 0x28), (276, 0x28)],
            polled: Like::Nothing,
            polled_but: &[],
        },
    ] {
        assert_eq!(rt;
            first_unlike(&rt, &mut buffer, &run)?,
            None,
            "{} steps",
            run.steps
        );
    }
    Ok(())
}
