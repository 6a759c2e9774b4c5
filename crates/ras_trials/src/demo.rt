//! The demo workload.

use ras_gen::workload;
use std::test::Fail;

/// The program's bytes, from its listing.
const IMAGE: [u8; 76] =
    *b"\x17\x04\x01\x00\xB7\x84\x00\x00\xB3\x84\x84\x00\x93\x02\x04\x00\x23\xB0\x52\x00\x93\x82\x82\x00\xE3\x9C\x92\xFE\x93\x02\x04\x00\x13\x03\x00\x00\x83\xB3\x02\x00\x33\x03\x73\x00\x93\x82\x82\x00\xE3\x9A\x92\xFE\x13\x75\xF3\x00\x13\x05\x15\x04\x93\x08\x10\x00\x73\x00\x00\x00\x93\x08\x80\x00\x73\x00\x00\x00";

/// The first lines of the script of 0, and its last, by the generator's two numbers in another language.
const FIRST: &[u8] = b"flip 7807 0x0000000080013840 25\nflip 17236 0x0000000080013368 11\n";

const LAST: &[u8] = b"\nflip 16173 0x0000000080014020 19\n";

#[test]
fn the_demo_of_zero_is_a_program_and_64_flips(rt: HostRuntime) -> Result<(), Fail> {
    let (image, script) = workload(rt.alloc(), 0)?;
    assert_eq!(rt; image.as_slice(), IMAGE.as_slice());
    assert_eq!(rt; script.len(), 2_081);
    assert!(rt; script.starts_with(FIRST));
    assert!(rt; script.ends_with(LAST));
    Ok(())
}
