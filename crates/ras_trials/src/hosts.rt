//! The hosts in memory, and the real outside.

use ras_host::{Got, Host, HostError, HostFault, MemoryHost, RealHost, SteadyHost};
use std::fs;
use std::test::Fail;

#[test]
fn memory_tells_what_was_done(rt: HostRuntime) -> Result<(), Fail> {
    let alloc = rt.alloc();
    let mut host = MemoryHost::make(alloc, 8)?;
    host.add_file("a", b"old")?;
    host.add_file("a", b"new!")?;
    host.fail_at(3)?;
    assert!(rt;
        matches!(host.read(alloc, "a", 4), Ok(Got::Whole(bytes)) if bytes.as_slice() == b"new!".as_slice())
    );
    assert!(rt; matches!(host.read(alloc, "a", 3), Ok(Got::Longer)));
    assert!(rt; matches!(host.read(alloc, "b", 4), Err(HostError::Failed)));
    assert_eq!(rt; host.out(b"x"), Err(HostFault));
    assert_eq!(rt; host.out(b"out"), Ok(()));
    assert_eq!(rt; host.create("f", b"12345"), Err(HostFault));
    assert_eq!(rt; host.create("f", b"1"), Ok(()));
    assert_eq!(rt; host.create("", b""), Ok(()));
    assert_eq!(rt; host.create("f", b"2"), Ok(()));
    assert_eq!(rt; host.err(b"e"), Ok(()));
    assert_eq!(rt; host.err(b"e"), Err(HostFault));
    assert!(rt; host.written_out() == b"out".as_slice());
    assert!(rt; host.written_err() == b"e".as_slice());
    assert!(rt; host.created("f") == Some(b"2".as_slice()));
    assert!(rt; host.created("g").is_none());
    assert_eq!(rt; host.calls(), 11);
    Ok(())
}

#[test]
fn steady_tells_what_fits(rt: HostRuntime) -> Result<(), Fail> {
    let alloc = rt.alloc();
    let mut host = SteadyHost::make(alloc, 6)?;
    host.add_file("a", b"abc")?;
    assert!(rt;
        matches!(host.read(alloc, "a", 3), Ok(Got::Whole(bytes)) if bytes.as_slice() == b"abc".as_slice())
    );
    assert!(rt; matches!(host.read(alloc, "b", 0), Ok(Got::Whole(bytes)) if bytes.is_empty()));
    assert_eq!(rt; host.create("f", b"12"), Ok(()));
    assert_eq!(rt; host.out(b"long"), Ok(()));
    assert_eq!(rt; host.err(b"e"), Ok(()));
    assert!(rt; host.created("f") == Some(b"12".as_slice()));
    assert_eq!(rt; host.create("g", b""), Ok(()));
    assert!(rt; host.created("f").is_none());
    assert!(rt; host.written_out() == b"lon".as_slice());
    assert!(rt; host.written_err() == b"".as_slice());
    assert_eq!(rt; host.calls(), 6);
    Ok(())
}

#[test]
fn real_reads_what_it_made(rt: HostRuntime) -> Result<(), Fail> {
    let alloc = rt.alloc();
    let name = "ras_host_real_test";
    let mut host = RealHost::make(rt);
    assert_eq!(rt; host.create(name, b"earlier text"), Ok(()));
    assert_eq!(rt; host.create(name, b"text"), Ok(()));
    assert!(rt;
        matches!(host.read(alloc, name, 4), Ok(Got::Whole(bytes)) if bytes.as_slice() == b"text".as_slice())
    );
    assert!(rt; matches!(host.read(alloc, name, 3), Ok(Got::Longer)));
    assert_eq!(rt; host.out(b""), Ok(()));
    assert_eq!(rt; host.err(b""), Ok(()));
    assert_eq!(rt; host.err(&[0xFF]), Err(HostFault));
    fs::remove_file(&rt, name)?;
    assert!(rt; matches!(host.read(alloc, name, 4), Err(HostError::Failed)));
    assert_eq!(rt; host.create("no_such_folder/file", b""), Err(HostFault));
    Ok(())
}
