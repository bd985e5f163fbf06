//! Sources and sinks in memory.
use outside::{MemSink, MemSource, ReadFault, read_all, write_all};
use std::alloc::Global;
use std::test::Fail;

/// A source of a word in pieces of two bytes, which fails at these calls.
fn hello(alloc: Global, fails: &[u64]) -> Result<MemSource, Fail> {
    let bytes = b"hello".to_vec(alloc)?;
    Ok(MemSource::new(bytes, 2, Vec::from_slice(alloc, fails)?))
}

/// Whether all that is left of a source are these bytes, at most five.
fn gives(alloc: Global, source: &mut MemSource, bytes: &[u8]) -> bool {
    read_all(alloc, source, 5).is_ok_and(|all| all.as_slice() == bytes)
}

#[test]
fn pieces_are_read_and_written_up_to_the_fault(rt: HostRuntime) -> Result<(), Fail> {
    let alloc = rt.alloc();
    let mut source = hello(alloc, &[])?;
    assert!(rt; gives(alloc, &mut source, b"hello"));
    let mut source = hello(alloc, &[])?;
    assert!(rt; read_all(alloc, &mut source, 4) == Err(ReadFault::TooLong));
    let mut source = hello(alloc, &[1])?;
    assert!(rt; read_all(alloc, &mut source, 5) == Err(ReadFault::Failed));
    assert!(rt; gives(alloc, &mut source, b"llo"));
    let mut sink = MemSink::new(alloc, 20, 5, [2].to_vec(alloc)?)?;
    let refused = write_all(&mut sink, b"staged\ncommitted 1\n");
    assert!(rt; refused.is_err_and(|e| e.written == 10));
    assert_eq!(rt; sink.taken(), b"staged\ncom".as_slice());
    Ok(())
}
