//! Whole runs over a source and a sink in memory that fail.
ghost use Rattle.std.specs.Prelude.{◌≤◌};

use flux::{Run, flux, notice};
use outside::{MemSink, MemSource, OpenGate};
use std::alloc::Global;
use std::sync::Wait;
use std::test::Fail;
use std::thread::Threads;
use world::manager_rules::Terms;

/// A run with these words, over a source and a sink in memory that fail at these calls.
fn run<R: Threads + Wait + Sync>(
    rt: &R,
    alloc: Global,
    words: &[&str],
    input: &str,
    most: usize,
    source_fails: &[u64],
    sink: &mut MemSink,
) -> Result<Run, Fail>
    requires { 1 ≤ most }
{
    let mut strings = Vec::new(alloc);
    for word in words {
        strings.push(String::from_str(alloc, word)?)?;
    }
    let bytes = Vec::from_slice(alloc, input.as_bytes())?;
    let fails = Vec::from_slice(alloc, source_fails)?;
    let mut source = MemSource::new(bytes, most, fails);
    Ok(flux(
        rt,
        alloc,
        &strings,
        &mut source,
        sink,
        &OpenGate,
        Terms::PLAIN,
    ))
}

#[test]
fn a_source_and_a_sink_that_fail(rt: HostRuntime) -> Result<(), Fail> {
    let alloc = rt.alloc();
    let input = "actor a 0\na put k hello\na commit\na get k\n";
    let mut sink = MemSink::new(alloc, 4096, 4096, Vec::new(alloc))?;
    let failed = run(&rt, alloc, &["run"], input, 10, &[1], &mut sink)?;
    assert_eq!(rt; failed.status, 3);
    assert_eq!(rt; sink.taken(), b"".as_slice());
    assert_eq!(rt; notice(alloc, &failed.fault)?.as_str(), "read fault");
    let failed = run(&rt, alloc, &["replay"], "", 10, &[0], &mut sink)?;
    assert_eq!(rt; failed.status, 3);
    assert_eq!(rt; sink.taken(), b"".as_slice());
    let mut sink = MemSink::new(alloc, 4096, 5, Vec::from_slice(alloc, &[2])?)?;
    let failed = run(&rt, alloc, &["run"], input, 4096, &[], &mut sink)?;
    assert_eq!(rt; failed.status, 5);
    assert_eq!(rt; sink.taken(), b"staged\ncom".as_slice());
    assert_eq!(rt; notice(alloc, &failed.fault)?.as_str(), "write fault");
    Ok(())
}
