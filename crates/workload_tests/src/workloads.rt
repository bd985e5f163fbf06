//! The faults of texts at their limits, and drawn words.
use run_limits::MOST_TEXT;
use std::alloc::Global;
use std::test::Fail;
use workload::draws::Draws;
use workload::limits::{MOST_COMMANDS, MOST_LINE, MOST_VALUE};
use workload_reader::faults::{LineFault, Which};
use workload_reader::reader::read;

const SIZE: u32 = 4;

/// What is told of a text, of the line that a row names where it tells one.
#[derive(Clone, Copy)]
enum Told {
    Fine,
    NotUtf8,
    TooLong,
    Unknown,
    Unformed,
    Past(Which),
}

fn fault_in(line: u64, told: Told) -> Option<LineFault> {
    match told {
        Told::Fine => None,
        Told::NotUtf8 => Some(LineFault::NotUtf8),
        Told::TooLong => Some(LineFault::TooLong),
        Told::Unknown => Some(LineFault::NoActor { line }),
        Told::Unformed => Some(LineFault::BadCommand { line }),
        Told::Past(which) => Some(LineFault::Limit { line, which }),
    }
}

/// A piece that stands so many times between a start and an end, and what is told of that text.
type Long = (
    &'static [u8],
    &'static [u8],
    usize,
    &'static [u8],
    u64,
    Told,
);

/// Whether a text has the fault that is told of it.
fn has_its_fault(alloc: Global, case: &Long) -> Result<bool, Fail> {
    let (start, piece, times, end, line, told) = *case;
    let mut text = Vec::from_slice(alloc, start)?;
    for _ in 0..times {
        text.extend_from_slice(piece)?;
    }
    text.extend_from_slice(end)?;
    match read(alloc, text.as_slice(), SIZE).err() {
        Some(LineFault::NoMemory) => Err(Fail::new("out of memory")),
        fault => Ok(fault == fault_in(line, told)),
    }
}

const AT_THE_LIMITS: [Long; 28] = [
    (&[255], b"", 0, b"", 0, Told::NotUtf8),
    (b"grant", b" ", MOST_LINE - 5, b"", 1, Told::Unformed),
    (
        b"grant",
        b" ",
        MOST_LINE - 4,
        b"",
        1,
        Told::Past(Which::Line),
    ),
    (
        b"actor a 0\na raise j t 0 ",
        b"n",
        MOST_VALUE,
        b"",
        0,
        Told::Fine,
    ),
    (
        b"actor a 0\na raise j t 0 ",
        b"n",
        MOST_VALUE + 1,
        b"",
        2,
        Told::Past(Which::Value),
    ),
    (b"actor a 0\na watch", b" j", 1, b"", 0, Told::Fine),
    (b"actor a 0\na watch", b" j", 0, b"", 2, Told::Unformed),
    (b"actor a 0\na watch", b" j", 2, b"", 2, Told::Unformed),
    (b"", b"x", MOST_LINE, b"\n", 1, Told::Unknown),
    (b"", b"x", MOST_LINE + 1, b"\n", 1, Told::Past(Which::Line)),
    (b"#", b"x", MOST_LINE - 2, b"\r\n", 0, Told::Fine),
    (
        b"#",
        b"x",
        MOST_LINE - 1,
        b"\r\n",
        1,
        Told::Past(Which::Line),
    ),
    (b"actor a 0\na put ", b"k", 255, b" v", 0, Told::Fine),
    (
        b"actor a 0\na put ",
        b"k",
        256,
        b" v",
        2,
        Told::Past(Which::Key),
    ),
    (b"actor a 0\na get ", b"k.", 32, b"", 0, Told::Fine),
    (
        b"actor a 0\na get ",
        b"k.",
        33,
        b"",
        2,
        Told::Past(Which::Key),
    ),
    (b"actor a 0\na symlink k ", b"t", 255, b"", 0, Told::Fine),
    (
        b"actor a 0\na symlink k ",
        b"t",
        256,
        b"",
        2,
        Told::Past(Which::Key),
    ),
    (
        b"actor a 0\na put k ",
        b"v",
        MOST_VALUE,
        b"\r\n",
        0,
        Told::Fine,
    ),
    (
        b"actor a 0\na put k ",
        b"v",
        MOST_VALUE + 1,
        b"",
        2,
        Told::Past(Which::Value),
    ),
    (b"actor ", b"n", 64, b" 0", 0, Told::Fine),
    (b"actor ", b"n", 65, b" 0", 1, Told::Unformed),
    (b"actor a 0\na ns-create ", b"n", 64, b"", 0, Told::Fine),
    (b"actor a 0\na ns-create ", b"n", 65, b"", 2, Told::Unformed),
    (
        b"actor a 0\n",
        b"a commit\n",
        MOST_COMMANDS,
        b"\n# a note",
        0,
        Told::Fine,
    ),
    (
        b"actor a 0\n",
        b"a commit\n",
        MOST_COMMANDS,
        b"b",
        10_002,
        Told::Past(Which::Commands),
    ),
    (
        b"actor a 0\na content-store ",
        b"x",
        MOST_VALUE,
        b"\n",
        0,
        Told::Fine,
    ),
    (
        b"actor a 0\na content-store ",
        b"x",
        MOST_VALUE + 1,
        b"\n",
        2,
        Told::Past(Which::Value),
    ),
];

#[test]
fn texts_at_the_limits_have_their_faults(rt: HostRuntime) -> Result<(), Fail> {
    for case in &AT_THE_LIMITS {
        assert!(rt;
            has_its_fault(rt.alloc(), case)?,
            "of {:?}, {} times",
            case.1,
            case.2
        );
    }
    Ok(())
}

const LONGEST: [Long; 2] = [
    (b"", b"\n", MOST_TEXT, b"", 0, Told::Fine),
    (b"", b"\n", MOST_TEXT, b"\n", 0, Told::TooLong),
];

#[test]
fn the_longest_texts_have_their_faults(rt: HostRuntime) -> Result<(), Fail> {
    for case in &LONGEST {
        assert!(rt; has_its_fault(rt.alloc(), case)?, "{} lines", case.2);
    }
    Ok(())
}

#[test]
fn drawn_words_are_those_of_the_seed(rt: HostRuntime) {
    let mut draws = Draws::new(0);
    let mut again = Draws::new(0);
    let mut other = Draws::new(1);
    let (first, second) = (draws.word(), draws.word());
    assert_eq!(rt; (first, second), (again.word(), again.word()));
    assert_eq!(rt;
        u64::from(second) << 32 | u64::from(first),
        18195738587432868099
    );
    assert_ne!(rt; other.word(), first);
}
