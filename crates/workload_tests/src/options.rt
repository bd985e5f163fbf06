//! Words behind `run`, and the options that they spell.
use fl_digest::Hash;
use run_options::{Options, read_options};
use std::alloc::Global;
use std::test::Fail;

/// The options that stand where no word says else.
const DEFAULT: Options = Options {
    size: 4,
    fanout: 2,
    hash: Hash::Sha1,
    shuffle: None,
    losses: 0,
    workers: 1,
    journal: false,
    backfill: false,
};

/// Words, and the options that they spell.
struct Case {
    words: &'static [&'static str],
    options: Options,
}

/// Words that spell options.
const CASES: [Case; 32] = [
    Case {
        words: &[],
        options: DEFAULT,
    },
    Case {
        words: &["--size", "1"],
        options: Options { size: 1, ..DEFAULT },
    },
    Case {
        words: &["--size", "32"],
        options: Options {
            size: 32,
            ..DEFAULT
        },
    },
    Case {
        words: &["--size=7"],
        options: Options { size: 7, ..DEFAULT },
    },
    Case {
        words: &["--size", "00000000000000000032"],
        options: Options {
            size: 32,
            ..DEFAULT
        },
    },
    Case {
        words: &["--fanout", "1"],
        options: Options {
            fanout: 1,
            ..DEFAULT
        },
    },
    Case {
        words: &["--fanout=32"],
        options: Options {
            fanout: 32,
            ..DEFAULT
        },
    },
    Case {
        words: &["--hash", "sha1"],
        options: DEFAULT,
    },
    Case {
        words: &["--hash=sha256"],
        options: Options {
            hash: Hash::Sha256,
            ..DEFAULT
        },
    },
    Case {
        words: &["--shuffle", "0"],
        options: Options {
            shuffle: Some(0),
            ..DEFAULT
        },
    },
    Case {
        words: &["--shuffle=18446744073709551615"],
        options: Options {
            shuffle: Some(18446744073709551615),
            ..DEFAULT
        },
    },
    Case {
        words: &["--losses", "0"],
        options: DEFAULT,
    },
    Case {
        words: &["--losses=10000"],
        options: Options {
            losses: 10000,
            ..DEFAULT
        },
    },
    Case {
        words: &["--losses", "00000000000000000040"],
        options: Options {
            losses: 40,
            ..DEFAULT
        },
    },
    Case {
        words: &["--workers", "1"],
        options: DEFAULT,
    },
    Case {
        words: &["--workers=16"],
        options: Options {
            workers: 16,
            ..DEFAULT
        },
    },
    Case {
        words: &["--workers", "00000000000000000002"],
        options: Options {
            workers: 2,
            ..DEFAULT
        },
    },
    Case {
        words: &["--shuffle=3", "--workers", "4", "--losses", "20"],
        options: Options {
            shuffle: Some(3),
            losses: 20,
            workers: 4,
            ..DEFAULT
        },
    },
    Case {
        words: &["--shuffle", "3", "--losses=20"],
        options: Options {
            shuffle: Some(3),
            losses: 20,
            ..DEFAULT
        },
    },
    Case {
        words: &["--losses", "20", "--journal", "--shuffle=3"],
        options: Options {
            shuffle: Some(3),
            losses: 20,
            journal: true,
            ..DEFAULT
        },
    },
    Case {
        words: &["--shuffle", "3", "--journal", "--size=7"],
        options: Options {
            size: 7,
            shuffle: Some(3),
            journal: true,
            ..DEFAULT
        },
    },
    Case {
        words: &["--journal"],
        options: Options {
            journal: true,
            ..DEFAULT
        },
    },
    Case {
        words: &["--journal", "--hash=sha256", "--fanout", "3", "--size=5"],
        options: Options {
            size: 5,
            fanout: 3,
            hash: Hash::Sha256,
            shuffle: None,
            losses: 0,
            workers: 1,
            journal: true,
            backfill: false,
        },
    },
    Case {
        words: &[
            "--fanout",
            "3",
            "--shuffle=12",
            "--size",
            "7",
            "--hash",
            "sha256",
        ],
        options: Options {
            size: 7,
            fanout: 3,
            hash: Hash::Sha256,
            shuffle: Some(12),
            ..DEFAULT
        },
    },
    Case {
        words: &["--shuffle", "00000000000000000020"],
        options: Options {
            shuffle: Some(20),
            ..DEFAULT
        },
    },
    Case {
        words: &["--backfill"],
        options: Options {
            backfill: true,
            ..DEFAULT
        },
    },
    Case {
        words: &["--backfill", "--size", "7"],
        options: Options {
            size: 7,
            backfill: true,
            ..DEFAULT
        },
    },
    Case {
        words: &["--fanout=3", "--backfill"],
        options: Options {
            fanout: 3,
            backfill: true,
            ..DEFAULT
        },
    },
    Case {
        words: &["--hash", "sha256", "--backfill"],
        options: Options {
            hash: Hash::Sha256,
            backfill: true,
            ..DEFAULT
        },
    },
    Case {
        words: &["--backfill", "--shuffle=12"],
        options: Options {
            shuffle: Some(12),
            backfill: true,
            ..DEFAULT
        },
    },
    Case {
        words: &["--backfill", "--journal"],
        options: Options {
            journal: true,
            backfill: true,
            ..DEFAULT
        },
    },
    Case {
        words: &["--journal", "--backfill"],
        options: Options {
            journal: true,
            backfill: true,
            ..DEFAULT
        },
    },
];

/// Words that spell none.
const REFUSED: [&[&str]; 100] = [
    &["--size", "0"],
    &["--size", "33"],
    &["--size="],
    &["--size"],
    &["--size", ""],
    &["--size", "000000000000000000032"],
    &["--size", "+4"],
    &["--size", "-4"],
    &["--size", " 4"],
    &["--size", "4x"],
    &["--size", "18446744073709551617"],
    &["--size", "4294967300"],
    &["--size", "4", "--size", "4"],
    &["--size=4", "--size", "5"],
    &["--size", "--journal"],
    &["--fanout=0"],
    &["--fanout", "33"],
    &["--fanout", "2", "--fanout=2"],
    &["--hash", "SHA1"],
    &["--hash", ""],
    &["--hash=sha1=x"],
    &["--hash", "sha1", "--hash", "sha1"],
    &["--shuffle", "18446744073709551616"],
    &["--shuffle="],
    &["--shuffle"],
    &["--shuffle", "x"],
    &["--shuffle", "3", "--shuffle=3"],
    &["--losses", "10001"],
    &["--losses"],
    &["--losses="],
    &["--losses", "4294967296"],
    &["--losses", "-1"],
    &["--losses", "7", "--losses=7"],
    &["--losses", "0", "--losses", "0"],
    &["--losses", "--shuffle", "3"],
    &["--loss", "3"],
    &["--shuffle", "--losses", "20"],
    &["--journal", "--journal"],
    &["--journal="],
    &["--journal=true"],
    &["--journal", "true"],
    &["--"],
    &["--", "--size", "4"],
    &["--journal", "--"],
    &["--help"],
    &["-h"],
    &["-s", "4"],
    &["--siz", "4"],
    &["size", "4"],
    &["--SIZE", "4"],
    &["--workers", "0"],
    &["--workers", "17"],
    &["--workers"],
    &["--workers="],
    &["--workers", "4294967297"],
    &["--workers", "two"],
    &["--workers", "2", "--workers=2"],
    &["--workers", "--size", "4"],
    &["--worker", "2"],
    &["help"],
    &[""],
    &["=4"],
    &["--shuffle", "000000000000000000020"],
    &["--size", "-"],
    &["-"],
    &["--size", "--fanout", "2"],
    &["--size", "--fanout=2"],
    &["--hash", "--"],
    &["--hash", "--", "sha1"],
    &["--size", "4", "--"],
    &["--size=--"],
    &["--=4"],
    &["--size", "4", ""],
    &["", "--size", "4"],
    &["--size==4"],
    &["--hash=sha1", "--hash=sha256"],
    &["--journal", "--size", "4", "--journal"],
    &["--journal=", "--size", "4"],
    &["-size", "4"],
    &["-é"],
    &["--size", "é"],
    &["--size", "４"],
    &["--version"],
    &["-V"],
    &["--size", "4", "run"],
    &["--backfill", "--backfill"],
    &["--backfill=1"],
    &["--backfill="],
    &["--backfill=true"],
    &["--backfill", "1"],
    &["--size", "--backfill"],
    &["--backfill", "--journal", "--backfill"],
    &["--journal", "--backfill", "--journal"],
    &["--backfill", "--"],
    &["--backfil"],
    &["--backfills"],
    &["--Backfill"],
    &["--back-fill"],
    &["-backfill"],
    &["backfill"],
];

/// These words, each a string.
fn strings(alloc: Global, words: &[&str]) -> Result<Vec<String>, Fail> {
    let mut all = Vec::new(alloc);
    for word in words {
        all.push(String::from_str(alloc, word)?)?;
    }
    Ok(all)
}

/// Whether the words of a case spell its options.
fn spells(alloc: Global, case: &Case) -> Result<bool, Fail> {
    let words = strings(alloc, case.words)?;
    Ok(read_options(alloc, &words)? == Some(case.options))
}

/// Whether words spell no options.
fn spell_none(alloc: Global, words: &[&str]) -> Result<bool, Fail> {
    let words = strings(alloc, words)?;
    Ok(read_options(alloc, &words)?.is_none())
}

#[test]
fn words_and_their_options(rt: HostRuntime) -> Result<(), Fail> {
    for case in &CASES {
        assert!(rt; spells(rt.alloc(), case)?, "{:?}", case.words);
    }
    Ok(())
}

#[test]
fn words_that_are_refused(rt: HostRuntime) -> Result<(), Fail> {
    for words in &REFUSED {
        assert!(rt; spell_none(rt.alloc(), words)?, "{:?}", words);
    }
    Ok(())
}
