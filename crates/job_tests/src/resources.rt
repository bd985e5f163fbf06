//! Texts of R (Flux RFC 20), and the faults of other texts.
ghost use Rattle.std.specs.Prelude.{IfOk};
ghost use Rattle.resource_set.specs.Valid.{IsR};

use resource_set::{RFault, Resources, minus, print, read, within};
use std::alloc::Global;
use std::test::Fail;

/// Texts, and their canonical texts or the first fault in words.
const TEXTS: [(&str, &str); 53] = [
    (
        "{\"execution\":{\"R_lite\":[{\"children\":{\"core\":\"0\"},\"rank\":\"0\"}],\"expiration\":3600,\"nodelist\":[\"node0\"],\"starttime\":0},\"version\":1}",
        "{\"execution\":{\"R_lite\":[{\"children\":{\"core\":\"0\"},\"rank\":\"0\"}],\"expiration\":3600,\"nodelist\":[\"node0\"],\"starttime\":0},\"version\":1}",
    ),
    // Blanks, a fraction of zeros and keys in another order.
    (
        "{\"version\": 1, \"execution\": {\"R_lite\": [{\"rank\": \"0-1\", \"children\": {\"core\": \"0-3\"}}], \"starttime\": 0.0, \"expiration\": 0.0, \"nodelist\": [\"node[0-1]\"]}}",
        "{\"execution\":{\"R_lite\":[{\"children\":{\"core\":\"0-3\"},\"rank\":\"0-1\"}],\"expiration\":0,\"nodelist\":[\"node[0-1]\"],\"starttime\":0},\"version\":1}",
    ),
    (
        "{\"version\":1,\"execution\":{\"R_lite\":[{\"rank\":\"0\",\"children\":{\"core\":\"0\"}}],\"nodelist\":[\"a\"]}}",
        "{\"execution\":{\"R_lite\":[{\"children\":{\"core\":\"0\"},\"rank\":\"0\"}],\"expiration\":0,\"nodelist\":[\"a\"],\"starttime\":0},\"version\":1}",
    ),
    (
        "{\"version\":1,\"execution\":{\"R_lite\":[],\"nodelist\":[],\"starttime\":3600.0,\"expiration\":18446744073709551615}}",
        "{\"execution\":{\"R_lite\":[],\"expiration\":18446744073709551615,\"nodelist\":[],\"starttime\":3600},\"version\":1}",
    ),
    // Ranks stand in any order, and hosts belong to them in order.
    (
        "{\"version\":1,\"execution\":{\"R_lite\":[{\"rank\":\"3\",\"children\":{\"core\":\"0\"}},{\"rank\":\"0-1\",\"children\":{\"core\":\"1\"}}],\"nodelist\":[\"c\",\"a,b\"]}}",
        "{\"execution\":{\"R_lite\":[{\"children\":{\"core\":\"1\"},\"rank\":\"0-1\"},{\"children\":{\"core\":\"0\"},\"rank\":\"3\"}],\"expiration\":0,\"nodelist\":[\"c,a,b\"],\"starttime\":0},\"version\":1}",
    ),
    // Equal children stand in one entry, also where others stand between.
    (
        "{\"version\":1,\"execution\":{\"R_lite\":[{\"rank\":\"0\",\"children\":{\"core\":\"0-1\"}},{\"rank\":\"1\",\"children\":{\"core\":\"2\",\"gpu\":\"1,0\"}},{\"rank\":\"2\",\"children\":{\"core\":\"1,0\",\"gpu\":\"\"}}],\"nodelist\":[\"n[7-9]\"]}}",
        "{\"execution\":{\"R_lite\":[{\"children\":{\"core\":\"0-1\"},\"rank\":\"0,2\"},{\"children\":{\"core\":\"2\",\"gpu\":\"0-1\"},\"rank\":\"1\"}],\"expiration\":0,\"nodelist\":[\"n[7-9]\"],\"starttime\":0},\"version\":1}",
    ),
    // The same cores with other GPUs are other children.
    (
        "{\"version\":1,\"execution\":{\"R_lite\":[{\"rank\":\"0\",\"children\":{\"core\":\"1\",\"gpu\":\"2\"}},{\"rank\":\"1\",\"children\":{\"core\":\"1\",\"gpu\":\"3\"}}],\"nodelist\":[\"x,y\"]}}",
        "{\"execution\":{\"R_lite\":[{\"children\":{\"core\":\"1\",\"gpu\":\"2\"},\"rank\":\"0\"},{\"children\":{\"core\":\"1\",\"gpu\":\"3\"},\"rank\":\"1\"}],\"expiration\":0,\"nodelist\":[\"x,y\"],\"starttime\":0},\"version\":1}",
    ),
    // A host without cores, and an entry without ranks.
    (
        "{\"version\":1,\"execution\":{\"R_lite\":[{\"rank\":\"5\",\"children\":{\"core\":\"\"}},{\"rank\":\"\",\"children\":{\"core\":\"1\"}}],\"nodelist\":[\"a\"]}}",
        "{\"execution\":{\"R_lite\":[{\"children\":{\"core\":\"\"},\"rank\":\"5\"}],\"expiration\":0,\"nodelist\":[\"a\"],\"starttime\":0},\"version\":1}",
    ),
    // Other keys are read over, and of a key that stands twice the last counts.
    (
        "{\"version\":1,\"execution\":{\"R_lite\":[{\"rank\":\"1\",\"rank\":\"0\",\"x\":1,\"children\":{\"core\":\"0\",\"y\":[]}}],\"nodelist\":[\"a\"],\"properties\":{}}}",
        "{\"execution\":{\"R_lite\":[{\"children\":{\"core\":\"0\"},\"rank\":\"0\"}],\"expiration\":0,\"nodelist\":[\"a\"],\"starttime\":0},\"version\":1}",
    ),
    (
        "{\"version\":1,\"execution\":{\"R_lite\":[{\"rank\":\"0-1\",\"children\":{\"core\":\"0\"}}],\"nodelist\":[\"a,a1\"]}}",
        "{\"execution\":{\"R_lite\":[{\"children\":{\"core\":\"0\"},\"rank\":\"0-1\"}],\"expiration\":0,\"nodelist\":[\"a,a1\"],\"starttime\":0},\"version\":1}",
    ),
    // Another text or version.
    ("", "not JSON"),
    ("{\"version\":1.5}", "no whole number of 64 bits at byte 11"),
    ("{\"version\":2,\"execution\":5}", "the version isn't 1"),
    (
        "{\"version\":\"1\",\"execution\":{}}",
        "the version isn't 1",
    ),
    ("{\"execution\":{}}", "the version isn't 1"),
    ("{\"version\":-1}", "the version isn't 1"),
    ("[]", "the version isn't 1"),
    ("5", "the version isn't 1"),
    // The first bad field, in order.
    ("{\"version\":1,\"execution\":5}", "a bad field: Execution"),
    ("{\"version\":1,\"execution\":{}}", "a bad field: RLite"),
    (
        "{\"version\":1,\"execution\":{\"R_lite\":{}}}",
        "a bad field: RLite",
    ),
    (
        "{\"version\":1,\"execution\":{\"R_lite\":[5]}}",
        "a bad field: RLite",
    ),
    (
        "{\"version\":1,\"execution\":{\"R_lite\":[{}]}}",
        "a bad field: Rank",
    ),
    (
        "{\"version\":1,\"execution\":{\"R_lite\":[{\"rank\":0,\"children\":5}]}}",
        "a bad field: Rank",
    ),
    (
        "{\"version\":1,\"execution\":{\"R_lite\":[{\"rank\":\"1-0\",\"children\":{\"core\":\"0\"}}]}}",
        "a bad field: Rank",
    ),
    (
        "{\"version\":1,\"execution\":{\"R_lite\":[{\"rank\":\"65536\",\"children\":{\"core\":\"0\"}}]}}",
        "a bad field: Rank",
    ),
    (
        "{\"version\":1,\"execution\":{\"R_lite\":[{\"rank\":\"0\"}]}}",
        "a bad field: Children",
    ),
    (
        "{\"version\":1,\"execution\":{\"R_lite\":[{\"rank\":\"0\",\"children\":[]}]}}",
        "a bad field: Children",
    ),
    (
        "{\"version\":1,\"execution\":{\"R_lite\":[{\"rank\":\"0\",\"children\":{\"gpu\":5}}]}}",
        "a bad field: Core",
    ),
    (
        "{\"version\":1,\"execution\":{\"R_lite\":[{\"rank\":\"0\",\"children\":{\"core\":0}}]}}",
        "a bad field: Core",
    ),
    (
        "{\"version\":1,\"execution\":{\"R_lite\":[{\"rank\":\"0\",\"children\":{\"core\":\"0,\"}}]}}",
        "a bad field: Core",
    ),
    (
        "{\"version\":1,\"execution\":{\"R_lite\":[{\"rank\":\"0\",\"children\":{\"core\":\"0\",\"gpu\":null}}]}}",
        "a bad field: Gpu",
    ),
    (
        "{\"version\":1,\"execution\":{\"R_lite\":[{\"rank\":\"0\",\"children\":{\"core\":\"0\",\"gpu\":\"x\"}}]}}",
        "a bad field: Gpu",
    ),
    (
        "{\"version\":1,\"execution\":{\"R_lite\":[{\"rank\":\"0\",\"children\":{\"core\":\"x\"}},{}]}}",
        "a bad field: Core",
    ),
    (
        "{\"version\":1,\"execution\":{\"R_lite\":[{\"rank\":\"0\",\"children\":{\"core\":\"0\"}},{}],\"nodelist\":5}}",
        "a bad field: Rank",
    ),
    (
        "{\"version\":1,\"execution\":{\"R_lite\":[]}}",
        "a bad field: Nodelist",
    ),
    (
        "{\"version\":1,\"execution\":{\"R_lite\":[],\"nodelist\":\"a\"}}",
        "a bad field: Nodelist",
    ),
    (
        "{\"version\":1,\"execution\":{\"R_lite\":[],\"nodelist\":[5]}}",
        "a bad field: Nodelist",
    ),
    (
        "{\"version\":1,\"execution\":{\"R_lite\":[],\"nodelist\":[\"a\",\"b[\"],\"starttime\":-1}}",
        "a bad field: Nodelist",
    ),
    (
        "{\"version\":1,\"execution\":{\"R_lite\":[],\"nodelist\":[],\"starttime\":-1,\"expiration\":-1}}",
        "a bad field: Starttime",
    ),
    (
        "{\"version\":1,\"execution\":{\"R_lite\":[],\"nodelist\":[],\"starttime\":null}}",
        "a bad field: Starttime",
    ),
    (
        "{\"version\":1,\"execution\":{\"R_lite\":[],\"nodelist\":[],\"expiration\":\"0\"}}",
        "a bad field: Expiration",
    ),
    (
        "{\"version\":1,\"execution\":{\"R_lite\":[{\"rank\":\"0\",\"children\":{\"core\":\"0\"}},{\"rank\":\"0\",\"children\":{\"core\":\"0\"}}],\"nodelist\":[],\"expiration\":[]}}",
        "a bad field: Expiration",
    ),
    // Ranks and hosts, in order.
    (
        "{\"version\":1,\"execution\":{\"R_lite\":[{\"rank\":\"0-4\",\"children\":{\"core\":\"0\"}},{\"rank\":\"7\",\"children\":{\"core\":\"0\"}},{\"rank\":\"2-9\",\"children\":{\"core\":\"0\"}}],\"nodelist\":[]}}",
        "rank 2 stands twice",
    ),
    (
        "{\"version\":1,\"execution\":{\"R_lite\":[{\"rank\":\"7\",\"children\":{\"core\":\"0\"}},{\"rank\":\"3\",\"children\":{\"core\":\"0\"}},{\"rank\":\"6-7\",\"children\":{\"core\":\"0\"}},{\"rank\":\"3\",\"children\":{\"core\":\"0\"}}],\"nodelist\":[\"a,a\"]}}",
        "rank 7 stands twice",
    ),
    (
        "{\"version\":1,\"execution\":{\"R_lite\":[{\"rank\":\"0\",\"children\":{\"core\":\"0\"}}],\"nodelist\":[\"a,b\"]}}",
        "1 ranks and 2 hosts",
    ),
    (
        "{\"version\":1,\"execution\":{\"R_lite\":[{\"rank\":\"0\",\"children\":{\"core\":\"0\"}}],\"nodelist\":[\"a\",\"a\"]}}",
        "1 ranks and 2 hosts",
    ),
    (
        "{\"version\":1,\"execution\":{\"R_lite\":[{\"rank\":\"0-2\",\"children\":{\"core\":\"0\"}}],\"nodelist\":[]}}",
        "3 ranks and 0 hosts",
    ),
    (
        "{\"version\":1,\"execution\":{\"R_lite\":[],\"nodelist\":[\"n[0-65535]\",\"n[0-65535]\"]}}",
        "0 ranks and 131072 hosts",
    ),
    (
        "{\"version\":1,\"execution\":{\"R_lite\":[{\"rank\":\"0-1\",\"children\":{\"core\":\"0\"}}],\"nodelist\":[\"a,a\"]}}",
        "a host stands twice",
    ),
    (
        "{\"version\":1,\"execution\":{\"R_lite\":[{\"rank\":\"0-2\",\"children\":{\"core\":\"0\"}}],\"nodelist\":[\"a1\",\"b,a[1]\"]}}",
        "a host stands twice",
    ),
    ("{\"version\":1,\"execution\":[]}", "a bad field: Execution"),
    (
        "{\"version\":1,\"execution\":null}",
        "a bad field: Execution",
    ),
];

/// What a text tells: its canonical text, or the fault in words.
fn told(alloc: Global, text: &str) -> Result<String, Fail> {
    match read(alloc, text.as_bytes()) {
        Ok(r) => Ok(String::from_utf8_lossy(alloc, &print(alloc, &r)?)?),
        Err(RFault::NoMemory) => Err(RFault::NoMemory.into()),
        Err(fault) => Ok(format!(in alloc; "{fault}")?),
    }
}

/// Whether a text tells this.
fn tells(alloc: Global, text: &str, wanted: &str) -> Result<bool, Fail> {
    let found = told(alloc, text)?;
    Ok(found.as_str() == wanted)
}

#[test]
fn texts_are_read_and_printed_as_the_rule_says(rt: HostRuntime) -> Result<(), Fail> {
    for (text, wanted) in &TEXTS {
        assert!(rt; tells(rt.alloc(), text, wanted)?, "{text}");
    }
    Ok(())
}

/// Hosts with cores and GPUs, in canonical texts.
const ALL: &str =
    "{\"execution\":{\"R_lite\":[{\"children\":{\"core\":\"0-3\",\"gpu\":\"0-1\"},\"rank\":\"0\"},{\"children\":{\"core\":\"0-3\"},\"rank\":\"1\"},{\"children\":{\"core\":\"0,2\"},\"rank\":\"2\"}],\"expiration\":9,\"nodelist\":[\"a,b,c\"],\"starttime\":5},\"version\":1}";

const SOME: &str =
    "{\"execution\":{\"R_lite\":[{\"children\":{\"core\":\"2\"},\"rank\":\"0\"},{\"children\":{\"core\":\"1\",\"gpu\":\"0-5\"},\"rank\":\"1\"}],\"expiration\":9,\"nodelist\":[\"c,a\"],\"starttime\":5},\"version\":1}";

/// What stays of all without some.
const LEFT: &str =
    "{\"execution\":{\"R_lite\":[{\"children\":{\"core\":\"0,2-3\"},\"rank\":\"0\"},{\"children\":{\"core\":\"0-3\"},\"rank\":\"1\"},{\"children\":{\"core\":\"0\"},\"rank\":\"2\"}],\"expiration\":9,\"nodelist\":[\"a,b,c\"],\"starttime\":5},\"version\":1}";

/// What stays of some without itself.
const NONE: &str =
    "{\"execution\":{\"R_lite\":[{\"children\":{\"core\":\"\"},\"rank\":\"0-1\"}],\"expiration\":9,\"nodelist\":[\"c,a\"],\"starttime\":5},\"version\":1}";

const PART: &str =
    "{\"execution\":{\"R_lite\":[{\"children\":{\"core\":\"0\"},\"rank\":\"0\"},{\"children\":{\"core\":\"\"},\"rank\":\"1\"},{\"children\":{\"core\":\"2\",\"gpu\":\"1\"},\"rank\":\"2\"},{\"children\":{\"core\":\"3\"},\"rank\":\"3\"}],\"expiration\":9,\"nodelist\":[\"c,x,a,b\"],\"starttime\":5},\"version\":1}";

const OTHER: &str =
    "{\"execution\":{\"R_lite\":[{\"children\":{\"core\":\"0\"},\"rank\":\"0\"},{\"children\":{\"core\":\"1\"},\"rank\":\"1\"}],\"expiration\":9,\"nodelist\":[\"a,x\"],\"starttime\":5},\"version\":1}";

const A_GPU: &str =
    "{\"execution\":{\"R_lite\":[{\"children\":{\"core\":\"0\",\"gpu\":\"0\"},\"rank\":\"0\"}],\"expiration\":9,\"nodelist\":[\"b\"],\"starttime\":5},\"version\":1}";

/// What one has without another.
fn taken(alloc: Global, one: &str, other: &str) -> Result<Resources, Fail>
    ensures { IfOk result IsR }
{
    let one = read(alloc, one.as_bytes())?;
    let other = read(alloc, other.as_bytes())?;
    Ok(minus(alloc, &one, &other)?)
}

/// Whether one without another prints as this.
fn leaves(alloc: Global, one: &str, other: &str, rest: &str) -> Result<bool, Fail> {
    let left = taken(alloc, one, other)?;
    Ok(print(alloc, &left)?.as_slice() == rest.as_bytes())
}

/// Whether one lies within another.
fn lies(alloc: Global, part: &str, whole: &str) -> Result<bool, Fail> {
    let part = read(alloc, part.as_bytes())?;
    let whole = read(alloc, whole.as_bytes())?;
    Ok(within(&part, &whole))
}

/// Whether the first lies within the second.
const PAIRS: [(&str, &str, bool); 8] = [
    (LEFT, ALL, true),
    (NONE, LEFT, true),
    (ALL, ALL, true),
    (PART, ALL, true),
    (SOME, ALL, false),
    (ALL, LEFT, false),
    (OTHER, ALL, false),
    (A_GPU, ALL, false),
];

#[test]
fn units_are_taken_away_and_sought(rt: HostRuntime) -> Result<(), Fail> {
    assert!(rt; leaves(rt.alloc(), ALL, SOME, LEFT)?);
    assert!(rt; leaves(rt.alloc(), SOME, SOME, NONE)?);
    for (part, whole, wanted) in &PAIRS {
        assert!(rt;
            lies(rt.alloc(), part, whole)? == *wanted,
            "{part} in {whole}"
        );
    }
    Ok(())
}
