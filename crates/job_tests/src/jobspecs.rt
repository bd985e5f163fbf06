//! Jobspecs (Flux RFC 14 and 25), and the faults of other texts.
use job_spec::{JobSpec, SpecFault, read};
use lists::Copied;
use std::test::Fail;

/// A job of one slot of one core.
const J1: &str =
    "{\"resources\":[{\"type\":\"slot\",\"count\":1,\"with\":[{\"type\":\"core\",\"count\":1}],\
        \"label\":\"task\"}],\"tasks\":[{\"command\":[\"true\"],\"slot\":\"task\",\
        \"count\":{\"per_slot\":1}}],\"attributes\":{\"system\":{\"duration\":0}},\"version\":1}";

/// What is told of a text, which is the first job with a thing in a part's place, the part, and the
/// thing. It stands alone where there is no part; the slot of the first job may be written `@`.
const ROWS: [&str; 109] = [
    // The version and the list of resources.
    "on None false 1 of 1+0 PerSlot(1) for 0: true | \"version\":1 | \"version\":1",
    "on None false 1 of 1+0 PerSlot(1) for 0: true | \"version\":1 | \"version\":1.0",
    "2 BadVersion | \"version\":1 | \"version\":2",
    "2 BadVersion | \"version\":1 | \"version\":\"1\"",
    "2 BadVersion | \"version\":1 | \"other\":1",
    "1 NotJson(no whole number of 64 bits at byte 208) | \"version\":1 | \"version\":0.5",
    "1 NotJson(not JSON) | \"version\":1 | \"version\"",
    "3 BadField(Resources) | \"resources\" | \"other\"",
    "3 BadField(Resources) | \"resources\":[ | \"resources\":{}, \"other\":[",
    "4 BadShape(Resources) | \"resources\":[ | \"resources\":[], \"other\":[",
    "4 BadShape(Resources) | \"resources\":[ | \"resources\":[{},",
    "3 BadField(Resources) | \"resources\":[ | \"resources\":[5], \"other\":[",
    "3 BadField(Resources) | \"type\":\"slot\", | ",
    "3 BadField(Resources) | \"type\":\"slot\" | \"type\":5",
    "4 BadShape(Resources) | \"type\":\"slot\" | \"type\":\"socket\"",
    // The slot.
    "3 BadField(Slot) | \"slot\",\"count\":1 | \"slot\"",
    "3 BadField(Slot) | \"slot\",\"count\":1 | \"slot\",\"count\":\"1\"",
    "3 BadField(Slot) | \"slot\",\"count\":1 | \"slot\",\"count\":{\"min\":1}",
    "5 BadCount(Slot) | \"slot\",\"count\":1 | \"slot\",\"count\":0",
    "5 BadCount(Slot) | \"slot\",\"count\":1 | \"slot\",\"count\":-1",
    "on None false 65536 of 1+0 PerSlot(1) for 0: true | \"slot\",\"count\":1 | \"slot\",\
        \"count\":65536",
    "5 BadCount(Slot) | \"slot\",\"count\":1 | \"slot\",\"count\":65537",
    "3 BadField(Slot) | \"label\":\"task\" | \"label\":null",
    "3 BadField(Slot) | \"label\":\"task\" | \"other\":\"task\"",
    "6 NoSlot | \"label\":\"task\" | \"label\":\"\"",
    "3 BadField(Slot) | \"with\" | \"other\"",
    "3 BadField(Slot) | [{\"type\":\"core\",\"count\":1}] | {\"type\":\"core\",\"count\":1}",
    "4 BadShape(Slot) | [{\"type\":\"core\",\"count\":1}] | []",
    "3 BadField(Slot) | \"type\":\"core\", | ",
    "4 BadShape(Slot) | \"type\":\"core\" | \"type\":\"socket\"",
    "4 BadShape(Slot) | \"type\":\"core\" | \"type\":\"gpu\"",
    "3 BadField(Core) | \"core\",\"count\":1 | \"core\"",
    "5 BadCount(Core) | \"core\",\"count\":1 | \"core\",\"count\":0",
    "3 BadField(Core) | \"core\",\"count\":1 | \"core\",\"count\":[1]",
    "on None false 1 of 2+3 PerSlot(1) for 0: true | \"core\",\"count\":1} | \"core\",\"count\":2},\
        {\"type\":\"gpu\",\"count\":3}",
    "on None false 1 of 2+3 PerSlot(1) for 0: true | {\"type\":\"core\",\
        \"count\":1} | {\"type\":\"gpu\",\"count\":3},{\"type\":\"core\",\"count\":2}",
    "4 BadShape(Slot) | \"count\":1} | \"count\":1},{\"type\":\"core\",\"count\":1}",
    "4 BadShape(Slot) | {\"type\":\"core\",\"count\":1} | {\"type\":\"gpu\",\"count\":1},\
        {\"type\":\"gpu\",\"count\":1}",
    "4 BadShape(Slot) | \"count\":1} | \"count\":1},{\"type\":\"gpu\",\"count\":1},\
        {\"type\":\"gpu\",\"count\":1}",
    "3 BadField(Gpu) | \"count\":1} | \"count\":1},{\"type\":\"gpu\"}",
    "5 BadCount(Gpu) | \"count\":1} | \"count\":1},{\"type\":\"gpu\",\"count\":65537}",
    "5 BadCount(Core) | \"count\":1} | \"count\":0},{\"type\":\"gpu\",\"count\":\"1\"}",
    "5 BadCount(Core) | {\"type\":\"core\",\"count\":1} | {\"type\":\"gpu\",\"count\":0},\
        {\"type\":\"core\",\"count\":0}",
    "4 BadShape(Slot) | \"count\":1} | \"count\":0},{\"type\":\"socket\"}",
    // The tasks.
    "3 BadField(Task) | \"tasks\" | \"other\"",
    "3 BadField(Task) | \"tasks\":[ | \"tasks\":5, \"other\":[",
    "4 BadShape(Task) | \"tasks\":[ | \"tasks\":[], \"other\":[",
    "4 BadShape(Task) | \"tasks\":[ | \"tasks\":[{},",
    "3 BadField(Task) | \"tasks\":[ | \"tasks\":[\"true\"], \"other\":[",
    "3 BadField(Command) | \"command\" | \"other\"",
    "3 BadField(Command) | [\"true\"] | \"true\"",
    "4 BadShape(Command) | [\"true\"] | []",
    "3 BadField(Command) | [\"true\"] | [\"true\",5]",
    "on None false 1 of 1+0 PerSlot(1) for 0:  \u{e9} | [\"true\"] | [\"\",\"\\u00e9\"]",
    "3 BadField(Task) | \"slot\":\"task\", | ",
    "3 BadField(Task) | \"slot\":\"task\" | \"slot\":5",
    "6 NoSlot | \"slot\":\"task\" | \"slot\":\"other\"",
    "6 NoSlot | \"slot\":\"task\",\"count\":{\"per_slot\":1} | \"slot\":\"other\",\"count\":0",
    "3 BadField(Count) | ,\"count\":{\"per_slot\":1} | ",
    "3 BadField(Count) | {\"per_slot\":1} | 1",
    "3 BadField(Count) | {\"per_slot\":1} | {}",
    "3 BadField(Count) | {\"per_slot\":1} | {\"per_slot\":1,\"total\":1}",
    "3 BadField(Count) | {\"per_slot\":1} | {\"per_slot\":null}",
    "5 BadCount(Count) | {\"per_slot\":1} | {\"total\":0}",
    "5 BadCount(Count) | {\"per_slot\":1} | {\"per_slot\":65537}",
    "on None false 1 of 1+0 Total(4) for 0: true | {\"per_slot\":1} | {\"total\":4}",
    // The attributes.
    "on None false 1 of 1+0 PerSlot(1) for 0: true | \"attributes\" | \"other\"",
    "on None false 1 of 1+0 PerSlot(1) for 0: true | \"attributes\": | \"attributes\":null, \
        \"other\":",
    "3 BadField(Attributes) | \"attributes\": | \"attributes\":[], \"other\":",
    "on None false 1 of 1+0 PerSlot(1) for 0: true | \"system\" | \"user\"",
    "3 BadField(Attributes) | \"system\": | \"system\":null, \"user\":",
    "on None false 1 of 1+0 PerSlot(1) for 0: true | \"duration\" | \"other\"",
    "on None false 1 of 1+0 PerSlot(1) for 18446744073709551615: true | \"duration\":0 | \
        \"duration\":18446744073709551615",
    "3 BadField(Duration) | \"duration\":0 | \"duration\":-1",
    "3 BadField(Duration) | \"duration\":0 | \"duration\":null",
    "3 BadField(Duration) | \"duration\":0 | \"duration\":\"1m\",\"dependencies\":5",
    "3 BadField(Dependencies) | \"duration\":0 | \"dependencies\":{}",
    "on None false 1 of 1+0 PerSlot(1) for 0: true | \"duration\":0 | \"dependencies\":[]",
    "3 BadField(Dependencies) | \"duration\":0 | \"dependencies\":[5]",
    "3 BadField(Dependencies) | \"duration\":0 | \"dependencies\":[{\"value\":\"f1\"}]",
    "4 BadShape(Dependencies) | \"duration\":0 | \"dependencies\":[{\"scheme\":\"before\"}]",
    "3 BadField(Dependencies) | \"duration\":0 | \"dependencies\":[{\"scheme\":\"after\"}]",
    "3 BadField(Dependencies) | \"duration\":0 | \"dependencies\":[{\"scheme\":\"after\",\
        \"value\":5}]",
    "3 BadField(Dependencies) | \"duration\":0 | \"dependencies\":[{\"scheme\":\"after\",\
        \"value\":\"f0\"}]",
    "4 BadShape(Dependencies) | \"duration\":0 | \"dependencies\":[{\"scheme\":\"after\",\
        \"value\":\"f2\"},{\"scheme\":\"\"}]",
    "on None false 1 of 1+0 PerSlot(1) for 0: true; After 1024; AfterAny 1234; AfterOk \
        16777216000; AfterNotOk 0 | \"duration\":0 | \"dependencies\":[{\"scheme\":\"after\",\
        \"value\":\"fJf\"},{\"value\":\"1234\",\"scheme\":\"afterany\"},{\"scheme\":\"afterok\",\
        \"value\":\"0000.0003.e800.0000\"},{\"scheme\":\"afternotok\",\"value\":\"f1\",\
        \"other\":5}]",
    // Nodes have a slot each.
    "on Some(2) false 1 of 1+0 PerSlot(1) for 0: true | @ | {\"type\":\"node\",\"count\":2,\
        \"with\":[@]}",
    "on Some(2) true 1 of 1+0 PerSlot(1) for 0: true | @ | {\"type\":\"node\",\"count\":2,\
        \"exclusive\":true,\"with\":[@]}",
    "on Some(65536) false 1 of 1+0 PerSlot(1) for 0: true | @ | {\"type\":\"node\",\"count\":65536,\
        \"exclusive\":false,\"with\":[@]}",
    "3 BadField(Node) | @ | {\"type\":\"node\",\"with\":[@]}",
    "5 BadCount(Node) | @ | {\"type\":\"node\",\"count\":0,\"exclusive\":5,\"with\":[@]}",
    "3 BadField(Node) | @ | {\"type\":\"node\",\"count\":1,\"exclusive\":null,\"with\":[]}",
    "3 BadField(Node) | @ | {\"type\":\"node\",\"count\":1,\"other\":[@]}",
    "4 BadShape(Node) | @ | {\"type\":\"node\",\"count\":1,\"with\":[]}",
    "4 BadShape(Node) | @ | {\"type\":\"node\",\"count\":1,\"with\":[5,@]}",
    "3 BadField(Node) | @ | {\"type\":\"node\",\"count\":1,\"with\":[5]}",
    "4 BadShape(Node) | @ | {\"type\":\"node\",\"count\":1,\"with\":[{\"type\":\"core\",\"count\":1}]}",
    "3 BadField(Slot) | @ | {\"type\":\"node\",\"count\":1,\"with\":[{\"type\":\"slot\"}]}",
    // The first of several faults counts.
    "1 NotJson(not JSON) |  | ",
    "1 NotJson(no whole number of 64 bits at byte 1) |  | [0.5",
    "2 BadVersion |  | \"version\"",
    "3 BadField(Resources) |  | {\"version\":1}",
    "2 BadVersion |  | {\"version\":2,\"resources\":[]}",
    "4 BadShape(Resources) |  | {\"version\":1,\"tasks\":[],\"resources\":[]}",
    "3 BadField(Slot) |  | {\"version\":1,\"resources\":[{\"type\":\"slot\"}],\"tasks\":5}",
    "5 BadCount(Slot) |  | {\"attributes\":5,\"version\":1,\"resources\":[{\"type\":\"slot\",\
        \"count\":0}]}",
    "3 BadField(Slot) |  | {\"version\":1,\"resources\":[{\"type\":\"slot\",\"count\":1,\"label\":5,\
        \"with\":5}]}",
    // Other keys are read over.
    "on None false 1 of 1+0 PerSlot(1) for 3600: sleep 10 |  | {\"resources\":[{\"type\":\"slot\",\"count\":1,\"with\":[{\"type\":\"core\",\"count\":1}],\
        \"label\":\"task\"}],\"tasks\":[{\"command\":[\"sleep\",\"10\"],\"slot\":\"task\",\
        \"count\":{\"per_slot\":1}}],\"attributes\":{\"system\":{\"duration\":3600.0,\
        \"cwd\":\"/home/u\",\"environment\":{\"LANG\":\"C\"},\
        \"shell\":{\"options\":{\"rlimit\":{\"nofile\":1024}}}}},\"version\":1}",
    "1 NotJson(no whole number of 64 bits at byte 200) |  | {\"resources\":[{\"type\":\"slot\",\"count\":1,\"with\":[{\"type\":\"core\",\"count\":1}],\
        \"label\":\"task\"}],\"tasks\":[{\"command\":[\"sleep\",\"10\"],\"slot\":\"task\",\
        \"count\":{\"per_slot\":1}}],\"attributes\":{\"system\":{\"duration\":0.5,\
        \"cwd\":\"/home/u\",\"environment\":{\"LANG\":\"C\"},\
        \"shell\":{\"options\":{\"rlimit\":{\"nofile\":1024}}}}},\"version\":1}",
];

/// The slot of the first job.
const SLOT: &str =
    "{\"type\":\"slot\",\"count\":1,\"with\":[{\"type\":\"core\",\"count\":1}],\"label\":\"task\"}";

/// What is told of a job.
fn shown(rt: &HostRuntime, spec: &JobSpec) -> Result<String, Fail> {
    let mut out = format!(in rt.alloc();
        "on {:?} {} {} of {}+{} {:?} for {}:",
        spec.nodes, spec.exclusive, spec.slots, spec.cores, spec.gpus, spec.tasks, spec.duration
    )?;
    for word in spec.command.as_slice() {
        out.push(' ')?;
        out.push_str(
            std::str::from_utf8(word.as_slice())
                .ok()
                .unwrap_or("not UTF-8"),
        )?;
    }
    for need in spec.depends.as_slice() {
        write!(out, "; {:?} {}", need.scheme, need.on)?;
    }
    Ok(out)
}

/// What a text tells: its job, of which a copy is shown, or the fault.
fn told(rt: &HostRuntime, text: &str) -> Result<String, Fail> {
    match read(rt.alloc(), text.as_bytes()) {
        Ok(spec) => {
            let spec = spec.copy()?;
            if spec.text.as_slice() != text.as_bytes() {
                return Ok(String::from_str(rt.alloc(), "the text isn't kept")?);
            }
            shown(rt, &spec)
        }
        Err(fault) => {
            let number = fault.number().ok_or("out of memory")?;
            Ok(format!(in rt.alloc(); "{number} {fault}")?)
        }
    }
}

/// The first job with a thing in a part's place, where that stands first, or the thing alone.
fn edited(rt: &HostRuntime, part: &str, thing: &str) -> Result<String, Fail> {
    let part = if part == "@" { SLOT } else { part };
    let (front, back) = if part.is_empty() {
        ("", "")
    } else {
        J1.split_once(part).ok_or("not there")?
    };
    let text = format!(in rt.alloc(); "{front}{thing}{back}")?;
    Ok(text.replace(rt.alloc(), '@', SLOT)?)
}

/// Whether a row tells rightly of its text.
fn tells(rt: &HostRuntime, row: &str) -> Result<bool, Fail> {
    let (wanted, edit) = row.split_once(" | ").ok_or("no case")?;
    let (part, thing) = edit.split_once(" | ").ok_or("no edit")?;
    let found = told(rt, edited(rt, part, thing)?.as_str())?;
    Ok(found.as_str() == wanted)
}

#[test]
fn jobspecs_are_read_and_refused(rt: HostRuntime) -> Result<(), Fail> {
    for row in &ROWS {
        assert!(rt; tells(&rt, row)?, "{row}");
    }
    assert_eq!(rt; SpecFault::NoMemory.number(), None);
    Ok(())
}
