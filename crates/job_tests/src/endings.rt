//! How the commands of jobs end.
use job_spec::JobSpec;
use shells::{Ending, ending};
use std::alloc::Global;
use std::test::Fail;

/// The second at which a command starts, and how it ends: a status and a second, or with a child.
/// Commands are lists of JSON.
const COMMANDS: [(u64, &str); 31] = [
    (5, "0 at 15 | \"sleep\",\"10\""),
    (5, "0 at 5 | \"sleep\",\"0\""),
    (5, "0 at 12 | \"sleep\",\"007\""),
    (5, "0 at 5 | \"sleep\""),
    (5, "0 at 5 | \"sleep\",\"\""),
    (5, "0 at 5 | \"sleep\",\"1s\""),
    (5, "0 at 5 | \"sleep\",\"+1\""),
    (5, "0 at 5 | \"sleep\",\"-1\""),
    (5, "0 at 5 | \"sleep\",\" 1\""),
    (5, "0 at 5 | \"sleep\",\"1\",\"2\""),
    (5, "0 at 5 | \"Sleep\",\"1\""),
    (5, "256 at 5 | \"false\""),
    (5, "0 at 5 | \"false\",\"1\""),
    (5, "0 at 5 | \"true\""),
    (5, "0 at 5 | \"true\",\"false\""),
    (5, "0 at 5 | \"\""),
    (5, "child | \"flux\",\"broker\""),
    (5, "child | \"flux\",\"broker\",\"-q\""),
    (5, "child | \"flux\",\"broker\",\"sleep\",\"1\""),
    (5, "0 at 5 | \"flux\""),
    (5, "0 at 5 | \"flux\",\"brokers\""),
    (5, "0 at 5 | \"broker\",\"flux\""),
    (5, "0 at 5 | \"flux\",\"start\",\"broker\""),
    // The last second stays the last.
    (0, "0 at 9999999999 | \"sleep\",\"9999999999\""),
    (0, "0 at 1 | \"sleep\",\"0000000001\""),
    (0, "0 at 0 | \"sleep\",\"00000000001\""),
    (0, "0 at 0 | \"sleep\",\"10000000000\""),
    (
        18446744073709551613,
        "0 at 18446744073709551614 | \"sleep\",\"1\"",
    ),
    (
        18446744073709551614,
        "0 at 18446744073709551615 | \"sleep\",\"1\"",
    ),
    (
        18446744073709551615,
        "0 at 18446744073709551615 | \"sleep\",\"1\"",
    ),
    (
        18446744073709551615,
        "0 at 18446744073709551615 | \"sleep\",\"9999999999\"",
    ),
];

/// A job of this command.
fn job(alloc: Global, command: &str) -> Result<JobSpec, Fail> {
    let text = format!(in alloc;
        "{{\"resources\":[{{\"type\":\"slot\",\"count\":1,\"with\":[{{\"type\":\"core\",\
            \"count\":1}}],\"label\":\"task\"}}],\"tasks\":[{{\"command\":[{command}],\
            \"slot\":\"task\",\"count\":{{\"per_slot\":1}}}}],\"version\":1}}"
    )?;
    Ok(job_spec::read(alloc, text.as_bytes())?)
}

/// Whether the command of a row ends as that tells, from this second on.
fn ends_as(alloc: Global, row: &str, start: u64) -> Result<bool, Fail> {
    let (wanted, command) = row.split_once(" | ").ok_or("no case")?;
    let found = match ending(&job(alloc, command)?, start) {
        Ending::At { second, status } => format!(in alloc; "{status} at {second}")?,
        Ending::Child => String::from_str(alloc, "child")?,
    };
    Ok(found.as_str() == wanted)
}

#[test]
fn commands_end_as_the_table_says(rt: HostRuntime) -> Result<(), Fail> {
    for (start, row) in &COMMANDS {
        assert!(rt; ends_as(rt.alloc(), row, *start)?, "{row} from {start}");
    }
    Ok(())
}
