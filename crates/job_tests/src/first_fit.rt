//! How much is free in each rack of a large grant.
ghost use Rattle.std.specs.Prelude.{IsTrue};
ghost use Rattle.job_rules.specs.Fits.{IsSpec};
ghost use Rattle.graph_match.specs.Answers.{Answers};
ghost use Rattle.graph_match.specs.Holds.{IsNew};

use graph_match::{Fit, Free, Graph};
use job_spec::{JobSpec, Needs, Tasks, WordList};
use lists::Bytes;
use resource_set::read;
use std::alloc::{AllocError, Global};
use std::process::Abort;
use std::test::Fail;

/// A job of one core, or of so many whole hosts.
fn spec(alloc: Global, nodes: Option<u32>) -> JobSpec {
    JobSpec {
        nodes,
        exclusive: nodes.is_some(),
        slots: 1,
        cores: 1,
        gpus: 0,
        command: WordList::new(alloc),
        tasks: Tasks::PerSlot(1),
        duration: 0,
        depends: Needs::new(alloc),
        text: Bytes::new(alloc),
    }
}

/// Whether a graph may be asked with it.
fn is_spec(spec: &JobSpec) -> bool
    ensures { IsTrue result → IsSpec spec.now }
{
    let slots = 1 <= spec.slots && spec.slots <= 65_536;
    let units = 1 <= spec.cores && spec.cores <= 65_536 && spec.gpus <= 65_536;
    slots && units && 1 <= spec.nodes.unwrap_or(1)
}

/// Lets a job hold the units that it was answered.
fn hold(graph: &mut Graph, spec: &JobSpec, id: u64, fit: Fit) -> Result<(), AllocError>
    requires answer { Answers graph.old spec.now 7 fit }
    requires new { IsNew id graph.old.live }
{
    match fit {
        Fit::Units(units) => graph.take(id, &units),
        Fit::Busy(_list) => Ok(()),
        Fit::Never => Ok(()),
    }
}

/// A grant of 1,024 hosts with 4 cores each.
const LARGE: &str = concat!(
    r#"{"version":1,"execution":{"R_lite":[{"rank":"0-1023","children":{"core":"0-3"}}],"#,
    r#""starttime":0,"expiration":0,"nodelist":["node[0-1023]"]}}"#
);

/// Lets a job hold what a graph has for it.
fn run(
    rt: &impl Abort,
    alloc: Global,
    graph: &mut Graph,
    id: u64,
    nodes: Option<u32>,
) -> Result<(), AllocError> {
    let spec = spec(alloc, nodes);
    assert!(rt; is_spec(&spec));
    assert!(rt; !graph.give(id));
    let fit = graph.fit(&spec, 7)?;
    hold(graph, &spec, id, fit)
}

const fn cores(count: u64) -> Option<Free> {
    Some(Free {
        cores: count,
        gpus: 0,
    })
}

#[test]
fn what_is_free_in_a_rack_is_counted(rt: HostRuntime) -> Result<(), Fail> {
    let alloc = rt.alloc();
    let Ok(of) = read(alloc, LARGE.as_bytes()) else {
        return Err(Fail::from("no R"));
    };
    let mut graph = Graph::new(alloc, &of)?;
    assert_eq!(rt; graph.rack_free(0), cores(128));
    run(&rt, alloc, &mut graph, 1, Some(1023))?;
    assert_eq!(rt; graph.rack_free(0), cores(0));
    assert_eq!(rt; graph.rack_free(31), cores(4));
    assert_eq!(rt; graph.rack_free(32), None);
    run(&rt, alloc, &mut graph, 2, None)?;
    assert_eq!(rt; graph.rack_free(31), cores(3));
    assert!(rt; graph.give(1));
    assert!(rt; !graph.give(1));
    assert_eq!(rt; graph.rack_free(31), cores(127));
    Ok(())
}
