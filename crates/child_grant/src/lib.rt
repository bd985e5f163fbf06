//! The resources of a child instance: those of the job that starts it, at ranks from 0 on (Flux RFC
//! 20).
#![tactic(auto)]

ghost use Rattle.std.specs.Prelude.{◌≡◌, IfOk};
ghost use Rattle.resource_set.specs.Units.{units_of};
ghost use Rattle.resource_set.specs.Valid.{IsR};
ghost use Rattle.child_grant.specs.Child.{numbered};

use lists::Copied;
use resource_set::{Node, NodeList, Resources};
use std::alloc::{AllocError, Global};

/// A host at another rank.
fn at_rank(node: &Node, rank: u32) -> Result<Node, AllocError>
    ensures { IfOk result (λ moved. moved ≡ record node.now { rank = rank }) }
{
    Ok(Node {
        rank,
        host: node.host.copy()?,
        cores: node.cores.copy()?,
        gpus: node.gpus.copy()?,
    })
}

/// The resources of a child of the job that has these: its hosts in their order at the ranks from 0
/// on, with their cores and GPUs, from the same second on and until the same.
pub fn child(alloc: Global, r: &Resources) -> Result<Resources, AllocError>
    requires { IsR r.now }
    ensures value { IfOk result (λ granted. granted
        ≡ record r.now { nodes = numbered 0 r.now.nodes }) }
    ensures units { IfOk result (λ granted. units_of granted.nodes ≡ units_of r.now.nodes) }
    ensures valid { IfOk result IsR }
{
    let mut nodes = NodeList::new(alloc);
    let mut rank = 0;
    for node in r.nodes.as_slice() {
        nodes.push(at_rank(node, rank)?)?;
        rank += 1;
    }
    Ok(Resources {
        nodes,
        starttime: r.starttime,
        expiration: r.expiration,
    })
}
