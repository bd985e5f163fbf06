//! The resources of a run: those of its workload, or one host for each broker.
ghost use Rattle.std.specs.Prelude.{◌≡◌, ◌≤◌, IfOk};
ghost use Rattle.instance.specs.resource_set.Valid.{IsR};
ghost use Rattle.homes.specs.Grant.{host_at, hosts_of_brokers};

use instance::idset::IdSet;
use instance::lists::Bytes;
use instance::resource_set::{Node, NodeList, Resources};
use std::alloc::{AllocError, Global};

/// The host of a broker: `node0` and so on, with the cores 0 to 3.
fn host_at(alloc: Global, rank: u32) -> Result<Node, AllocError>
    ensures { IfOk result (λ node. node ≡ host_at rank) }
{
    let name = format!(in alloc; "node{rank}")?;
    Ok(Node {
        rank,
        host: Bytes::of(alloc, name.as_bytes())?,
        cores: IdSet::of_range(alloc, 0, 3)?,
        gpus: IdSet::new(alloc),
    })
}

/// One host for each broker.
pub fn hosts_of_brokers(alloc: Global, size: u32) -> Result<Resources, AllocError>
    requires { size ≤ 32 }
    ensures value { IfOk result (λ r. r ≡ hosts_of_brokers size) }
    ensures valid { IfOk result IsR }
{
    let mut nodes = NodeList::new(alloc);
    for rank in 0..size {
        nodes.push(host_at(alloc, rank)?)?;
    }
    Ok(Resources {
        nodes,
        starttime: 0,
        expiration: 0,
    })
}
