//! The resources that a workload gives its instance.
ghost use Rattle.std.specs.Prelude.{◌≡◌, IfOk};
ghost use Rattle.std.specs.List.{list_any};
ghost use Rattle.outcomes.specs.Outcomes.{Gives};
ghost use Rattle.resource_set.specs.Reading.{told, lasting as lasting_r};
ghost use Rattle.resource_set.specs.Valid.{IsR};
ghost use Rattle.resource_set.specs.Writing.{r_text};
ghost use Rattle.workload.specs.Grants.{is_past_grant, is_past_host};

use crate::limits::{MOST_CORES, MOST_GPUS, MOST_HOSTS};
use lists::{Bytes, Copied};
use resource_set::{Node, RFault, Resources, print, read};
use std::alloc::{AllocError, Global};
use std::marker::Model;

/// The resources of the top instance (R, version 1, of Flux RFC 20). Its ranks number the hosts of
/// the grant: they aren't ranks of brokers.
#[derive(Drop)]
pub struct Grant {
    resources: Resources,
}

impl Model for Grant {
    ghost use Rattle.resource_set.specs.declared.node.Resources.{Resources};

    ghost Value = { Resources };

    ghost view = { λ grant. grant.resources };

    ghost use Rattle.resource_set.specs.Valid.{IsR};

    ghost invariant = { λ grant. IsR grant.resources };
}

impl Copied for Grant {
    fn copy(&self) -> Result<Grant, AllocError> {
        Ok(Grant {
            resources: self.resources.copy()?,
        })
    }
}

/// Whether a host has more than 256 cores or 16 GPUs.
fn is_past_host(node: &Node) -> bool
    ensures { result ≡ is_past_host node.now }
{
    MOST_CORES < node.cores.count() || MOST_GPUS < node.gpus.count()
}

/// Whether one of these hosts has more.
fn has_past_host(nodes: &[Node]) -> bool
    ensures { result ≡ list_any is_past_host nodes.now }
{
    nodes.iter().any(|node| is_past_host(node))
}

impl Grant {
    /// The resources that a text tells, or the first fault of the text.
    pub fn read(alloc: Global, text: &[u8]) -> Result<Grant, RFault>
        ensures { Gives lasting_r (λ r. r) result (told text.now) }
    {
        let resources = read(alloc, text)?;
        Ok(Grant { resources })
    }

    /// The resources, whose ranks rise and whose hosts are different.
    pub fn resources(&self) -> &Resources
        ensures value { result.now ≡ self.now }
        ensures valid { IsR self.now }
    {
        &self.resources
    }

    /// The canonical text of the resources.
    pub fn text(&self, alloc: Global) -> Result<Bytes, AllocError>
        ensures { IfOk result (λ text. text ≡ r_text self.now) }
    {
        let text = print(alloc, &self.resources)?;
        Ok(Bytes::from_vec(text))
    }

    /// Whether there are more than 1,024 hosts, or a host with more than 256 cores or 16 GPUs.
    pub fn is_past_limits(&self) -> bool
        ensures { result ≡ is_past_grant self.now }
    {
        let nodes = self.resources.nodes.as_slice();
        MOST_HOSTS < nodes.len() || has_past_host(nodes)
    }
}
