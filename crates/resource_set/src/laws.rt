//! What the entries of a canonical R tell of its hosts.
ghost use Rattle.std.specs.Prelude.{◌≡◌, ◌<◌, List, length, map, All};
ghost use Rattle.std.specs.List.{AllPairs};
ghost use Rattle.std.specs.List.Sorted.{IsStrictlyIncreasing};
ghost use Rattle.resource_set.specs.declared.node.Node.{Node};
ghost use Rattle.resource_set.specs.Canonical.{HaveOtherChildren, StandsInOne, first_rank};
ghost use Rattle.resource_set.specs.Reading.{ranks_of};
ghost use Rattle.resource_set.specs.Units.{AreHosts};
ghost use Rattle.resource_set.specs.Writing.{entries_of};

/// No two entries have the same cores and GPUs.
pub fn entries_have_different_children()
    ensures { (nodes : List Node) → AllPairs HaveOtherChildren (entries_of nodes) }
{}

/// The ranks of an entry rise, and entries stand in the order of their first ranks.
pub fn entries_stand_in_the_order_of_ranks()
    ensures some { (nodes : List Node) → AreHosts nodes
        → All (λ entry. 0 < length entry.ranks) (entries_of nodes) }
    ensures rising { (nodes : List Node) → AreHosts nodes
        → All (λ entry. IsStrictlyIncreasing entry.ranks) (entries_of nodes) }
    ensures order { (nodes : List Node) → AreHosts nodes
        → IsStrictlyIncreasing (map first_rank (entries_of nodes)) }
{}

/// Each host stands in exactly one entry, that of its cores and GPUs, and entries have the ranks of
/// hosts alone.
pub fn each_host_stands_in_one_entry()
    ensures one { (nodes : List Node) → AreHosts nodes
        → All (StandsInOne (entries_of nodes)) nodes }
    ensures no_other { (nodes : List Node) → AreHosts nodes
        → ranks_of (entries_of nodes) ≡ map (λ node. node.rank) nodes }
{}
