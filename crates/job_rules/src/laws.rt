//! The laws of units and first fit, each the contract of a function.
ghost use Rattle.std.specs.Prelude.{◌≡◌, ℕ, List, Some, None, ◌↔◌, ◌≤◌, IsSome, ◌&&◌, ◌==◌, not, filter, Contains};
ghost use Rattle.idset.specs.Ids.{has};
ghost use Rattle.job_spec.specs.declared.spec.JobSpec.{JobSpec};
ghost use Rattle.resource_set.specs.declared.node.Node.{Node};
ghost use Rattle.resource_set.specs.Units.{AreApart as ShareNoUnit, IsDifference, LiesIn};
ghost use Rattle.job_spec.specs.Sound.{IsSpec as IsRead};
ghost use Rattle.job_rules.specs.declared.hold.Hold.{Hold};
ghost use Rattle.job_rules.specs.Fits.{AreApart, AreBlockers, AreWithin, CanFit, HaveSlots, IsGrant, IsSpec, IsUnitSet, NeverFits, Satisfies, first_fit, free_of, nodes_of, spread};
ghost use Rattle.job_rules.specs.Worths.{total, wanted, worth};

/// What first fit spreads over hosts has as many slots as are wanted.
pub fn spread_slots_are_as_many_as_wanted()
    ensures { (spec : JobSpec) (wanted : ℕ) (free given : List Node)
        → spread spec wanted free ≡ Some given
        → HaveSlots spec wanted given }
{}

/// What first fit gives is a set of free units that satisfies the job.
pub fn first_fit_gives_free_units_that_satisfy()
    ensures { (spec : JobSpec) (grant given : List Node) (live : List Hold)
        → IsSpec spec → IsGrant grant
        → first_fit spec grant (free_of grant live) ≡ Some given
        → IsUnitSet given × LiesIn given (free_of grant live) × Satisfies spec grant given }
{}

/// First fit gives nothing exactly where no set of free units satisfies the job.
pub fn first_fit_gives_nothing_where_nothing_satisfies()
    ensures { (spec : JobSpec) (grant : List Node) (live : List Hold) → IsSpec spec → IsGrant grant
        → (first_fit spec grant (free_of grant live) ≡ None)
        ↔ (CanFit spec grant (free_of grant live) → ⊥) }
{}

/// Free units satisfy the job exactly where the free hosts bring as much as it asks for.
pub fn units_satisfy_where_hosts_bring_enough()
    ensures { (spec : JobSpec) (grant : List Node) (live : List Hold) → IsSpec spec → IsGrant grant
        → CanFit spec grant (free_of grant live)
        ↔ (wanted spec ≤ total (worth spec grant) (free_of grant live)) }
{}

/// The jobs in a job's way are one list.
pub fn blockers_are_one_list()
    ensures { (spec : JobSpec) (grant : List Node) (live : List Hold) (ids others : List ℕ)
        → AreBlockers spec grant live ids → AreBlockers spec grant live others → ids ≡ others }
{}

/// Without any one of the jobs in a job's way the rest of them leaves room.
pub fn each_blocker_stands_in_the_way()
    ensures { (spec : JobSpec) (grant : List Node) (live : List Hold) (ids : List ℕ) (hold : Hold)
        → AreBlockers spec grant live ids → Contains live hold → Contains ids hold.id
        → CanFit spec grant
        (free_of grant (filter (λ h. has ids h.id && not (h.id == hold.id)) live)) }
{}

/// A jobspec that is read is one.
pub fn jobspecs_that_are_read_are_some()
    ensures { (spec : JobSpec) → IsRead spec → IsSpec spec }
{}

/// What is free of a grant are its units without those of live jobs.
pub fn free_units_are_those_that_are_left()
    ensures { (grant : List Node) (live : List Hold)
        → IsDifference grant (nodes_of live) (free_of grant live) }
{}

/// Hosts that lie within others have no units but theirs.
pub fn hosts_within_others_have_their_units()
    ensures { (part whole : List Node) → AreWithin part whole → LiesIn part whole }
{}

/// Hosts are apart exactly where they have no unit in common.
pub fn hosts_apart_have_no_unit_in_common()
    ensures { (a b : List Node) → AreApart a b ↔ ShareNoUnit a b }
{}

/// First fit gives nothing to a job that never fits.
pub fn what_never_fits_gets_nothing()
    ensures { (spec : JobSpec) (grant : List Node) (live : List Hold) → IsSpec spec → IsGrant grant
        → NeverFits spec grant → first_fit spec grant (free_of grant live) ≡ None }
{}
