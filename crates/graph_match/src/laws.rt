//! What the units are that a job is given.
ghost use Rattle.std.specs.Prelude.{◌≡◌, ℕ};
ghost use Rattle.job_rules.specs.Fits.{IsGrant, IsSpec, IsUnitSet, Satisfies, free_of};
ghost use Rattle.job_spec.specs.declared.spec.JobSpec.{JobSpec};
ghost use Rattle.resource_set.specs.Units.{LiesIn};
ghost use Rattle.resource_set.specs.Valid.{IsR};
ghost use Rattle.resource_set.specs.declared.node.Resources.{Resources};
ghost use Rattle.graph_match.specs.Allotment.{Allotment};
ghost use Rattle.graph_match.specs.Answers.{AreFirstFit};

/// The units that a job is given are free, they satisfy it, and none stands twice.
pub fn given_units_satisfy()
    ensures set { (g : Allotment) (spec : JobSpec) (now : ℕ) (r : Resources) → IsSpec spec
        → IsGrant g.grant → AreFirstFit g spec now r → IsUnitSet r.nodes }
    ensures free { (g : Allotment) (spec : JobSpec) (now : ℕ) (r : Resources) → IsSpec spec
        → IsGrant g.grant → AreFirstFit g spec now r → LiesIn r.nodes (free_of g.grant g.live) }
    ensures satisfied { (g : Allotment) (spec : JobSpec) (now : ℕ) (r : Resources) → IsSpec spec
        → IsGrant g.grant → AreFirstFit g spec now r → Satisfies spec g.grant r.nodes }
{}

/// Of a grant that an R tells, they are an R, which prints and is read again.
pub fn given_units_are_an_r()
    ensures { (g : Allotment) (grant : Resources) (spec : JobSpec) (now : ℕ) (r : Resources)
        → IsR grant → g.grant ≡ grant.nodes → AreFirstFit g spec now r → IsR r }
{}
