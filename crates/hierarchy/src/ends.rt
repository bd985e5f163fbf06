//! How an instance goes with all within it.
ghost use Rattle.std.specs.Prelude.{◌≡◌, ◌↔◌, ℕ, Bool, Contains, length, List, Some, IsTrue};
ghost use Rattle.instance_rules.specs.Family.{IsEndOf, LiesIn};
ghost use Rattle.answers.specs.Chronicle.{Setup, top};
ghost use Rattle.answers.specs.Legal.{IsLegalEntry};
ghost use Rattle.answers.specs.declared.chronicle.Entry.{Entry};
ghost use Rattle.answers.specs.declared.chronicle.Entry.TheVariants as entry;
ghost use Rattle.hierarchy.specs.Births.{Birth, birth_of, lives, numbers};
ghost use Rattle.hierarchy.specs.Families.{family_of, living_in};
ghost use Rattle.hierarchy.specs.Growing.{GoesOn};
ghost use Rattle.hierarchy.specs.Inside.{AreMarked, GoesWithAll, inside_of, marked_below};
ghost use Rattle.hierarchy.specs.Legal.{IsLegalRun};
ghost use Rattle.hierarchy.specs.Own.{own_of, setup_in};

/// The instances found within one that lives are exactly the living ones that lie within it.
pub fn those_inside_lie_within()
    ensures { (set : Setup) (c : List Entry) (child k : ℕ) → IsLegalRun set c
        → IsTrue (lives c child) → Contains (inside_of c child) k
        ↔ (IsTrue (lives c k) × LiesIn (family_of set c) child k) }
{}

/// A pass over all numbers upwards that marks who lives and has a marked parent, and one downwards
/// over those that are marked, finds the same ones in the same order.
pub fn marks_find_those_inside()
    ensures { (set : Setup) (c : List Entry) (child : ℕ) (marked : ℕ → Bool) → IsLegalRun set c
        → IsTrue (lives c child) → AreMarked c child marked
        → inside_of c child ≡ marked_below marked (length (numbers c)) }
{}

/// Where the end of a living instance is due, and its parent can be told, the ends of all within it
/// and its own may follow, each before that of its parent.
pub fn an_instance_goes_with_all_within()
    ensures { (set : Setup) (c : List Entry) (b : Birth) → GoesOn set c → IsTrue (lives c b.child)
        → birth_of c b.child ≡ Some b → IsEndOf (family_of set c) (living_in set c b.child)
        → IsLegalEntry (setup_in set c b.parent) (own_of set c b.parent)
        (entry.Gone b.child top b.job (living_in set c b.child).shuts)
        → GoesWithAll set c b }
{}
