//! Who is in the family of a run, and whose its actors are.
ghost use Rattle.std.specs.Prelude.{◌≡◌, ℕ, Contains, IsTrue, List, false};
ghost use Rattle.manager_rules.specs.Times.{IsIdle};
ghost use Rattle.instance_rules.specs.Family.{AreNumbered, IsEndOf, IsFamilyIdle, Living};
ghost use Rattle.instance_rules.specs.Legal.{OfDesk};
ghost use Rattle.answers.specs.Chronicle.{Setup};
ghost use Rattle.answers.specs.Jobs.{instance_of, log_in};
ghost use Rattle.answers.specs.declared.chronicle.Entry.{Entry};
ghost use Rattle.hierarchy.specs.Births.{has_home, has_living_home, has_lost_home, is_at, is_born, is_gone, label_of, lives};
ghost use Rattle.hierarchy.specs.Families.{family_of, living_in};
ghost use Rattle.hierarchy.specs.Growing.{GoesOn};
ghost use Rattle.hierarchy.specs.Own.{own_of, setup_in};

/// The family has each instance that lives, and nobody else, each by its number.
pub fn the_family_is_who_lives()
    ensures has { (set : Setup) (c : List Entry) (i : ℕ) → IsTrue (lives c i)
        → Contains (family_of set c) (living_in set c i) }
    ensures only { (set : Setup) (c : List Entry) (l : Living) → Contains (family_of set c) l
        → IsTrue (lives c l.number) × (l ≡ living_in set c l.number) }
    ensures numbered { (set : Setup) (c : List Entry) → AreNumbered (family_of set c) }
{}

/// The family is idle where each living instance is and no end is due.
pub fn a_family_is_idle_with_its_instances()
    ensures { (set : Setup) (c : List Entry)
        → ((i : ℕ) → IsTrue (lives c i)
        → OfDesk (instance_of (setup_in set c i))
        (log_in (setup_in set c i).work (own_of set c i)) IsIdle)
        → ((l : Living) → Contains (family_of set c) l → IsEndOf (family_of set c) l → ⊥)
        → IsFamilyIdle (family_of set c) }
{}

/// An actor is of at most one instance, which lives or has gone, or of none that was born.
pub fn each_actor_has_at_most_one_home()
    ensures one { (set : Setup) (c : List Entry) (i k actor : ℕ) → GoesOn set c
        → IsTrue (is_born c i) → IsTrue (is_born c k)
        → IsTrue (is_at set.work.actors (label_of c i) actor)
        → IsTrue (is_at set.work.actors (label_of c k) actor) → i ≡ k }
    ensures living { (set : Setup) (c : List Entry) (i actor : ℕ) → IsTrue (lives c i)
        → IsTrue (is_at set.work.actors (label_of c i) actor)
        → IsTrue (has_living_home set.work.actors c actor) }
    ensures lost { (set : Setup) (c : List Entry) (i actor : ℕ) → GoesOn set c
        → IsTrue (is_gone c i) → IsTrue (is_at set.work.actors (label_of c i) actor)
        → IsTrue (has_lost_home set.work.actors c actor) }
    ensures left { (set : Setup) (c : List Entry) (actor : ℕ)
        → IsTrue (has_lost_home set.work.actors c actor)
        → (i : ℕ) × IsTrue (is_gone c i) × IsTrue (is_at set.work.actors (label_of c i) actor) }
    ensures unborn { (set : Setup) (c : List Entry) (actor : ℕ)
        → ((i : ℕ) → IsTrue (is_born c i)
        → is_at set.work.actors (label_of c i) actor ≡ false)
        → has_home set.work.actors c actor ≡ false }
{}
