//! How a run grows: what the world that makes it owes at each step.
ghost use Rattle.std.specs.Prelude.{◌≡◌, ◌∷◌, ◌++◌, [], ℕ, Bool, false, List, None, Some, IsTrue, map};
ghost use Rattle.std.specs.List.{AllByRecursion as Each};
ghost use Rattle.kvs_rules.specs.Sequence.{EachAfter};
ghost use Rattle.resource_set.specs.declared.node.Resources.{Resources};
ghost use Rattle.workload.specs.Actors.{are_together};
ghost use Rattle.workload.specs.Laws.{HasOwnLabels};
ghost use Rattle.instance_rules.specs.Family.{MayTick};
ghost use Rattle.answers.specs.Chronicle.{IsOpenCommand, Setup, top};
ghost use Rattle.answers.specs.Legal.{IsLegalEntry, IsLegalIssue};
ghost use Rattle.answers.specs.Stretches.{IsIssueStretch};
ghost use Rattle.answers.specs.Whole.{IsEarlierEntry};
ghost use Rattle.answers.specs.declared.chronicle.Entry.{Entry};
ghost use Rattle.answers.specs.declared.chronicle.Entry.TheVariants as entry;
ghost use Rattle.answers.specs.declared.chronicle.Reply.TheVariants as reply;
ghost use Rattle.hierarchy.specs.Births.{has_lost_home, is_born, label_of, lives};
ghost use Rattle.hierarchy.specs.Families.{family_of, left_in, second_in};
ghost use Rattle.hierarchy.specs.Growing.{GoesOn, GoesOnBy, GrowsBy, IsMadeIn, ParentGoes, StartsNothing};
ghost use Rattle.hierarchy.specs.Legal.{HasRunGrounds, HasRunRest, IsLegalBirth, IsLegalRunEntry, RunRestsFirst};
ghost use Rattle.hierarchy.specs.Own.{child_setup, own_of, setup_in};
ghost use Rattle.hierarchy.specs.Stretches.{entered_in};

/// A run in which nothing has happened goes on.
pub fn a_run_begins()
    ensures { (set : Setup) → GoesOn set [] }
{}

/// What a living instance makes by itself is legal in the run where it is legal in its own
/// chronicle. It is seen by no other instance.
pub fn what_an_instance_makes_is_legal()
    ensures { (set : Setup) (c : List Entry) (i : ℕ) (own : List Entry) → GoesOn set c
        → IsTrue (lives c i) → EachAfter (IsLegalEntry (setup_in set c i)) (own_of set c i) own
        → Each (IsMadeIn set.work.actors (label_of c i)) own → Each IsEarlierEntry own
        → GrowsBy set c i own }
{}

/// A run that rests where an instance issues a command stays settled, and so does one where nothing
/// is issued and time stands.
pub fn a_run_stays_settled()
    ensures issues { (set : Setup) (c : List Entry) (i actor : ℕ) (own : List Entry)
        → HasRunRest set c → IsIssueStretch (setup_in set c i).work actor own
        → EachAfter (RunRestsFirst set) c (map (entered_in i) own) }
    ensures others { (set : Setup) (c more : List Entry) → Each StartsNothing more
        → EachAfter (RunRestsFirst set) c more }
{}

/// Time goes on to a second where the family lets it and each living instance does.
pub fn a_second_is_legal()
    ensures { (set : Setup) (c : List Entry) (second : ℕ) → GoesOn set c
        → MayTick (family_of set c) (second_in set c) (left_in set c) second
        → ((i : ℕ) → IsTrue (lives c i)
        → IsLegalEntry (setup_in set c i) (own_of set c i) (entry.Ticked second))
        → GoesOnBy set c (entry.Ticked second) }
{}

/// A child is born where its birth is due, which its parent is told, and its label is no other's.
/// Nothing has happened to it then.
pub fn a_birth_is_legal()
    ensures legal { (set : Setup) (c : List Entry) (child parent job : ℕ) (label : List ℕ)
        (second : ℕ) (grant : Resources) → GoesOn set c
        → IsLegalBirth set c child parent job label second grant
        → IsLegalEntry (setup_in set c parent) (own_of set c parent)
        (entry.Born child top job label second grant)
        → ((i : ℕ) → IsTrue (is_born c i) → are_together (label_of c i) (Some label) ≡ false)
        → GoesOnBy set c (entry.Born child parent job label second grant) }
    ensures begins { (set : Setup) (c : List Entry) (child parent job : ℕ) (label : List ℕ)
        (second : ℕ) (grant : Resources) → GoesOn set c
        → IsLegalBirth set c child parent job label second grant
        → own_of set (c ++ entry.Born child parent job label second grant ∷ []) child ≡ [] }
    ensures given { (set : Setup) (c : List Entry) (child parent job : ℕ) (label : List ℕ)
        (second : ℕ) (grant : Resources) → GoesOn set c
        → IsLegalBirth set c child parent job label second grant
        → setup_in set (c ++ entry.Born child parent job label second grant ∷ []) child
        ≡ child_setup set (record {
          child = child;
          parent = parent;
          job = job;
          label = label;
          second = second;
          grant = grant;
        }) }
{}

/// Where no two lines submit under one label, a birth has a label that no other one had.
pub fn a_birth_has_a_new_label()
    ensures { (set : Setup) (c : List Entry) (child parent job : ℕ) (label : List ℕ) (second : ℕ)
        (grant : Resources) (i : ℕ) → GoesOn set c
        → IsLegalBirth set c child parent job label second grant
        → HasOwnLabels set.work.lines → IsTrue (is_born c i)
        → are_together (label_of c i) (Some label) ≡ false }
{}

/// An instance goes with all within it, each before its parent, where the parent of the last one is
/// told.
pub fn ends_are_legal()
    ensures legal { (set : Setup) (c inner : List Entry) (child parent job : ℕ) (shut : Bool)
        → GoesOn set c
        → Each (ParentGoes (inner ++ entry.Gone child parent job shut ∷ [])) inner
        → EachAfter (HasRunGrounds set) c (inner ++ entry.Gone child parent job shut ∷ [])
        → IsLegalEntry (setup_in set c parent) (own_of set c parent)
        (entry.Gone child top job shut)
        → EachAfter (IsLegalRunEntry set) c (inner ++ entry.Gone child parent job shut ∷ []) }
    ensures goes_on { (set : Setup) (c inner : List Entry) (child parent job : ℕ) (shut : Bool)
        → GoesOn set c
        → Each (ParentGoes (inner ++ entry.Gone child parent job shut ∷ [])) inner
        → EachAfter (HasRunGrounds set) c (inner ++ entry.Gone child parent job shut ∷ [])
        → IsLegalEntry (setup_in set c parent) (own_of set c parent)
        (entry.Gone child top job shut)
        → GoesOn set (c ++ (inner ++ entry.Gone child parent job shut ∷ [])) }
{}

/// An actor whose instance has gone issues its commands, and is told of each that the instance has
/// gone.
pub fn those_left_are_told()
    ensures issued { (set : Setup) (c : List Entry) (actor command : ℕ) → GoesOn set c
        → IsTrue (has_lost_home set.work.actors c actor)
        → IsLegalIssue set c (record { actor = actor; command = command })
        → GoesOnBy set c (entry.Issued actor command) }
    ensures told { (set : Setup) (c : List Entry) (actor command : ℕ) → GoesOn set c
        → IsTrue (has_lost_home set.work.actors c actor)
        → IsOpenCommand (record { actor = actor; command = command }) c
        → GoesOnBy set c (entry.Replied actor command reply.Gone None) }
{}
