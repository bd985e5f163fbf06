//! What each step of a run leaves of every instance.
ghost use Rattle.std.specs.Prelude.{◌≡◌, ◌<◌, ◌+◌, ◌↔◌, ◌∷◌, ◌++◌, [], ℕ, Bool, false, length, List, None, Some, IsTrue, slice_get};
ghost use Rattle.std.specs.List.{AllByRecursion as Each, range_with_len};
ghost use Rattle.kvs_rules.specs.Sequence.{EachAfter};
ghost use Rattle.workload.specs.Actors.{are_together};
ghost use Rattle.instance_rules.specs.Family.{MayTick};
ghost use Rattle.answers.specs.Chronicle.{IsOpenCommand, Setup, top};
ghost use Rattle.answers.specs.Legal.{IsLegalEntry, IsLegalIssue};
ghost use Rattle.answers.specs.Whole.{IsEarlierEntry};
ghost use Rattle.answers.specs.declared.chronicle.Entry.{Entry};
ghost use Rattle.answers.specs.declared.chronicle.Entry.TheVariants as entry;
ghost use Rattle.answers.specs.declared.chronicle.Reply.TheVariants as reply;
ghost use Rattle.hierarchy.specs.Births.{Birth, birth_of, births, has_lost_home, is_born, label_of, lives, numbers};
ghost use Rattle.hierarchy.specs.Families.{family_of, left_in, second_in};
ghost use Rattle.hierarchy.specs.Growing.{GoesOn, IsMadeIn, ParentGoes};
ghost use Rattle.hierarchy.specs.Grows.{GrowsByBirth, GrowsByEnds, GrowsByLost, GrowsByOwn, GrowsBySecond, born_to};
ghost use Rattle.hierarchy.specs.Legal.{HasRunGrounds, IsLegalBirth, IsLegalRun};
ghost use Rattle.hierarchy.specs.Own.{own_of, setup_in};

/// Instances have the numbers from 0 on as they are born, so a parent's is below its child's. A
/// child doesn't outlive its parent.
pub fn births_are_numbered()
    ensures numbered { (set : Setup) (c : List Entry) → IsLegalRun set c
        → numbers c ≡ range_with_len 0 (length (numbers c)) }
    ensures born { (set : Setup) (c : List Entry) (i : ℕ) → IsLegalRun set c
        → IsTrue (is_born c i) ↔ (i < length (numbers c)) }
    ensures births { (set : Setup) (c : List Entry) (k : ℕ) → IsLegalRun set c
        → birth_of c (k + 1) ≡ slice_get (births c) k }
    ensures parents { (set : Setup) (c : List Entry) (i : ℕ) (b : Birth) → IsLegalRun set c
        → birth_of c i ≡ Some b → (b.child ≡ i) × (b.parent < i) }
    ensures live { (set : Setup) (c : List Entry) (i : ℕ) (b : Birth) → IsLegalRun set c
        → IsTrue (lives c i) → birth_of c i ≡ Some b → IsTrue (lives c b.parent) }
    ensures top { (set : Setup) (c : List Entry) → IsLegalRun set c → IsTrue (lives c top) }
{}

/// What a living instance makes by itself is legal where it is in its own chronicle, and no other
/// instance sees it.
pub fn an_instance_grows()
    ensures { (set : Setup) (c : List Entry) (i : ℕ) (own : List Entry) → GoesOn set c
        → IsTrue (lives c i) → EachAfter (IsLegalEntry (setup_in set c i)) (own_of set c i) own
        → Each (IsMadeIn set.work.actors (label_of c i)) own → Each IsEarlierEntry own
        → GrowsByOwn set c i own }
{}

/// A second is told to each living instance.
pub fn a_second_grows()
    ensures { (set : Setup) (c : List Entry) (second : ℕ) → GoesOn set c
        → MayTick (family_of set c) (second_in set c) (left_in set c) second
        → ((i : ℕ) → IsTrue (lives c i)
        → IsLegalEntry (setup_in set c i) (own_of set c i) (entry.Ticked second))
        → GrowsBySecond set c second }
{}

/// A child is born, and its parent is told.
pub fn a_birth_grows()
    ensures { (set : Setup) (c : List Entry) (b : Birth) → GoesOn set c
        → IsLegalBirth set c b.child b.parent b.job b.label b.second b.grant
        → IsLegalEntry (setup_in set c b.parent) (own_of set c b.parent) (born_to b)
        → ((i : ℕ) → IsTrue (is_born c i) → are_together (label_of c i) (Some b.label) ≡ false)
        → GrowsByBirth set c b }
{}

/// Instances go, each before its parent, and the parent of the last one is told.
pub fn ends_grow()
    ensures { (set : Setup) (c inner : List Entry) (child parent job : ℕ) (shut : Bool)
        → GoesOn set c
        → Each (ParentGoes (inner ++ entry.Gone child parent job shut ∷ [])) inner
        → EachAfter (HasRunGrounds set) c (inner ++ entry.Gone child parent job shut ∷ [])
        → IsLegalEntry (setup_in set c parent) (own_of set c parent)
        (entry.Gone child top job shut)
        → GrowsByEnds set c (inner ++ entry.Gone child parent job shut ∷ []) child parent job
        shut }
{}

/// What an actor does whose instance has gone, and what it is told, no living instance sees.
pub fn those_left_grow()
    ensures issued { (set : Setup) (c : List Entry) (actor command : ℕ) → GoesOn set c
        → IsTrue (has_lost_home set.work.actors c actor)
        → IsLegalIssue set c (record { actor = actor; command = command })
        → GrowsByLost set c (entry.Issued actor command) }
    ensures told { (set : Setup) (c : List Entry) (actor command : ℕ) → GoesOn set c
        → IsTrue (has_lost_home set.work.actors c actor)
        → IsOpenCommand (record { actor = actor; command = command }) c
        → GrowsByLost set c (entry.Replied actor command reply.Gone None) }
{}
