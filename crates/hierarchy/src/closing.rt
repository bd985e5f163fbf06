//! How a run comes to rest, and how it ends.
ghost use Rattle.std.specs.Prelude.{◌≡◌, ◌==◌, ◌∷◌, ◌++◌, [], ℕ, Contains, IsTrue, List, count_by, if◌then◌else◌, length, nat_lt};
ghost use Rattle.kvs_rules.specs.Sequence.{EachAfter};
ghost use Rattle.kvs_txn.specs.declared.txn.By.{By};
ghost use Rattle.instance_rules.specs.Family.{IsEndOf, Living};
ghost use Rattle.workload.specs.declared.work.Workload.{Workload};
ghost use Rattle.answers.specs.Chronicle.{IsOpenCommand, Setup, replies_to};
ghost use Rattle.answers.specs.Commands.{commands_of};
ghost use Rattle.answers.specs.Legal.{HasSettled};
ghost use Rattle.answers.specs.declared.chronicle.Entry.{Entry};
ghost use Rattle.answers.specs.declared.chronicle.Entry.TheVariants as entry;
ghost use Rattle.answers.specs.declared.steps.Step.TheVariants as step;
ghost use Rattle.hierarchy.specs.Births.{has_lost_home, lives};
ghost use Rattle.hierarchy.specs.Closing.{IsAnswered, MayEnd, Part, run_closings};
ghost use Rattle.hierarchy.specs.Families.{family_of, left_in};
ghost use Rattle.hierarchy.specs.Growing.{GoesOn};
ghost use Rattle.hierarchy.specs.Legal.{HasRunRest, IsLegalRunEntry};
ghost use Rattle.hierarchy.specs.Own.{own_of, setup_in};
ghost use Rattle.hierarchy.specs.Stretches.{IsRunStretch};
ghost use Rattle.hierarchy.specs.Whole.{IsWholeRun};

/// A run rests where each living instance has settled, no command is open of an actor whose
/// instance has gone, and no end is due.
pub fn a_run_rests_with_its_instances()
    ensures { (set : Setup) (c : List Entry) → GoesOn set c
        → ((i : ℕ) → IsTrue (lives c i) → HasSettled (setup_in set c i) (own_of set c i))
        → ((by : By) → IsTrue (has_lost_home set.work.actors c by.actor)
        → IsOpenCommand by c → ⊥)
        → ((l : Living) → Contains (family_of set c) l → IsEndOf (family_of set c) l → ⊥)
        → HasRunRest set c }
{}

/// Where no command of an actor is open whose instance has gone, no advance is left behind.
pub fn answered_actors_leave_no_advance()
    ensures { (set : Setup) (c : List Entry)
        → ((by : By) → IsTrue (has_lost_home set.work.actors c by.actor)
        → IsOpenCommand by c → ⊥)
        → left_in set c ≡ [] }
{}

/// An actor has as many commands as lines.
pub fn an_actor_has_as_many_commands_as_lines()
    ensures { (work : Workload) (actor : ℕ) → length (commands_of work actor)
        ≡ count_by (λ line. line.actor == actor) work.lines }
{}

/// An actor is answered where so many of its first commands as it has have each their one reply.
pub fn replies_to_all_commands_answer_an_actor()
    ensures { (set : Setup) (c : List Entry) (actor : ℕ)
        → ((k : ℕ) → count_by (replies_to (record { actor = actor; command = k })) c
        ≡ (if nat_lt k (length (commands_of set.work actor)) then 1 else 0))
        → IsAnswered set c actor }
{}

/// The closing replies that the living instances leave, and those to actors whose instances were
/// never born, are legal in the run, and with the end behind them they make it whole.
pub fn closing_replies_make_a_run_whole()
    ensures legal { (set : Setup) (c : List Entry) (parts : List Part) → MayEnd set c parts
        → EachAfter (IsLegalRunEntry set) c (run_closings set c parts ++ entry.Closed ∷ []) }
    ensures whole { (set : Setup) (c : List Entry) (parts : List Part) → MayEnd set c parts
        → IsWholeRun set (c ++ run_closings set c parts ++ entry.Closed ∷ []) }
    ensures made { (set : Setup) (c : List Entry) (parts : List Part) → MayEnd set c parts
        → IsRunStretch set c step.Close (run_closings set c parts ++ entry.Closed ∷ []) }
{}
