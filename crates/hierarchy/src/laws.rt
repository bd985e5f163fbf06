//! The laws of runs, each the contract of a function.
ghost use Rattle.std.specs.Prelude.{◌≡◌, ◌+◌, ◌≤◌, ◌↔◌, ℕ, List, [], ◌∷◌, ◌++◌, All, IsTrue, false};
ghost use Rattle.std.specs.List.{AllByRecursion as Each};
ghost use Rattle.instance_rules.specs.Family.{AreNested, MayClose, MayTick};
ghost use Rattle.instance_rules.specs.Legal.{IsSound};
ghost use Rattle.run_laws.specs.Jobs.{JobsStaySound, LogsOnlyGrow};
ghost use Rattle.run_laws.specs.Times.{HasTime, KeepsTime, seconds_issued};
ghost use Rattle.workload.specs.Laws.{HasOwnLabels};
ghost use Rattle.workload.specs.Tallies.{seconds_in};
ghost use Rattle.answers.specs.declared.chronicle.Entry.{Entry};
ghost use Rattle.answers.specs.Chronicle.{Setup};
ghost use Rattle.answers.specs.Jobs.{instance_of, log_in, second_of, start_of};
ghost use Rattle.answers.specs.Legal.{IsLegal, IsSettled};
ghost use Rattle.answers.specs.Runs.{IsFamilySettled, IsInTime, family_of as alone_in};
ghost use Rattle.answers.specs.Whole.{IsWhole};
ghost use Rattle.hierarchy.specs.Births.{births, is_gone, lives};
ghost use Rattle.hierarchy.specs.Families.{family_of, left_in, second_in};
ghost use Rattle.hierarchy.specs.Laws.{AreValid, IsChildless, IsKept, IsOfOthers, IsOfTop};
ghost use Rattle.hierarchy.specs.Legal.{AreOwnLegal, IsLegalRun, IsSettledRun, is_end};
ghost use Rattle.hierarchy.specs.Own.{own_of, setup_in};
ghost use Rattle.hierarchy.specs.Promises.{ChildrenStayNested, JobsFollowInAll, JobsStaySoundInAll, LogsGrowInAll, WatchesSeeTheirLogsInAll};
ghost use Rattle.hierarchy.specs.Whole.{IsWholeRun};

/// Where all actors are of the top and nothing is born, a run is legal, whole and settled exactly
/// where its one instance is and the run goes in time and may end.
pub fn a_run_without_children_is_of_one_instance()
    ensures legal { (set : Setup) (c : List Entry) → IsOfTop set → IsChildless c
        → IsLegalRun set c ↔ (IsLegal set c × IsInTime set c) }
    ensures whole { (set : Setup) (c : List Entry) → IsOfTop set → IsChildless c → IsLegalRun set c
        → IsWholeRun set c ↔ (IsWhole set c × MayClose (alone_in set c) []) }
    ensures settled { (set : Setup) (c : List Entry) → IsOfTop set → IsChildless c
        → IsLegalRun set c → IsSettledRun set c ↔ (IsSettled set c × IsFamilySettled set c) }
{}

/// Once an instance has gone, its own chronicle has ended, and nothing about it happens any more.
pub fn what_has_gone_stays_gone()
    ensures ended { (set : Setup) (c more : List Entry) (i : ℕ) → IsLegalRun set (c ++ more)
        → IsTrue (is_gone c i) → own_of set (c ++ more) i ≡ own_of set c i }
    ensures quiet { (set : Setup) (c more : List Entry) (i : ℕ) → IsLegalRun set (c ++ more)
        → IsTrue (is_gone c i) → Each (IsOfOthers i) more }
{}

/// After each entry of a legal run, each living instance has its store of `primary`, whose logs
/// replay and whose live jobs stand well in its grant (Flux RFC 21).
pub fn jobs_stay_sound_in_all()
    ensures { (set : Setup) (c : List Entry) (i : ℕ) → IsLegalRun set c → IsTrue (lives c i)
        → IsKept set c i
        → IsSound (instance_of (setup_in set c i))
        (log_in (setup_in set c i).work (own_of set c i)) }
{}

/// Behind an entry that is no end, jobs have stayed sound along the own chronicle of each living
/// instance, and their logs have only grown (Flux RFC 18).
pub fn logs_only_grow_in_all()
    ensures sound { (set : Setup) (c : List Entry) (e : Entry) (i : ℕ)
        → IsLegalRun set (c ++ e ∷ []) → is_end e ≡ false → IsTrue (lives (c ++ e ∷ []) i)
        → IsKept set (c ++ e ∷ []) i
        → JobsStaySound (setup_in set (c ++ e ∷ []) i) (own_of set (c ++ e ∷ []) i) }
    ensures grows { (set : Setup) (c : List Entry) (e : Entry) (i : ℕ)
        → IsLegalRun set (c ++ e ∷ []) → is_end e ≡ false → IsTrue (lives (c ++ e ∷ []) i)
        → IsKept set (c ++ e ∷ []) i
        → LogsOnlyGrow (setup_in set (c ++ e ∷ []) i) (own_of set (c ++ e ∷ []) i) }
{}

/// After each entry of a legal run, the grant of each living child has the units of the resources
/// of a live job of its living parent (Flux RFC 20).
pub fn children_stay_nested()
    ensures { (set : Setup) (c : List Entry) → IsLegalRun set c
        → ((i : ℕ) → IsTrue (lives c i) → IsKept set c i) → AreNested (family_of set c) }
{}

/// Time goes no further than the advances that a run has issued let it, and each of these is one
/// line of its workload. All living instances have one second, and each birth was at one not above
/// it. So the seconds of all have their place in 64 bits, where those of the lines have.
pub fn time_stays_within_the_run()
    ensures issued { (set : Setup) (c : List Entry) → IsLegalRun set c
        → second_in set c ≤ start_of set + seconds_issued set.work c }
    ensures within { (set : Setup) (c : List Entry) → IsLegalRun set c
        → second_in set c ≤ start_of set + seconds_in set.work.lines }
    ensures next { (set : Setup) (c : List Entry) (second : ℕ) → IsLegalRun set c
        → MayTick (family_of set c) (second_in set c) (left_in set c) second
        → second ≤ start_of set + seconds_issued set.work c }
    ensures reaches { (set : Setup) (c : List Entry) (second : ℕ) → IsLegalRun set c
        → MayTick (family_of set c) (second_in set c) (left_in set c) second
        → second ≤ start_of set + seconds_in set.work.lines }
    ensures shared { (set : Setup) (c : List Entry) (i : ℕ) → IsLegalRun set c
        → IsTrue (lives c i) → second_of (setup_in set c i) (own_of set c i) ≡ second_in set c }
    ensures births { (set : Setup) (c : List Entry) → IsLegalRun set c
        → All (λ b. b.second ≤ second_in set c) (births c) }
    ensures kept { (set : Setup) (c : List Entry) (i : ℕ) → HasTime set → IsLegalRun set c
        → IsTrue (lives c i) → KeepsTime (setup_in set c i) (own_of set c i) }
{}

/// All the way through a legal run jobs stay sound in each living instance, children stay nested in
/// their parents, logs only grow, what later roots tell of jobs follows from what earlier ones
/// told, and each watch is fed the log of its job, where no two submissions have one label: where
/// what each instance is given is within its ranges, and the seconds of all have their place in 64
/// bits.
pub fn a_run_stays_sound()
    ensures sound { (set : Setup) (c : List Entry) → HasTime set → AreValid set c
        → IsLegalRun set c → JobsStaySoundInAll set c }
    ensures nested { (set : Setup) (c : List Entry) → HasTime set → AreValid set c
        → IsLegalRun set c → ChildrenStayNested set c }
    ensures grows { (set : Setup) (c : List Entry) → HasTime set → AreValid set c
        → IsLegalRun set c → LogsGrowInAll set c }
    ensures follows { (set : Setup) (c : List Entry) → HasTime set → AreValid set c
        → IsLegalRun set c → JobsFollowInAll set c }
    ensures fed { (set : Setup) (c : List Entry) → HasTime set → AreValid set c
        → HasOwnLabels set.work.lines → IsLegalRun set c → WatchesSeeTheirLogsInAll set c }
{}

/// At the end of a run the own chronicle of each living instance is legal.
pub fn a_whole_run_is_legal_in_all()
    ensures { (set : Setup) (c : List Entry) → IsLegalRun set c → IsWholeRun set c
        → AreOwnLegal set c }
{}
