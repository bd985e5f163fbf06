//! What the brokers of the top hear of `primary`.
ghost use Rattle.std.specs.Prelude.{◌≡◌, ℕ, List, Some};
ghost use Rattle.kvs_rules.specs.Brokers.{heard};
ghost use Rattle.kvs_rules.specs.Namespaces.{primary};
ghost use Rattle.answers.specs.declared.chronicle.Entry.{Entry};
ghost use Rattle.answers.specs.Chronicle.{Setup, top};
ghost use Rattle.answers.specs.Services.{log_of};
ghost use Rattle.hierarchy.specs.Heard.{HearUpwards, heard_at};
ghost use Rattle.hierarchy.specs.Legal.{IsLegalRun};
ghost use Rattle.hierarchy.specs.Own.{own_of, setup_in};

/// A legal run tells of each broker of the top what the log of the top's service tells: the root of
/// `primary` that it has heard of last. What a broker hears is never older than what it has heard.
pub fn hearings_rise()
    ensures tied { (set : Setup) (c : List Entry) (broker : ℕ) → IsLegalRun set c
        → heard (log_of (setup_in set c top).work top (own_of set c top)) broker primary
        ≡ Some (heard_at c broker) }
    ensures rises { (set : Setup) (c : List Entry) → IsLegalRun set c → HearUpwards set.size c }
{}
