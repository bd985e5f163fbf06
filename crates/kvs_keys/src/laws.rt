//! What follows from the words of the contracts.
ghost use Rattle.std.specs.Prelude.{◌≡◌, ◌++◌, ◌∷◌, List, []};
ghost use Rattle.std.specs.List.{AllByRecursion as Each};
ghost use Rattle.kvs_txn.specs.declared.txn.Group.{Group};
ghost use Rattle.kvs_rules.specs.declared.events.KvsEvent.{KvsEvent};
ghost use Rattle.kvs_rules.specs.Log.{Log, Moment};
ghost use Rattle.kvs_rules.specs.Namespaces.{Setting};
ghost use Rattle.kvs_rules.specs.Answers.{IsLegalMoment};
ghost use Rattle.kvs_keys.specs.Agrees.{Agrees};
ghost use Rattle.kvs_keys.specs.Contents.{IsOfContents};
ghost use Rattle.kvs_keys.specs.Value.{KeysValue};
ghost use Rattle.kvs_keys.specs.Posted.{LandsUsers, posts_landed};

/// Where the job manager has no transaction that waits, each transaction that lands is a user's.
pub fn users_land_where_nothing_is_posted()
    ensures { (events : List KvsEvent) (left : List Group) → posts_landed events ++ left ≡ []
        → Each LandsUsers events }
{}

/// Legal moments of contents leave a service of keys where it stands.
pub fn content_moments_leave_the_keys()
    ensures { (v : KeysValue) (set : Setting) (log : Log) (m : Moment) → Agrees v set log
        → IsLegalMoment set log m → IsOfContents set m → Agrees v set (log ++ m ∷ []) }
{}
