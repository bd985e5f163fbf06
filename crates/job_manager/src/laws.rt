//! What follows from the words of the contracts.
ghost use Rattle.std.specs.Prelude.{◌≡◌, ◌⊎◌, List, [], ◌∷◌, Some};
ghost use Rattle.instance_rules.specs.Desks.{AreDueFrom, IsDeskOf};
ghost use Rattle.instance_rules.specs.Log.{Instance, IsInstance, Log};
ghost use Rattle.kvs_model.specs.Store.{Store};
ghost use Rattle.kvs_txn.specs.declared.txn.Group.{Group};
ghost use Rattle.manager_rules.specs.Posts.{Desk, IsDuePost, Post, group_of};
ghost use Rattle.store_laws.specs.Posts.{posts_in};

/// Of transactions that land together the job manager's is due at the store on which it works,
/// where it was due before them: users' transactions leave the jobs.
pub fn what_lands_is_due()
    ensures none { (inst : Instance) (log : Log) (groups : List Group) (st : Store)
        → posts_in groups ≡ [] → AreDueFrom inst log groups st }
    ensures one { (inst : Instance) (log : Log) (desk : Desk) (post : Post) (groups : List Group)
        (st : Store) → IsInstance inst → IsDeskOf inst log st desk → IsDuePost desk post
        → posts_in groups ≡ group_of post ∷ [] → AreDueFrom inst log groups st }
{}
