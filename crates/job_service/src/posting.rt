//! Posting what is due.
ghost use Rattle.std.specs.Prelude.{◌≡◌, ◌<◌, IfOk, None, Some, OnOk, false, length};
ghost use Rattle.job_manager.specs.Follows.{Places};
ghost use Rattle.job_manager.specs.Managed.{WasDuePost};
ghost use Rattle.job_manager.specs.Posts.{post_of};
ghost use Rattle.job_service.specs.Posted.{id_posted};

use job_manager::{Manager, Post};
use kvs_core::CoreFault;

/// Posts what was found to be due, and gives the id of the job that is submitted.
pub fn post(manager: &mut Manager, found: Post) -> Result<Option<u64>, CoreFault>
    requires ready { manager.old.spent ≡ false }
    requires free { manager.old.posted ≡ None }
    requires few { length manager.old.book.jobs < 2000 }
    requires due { WasDuePost manager.old.book (post_of found) }
    ensures ready { OnOk result (manager.new.spent ≡ false) }
    ensures posts { OnOk result (Places (post_of found) manager.old manager.new) }
    ensures named { IfOk result (λ id. id ≡ id_posted (Some (post_of found))) }
{
    match found {
        Post::Submits(x) => {
            let id = x.id;
            manager.submit(x)?;
            Ok(Some(id))
        }
        Post::Does(due) => {
            manager.post_due(due)?;
            Ok(None)
        }
    }
}
