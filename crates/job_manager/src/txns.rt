//! The transactions of posts.
ghost use Rattle.std.specs.Prelude.{◌≡◌, ◌++◌, IfOk, OnOk};
ghost use Rattle.manager_rules.specs.Posts.{ops_of, r_ops, txn_of};
ghost use Rattle.manager_rules.specs.Posts.{Does, Submits};
ghost use Rattle.job_manager.specs.Posts.{command_of, post_of, told};

use crate::keys::{log_path, r_path, spec_path};
use crate::post::{Post, Submission};
use kvs_txn::{Author, By, Op, OpList, Txn};
use lists::{Bytes, Copied};
use manager_rules::Due;
use std::alloc::{AllocError, Global};

/// The operations of a submission: it puts a jobspec and a log of one line.
fn submission_ops(alloc: Global, x: &Submission) -> Result<OpList, AllocError>
    ensures { IfOk result (λ ops. ops ≡ ops_of (Submits (told x.now))) }
{
    let line = event_log::line(alloc, &x.event)?;
    let mut ops = OpList::new(alloc);
    ops.push(Op::Put {
        path: spec_path(alloc, x.id)?,
        bytes: x.text.copy()?,
    })?;
    ops.push(Op::Put {
        path: log_path(alloc, x.id)?,
        bytes: Bytes::from_vec(line),
    })?;
    Ok(ops)
}

/// Adds the operation that puts resources, if there are any.
fn add_r(alloc: Global, ops: &mut OpList, id: u64, r: &Option<Bytes>) -> Result<(), AllocError>
    ensures { OnOk result (ops.new ≡ ops.old ++ r_ops id r.now) }
{
    let Some(text) = r else {
        return Ok(());
    };
    ops.push(Op::Put {
        path: r_path(alloc, id)?,
        bytes: text.copy()?,
    })
}

/// The operations of an event: it adds its line, and an `alloc` puts resources too.
fn event_ops(alloc: Global, due: &Due) -> Result<OpList, AllocError>
    ensures { IfOk result (λ ops. ops ≡ ops_of (Does due.now)) }
{
    let line = event_log::line(alloc, &due.event)?;
    let mut ops = OpList::new(alloc);
    ops.push(Op::Append {
        path: log_path(alloc, due.job)?,
        bytes: Bytes::from_vec(line),
    })?;
    add_r(alloc, &mut ops, due.job, &due.r)?;
    Ok(ops)
}

/// The transaction of a post.
#[tactic(auto, unfolding(manager_rules::specs::Posts::txn_of))]
pub fn txn_of(alloc: Global, post: &Post) -> Result<Txn, AllocError>
    ensures { IfOk result (λ txn. txn ≡ txn_of (post_of post.now)) }
{
    let ops = match post {
        Post::Submits(x) => submission_ops(alloc, x)?,
        Post::Does(due) => event_ops(alloc, due)?,
    };
    Ok(Txn {
        author: Author::Manager,
        ops,
    })
}

/// The command that a post carries out, if it carries out one.
pub fn command_of(post: &Post) -> Option<By>
    ensures { result ≡ command_of (post_of post.now) }
{
    match post {
        Post::Submits(x) => Some(x.command),
        Post::Does(due) => due.command,
    }
}
