//! What is due of the job manager.
ghost use Rattle.std.specs.Prelude.{◌≡◌, All, IfOk, false, option_map};
ghost use Rattle.job_commands.specs.Desks.{asked_of};
ghost use Rattle.job_manager.specs.Posts.{post_of};
ghost use Rattle.job_deeds.specs.manager_rules.Scene.{IsAsked};
ghost use Rattle.job_service.specs.Due.{CanLook, IsEventDue, IsFound, IsFoundBeside};

use job_book::Book;
use job_commands::Commands;
use job_deeds::manager_rules::{Due, Terms};
use job_deeds::tap::{Ask, Tap};
use job_manager::{Manager, Post};
use job_submissions::submission;
use std::alloc::{AllocError, Global};

/// An event that is due at this second, if one is, where jobs are served on these terms.
pub fn event_due(
    commands: &Commands,
    book: &Book,
    now: u64,
    terms: Terms,
) -> Result<Option<Due>, AllocError>
    requires { All IsAsked (asked_of commands.now) }
    ensures { IfOk result (IsEventDue terms commands.now book.now now) }
{
    let asked = commands.asked()?;
    let tap = Tap::new(|ask: &Ask| terms.weights.priority(ask));
    book.due(now, &asked, &tap)
}

/// A post of an event, if there is one.
pub fn as_post(event: Option<Due>) -> Option<Post>
    ensures { result ≡ option_map Post.Does event }
{
    match event {
        Some(due) => Some(Post::Does(due)),
        None => None,
    }
}

/// What is due at this second of an instance that was born at another, if anything is: the first
/// submission that is accepted, and else an event.
pub fn find(
    alloc: Global,
    commands: &Commands,
    book: &Book,
    now: u64,
    birth: u64,
    terms: Terms,
) -> Result<Option<Post>, AllocError>
    requires { CanLook commands.now now birth }
    ensures { IfOk result (λ found. IsFound terms commands.now book.now now birth
        (option_map post_of found)) }
{
    let found = submission(alloc, commands, book, terms.limits, now, birth)?;
    if let Some(x) = found {
        return Ok(Some(Post::Submits(x)));
    }
    let event = event_due(commands, book, now, terms)?;
    Ok(as_post(event))
}

/// What is due now, where nothing waits to land.
pub fn look(
    alloc: Global,
    commands: &Commands,
    manager: &Manager,
    now: u64,
    birth: u64,
    terms: Terms,
) -> Result<Option<Post>, AllocError>
    requires { CanLook commands.now now birth }
    ensures { IfOk result (λ found. IsFoundBeside terms manager.now.posted commands.now
        manager.now.book now birth (option_map post_of found)) }
{
    if manager.is_waiting() {
        return Ok(None);
    }
    find(alloc, commands, manager.book(), now, birth, terms)
}
