//! Which child is born next, and which may go.
ghost use Rattle.std.specs.Prelude.{◌≡◌, ◌||◌, IfOk, false};
ghost use Rattle.std.specs.Option.{option_map_or};
ghost use Rattle.job_deeds.specs.manager_rules.Dependencies.{job_at};
ghost use Rattle.job_service.specs.Children.{IsBearing, is_ending};

use job_book::Book;
use job_commands::Commands;
use job_deeds::job_states::State;
use std::alloc::AllocError;

/// The first job whose child is to be born: it has started with a command that begins an instance,
/// and has had none.
pub fn bearing(commands: &Commands, book: &Book) -> Result<Option<u64>, AllocError>
    ensures { IfOk result (IsBearing commands.now book.now) }
{
    let children = commands.children()?;
    Ok(book.birth(&children))
}

/// Whether the child of a job is to go where it lives: it shuts down, or the job is ending.
pub fn is_over(book: &Book, job: u64, shut: bool) -> bool
    ensures { result ≡ option_map_or (λ j. shut || is_ending j) (job_at book.now.jobs job) false }
{
    match book.job(job) {
        Some(job) => shut || job.state == State::Cleanup,
        None => false,
    }
}
