//! The open job commands of an instance, the jobs that its labels name, and the children of its
//! jobs.
#![tactic(auto)]

pub mod ask;
pub mod child;
pub mod commands;
mod labels;
pub mod laws;
pub mod row;
pub mod tally;

pub use ask::{JobAsk, Key, Named, NamedList};
pub use child::Child;
pub use commands::Commands;
pub use laws::{
    children_are_those_of_the_log, new_ids_are_new, open_commands_are_open_at_their_issue,
    open_commands_are_open_now, other_moments_leave_commands, the_desk_is_this,
};
pub use row::{Row, Stage};
pub use tally::Mark;
