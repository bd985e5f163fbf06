//! A watch of a job: a callback that is called on each event of the job's log (Flux RFC 18 and 21),
//! once and in order.
#![tactic(auto)]

mod show;
mod watcher;

pub use show::Show;
pub use watcher::{NameTexts, Watcher};
