//! The newest root of the main namespace at each broker, as words that are read without a lock. A
//! broker's herald raises its word, passes look at the words, and notes carry what was seen from
//! one to another.
#![tactic(auto)]

mod blank;
mod feed;
mod herald;
mod pass;
mod rule;

pub use blank::{Blank, Opened};
pub use feed::{Feed, FeedName};
pub use herald::Herald;
pub use pass::{Looked, Note, Pass, Seen};
pub use rule::Load;
