//! One namespace of the key-value service at all brokers: rank 0's landings, each broker's store,
//! and the numbers on their way down the tree.
#![tactic(auto)]

mod links;
mod roll;
mod space;
mod telling;

pub use links::Loss;
pub use roll::{
    Roll, count_live, find_known, first_landing, first_news, is_behind, is_news, let_rest, resync,
};
pub use space::{Rise, Ruling, Space, SpaceFault, is_landing, number_of};
pub use telling::{KvsEvents, changing, denial, hearing, landing};
