//! What the landing of a job manager's transaction is to the log of its instance (Flux RFC 16 and
//! 21).
#![tactic(auto)]

pub mod laws;
pub mod number;

pub use laws::{
    posts_carry_out_open_commands, what_is_posted_lands_as_it_is_due,
    what_is_served_leaves_the_desk,
};
pub use number::number_of_post;
