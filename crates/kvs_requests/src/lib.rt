//! The open requests of a key-value service, each with the place where it is: on its way over the
//! links of the broker tree, at rank 0, waiting to land, or at its broker.
#![tactic(auto)]

mod rows;

pub use rows::{
    Entrant, Kind, Row, Stage, Work, awaited, carry, dismiss, entry, falling, first_held,
    first_served, give, is_arrived, is_carried, is_held_in, is_served, kept_count, kind_of,
    mark_held, place_of, put_stage, refuse, send_back, settle, take_entrant,
};
