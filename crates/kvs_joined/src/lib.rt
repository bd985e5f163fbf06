//! What joins the requests of a key-value service and its contents: the roots that rank 0 keeps,
//! and the walks of brokers (Flux RFC 11). The definitions stand in `specs/`, and the functions of
//! `laws` state their laws.
#![tactic(auto)]

pub mod laws;
