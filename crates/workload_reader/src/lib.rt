//! The reader of workloads: the actors and commands that a text spells, or its first fault.
//!
//! A line is one of these; words stand between spaces, and TEXT is the rest of the line behind one
//! space. Lines without words and lines that begin with `#` are passed over. The format is this
//! project's own.
//!
//! - `actor NAME RANK`, or `actor NAME RANK of LABEL` for an actor in the child instance of a job;
//! - `grant JSON` with the resources of the instance (R, version 1, of Flux RFC 20), at most once
//!   and before every command;
//! - `NAME VERB ARGUMENTS` with a verb of the store (`put KEY TEXT`, `append KEY TEXT`,
//!   `unlink KEY`, `mkdir KEY`, `symlink KEY TARGET`, `commit`, `fence NAME COUNT`, `get KEY`,
//!   `ls KEY`, `readlink KEY`, `wait NUMBER`, `tell NAME`), of namespaces (`ns-create NAME`,
//!   `ns-remove NAME`, `ns-use NAME`), of contents (`content-store TEXT`, `content-load REF`,
//!   `content-flush`, `content-drop`) or of jobs and time (`submit LABEL [urgency=N]
//!   [dep=SCHEME:LABEL].. JSON`, `cancel LABEL`, `raise LABEL TYPE SEVERITY TEXT`,
//!   `urgency LABEL N`, `state LABEL`, `info LABEL KEY`, `jobs`, `why LABEL`, `result LABEL`,
//!   `advance SECONDS`, `shutdown`).
#![tactic(auto)]

mod contents;
pub mod faults;
pub mod homes;
mod jobs;
pub mod laws;
pub mod reader;
mod submits;
pub mod verbs;

pub use faults::{LineFault, Which};
pub use reader::read;
pub use verbs::Verb;
