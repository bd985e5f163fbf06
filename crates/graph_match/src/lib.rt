//! The matcher: which free units of a grant a job takes (first fit), and which live jobs stand in
//! its way (Flux RFC 14 and 27).
#![tactic(auto)]

pub mod fit;
pub mod graph;
pub mod laws;
pub mod place;
pub mod pool;
pub mod racks;
pub mod rooms;
pub mod spot;

pub use fit::{Fit, JobList};
pub use graph::Graph;
pub use laws::{given_units_are_an_r, given_units_satisfy};
pub use racks::Free;
pub use rooms::Spare;
