//! A picture of a run: for each instance which jobs hold each host at each second, and which root
//! of `primary` each broker had heard of then.
#![tactic(auto)]

mod cells;
mod drawing;
mod following;
mod jobs;
mod labels;
mod page;
mod picture;
mod posts;
mod signs;
mod table;

pub use drawing::{PictureFault, picture_of};
pub use page::svg;
pub use picture::{Cell, Column, HostUnit, JobSign, Picture, Place, Rows, Scene};
pub use table::text;
