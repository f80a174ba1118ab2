// A base: the coarsest control mesh, read from its records, judged, and written back.
#![tactic(auto)]

mod base;
mod counts;
mod draft;
mod face;
mod lending;
mod meshes;
mod reading;
mod record;
mod rules;
mod sides;
mod writing;

pub use base::Base;
pub use counts::Counts;
pub use record::{Record, next_record};
