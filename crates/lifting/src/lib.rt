// The lifting transform, written once for every hierarchy, scheme and value kind, in place over lent values.
#![tactic(auto)]

mod checks;
mod half_step;
mod journey;
mod layout;
mod levels;
mod points;
mod reading;
mod transform;
mod way;

pub use journey::travel;
pub use levels::{analyse_level, synthesise_level};
pub use points::{Spline, analyse_points, synthesise_points};
pub use way::Way;
