// The planned table: the levels of a base, worked out once into a table of numbers, from which every question is answered by a few loads.
#![tactic(auto)]

mod block;
mod building;
mod coarsest;
mod find;
mod level;
mod lists;
mod loading;
mod plan;
mod planning;
mod questions;
mod refining;
mod scatter;
mod settling;
mod span;
mod view;
mod write;

pub use plan::Plan;
pub use planning::needed;
pub use span::Span;
