// Value kinds: what can stand at a place of a surface, with the sum by which places are changed.
#![tactic(auto)]

mod kind;
mod marks;
mod pair;
mod point;
#[cfg(test)]
mod tests;

pub use kind::{ValueKind, taken_back};
pub use marks::Marks;
pub use pair::Pair;
pub use point::Point;

// A position with its marks.
pub type MarkedPoint = Pair<Point, Marks>;
