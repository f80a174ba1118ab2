// A curve as a hierarchy. It holds no table: every number is worked out from a position along it.
#![tactic(auto)]

mod curve;
mod few;
mod level;
mod making;
mod numbering;
mod questions;
#[cfg(test)]
mod tests;

pub use curve::Curve;
