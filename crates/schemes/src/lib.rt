// Schemes: how much a step of the transform adds to a point, from the values that the point reads.
#![tactic(auto)]

mod both;
mod cubic;
mod equations;
mod factor;
mod linear;
mod marks_scheme;
mod mean;
mod point_sum;
mod rounding;
mod scheme;
mod spline;
mod steps;
mod tally;
#[cfg(test)]
mod tests;

pub use both::Both;
pub use cubic::Cubic;
pub use factor::{Factor, Factors};
pub use linear::Linear;
pub use marks_scheme::{MarksScheme, MarksSum};
pub use point_sum::PointSum;
pub use rounding::rounded_quotient;
pub use scheme::Scheme;
pub use steps::{Class, Step};
