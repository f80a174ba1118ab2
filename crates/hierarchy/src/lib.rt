// What a hierarchy of levels means, and what every implementation of one owes.
#![tactic(auto)]

mod interface;
mod limits;
mod link;
mod members;
mod uniform;

pub use interface::Hierarchy;
pub use limits::has_levels;
pub use link::Link;
pub use members::{Members, members_of};
pub use uniform::is_uniform;
