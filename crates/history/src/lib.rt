// What a form is asked and what it answers, and the plain history that every answer is measured against.
#![tactic(auto)]

mod answer;
mod call;
mod outcome;
mod slot;
mod state;

pub use answer::{Answer, Reply};
pub use call::{Call, Request};
pub use outcome::{count_answer, depth_answer, value_answer};
pub use slot::Slot;
pub use state::State;
