// The library for programs in C: judging a base, how much it needs, and whole runs of a form in one call.
#![tactic(auto)]

mod converting;
mod crossing;
mod exports;
mod hierarchies;
mod job;
mod lists;
mod outcome;
mod point_scheme;
mod records;
mod running;
mod stop;

pub use exports::{
    shelfquail_base_places, shelfquail_curve_places, shelfquail_judge, shelfquail_marks_on_base,
    shelfquail_marks_on_curve, shelfquail_pairs_on_base, shelfquail_pairs_on_curve,
    shelfquail_plan_needs, shelfquail_points_on_base, shelfquail_points_on_curve,
};
