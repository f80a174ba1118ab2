// A form: values at the places of a hierarchy that are analysed, synthesised, moved, taken back and read.
#![tactic(auto)]

mod calls;
mod checks;
mod form;
mod run;
mod writing;

pub use form::Form;
pub use run::perform;
