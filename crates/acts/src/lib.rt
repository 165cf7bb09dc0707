// The lines of a show file that are acts of a run.
#![tactic(auto)]

mod act;

pub use act::{Act, read_act};
