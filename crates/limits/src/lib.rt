// Limits on the difference of two clock readings, in fine and in whole time, and what finds tight ones.
#![tactic(auto)]

mod comparison;
mod fine;
mod limit;
mod matrix;
mod whole;

pub use comparison::Comparison;
pub use differences::{Fault, Ticks};
pub use fine::{FineLimit, Mark};
pub use limit::Limit;
pub use matrix::{DifferenceBound, SIDE, smaller, tighten};
pub use whole::WholeLimit;
