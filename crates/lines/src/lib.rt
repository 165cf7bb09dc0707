// What lines are made of: their fields, what may be wrong with them, and looking names up.
#![tactic(auto)]

mod columns;
mod declared;
mod line_fault;
mod lookup;

pub use columns::{first, four, one, three};
pub use declared::Declared;
pub use line_fault::{LineFault, at};
pub use lookup::{declare, find, known, look_up, unknown};
