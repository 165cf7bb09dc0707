// Lists of at most so many values, which lie in place.
#![tactic(auto)]

mod comparing;
mod list;
mod slots;

pub use list::Full;
pub use slots::Bounded;
