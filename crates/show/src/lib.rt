// Shows: the file reader and the seal.
#![tactic(auto)]

mod act_lines;
mod cursor;
mod draft;
mod fault;
mod reading;
mod section;
mod values;

pub use act_lines::Acts;
pub use acts::Act;
pub use bounded::Bounded;
pub use draft::{Draft, Show};
pub use fault::{Fault, Spot};
pub use limits::Comparison;
pub use network::{
    Call, Change, ClockCondition, Counter, CounterCondition, Direction, Edge, Network, Place,
    Relation, Reset, Time, Update,
};
pub use text::{Flaw, Name};
