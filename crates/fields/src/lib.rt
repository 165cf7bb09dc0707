// What a field of a line may hold: conditions, changes, resets and calls, and how each is read.
#![tactic(auto)]

mod calls;
mod changes;
mod conditions;
mod counter;
mod item;
mod list;
mod named;
mod relation;

pub use calls::{Call, Direction, read_call};
pub use changes::{Change, Reset, Update};
pub use conditions::{ClockCondition, CounterCondition};
pub use counter::Counter;
pub use item::Item;
pub use list::read_items;
pub use relation::Relation;
