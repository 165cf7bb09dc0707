// A network of timed automata as plain data, and how the lines that declare time, clocks, counters, channels and places
// are read into it.
#![tactic(auto)]

mod name_lines;
mod place_line;
mod places;
mod records;

pub use fields::{
    Call, Change, ClockCondition, Counter, CounterCondition, Direction, Relation, Reset, Update,
};
pub use name_lines::{read_counter, read_name, read_time_word};
pub use places::look_up_place;
pub use records::{Edge, Network, Place, Time};
