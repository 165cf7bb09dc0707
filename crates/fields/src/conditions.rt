// Conditions on clocks and on counters.
ghost use Rattle.fields.specs.Items.{clock_condition, counter_condition};

use crate::counter::Counter;
use crate::item::Item;
use crate::named::{named, read_name};
use crate::relation::{Relation, read_relation};
use limits::Comparison;
use lines::find;
use text::{Flaw, Name, read_time, read_whole};

// The clock by its number, from 1 as in a table of readings, compared with a number of ticks.
#[derive(Clone, Copy, PartialEq, Eq, Debug)]
pub struct ClockCondition {
    pub clock: usize,
    pub comparison: Comparison,
    pub ticks: u32,
}

// The counter by its place in the show, from 0, compared with a number.
#[derive(Clone, Copy, PartialEq, Eq, Debug)]
pub struct CounterCondition {
    pub counter: usize,
    pub relation: Relation,
    pub number: i32,
}

impl Item for ClockCondition {
    type Of = Name;

    const BLANK: ClockCondition = ClockCondition {
        clock: 0,
        comparison: Comparison::Less,
        ticks: 0,
    };

    ghost reading = { clock_condition };

    fn read(clocks: &[Name], s: &[u8]) -> Result<ClockCondition, Flaw> {
        let (name, rest) = read_name(s)?;
        let Some((Relation::Ordered(comparison), value)) = read_relation(rest) else {
            return Err(Flaw::Form);
        };
        let (index, ticks) = named(find(clocks, name), read_time(value))?;
        Ok(ClockCondition {
            clock: index + 1,
            comparison,
            ticks,
        })
    }
}

impl Item for CounterCondition {
    type Of = Counter;

    const BLANK: CounterCondition = CounterCondition {
        counter: 0,
        relation: Relation::Equal,
        number: 0,
    };

    ghost reading = { counter_condition };

    fn read(counters: &[Counter], s: &[u8]) -> Result<CounterCondition, Flaw> {
        let (name, rest) = read_name(s)?;
        let (relation, value) = read_relation(rest).ok_or(Flaw::Form)?;
        let (counter, number) = named(find(counters, name), read_whole(value))?;
        Ok(CounterCondition {
            counter,
            relation,
            number,
        })
    }
}
