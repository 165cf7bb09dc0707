// The records of a network of timed automata. Records name one another by their place in their list, since nothing in a
// library may lie on the heap, and since the rules number them so.
ghost use Rattle.std.specs.Prelude.{◌≡◌, Some};
ghost use Rattle.std.specs.Fmt.{padded};
ghost use Rattle.network.specs.Networks.{time_text, contents, blank};

use bounded::Bounded;
use fields::{Call, Change, ClockCondition, Counter, CounterCondition, Item, Reset};
use std::fmt;
use text::Name;

// The kind of time: fractions of ticks, or whole ticks.
#[derive(Clone, Copy, PartialEq, Eq, Debug)]
pub enum Time {
    Fine,
    Whole,
}

// The word that the time line has for it.
impl fmt::Display for Time {
    ghost output = { λ time. Some (time_text time) };

    ghost styled_output = { λ time spec. Some (padded spec (time_text time)) };

    fn fmt<W: fmt::Write>(&self, f: &mut fmt::Formatter<W>) -> fmt::Result {
        f.pad(match self {
            Time::Fine => "fine",
            Time::Whole => "whole",
        })
    }
}

// A place of a part, with the conditions that hold while the part is in it.
#[derive(Clone, Copy, PartialEq, Eq, Debug)]
pub struct Place {
    // the part by its place in the show, from 0
    pub part: usize,
    pub name: Name,
    pub invariant: Bounded<ClockCondition, 4>,
    // the line of the file
    pub line: usize,
}

// An edge of a part, from one of its places to one of them.
#[derive(Clone, Copy, PartialEq, Eq, Debug)]
pub struct Edge {
    pub part: usize,
    // places by their place in the show, from 0
    pub from: usize,
    pub to: usize,
    pub guard: Bounded<ClockCondition, 4>,
    pub condition: Bounded<CounterCondition, 4>,
    pub call: Option<Call>,
    pub resets: Bounded<Reset, 7>,
    pub changes: Bounded<Change, 4>,
    // the line of the file
    pub line: usize,
}

#[derive(Clone, Copy, PartialEq, Eq, Debug)]
pub struct Network {
    pub time: Time,
    pub clocks: Bounded<Name, 7>,
    pub counters: Bounded<Counter, 8>,
    pub channels: Bounded<Name, 8>,
    pub parts: Bounded<Name, 6>,
    pub places: Bounded<Place, 48>,
    pub edges: Bounded<Edge, 96>,
}

fn filling_counter() -> Counter {
    Counter {
        name: Name::filler(),
        low: 0,
        high: 0,
        first: 0,
    }
}

fn filling_place() -> Place {
    Place {
        part: 0,
        name: Name::filler(),
        invariant: Bounded::new(ClockCondition::BLANK),
        line: 0,
    }
}

fn filling_edge() -> Edge {
    Edge {
        part: 0,
        from: 0,
        to: 0,
        guard: Bounded::new(ClockCondition::BLANK),
        condition: Bounded::new(CounterCondition::BLANK),
        call: None,
        resets: Bounded::new(Reset::BLANK),
        changes: Bounded::new(Change::BLANK),
        line: 0,
    }
}

impl Network {
    // Nothing declared.
    pub fn blank() -> Network
        ensures { contents result ≡ blank }
    {
        Network {
            time: Time::Fine,
            clocks: Bounded::new(Name::filler()),
            counters: Bounded::new(filling_counter()),
            channels: Bounded::new(Name::filler()),
            parts: Bounded::new(Name::filler()),
            places: Bounded::new(filling_place()),
            edges: Bounded::new(filling_edge()),
        }
    }
}
