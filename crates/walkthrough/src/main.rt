// Plays the clock side of a small firing run on a fine and on a whole table, and prints the tight limits after
// each step: a row and a column for clock 0, which always shows zero, and for each clock.
#![tactic(auto)]

ghost use Rattle.tables.specs.Theorems.{Fractions};
ghost use Rattle.walkthrough.specs.Tried.{Tried};

use limits::{Comparison, Fault};
use std::alloc::{AllocError, Global};
use std::fmt::Write;
use std::{fmt, io};
use tables::{FineTable, Table, WholeTable};

// A call, as data and not as a closure, since it is printed too.
#[derive(Clone, Copy)]
enum Step {
    Pass,
    Reset {
        clock: usize,
    },
    Narrow {
        clock: usize,
        comparison: Comparison,
        ticks: i64,
    },
}

// The clocks of the run, by number.
const NAMES: [&str; 3] = ["0", "t", "x"];

const T: usize = 1;

const X: usize = 2;

// The desk goes live a second or more after the start, fires between two and three seconds later and no later than
// four seconds after the start, and then needs a moment strictly between two ticks.
const RUN: [Step; 14] = [
    Step::Pass,
    Step::Narrow {
        clock: T,
        comparison: Comparison::AtLeast,
        ticks: 1_000,
    },
    Step::Reset { clock: X },
    Step::Pass,
    Step::Narrow {
        clock: X,
        comparison: Comparison::AtMost,
        ticks: 3_000,
    },
    Step::Narrow {
        clock: X,
        comparison: Comparison::AtLeast,
        ticks: 2_000,
    },
    Step::Narrow {
        clock: X,
        comparison: Comparison::Less,
        ticks: 3_000,
    },
    Step::Reset { clock: X },
    Step::Narrow {
        clock: T,
        comparison: Comparison::Less,
        ticks: 3_000,
    },
    Step::Narrow {
        clock: T,
        comparison: Comparison::AtMost,
        ticks: 4_000,
    },
    Step::Pass,
    Step::Narrow {
        clock: X,
        comparison: Comparison::Greater,
        ticks: 1_000,
    },
    Step::Narrow {
        clock: X,
        comparison: Comparison::Less,
        ticks: 1_001,
    },
    Step::Narrow {
        clock: X,
        comparison: Comparison::Less,
        ticks: 16_000_001,
    },
];

fn name(clock: usize) -> &'static str {
    NAMES.get(clock).copied().unwrap_or("?")
}

impl fmt::Display for Step {
    fn fmt<W: fmt::Write>(&self, f: &mut fmt::Formatter<W>) -> fmt::Result {
        match self {
            Step::Pass => f.write_str("pass"),
            Step::Reset { clock } => write!(f, "reset {}", name(*clock)),
            Step::Narrow {
                clock,
                comparison,
                ticks,
            } => write!(f, "narrow {}{comparison}{ticks}", name(*clock)),
        }
    }
}

// The limits of a row with a space between. A text and no `Display`, since a row is no type.
fn row_text<T: Table>(heap: Global, table: &T, row: usize) -> Result<String, AllocError>
where
    T::Limit: fmt::Display,
{
    let mut text = String::new(heap);
    for column in 0..=table.clocks().min(7) {
        if let Ok(limit) = table.tell(row, column) {
            if column > 0 {
                text.push_str(" ")?;
            }
            write!(text, "{limit}")?;
        }
    }
    Ok(text)
}

fn print_limits<T: Table>(rt: &HostRuntime, table: &T) -> io::Result<()>
where
    T::Limit: fmt::Display,
{
    for row in 0..=table.clocks().min(7) {
        let text = row_text(rt.alloc(), table, row)?;
        println!(rt; "{text}")?;
    }
    Ok(())
}

fn take<T: Table>(table: &mut T, step: Step) -> Result<(), Fault> {
    match step {
        Step::Pass => {
            table.pass();
            Ok(())
        }
        Step::Reset { clock } => table.reset(clock),
        Step::Narrow {
            clock,
            comparison,
            ticks,
        } => table.narrow(clock, comparison, ticks),
    }
}

fn print_answer(rt: &HostRuntime, asked: Step, answer: Result<(), Fault>) -> io::Result<()> {
    match answer {
        Ok(()) => println!(rt; "{asked}"),
        Err(fault) => {
            let number = fault.number();
            println!(rt; "{asked}: refused, {number}")
        }
    }
}

// Equal fractions are the same reading, whatever the table.
fn fractions<T: Table>(_table: &T)
    ensures { Fractions T.Table T.Limit.Limit }
{}

// The cases that were worked out from the rules.
fn tried_cases()
    ensures { Tried }
{}

fn play<T: Table>(rt: &HostRuntime, mut table: T) -> io::Result<()>
where
    T::Limit: fmt::Display,
{
    fractions(&table);
    println!(rt; "start 2")?;
    print_limits(rt, &table)?;
    for step in RUN {
        let answer = take(&mut table, step);
        print_answer(rt, step, answer)?;
        print_limits(rt, &table)?;
    }
    Ok(())
}

// Waits 16,000 seconds on clock x in each round, and never resets clock t.
fn wait_long<T: Table>(rt: &HostRuntime, mut table: T) -> io::Result<()>
where
    T::Limit: fmt::Display,
{
    for round in 1..64 {
        table.pass();
        if let Err(fault) = table.narrow(X, Comparison::AtLeast, 16_000_000) {
            let number = fault.number();
            println!(rt; "round {round}: refused, {number}")?;
            return print_limits(rt, &table);
        }
        let _ = table.reset(X);
        if round == 62 {
            println!(rt; "round {round}")?;
            print_limits(rt, &table)?;
        }
    }
    Ok(())
}

fn both<T: Table>(rt: &HostRuntime, table: T) -> io::Result<()>
where
    T::Limit: fmt::Display,
{
    play(rt, table)?;
    println!(rt; "waiting 16,000 seconds a round")?;
    wait_long(rt, table)
}

fn main(rt: HostRuntime) -> io::Result<()> {
    tried_cases();
    if let Ok(table) = FineTable::start(2) {
        println!(&rt; "fine time, clocks 0 t x")?;
        both(&rt, table)?;
    }
    if let Ok(table) = WholeTable::start(2) {
        println!(&rt; "whole time, clocks 0 t x")?;
        both(&rt, table)?;
    }
    Ok(())
}
