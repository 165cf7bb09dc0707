// Lines that declare the time, a clock, a channel or a counter.
ghost use Rattle.std.specs.Prelude.{◌≡◌, map};
ghost use Rattle.bounded.specs.Items.{items};
ghost use Rattle.text.specs.Answers.{Answers, Changes};
ghost use Rattle.text.specs.Names.{letters};
ghost use Rattle.text.specs.Numbers.{whole_of};
ghost use Rattle.text.specs.Pieces.{pieces};
ghost use Rattle.network.specs.Networks.{counter_of};
ghost use Rattle.network.specs.Lines.{time_line, name_line, counter_fields, counter_line, not_below, between};

use crate::records::Time;
use bounded::Bounded;
use fields::Counter;
use lines::{LineFault, at, declare, four, one};
use text::{Flaw, Name, read_whole};

pub fn read_time_word(s: &[u8]) -> Result<Time, LineFault>
    ensures { result ≡ time_line (pieces 32 s.now) }
{
    match one(s) {
        Some(b"fine") => Ok(Time::Fine),
        Some(b"whole") => Ok(Time::Whole),
        _ => Err(LineFault::Field(1, Flaw::Form)),
    }
}

// A clock or a channel.
pub fn read_name<const N: usize>(names: &mut Bounded<Name, N>, s: &[u8]) -> Result<(), LineFault>
    ensures { Changes (λ ns. map letters (items ns)) names.old names.new result (name_line N (map letters (items names.old)) (pieces 32 s.now)) }
{
    let name = at(1, one(s).ok_or(Flaw::Form))?;
    if !names.has_room() {
        return Err(LineFault::Field(1, Flaw::Count));
    }
    let name = at(1, declare(names.as_slice(), name))?;
    at(1, names.push(name).map_err(|_| Flaw::Count))
}

// A whole number that must not be below `low`.
fn not_below(low: i32, s: &[u8]) -> Result<i32, Flaw>
    ensures { result ≡ not_below low (whole_of s.now) }
{
    let number = read_whole(s)?;
    if low <= number {
        Ok(number)
    } else {
        Err(Flaw::Range)
    }
}

// A whole number that must lie from `low` to `high`. (A function of its own beside `not_below`: so an edit of what one
// of the two asks leaves the other as it is.)
fn between(low: i32, high: i32, s: &[u8]) -> Result<i32, Flaw>
    ensures { result ≡ between low high (whole_of s.now) }
{
    let number = read_whole(s)?;
    if (low..=high).contains(&number) {
        Ok(number)
    } else {
        Err(Flaw::Range)
    }
}

fn counter_of(
    counters: &[Counter],
    name: &[u8],
    low: &[u8],
    high: &[u8],
    first: &[u8],
) -> Result<Counter, LineFault>
    ensures { Answers counter_of result (counter_fields (map counter_of counters.now) name.now low.now high.now first.now) }
{
    let name = at(1, declare(counters, name))?;
    let low = at(2, read_whole(low))?;
    let high = at(3, not_below(low, high))?;
    let first = at(4, between(low, high, first))?;
    Ok(Counter {
        name,
        low,
        high,
        first,
    })
}

pub fn read_counter(counters: &mut Bounded<Counter, 8>, s: &[u8]) -> Result<(), LineFault>
    ensures { Changes (λ cs. map counter_of (items cs)) counters.old counters.new result (counter_line (map counter_of (items counters.old)) (pieces 32 s.now)) }
{
    let (name, low, high, first) = at(1, four(s).ok_or(Flaw::Form))?;
    if !counters.has_room() {
        return Err(LineFault::Field(1, Flaw::Count));
    }
    let counter = counter_of(counters.as_slice(), name, low, high, first)?;
    at(1, counters.push(counter).map_err(|_| Flaw::Count))
}
