// The acts of a run.
ghost use Rattle.std.specs.Prelude.{◌≡◌, ◌<◌, OnOk};
ghost use Rattle.text.specs.Answers.{Answers};
ghost use Rattle.text.specs.Pieces.{pieces};
ghost use Rattle.network.specs.Networks.{contents};
ghost use Rattle.acts.specs.Acts.{act_of, act_line, none, wait_act, fire_act, meet_act, pin_act, place_act};

use fields::{ClockCondition, Item};
use limits::Comparison;
use lines::{LineFault, at, look_up, three};
use network::{Network, look_up_place};
use text::{Flaw, read_whole, split_name};

// An act, as its line gives it: names are parts of the line.
#[derive(Clone, Copy, PartialEq, Eq, Debug)]
pub enum Act<'a> {
    Wait,
    Fire {
        edge: i32,
    },
    Meet {
        sender: i32,
        receiver: i32,
    },
    Pin {
        clock: &'a [u8],
        comparison: Comparison,
        ticks: u32,
    },
    At {
        part: &'a [u8],
        place: &'a [u8],
    },
}

// `-`.
fn none(s: &[u8]) -> Result<(), Flaw>
    ensures { result ≡ none s.now }
{
    match s {
        b"-" => Ok(()),
        _ => Err(Flaw::Form),
    }
}

fn read_wait<'a>(one: &'a [u8], two: &'a [u8]) -> Result<Act<'a>, LineFault>
    ensures { Answers act_of result (wait_act one.now two.now) }
{
    at(2, none(one))?;
    at(3, none(two))?;
    Ok(Act::Wait)
}

fn read_fire<'a>(one: &'a [u8], two: &'a [u8]) -> Result<Act<'a>, LineFault>
    ensures { Answers act_of result (fire_act one.now two.now) }
{
    let edge = at(2, read_whole(one))?;
    at(3, none(two))?;
    Ok(Act::Fire { edge })
}

fn read_meet<'a>(one: &'a [u8], two: &'a [u8]) -> Result<Act<'a>, LineFault>
    ensures { Answers act_of result (meet_act one.now two.now) }
{
    let sender = at(2, read_whole(one))?;
    let receiver = at(3, read_whole(two))?;
    Ok(Act::Meet { sender, receiver })
}

fn read_pin<'a>(network: &Network, one: &'a [u8], two: &'a [u8]) -> Result<Act<'a>, LineFault>
    ensures { Answers act_of result (pin_act (contents network.now) one.now two.now) }
{
    let condition = at(2, ClockCondition::read(network.clocks.as_slice(), one))?;
    at(3, none(two))?;
    let (clock, _) = split_name(one);
    Ok(Act::Pin {
        clock,
        comparison: condition.comparison,
        ticks: condition.ticks,
    })
}

fn read_at<'a>(network: &Network, part: &'a [u8], place: &'a [u8]) -> Result<Act<'a>, LineFault>
    ensures { Answers act_of result (place_act (contents network.now) part.now place.now) }
{
    let number = at(2, look_up(network.parts.as_slice(), part))?;
    at(3, look_up_place(network.places.as_slice(), number, place))?;
    Ok(Act::At { part, place })
}

// The act of a line, after `count` acts.
pub fn read_act<'a>(network: &Network, count: usize, s: &'a [u8]) -> Result<Act<'a>, LineFault>
    ensures few { OnOk result (count < 4096) }
    ensures act { Answers act_of result (act_line (contents network.now) count (pieces 32 s.now)) }
{
    let (word, one, two) = at(1, three(s).ok_or(Flaw::Form))?;
    if count >= 4096 {
        return Err(LineFault::Field(1, Flaw::Count));
    }
    match word {
        b"wait" => read_wait(one, two),
        b"fire" => read_fire(one, two),
        b"meet" => read_meet(one, two),
        b"pin" => read_pin(network, one, two),
        b"at" => read_at(network, one, two),
        _ => Err(LineFault::Field(1, Flaw::Form)),
    }
}
