// Calls over channels.
ghost use Rattle.std.specs.Prelude.{◌≡◌, map};
ghost use Rattle.text.specs.Names.{letters};
ghost use Rattle.fields.specs.Items.{call_of, direction_of};

use crate::named::read_name;
use lines::find;
use text::{Flaw, Name};

#[derive(Clone, Copy, PartialEq, Eq, Debug)]
pub enum Direction {
    Send,
    Receive,
}

// The channel by its place in the show, from 0.
#[derive(Clone, Copy, PartialEq, Eq, Debug)]
pub struct Call {
    pub channel: usize,
    pub direction: Direction,
}

// `!` or `?`.
fn read_direction(s: &[u8]) -> Option<Direction>
    ensures { result ≡ direction_of s.now }
{
    match s {
        b"!" => Some(Direction::Send),
        b"?" => Some(Direction::Receive),
        _ => None,
    }
}

// `-`, or one channel with `!` or `?`.
pub fn read_call(channels: &[Name], s: &[u8]) -> Result<Option<Call>, Flaw>
    ensures { result ≡ call_of (map letters channels.now) s.now }
{
    if matches!(s, b"-") {
        return Ok(None);
    }
    let (name, rest) = read_name(s)?;
    let direction = read_direction(rest).ok_or(Flaw::Form)?;
    let channel = find(channels, name).ok_or(Flaw::Name)?;
    Ok(Some(Call { channel, direction }))
}
