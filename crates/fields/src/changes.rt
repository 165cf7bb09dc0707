// What an edge changes: counters and clocks.
ghost use Rattle.std.specs.Prelude.{◌≡◌};
ghost use Rattle.fields.specs.Items.{change, reset, update_of};

use crate::counter::Counter;
use crate::item::Item;
use crate::named::{named, read_name};
use lines::{find, look_up};
use text::{Flaw, Name, read_whole};

#[derive(Clone, Copy, PartialEq, Eq, Debug)]
pub enum Update {
    Set(i32),
    Add(i32),
}

// The counter by its place in the show, from 0, and what is done to it.
#[derive(Clone, Copy, PartialEq, Eq, Debug)]
pub struct Change {
    pub counter: usize,
    pub update: Update,
}

// The clock that is put to zero, by its number, from 1.
#[derive(Clone, Copy, PartialEq, Eq, Debug)]
pub struct Reset {
    pub clock: usize,
}

// `:=` or `+=` and a whole number.
fn read_update(s: &[u8]) -> Result<Update, Flaw>
    ensures { result ≡ update_of s.now }
{
    match s {
        [b':', b'=', value @ ..] => read_whole(value).map(Update::Set),
        [b'+', b'=', value @ ..] => read_whole(value).map(Update::Add),
        _ => Err(Flaw::Form),
    }
}

impl Item for Change {
    type Of = Counter;

    const BLANK: Change = Change {
        counter: 0,
        update: Update::Set(0),
    };

    ghost reading = { change };

    fn read(counters: &[Counter], s: &[u8]) -> Result<Change, Flaw> {
        let (name, rest) = read_name(s)?;
        let (counter, update) = named(find(counters, name), read_update(rest))?;
        Ok(Change { counter, update })
    }
}

impl Item for Reset {
    type Of = Name;

    const BLANK: Reset = Reset { clock: 0 };

    ghost reading = { reset };

    fn read(clocks: &[Name], s: &[u8]) -> Result<Reset, Flaw> {
        let index = look_up(clocks, s)?;
        Ok(Reset { clock: index + 1 })
    }
}
