// Looking a place of a part up, and declaring one.
ghost use Rattle.std.specs.Prelude.{◌≡◌, map};
ghost use Rattle.text.specs.Answers.{Answers};
ghost use Rattle.text.specs.Names.{letters};
ghost use Rattle.network.specs.Networks.{place_of};
ghost use Rattle.network.specs.Lines.{place_position, known_place, new_place};

use crate::records::Place;
use text::{Flaw, Name, is_name};

// Where the place of that part and name stands, counted from 0.
fn find_place(places: &[Place], part: usize, name: &[u8]) -> Option<usize>
    ensures { result ≡ place_position 0 part name.now (map place_of places.now) }
{
    places
        .iter()
        .position(|place| place.part == part && place.name.is(name))
}

// A place that must be declared. (What is no name is looked for nowhere.)
pub fn look_up_place(places: &[Place], part: usize, name: &[u8]) -> Result<usize, Flaw>
    ensures { result ≡ known_place (map place_of places.now) part name.now }
{
    if is_name(name) {
        find_place(places, part, name).ok_or(Flaw::Name)
    } else {
        Err(Flaw::Form)
    }
}

// A place that must not be declared yet.
pub(crate) fn declare_place(places: &[Place], part: usize, name: &[u8]) -> Result<Name, Flaw>
    ensures { Answers letters result (new_place (map place_of places.now) part name.now) }
{
    let new = Name::read(name).ok_or(Flaw::Form)?;
    if find_place(places, part, name).is_some() {
        return Err(Flaw::Name);
    }
    Ok(new)
}
