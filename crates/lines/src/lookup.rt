// Looking a name up, and declaring one.
ghost use Rattle.std.specs.Prelude.{◌≡◌, map, length};
ghost use Rattle.text.specs.Answers.{Answers};
ghost use Rattle.text.specs.Names.{letters};
ghost use Rattle.lines.specs.Lookup.{position, Within, known_at, unknown_at, looked_up, declared_anew, PlaceWithin};

use crate::declared::Declared;
use text::{Flaw, Name, is_name};

// Where the name stands in the list, counted from 0.
pub fn find<D: Declared>(all: &[D], name: &[u8]) -> Option<usize>
    ensures place { result ≡ position 0 name.now (map D.Declared.called all.now) }
    ensures within { Within (length all.now) result }
{
    all.iter().position(|one| one.is_called(name))
}

// The place of a name that must stand somewhere.
pub fn known(name: &[u8], place: Option<usize>) -> Result<usize, Flaw>
    ensures { result ≡ known_at name.now place }
{
    if !is_name(name) {
        return Err(Flaw::Form);
    }
    place.ok_or(Flaw::Name)
}

// A name that must not stand anywhere yet.
pub fn unknown(name: &[u8], place: Option<usize>) -> Result<Name, Flaw>
    ensures { Answers letters result (unknown_at name.now place) }
{
    let name = Name::read(name).ok_or(Flaw::Form)?;
    match place {
        None => Ok(name),
        Some(_) => Err(Flaw::Name),
    }
}

// The place of a name that must be declared. The form is asked first, so that what is no name is looked for nowhere.
pub fn look_up<D: Declared>(all: &[D], name: &[u8]) -> Result<usize, Flaw>
    ensures place { result ≡ looked_up (map D.Declared.called all.now) name.now }
    ensures within { PlaceWithin (length all.now) result }
{
    if is_name(name) {
        find(all, name).ok_or(Flaw::Name)
    } else {
        Err(Flaw::Form)
    }
}

// A name that must not be declared yet. Here too the form is asked first.
pub fn declare<D: Declared>(all: &[D], name: &[u8]) -> Result<Name, Flaw>
    ensures { Answers letters result (declared_anew (map D.Declared.called all.now) name.now) }
{
    let new = Name::read(name).ok_or(Flaw::Form)?;
    if find(all, name).is_some() {
        return Err(Flaw::Name);
    }
    Ok(new)
}
