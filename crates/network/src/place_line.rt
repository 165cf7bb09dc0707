// Lines that declare a place of a part.
ghost use Rattle.std.specs.Prelude.{map};
ghost use Rattle.bounded.specs.Items.{items};
ghost use Rattle.text.specs.Answers.{Answers, Changes};
ghost use Rattle.text.specs.Names.{letters};
ghost use Rattle.text.specs.Pieces.{pieces};
ghost use Rattle.network.specs.Networks.{contents, place_of};
ghost use Rattle.network.specs.Lines.{part_of, place_fields, place_line};

use crate::places::declare_place;
use crate::records::{Network, Place};
use bounded::Bounded;
use fields::read_items;
use lines::{LineFault, at, find, three};
use text::{Flaw, Name};

// A part, which its first line declares.
fn declare_part(parts: &mut Bounded<Name, 6>, name: &[u8]) -> Result<usize, Flaw>
    ensures { Answers (λ k. (k, map letters (items parts.new))) result (part_of (map letters (items parts.old)) name.now) }
{
    let new = Name::read(name).ok_or(Flaw::Form)?;
    if let Some(part) = find(parts.as_slice(), name) {
        return Ok(part);
    }
    let part = parts.as_slice().len();
    parts.push(new).map_err(|_| Flaw::Count)?;
    Ok(part)
}

impl Network {
    fn place_of(
        &self,
        part: usize,
        line: usize,
        name: &[u8],
        when: &[u8],
    ) -> Result<Place, LineFault>
        ensures { Answers place_of result (place_fields (contents self.now) part line name.now when.now) }
    {
        Ok(Place {
            part,
            name: at(2, declare_place(self.places.as_slice(), part, name))?,
            invariant: at(3, read_items(self.clocks.as_slice(), when))?,
            line,
        })
    }

    // Line `line` of a file, in the section of places.
    pub fn read_place(&mut self, line: usize, s: &[u8]) -> Result<(), LineFault>
        ensures { Changes contents self.old self.new result (place_line (contents self.old) line (pieces 32 s.now)) }
    {
        let (part, name, when) = at(1, three(s).ok_or(Flaw::Form))?;
        if !self.places.has_room() {
            return Err(LineFault::Field(1, Flaw::Count));
        }
        // a refusal must leave the parts as they are, so a new one is declared in a copy
        let mut parts = self.parts;
        let part = at(1, declare_part(&mut parts, part))?;
        let place = self.place_of(part, line, name, when)?;
        at(1, self.places.push(place).map_err(|_| Flaw::Count))?;
        self.parts = parts;
        Ok(())
    }
}
