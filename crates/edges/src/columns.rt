// The fields of a line that declares an edge.
ghost use Rattle.std.specs.Prelude.{◌≡◌, false, length, MatchOption, ◌==◌};
ghost use Rattle.text.specs.Pieces.{pieces};
ghost use Rattle.edges.specs.Edges.{fields_of};

use lines::{first, four};

#[derive(Clone, Copy, PartialEq, Eq, Debug)]
pub(crate) struct Columns<'a> {
    pub part: &'a [u8],
    pub from: &'a [u8],
    pub to: &'a [u8],
    pub guard: &'a [u8],
    pub condition: &'a [u8],
    pub call: &'a [u8],
    pub resets: &'a [u8],
    pub changes: &'a [u8],
}

pub(crate) fn eight(s: &[u8]) -> Option<Columns<'_>>
    ensures { MatchOption result ((length (pieces 32 s.now) == 8) ≡ false) (λ columns. pieces 32 s.now ≡ fields_of columns) }
{
    let (part, s) = first(s)?;
    let (from, s) = first(s)?;
    let (to, s) = first(s)?;
    let (guard, s) = first(s)?;
    let (condition, call, resets, changes) = four(s)?;
    Some(Columns {
        part,
        from,
        to,
        guard,
        condition,
        call,
        resets,
        changes,
    })
}
