// Reading the sections of a file, up to its acts.
ghost use Rattle.std.specs.Prelude.{◌≤◌, length, IfOk};
ghost use Rattle.text.specs.Answers.{Answers};
ghost use Rattle.text.specs.Pieces.{pieces};
ghost use Rattle.network.specs.Networks.{contents};
ghost use Rattle.show.specs.declared.section.Section.TheVariants.{Opening};
ghost use Rattle.show.specs.Reading.{sections_on};

use crate::fault::{Fault, on_line, without_end};
use crate::section::Section;
use crate::values::read_line;
use network::Network;
use text::cut;

// Gives the line `act one two` and the text behind it.
pub(crate) fn read_sections<'a>(
    network: &mut Network,
    text: &'a [u8],
) -> Result<(usize, &'a [u8]), Fault>
    requires { length text.now ≤ 60000 }
    ensures value { Answers (λ p. (contents network.new, p.0, pieces 10 p.1.now)) result (sections_on (contents network.old) Opening 1 (pieces 10 text.now)) }
    ensures near { IfOk result (λ p. p.0 ≤ 60000) }
{
    // by `cut`, line by line, since the number of the last line is given back with the text behind it
    let mut section = Section::Opening;
    let mut line = 1;
    let mut rest = text;
    while let (this, Some(more)) = cut(rest, b'\n') {
        match read_line(network, section, line, this).map_err(|fault| on_line(line, fault))? {
            Some(next) => section = next,
            None => return Ok((line, more)),
        }
        line += 1;
        rest = more;
    }
    Err(without_end(line, rest).unwrap_or(Fault::Disorder { line }))
}
