// One line of the show.
ghost use Rattle.std.specs.Prelude.{◌≡◌, Err};
ghost use Rattle.text.specs.Answers.{Answers};
ghost use Rattle.text.specs.declared.flaw.Flaw.TheVariants.{Count};
ghost use Rattle.text.specs.Pieces.{pieces};
ghost use Rattle.lines.specs.declared.line_fault.LineFault.TheVariants.{Field};
ghost use Rattle.lines.specs.Columns.{counted};
ghost use Rattle.network.specs.Networks.{contents};
ghost use Rattle.show.specs.Sections.{line_of, value_line};

use crate::section::Section;
use edges::read_edge;
use lines::{LineFault, at, one};
use network::{Network, read_counter, read_name, read_time_word};
use text::Flaw;

// A second time line is one line too many, if it has one field.
fn read_second_time(s: &[u8]) -> Result<Option<Section>, LineFault>
    ensures { result ≡ counted 1 (pieces 32 s.now) (Err (Field 1 Count)) }
{
    at(1, one(s).ok_or(Flaw::Form))?;
    Err(LineFault::Field(1, Flaw::Count))
}

// A line of values in a section; gives the section that the next line stands in.
fn read_values(
    network: &mut Network,
    section: Section,
    line: usize,
    s: &[u8],
) -> Result<Option<Section>, LineFault>
    ensures { Answers (λ then. (contents network.new, then)) result (value_line (contents network.old) section line (pieces 32 s.now)) }
{
    match section {
        Section::Opening => return Err(LineFault::Disorder),
        Section::Time => {
            network.time = read_time_word(s)?;
            return Ok(Some(Section::Timed));
        }
        Section::Timed => return read_second_time(s),
        Section::Clocks => read_name(&mut network.clocks, s)?,
        Section::Counters => read_counter(&mut network.counters, s)?,
        Section::Channels => read_name(&mut network.channels, s)?,
        Section::Places => network.read_place(line, s)?,
        Section::Edges => read_edge(network, line, s)?,
    }
    Ok(Some(section))
}

// A line of the show: the names line that is due, or a line of values.
pub(crate) fn read_line(
    network: &mut Network,
    section: Section,
    line: usize,
    s: &[u8],
) -> Result<Option<Section>, LineFault>
    ensures { Answers (λ then. (contents network.new, then)) result (line_of (contents network.old) section line s.now) }
{
    if s == section.due() {
        section.next()
    } else {
        read_values(network, section, line, s)
    }
}
