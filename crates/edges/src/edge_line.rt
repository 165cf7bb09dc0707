// Lines that declare an edge.
ghost use Rattle.text.specs.Answers.{Answers, Changes};
ghost use Rattle.text.specs.Pieces.{pieces};
ghost use Rattle.network.specs.Networks.{contents, edge_of};
ghost use Rattle.edges.specs.Edges.{fields_of, edge_of_fields, edge_line};

use crate::columns::{Columns, eight};
use fields::{read_call, read_items};
use lines::{LineFault, at, look_up};
use network::{Edge, Network, look_up_place};
use text::Flaw;

fn edge_of(network: &Network, line: usize, columns: Columns<'_>) -> Result<Edge, LineFault>
    ensures { Answers edge_of result (edge_of_fields (contents network.now) line (fields_of columns.entry)) }
{
    let places = network.places.as_slice();
    let clocks = network.clocks.as_slice();
    let counters = network.counters.as_slice();
    let part = at(1, look_up(network.parts.as_slice(), columns.part))?;
    Ok(Edge {
        part,
        from: at(2, look_up_place(places, part, columns.from))?,
        to: at(3, look_up_place(places, part, columns.to))?,
        guard: at(4, read_items(clocks, columns.guard))?,
        condition: at(5, read_items(counters, columns.condition))?,
        call: at(6, read_call(network.channels.as_slice(), columns.call))?,
        resets: at(7, read_items(clocks, columns.resets))?,
        changes: at(8, read_items(counters, columns.changes))?,
        line,
    })
}

// Line `line` of a file, in the section of edges.
pub fn read_edge(network: &mut Network, line: usize, s: &[u8]) -> Result<(), LineFault>
    ensures { Changes contents network.old network.new result (edge_line (contents network.old) line (pieces 32 s.now)) }
{
    let columns = at(1, eight(s).ok_or(Flaw::Form))?;
    if !network.edges.has_room() {
        return Err(LineFault::Field(1, Flaw::Count));
    }
    let edge = edge_of(network, line, columns)?;
    at(1, network.edges.push(edge).map_err(|_| Flaw::Count))
}
