// The lines of a show file that declare edges.
#![tactic(auto)]

mod columns;
mod edge_line;

pub use edge_line::read_edge;
