// Tables of readings: sets of clock readings, and a table of tight limits for each kind of time.
#![tactic(auto)]

mod matrix;
mod matrix_table;
mod table;

use limits::{FineLimit, WholeLimit};
pub use matrix_table::MatrixTable;
pub use table::Table;

// A table of readings in fine time.
pub type FineTable = MatrixTable<FineLimit>;

// A table of readings in whole time.
pub type WholeTable = MatrixTable<WholeLimit>;
