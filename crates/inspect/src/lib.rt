// What a person is told about a text beside its answers: parts of it and of tables, its lines and columns, its blocks, what is odd about a line.
#![tactic(auto)]

pub mod blocks;
pub mod line;
pub mod oddity;
pub mod part;
pub mod table;

use element::ELEMENTS;
use report::ROW_LIMIT;

// The rows of an index of a whole report: those of the report, and one for the reader's own use.
pub const ROWS: usize = ROW_LIMIT + 1;

// The entries of such an index: one for each element of each row.
pub const ENTRIES: usize = ROWS * ELEMENTS;
