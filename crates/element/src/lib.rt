// The elements: their names, their forms, sets of them, and what one observation must hold. An element's index is its number less one.
#![tactic(auto)]

pub mod form;
pub mod name;
pub mod observation;
mod rule;
pub mod set;
pub mod table;

// How many elements there are.
pub const ELEMENTS: usize = 43;
