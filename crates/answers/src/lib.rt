// The answers of `show`, `value`, `list`, `length`, `pack`, `night` and `records`, as a person is told them.
#![tactic(auto)]

pub mod list;
pub mod packed;
pub mod records;
pub mod shown;
mod told;
pub mod valued;
