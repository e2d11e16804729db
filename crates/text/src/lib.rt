// Texts as slices of bytes: classes of bytes, parts of a text, lines and fields, numbers in digits, and writing over the start of a lent output.
#![tactic(auto)]

pub mod class;
pub mod digits;
pub mod lines;
pub mod output;
pub mod part;
