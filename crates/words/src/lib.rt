// What the programs share: numbers read from words, and answers printed in their fixed lines.
#![tactic(auto)]

pub mod number;
pub mod print;
